// The replay of a program that may take memory: an image has a room of its own size, and a question of any number is counted.
use crate::case::{Case, Outcome};
use crate::file::read_full;
use crate::map_tally::MapTally;
use crate::record::{Image, Question, Reader, Record};
use crate::replay::{Questions, Stop, show};
use std::alloc::{AllocError, Global};
use std::io::Read;
use std::rt::Files;
use std::{fs, io};

impl From<AllocError> for Stop {
    fn from(error: AllocError) -> Self {
        Stop::Failed(io::Error::from(error))
    }
}

// The outcome of a question about the image before it. None where there is no image, or where the question can't be asked about it.
fn ask(
    alloc: Global,
    questions: &impl Questions,
    image: Option<Image>,
    question: Question,
) -> Result<Option<Outcome>, AllocError> {
    let Some(image) = image else {
        return Ok(None);
    };
    let mut room = Vec::from_slice(alloc, image.bytes)?;
    match Case::laid_out(&mut room, image, question) {
        Some(case) => questions.ask(alloc, &case),
        None => Ok(None),
    }
}

// Takes the records of a file in order, up to its end.
fn replay<R: Print + AllocGlobal>(
    rt: &R,
    questions: &impl Questions,
    file: &[u8],
) -> Result<MapTally, Stop> {
    let mut tally = MapTally::new(rt.alloc());
    let mut image = None;
    let mut reader = Reader::new(file);
    for record in reader.by_ref() {
        match record {
            Record::Image(next) => image = Some(next),
            Record::Question(question) => {
                let outcome = ask(rt.alloc(), questions, image, question)?.ok_or(Stop::Unreadable(
                    question.at,
                ))?;
                if tally.note(question.id, outcome.same)? {
                    show(rt, question, outcome)?;
                }
            }
        }
    }
    if reader.is_at_end() {
        Ok(tally)
    } else {
        Err(Stop::Unreadable(reader.at()))
    }
}

fn replay_opened<R: Print + AllocGlobal, Q: Questions>(
    rt: &R,
    questions: &Q,
    mut file: impl Read + Drop,
) -> io::Result<()> {
    let mut bytes = vec![in rt.alloc(); 0u8; Q::ROOM]?;
    let length = read_full(&mut file, &mut bytes)?;
    match replay(rt, questions, &bytes[..length]) {
        Ok(tally) => tally.print(rt, Q::LABELS),
        Err(Stop::Unreadable(at)) => println!(rt; "no record can be read at {at}"),
        Err(Stop::Failed(error)) => Err(error),
    }
}

// Replays a file, or says that it can't be opened.
pub fn replay_named<R: Files + Print + Eprint + AllocGlobal>(
    rt: &R,
    questions: &impl Questions,
    name: &str,
) -> io::Result<()> {
    match fs::open(rt, name) {
        Ok(file) => replay_opened(rt, questions, file),
        Err(error) => eprintln!(rt; "{name}: {error}"),
    }
}

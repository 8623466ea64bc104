// Asks a program's questions of the images of stored files, and compares each answer with the stored one.
use crate::case::{Case, Outcome};
use crate::file::read_full;
use crate::in_heap;
use crate::record::{Image, Question, Reader, Record};
use crate::tally::{Count, Tally};
use std::alloc::{AllocError, Global};
use std::io::Read;
use std::rt::Files;
use std::{fs, io};

// What a program that may take memory asks.
pub trait Questions {
    // Room for more than a stored file has. A file that fills it up may be cut off, and then its end is missing.
    const ROOM: usize;

    // What the tally of each question is called, by the question's number in the file.
    const LABELS: &'static [(u32, &'static str)];

    // Asks the question of a case. None where the program has no such question, or can't ask it about such a case.
    fn ask(&self, alloc: Global, case: &Case) -> Result<Option<Outcome>, AllocError>;
}

// What a program that takes no memory asks: what it needs stands in rooms of its own.
pub trait QuestionsInRooms {
    // What the tally of each question is called, by the question's number in the file.
    const LABELS: &'static [(u32, &'static str)];

    // Writes the line of a question's tally.
    fn print(rt: &impl Print, id: u32, label: &str, count: Count) -> io::Result<()>;

    // Asks the question of a case. None where the program has no such question, or can't ask it about such a case.
    fn ask(&mut self, case: &Case) -> Option<Outcome>;
}

// Why no tallies of a file are written: no record can be read at a place, or the system fails.
#[derive(Drop)]
pub(crate) enum Stop {
    Unreadable(usize),
    Failed(io::Error),
}

impl From<io::Error> for Stop {
    fn from(error: io::Error) -> Self {
        Stop::Failed(error)
    }
}

// The outcome of a question about the image before it. None where there is no image, or where the question can't be asked about it.
fn ask(
    questions: &mut impl QuestionsInRooms,
    room: &mut [u8],
    image: Option<Image>,
    question: Question,
) -> Option<Outcome> {
    questions.ask(&Case::new(room, image?, question)?)
}

// Writes a line about an answer that differs.
pub(crate) fn show(rt: &impl Print, question: Question, outcome: Outcome) -> io::Result<()> {
    print!(rt;
        "record at {}, question {}: wanted {}, got {}",
        question.at, question.id, question.answer, outcome.number
    )?;
    if question.answer == outcome.number {
        print!(rt; " with other values")?;
    }
    println!(rt)
}

// Takes the records of a file in order, up to its end.
fn replay(
    rt: &impl Print,
    questions: &mut impl QuestionsInRooms,
    file: &[u8],
    image_room: &mut [u8],
) -> Result<Tally, Stop> {
    let mut tally = Tally::new();
    let mut image = None;
    let mut reader = Reader::new(file);
    for record in reader.by_ref() {
        match record {
            Record::Image(next) => image = Some(next),
            Record::Question(question) => {
                let outcome = ask(questions, image_room, image, question).ok_or(Stop::Unreadable(
                    question.at,
                ))?;
                let noted = tally.note(question.id, outcome.same);
                if noted.ok_or(Stop::Unreadable(question.at))? {
                    show(rt, question, outcome)?;
                }
            }
        }
    }
    if reader.is_at_end() {
        Ok(tally)
    } else {
        Err(Stop::Unreadable(reader.at()))
    }
}

// The line of each question, and then the sums.
fn print_tallies<Q: QuestionsInRooms>(rt: &impl Print, tally: Tally) -> io::Result<()> {
    for (id, label) in Q::LABELS {
        Q::print(rt, *id, label, tally.of_question(*id))?;
    }
    tally.print_sums(rt)
}

fn replay_opened<Q: QuestionsInRooms>(
    rt: &impl Print,
    questions: &mut Q,
    mut file: impl Read + Drop,
    file_room: &mut [u8],
    image_room: &mut [u8],
) -> io::Result<()> {
    let length = read_full(&mut file, file_room)?;
    match replay(rt, questions, &file_room[..length], image_room) {
        Ok(tally) => print_tallies::<Q>(rt, tally),
        Err(Stop::Unreadable(at)) => println!(rt; "no record can be read at {at}"),
        Err(Stop::Failed(error)) => Err(error),
    }
}

// Replays a file, or says that it can't be opened.
fn replay_named(
    rt: &(impl Files + Print + Eprint),
    questions: &mut impl QuestionsInRooms,
    name: &str,
    file_room: &mut [u8],
    image_room: &mut [u8],
) -> io::Result<()> {
    match fs::open(rt, name) {
        Ok(file) => replay_opened(rt, questions, file, file_room, image_room),
        Err(error) => eprintln!(rt; "{name}: {error}"),
    }
}

// Replays the file of that name, and then the answers of the comparison with the crate. The rooms are lent, so that nothing here asks
// for memory. A file that fills its room up may be cut off, and then its end is missing; a question about an image that is larger
// than its room can't be asked, nor can one whose number has no count (`Tally`). What a file gives and what is written no clause can
// say.
pub fn replay_files_in_rooms(
    rt: &(impl Files + Print + Eprint),
    questions: &mut impl QuestionsInRooms,
    name: &str,
    file_room: &mut [u8],
    image_room: &mut [u8],
) -> io::Result<()> {
    replay_named(rt, questions, name, file_room, image_room)?;
    println!(rt; "answers of the comparison with the crate:")?;
    replay_named(rt, questions, "oracle", file_room, image_room)
}

// Replays the file of that name, and then the answers of the comparison with the crate, for a program that may take memory: an image
// may be as large as the file, and a question has any number. What a file gives and what is written no clause can say.
pub fn replay_files<R: Files + Print + Eprint + AllocGlobal>(
    rt: &R,
    questions: &impl Questions,
    name: &str,
) -> io::Result<()> {
    in_heap::replay_named(rt, questions, name)?;
    println!(rt; "answers of the comparison with the crate:")?;
    in_heap::replay_named(rt, questions, "oracle")
}

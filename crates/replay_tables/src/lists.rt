// The five lists of the interrupt model, filled into lent tables and compared word by word with the stored ones.
use cases::case::{Case, Outcome, low, number};

// What stands in a lent table before it is filled. No record of a stored case has this word.
const UNTOUCHED: u32 = 0xa5a5_a5a5;

// Room for the records of 4,096 processors. A case with longer tables is refused.
const ROOM: usize = 12304;

// The rooms of the lent tables. They last for all questions, so none of them takes memory of its own.
#[derive(Drop)]
pub struct Rooms {
    processors: [u32; ROOM],
    io_apics: [u32; ROOM],
    overrides: [u32; ROOM],
    nmi_sources: [u32; ROOM],
    nmi_lines: [u32; ROOM],
}

impl Rooms {
    pub fn new() -> Self {
        Rooms {
            processors: [0; ROOM],
            io_apics: [0; ROOM],
            overrides: [0; ROOM],
            nmi_sources: [0; ROOM],
            nmi_lines: [0; ROOM],
        }
    }
}

// A table of this length at the front of its room, before it is filled. None where the room is too small.
fn untouched(room: &mut [u32; ROOM], length: u64) -> Option<&mut [u32]> {
    let table = room.get_mut(..length as usize)?;
    table.fill(UNTOUCHED);
    Some(table)
}

#[derive(Drop)]
struct Tables<'a> {
    processors: &'a mut [u32],
    io_apics: &'a mut [u32],
    overrides: &'a mut [u32],
    nmi_sources: &'a mut [u32],
    nmi_lines: &'a mut [u32],
}

impl<'a> Tables<'a> {
    fn untouched(rooms: &'a mut Rooms, lengths: [u64; 5]) -> Option<Self> {
        let [processors, io_apics, overrides, nmi_sources, nmi_lines] = lengths;
        Some(Tables {
            processors: untouched(&mut rooms.processors, processors)?,
            io_apics: untouched(&mut rooms.io_apics, io_apics)?,
            overrides: untouched(&mut rooms.overrides, overrides)?,
            nmi_sources: untouched(&mut rooms.nmi_sources, nmi_sources)?,
            nmi_lines: untouched(&mut rooms.nmi_lines, nmi_lines)?,
        })
    }

    // The answer's number.
    fn fill(&mut self, table: &[u8]) -> u32 {
        let filled = platform::fill(
            table,
            self.processors,
            self.io_apics,
            self.overrides,
            self.nmi_sources,
            self.nmi_lines,
        );
        filled.map_or_else(u32::from, |()| 0)
    }

    // In the order in which their lists are stored.
    fn in_order(&self) -> [&[u32]; 5] {
        [
            self.processors,
            self.io_apics,
            self.overrides,
            self.nmi_sources,
            self.nmi_lines,
        ]
    }

    fn are_untouched(&self) -> bool {
        self.in_order().iter().all(|table| is_untouched(table))
    }

    // Whether they hold the stored lists, which stand one after the other in the values of the answer.
    fn hold(&self, values: &[[u8; 8]]) -> bool {
        let behind = self
            .in_order()
            .iter()
            .try_fold(values, |rest, table| behind_held(table, rest));
        behind.is_some_and(|rest| rest.is_empty())
    }
}

fn is_untouched(words: &[u32]) -> bool {
    words.iter().all(|word| *word == UNTOUCHED)
}

// Whether a table has the stored words at its start, and behind them what was there before.
fn holds(table: &[u32], stored: &[[u8; 8]]) -> bool {
    match table.split_at_checked(stored.len()) {
        Some((front, back)) => {
            front
                .iter()
                .zip(stored)
                .all(|(word, value)| u64::from(*word) == number(value))
                && is_untouched(back)
        }
        None => false,
    }
}

// The values behind the first list of some, if a table holds just that list. The words of a list stand behind their count.
fn behind_held<'a>(table: &[u32], values: &'a [[u8; 8]]) -> Option<&'a [[u8; 8]]> {
    let (count, rest) = values.split_first()?;
    let (list, behind) = rest.split_at_checked(low(number(count)) as usize)?;
    holds(table, list).then_some(behind)
}

// Asks for the lists, with lent tables of these lengths. None where one of them is too long. A refusal must leave all tables as they
// were.
pub fn ask(rooms: &mut Rooms, case: &Case, lengths: [u64; 5]) -> Option<Outcome> {
    let mut tables = Tables::untouched(rooms, lengths)?;
    let number = tables.fill(case.image);
    let right = if case.stored.number == 0 {
        tables.hold(case.stored.values)
    } else {
        tables.are_untouched()
    };
    Some(Outcome {
        number,
        same: number == case.stored.number && right,
    })
}

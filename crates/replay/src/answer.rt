// The ten questions about an image, asked of the proved functions, and the values of their answers as the stored file has them.
use cases::case::{Case, Outcome, low, number, read_numbers};
use cases::replay::QuestionsInRooms;
use cases::tally::Count;
use memory::Memory;
use rsdp::Rsdp;
use sdt::Wanted;
use std::io;
use tables::{RootTable, Table};

// Room for 66 ranges, two more than a right list has. A case with more is refused.
const RANGES_ROOM: usize = 66 * 3;

// The questions, with the room that the ranges of a case are read into.
#[derive(Drop)]
pub struct ImageQuestions {
    ranges: [u64; RANGES_ROOM],
}

impl ImageQuestions {
    pub fn new() -> Self {
        ImageQuestions {
            ranges: [0; RANGES_ROOM],
        }
    }
}

impl QuestionsInRooms for ImageQuestions {
    const LABELS: &'static [(u32, &'static str)] = &[
        (1, "1 is_right"),
        (2, "2 root_pointer_at"),
        (3, "3 search_for_on_bios"),
        (4, "4 root_table"),
        (5, "5 root_entry"),
        (6, "6 find_table"),
        (7, "7 nth_table"),
        (8, "8 header"),
        (9, "9 table_at"),
        (10, "10 table_at of any signature"),
    ];

    fn print(rt: &impl Print, _id: u32, label: &str, count: Count) -> io::Result<()> {
        println!(rt; "{label}: {count}")
    }

    fn ask(&mut self, case: &Case) -> Option<Outcome> {
        ask(case, read_numbers(&mut self.ranges, case.ranges)?)
    }
}

// Asks the question that has this number and so many arguments. tests/reference/reading.py has the same numbers, which stay numbers
// here: an enum of the questions would name each call a second time and say nothing more.
fn ask(case: &Case, ranges: &[u64]) -> Option<Outcome> {
    let image = case.image;
    let stored = &case.stored;
    let outcome = match (case.id, case.arguments) {
        (1, []) => stored.outcome(Memory::new(image, ranges).map(|_| [])),
        (2, [address]) => {
            stored.outcome(rsdp::root_pointer_at(image, ranges, number(address)).map(of_pointer))
        }
        (3, []) => stored.outcome(rsdp::search_for_on_bios(image, ranges).map(|address| [address])),
        (4, [rsdp]) => stored.outcome(tables::root_table(image, ranges, number(rsdp)).map(of_root)),
        (5, [rsdp, k]) => {
            stored.outcome(tables::root_entry(image, ranges, number(rsdp), number(k)).map(
                |address| [address],
            ))
        }
        (6, [rsdp, signature, least]) => {
            let found = tables::find_table(
                image,
                ranges,
                number(rsdp),
                low(number(signature)),
                low(number(least)),
            );
            stored.outcome(found.map(of_table))
        }
        (7, [rsdp, signature, least, n]) => {
            let wanted = Wanted::Signature(low(number(signature)));
            let found = tables::nth_table(
                image,
                ranges,
                number(rsdp),
                wanted,
                low(number(least)),
                number(n),
            );
            stored.outcome(found.map(of_table))
        }
        (8, [rsdp, n]) => {
            stored.outcome(tables::header(image, ranges, number(rsdp), number(n)).map(of_table))
        }
        (9, [address, signature, least]) => {
            let wanted = Wanted::Signature(low(number(signature)));
            let found = tables::table_at(
                image,
                ranges,
                number(address),
                wanted,
                low(number(least)),
            );
            stored.outcome(found.map(of_table))
        }
        (10, [address]) => {
            let found = tables::table_at(image, ranges, number(address), Wanted::Any, 36);
            stored.outcome(found.map(of_table))
        }
        _ => return None,
    };
    Some(outcome)
}

// The values of the answers, spelled apart from `answers`, as in replay_tables, whose file has other words than callers are told.

fn of_pointer(p: Rsdp) -> [u64; 4] {
    [
        u64::from(p.revision),
        u64::from(p.length),
        u64::from(p.rsdt_address),
        p.xsdt_address,
    ]
}

fn of_root(t: RootTable) -> [u64; 6] {
    [
        t.kind as u64,
        t.address,
        t.at as u64,
        t.len as u64,
        t.entry_size as u64,
        t.entries as u64,
    ]
}

fn of_table(t: Table) -> [u64; 3] {
    [t.address, t.at as u64, t.len as u64]
}

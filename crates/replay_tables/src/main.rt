// Asks the proved functions every question of two stored files about single tables and compares each answer with the stored one.
// tests/tables/make_cases.py writes the first: the values come from a reading of docs/TABLES.md in Python that was written apart from
// the definitions here and, for the tables in tests/tables/fixtures, from what the disassembler iasl prints of them. The answers of
// the second are those of the comparison with the crate acpi 5.2.0; docs/ORACLE.md says how it is written.
#![tactic(auto)]

mod answer;
mod lists;

use cases::file::room;
use cases::replay::replay_files_in_rooms;
use std::io;

// Room for more than a stored file has.
const FILE_ROOM: usize = 0x20_0000;

// Room for a table of 4,096 processors.
const IMAGE_ROOM: usize = 36864;

fn main(rt: HostRuntime) -> io::Result<()> {
    let mut file_room = room::<FILE_ROOM>();
    let mut image_room = room::<IMAGE_ROOM>();
    let mut questions = answer::TableQuestions::new();
    replay_files_in_rooms(
        &rt,
        &mut questions,
        "tables",
        &mut file_room,
        &mut image_room,
    )
}

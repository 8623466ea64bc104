// Asks the proved functions every question of two stored files, and compares each answer with the stored one. The answers of the
// first come from tests/reference/reading.py, which reads docs/TABLES.md apart from the definitions that the proofs cite, so a slip
// in one of the two shows here as a difference. tests/reference/make_cases.py writes it and says how such a file is laid out. The
// answers of the second are those of the comparison with the crate acpi 5.2.0; docs/ORACLE.md says how it is written.
#![tactic(auto)]

mod answer;

use cases::file::room;
use cases::replay::replay_files_in_rooms;
use std::io;

// Room for more than a stored file has.
const FILE_ROOM: usize = 0x10_0000;

// Room for the largest image, which has an area of the search and the word at 40e.
const IMAGE_ROOM: usize = 0x2_0004;

fn main(rt: HostRuntime) -> io::Result<()> {
    let mut file_room = room::<FILE_ROOM>();
    let mut image_room = room::<IMAGE_ROOM>();
    let mut questions = answer::ImageQuestions::new();
    replay_files_in_rooms(
        &rt,
        &mut questions,
        "questions",
        &mut file_room,
        &mut image_room,
    )
}

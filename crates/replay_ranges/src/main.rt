// Asks `memory` the questions of two stored files about lists of ranges, and compares each answer with the stored one. The lists may be
// as long as their file, for which the program replay has no room, so this program takes memory.
// tests/reference/make_range_cases.py writes both files, by the plain reading of docs/TABLES.md beside it. The second is wrong on
// purpose, so that it shows what is written of an answer that differs, and of a file that is cut off.
#![tactic(auto)]

mod answer;

use cases::replay::replay_files;
use std::io;

fn main(rt: HostRuntime) -> io::Result<()> {
    replay_files(&rt, &answer::RangeQuestions, "ranges")
}

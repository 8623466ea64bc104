// What the programs that replay stored cases share: reading a file, its records, the question that a program asks of each, and the
// count of the answers.
#![tactic(auto)]

pub mod case;
pub mod file;
mod in_heap;
mod map_tally;
mod record;
pub mod replay;
pub mod tally;

// The two questions about a list of ranges, asked of the proved functions.
use cases::case::{Case, Outcome, number};
use cases::replay::Questions;
use memory::{Memory, Place};
use refusal::Refusal;
use std::alloc::{AllocError, Global};

// The numbers of the questions lie above those that the other two programs count.
const IS_RIGHT: u32 = 100;

const LOCATE: u32 = u32::MAX;

pub struct RangeQuestions;

impl Questions for RangeQuestions {
    const ROOM: usize = 0x1_0000;

    const LABELS: &'static [(u32, &'static str)] = &[
        (IS_RIGHT, "100 is_right"),
        (LOCATE, "4294967295 locate"),
    ];

    fn ask(&self, alloc: Global, case: &Case) -> Result<Option<Outcome>, AllocError> {
        let ranges = case.ranges.iter().map(number).collect::<Vec<u64>>(alloc)?;
        let memory = Memory::new(case.image, &ranges);
        let outcome = match (case.id, case.arguments) {
            (IS_RIGHT, []) => case.stored.outcome(memory.map(|_| [])),
            (LOCATE, [address]) => case
                .stored
                .outcome(memory.and_then(|m| located(m, number(address)))),
            _ => return Ok(None),
        };
        Ok(Some(outcome))
    }
}

// The offset of an address in the slice, and how many bytes its range has from there on.
fn located(memory: Memory, address: u64) -> Result<[u64; 2], Refusal> {
    let Place { offset, room } = memory.locate(address).ok_or(Refusal::NotThere)?;
    Ok([offset as u64, room as u64])
}

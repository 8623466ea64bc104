// How answers reach a caller in another language: the result is the answer's number, 0 where there is a value; the values go to a
// lent buffer, in a fixed order, and a refusal writes nothing.
#![tactic(auto)]

ghost use Rattle.std.specs.Prelude.{◌≡◌, ℕ, List, Ok};
ghost use Rattle.answers.specs.Answer.{answer_of, number_of, Put, Reported};

use refusal::Refusal;

pub mod aml;
mod devices;
pub mod fixed;
mod found;
mod interrupts;

// What has words for a caller in another language. Words are widened by `as`, which is proved to lose nothing: a usize has no From
// into u64, and nineteen calls of `u64::from` are more than one proof follows.
pub trait Values {
    // The words, in order.
    ghost values: { Self → List ℕ };

    // The words at the buffer's front; or the refusal of a buffer that is too short, which stays as it was.
    fn put(self, out: &mut [u64]) -> Result<(), Refusal>
        ensures { Put (Ok (values self)) result out.old out.new };
}

// Words at the buffer's front; or the refusal of a buffer that is too short, which stays as it was. Each `put` ends in this one.
#[tactic(auto, unfolding(crate::specs::Answer::outcome_of, crate::specs::Answer::buffer_after, field::specs::First::less, field::specs::First::when))]
pub fn put(out: &mut [u64], words: &[u64]) -> Result<(), Refusal>
    ensures { Put (Ok words.now) result out.old out.new }
{
    if out.len() < words.len() {
        return Err(Refusal::BufferTooShort);
    }
    out[..words.len()].copy_from_slice(words);
    Ok(())
}

// The words of an answer at the buffer's front; or its refusal, and the buffer as it was.
#[tactic(auto, unfolding(crate::specs::Answer::outcome_of, crate::specs::Answer::buffer_after))]
fn put_answer<T: Values>(answer: Result<T, Refusal>, out: &mut [u64]) -> Result<(), Refusal>
    ensures { Put (answer_of T.values answer) result out.old out.new }
{
    answer?.put(out)
}

// The number that a caller is told: 0, or that of the refusal.
pub fn number(outcome: Result<(), Refusal>) -> u32
    ensures { result ≡ number_of outcome }
{
    match outcome {
        Ok(()) => 0,
        Err(refusal) => u32::from(refusal),
    }
}

// The words of an answer at the buffer's front, and 0; or the number of its refusal, and the buffer as it was.
pub fn report<T: Values>(answer: Result<T, Refusal>, out: &mut [u64]) -> u32
    ensures { Reported (answer_of T.values answer) result out.old out.new }
{
    number(put_answer(answer, out))
}

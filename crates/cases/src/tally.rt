// How many questions were asked and how many answers differed, of each question and of all.
ghost use Rattle.std.specs.Prelude.{◌≡◌, ◌<◌, ◌↔◌, false, IfSome, IsSome, IsTrue, OnSome, replicate, slice_get};
ghost use Rattle.cases.specs.Tally.{NotesInRow, counted, none_asked};

use std::{fmt, io};

// So many differences are shown; the others are counted.
pub(crate) const SHOWN: u64 = 10;

// The numbers of the questions lie below this one.
const NUMBERS: usize = 64;

#[derive(Clone, Copy, Default)]
pub struct Count {
    pub asked: u64,
    pub differed: u64,
}

impl Count {
    // Both numbers go as far as they can.
    pub fn note(&mut self, same: bool)
        ensures { self.new ≡ counted self.old same }
    {
        self.asked = self.asked.saturating_add(1);
        self.differed = self.differed.saturating_add(u64::from(!same));
    }
}

impl fmt::Display for Count {
    fn fmt<W: fmt::Write>(&self, f: &mut fmt::Formatter<W>) -> fmt::Result {
        write!(f, "{} asked, {} differ", self.asked, self.differed)
    }
}

// The counts stand at the questions' numbers.
#[derive(Clone, Copy)]
pub struct Tally {
    all: Count,
    by_question: [Count; NUMBERS],
}

impl Tally {
    pub fn new() -> Self
        ensures { (result.all ≡ none_asked) × (result.by_question ≡ replicate NUMBERS none_asked) }
    {
        Tally {
            all: Count::default(),
            by_question: [Count::default(); NUMBERS],
        }
    }

    // Counts a question, and says whether its answer is one of the first that differ. None where no question has this number.
    pub fn note(&mut self, id: u32, same: bool) -> Option<bool>
        ensures all { self.new.all ≡ counted self.old.all same }
        ensures question { OnSome result (NotesInRow self.old.by_question self.new.by_question id same) }
        ensures shown { IfSome result (λ shown. IsTrue shown ↔ ((same ≡ false) × (self.old.all.differed < SHOWN))) }
        ensures counts { IsSome result ↔ (id < NUMBERS) }
    {
        let shown = !same && self.all.differed < SHOWN;
        self.all.note(same);
        if NUMBERS <= id as usize {
            return None;
        }
        self.by_question[id as usize].note(same);
        Some(shown)
    }

    // The count of a question, and no answers where no question has this number.
    pub fn of_question(&self, id: u32) -> Count
        ensures { IfSome (slice_get self.now.by_question id) (λ count. result ≡ count) }
    {
        self.by_question
            .get(id as usize)
            .copied()
            .unwrap_or_default()
    }

    pub fn print_sums(&self, rt: &impl Print) -> io::Result<()> {
        println!(rt; "{} cases, {} differ", self.all.asked, self.all.differed)
    }
}

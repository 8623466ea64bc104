// The counts of a program that may take memory: a question of any number has one.
ghost use Rattle.std.specs.Prelude.{◌≡◌, ◌<◌, ◌↔◌, false, IfOk, IsTrue, OnOk};
ghost use Rattle.std.specs.BTreeMap.{IsEmpty};
ghost use Rattle.cases.specs.Tally.{Notes, count_of, counted, none_asked};

use crate::tally::{Count, SHOWN};
use std::alloc::{AllocError, Global};
use std::collections::BTreeMap;
use std::io;

#[derive(Drop)]
pub struct MapTally {
    all: Count,
    by_question: BTreeMap<u32, Count>,
}

impl MapTally {
    pub fn new(alloc: Global) -> Self
        ensures { (result.all ≡ none_asked) × IsEmpty result.by_question }
    {
        MapTally {
            all: Count::default(),
            by_question: BTreeMap::new(alloc),
        }
    }

    // Counts a question, and says whether its answer is one of the first that differ.
    pub fn note(&mut self, id: u32, same: bool) -> Result<bool, AllocError>
        ensures all { self.new.all ≡ counted self.old.all same }
        ensures question { OnOk result (Notes self.old.by_question self.new.by_question id same) }
        ensures shown { IfOk result (λ shown. IsTrue shown ↔ ((same ≡ false) × (self.old.all.differed < SHOWN))) }
    {
        let shown = !same && self.all.differed < SHOWN;
        self.all.note(same);
        self.by_question
            .entry(id)?
            .or_insert(Count::default())
            .note(same);
        Ok(shown)
    }

    // The count of a question, and no answers where none was counted of it.
    fn of_question(&self, id: u32) -> Count
        ensures { result ≡ count_of self.now.by_question id }
    {
        self.by_question.get(&id).copied().unwrap_or_default()
    }

    // The line of each question, and then the sums.
    pub fn print(&self, rt: &impl Print, labels: &[(u32, &str)]) -> io::Result<()> {
        for (id, label) in labels {
            println!(rt; "{label}: {}", self.of_question(*id))?;
        }
        println!(rt; "{} cases, {} differ", self.all.asked, self.all.differed)
    }
}

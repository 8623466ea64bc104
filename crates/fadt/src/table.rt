// A slice that was found to be a table, so that no question about it asks that again.
ghost use Rattle.std.specs.Prelude.{◌≡◌, true, ◌+◌, ◌≤◌, ◌<◌, length, IfOk, IfErr};
ghost use Rattle.field.specs.Number.{number};
ghost use Rattle.fadt.specs.Room.{lacks, early};

use refusal::Refusal;

// It holds the fixed part, and its length is the one that it states.
#[derive(Clone, Copy)]
pub struct Fadt<'a> {
    pub bytes: &'a [u8],
    ghost fixed_part: { 116 ≤ length bytes.now },
    ghost whole: { number bytes.now 4 4 ≡ length bytes.now },
}

impl<'a> Fadt<'a> {
    #[tactic(auto, unfolding(crate::specs::Room::lacks, sdt::specs::Valid::whole_checked, field::specs::First::checked, field::specs::First::less, field::specs::First::differ, field::specs::First::when))]
    pub fn new(table: &'a [u8]) -> Result<Fadt<'a>, Refusal>
        ensures lent { IfOk result (λ fadt. fadt.bytes.now ≡ table.now) }
        ensures no_table { IfErr result (λ refusal. (refusal ≡ Refusal.TooShort) × (lacks table.now 116 ≡ true)) }
    {
        sdt::check_whole(table, 116)?;
        Ok(Fadt { bytes: table })
    }

    // The table holds so many bytes from an offset on, or is too short. An end that is no usize lies behind every table.
    pub fn holds(self, at: usize, size: usize) -> Result<(), Refusal>
        ensures room { IfOk result (λ _. at + size ≤ length self.entry.bytes.now) }
        ensures short { IfErr result (λ refusal. (refusal ≡ Refusal.TooShort) × (length self.entry.bytes.now < at + size)) }
    {
        match at.checked_add(size) {
            Some(end) if end <= self.bytes.len() => Ok(()),
            _ => Err(Refusal::TooShort),
        }
    }

    // Whether the revision is below 2.
    #[tactic(auto, unfolding(crate::specs::Room::early, field::specs::First::less))]
    pub fn is_early(self) -> bool
        ensures { result ≡ early self.entry.bytes.now }
    {
        field::u8_at(self.bytes, 8) < 2
    }
}

// The Multiple APIC Description Table: its fixed part, and the walk through its entries.
// A table is any slice of bytes; what is no such table, and what is no entry, is refused.
#![tactic(auto)]

ghost use Rattle.std.specs.Prelude.{◌≡◌, ◌<◌, false, length, map};
ghost use Rattle.madt.specs.Kinds.{kind_of, least_length};
ghost use Rattle.madt.specs.Fixed.{madt_checked, fixed_of};
ghost use Rattle.madt.specs.Entries.{item_at, next_at, entries_from, entries, faulty, entry_of};
ghost use Rattle.madt.specs.Walk.{left};

use refusal::Refusal;

// The kinds of entries, by the names of the interrupt controller structures. Foreign are those of other
// interrupt models; Reserved are those that the specification keeps for later or leaves to the maker.
#[derive(Clone, Copy, PartialEq, Eq)]
pub enum Kind {
    LocalApic,
    IoApic,
    InterruptSourceOverride,
    NmiSource,
    LocalApicNmi,
    LocalApicAddressOverride,
    LocalX2Apic,
    X2ApicNmi,
    MultiprocessorWakeup,
    Foreign,
    Reserved,
}

impl From<u8> for Kind {
    ghost from_gives = { λ number kind. kind ≡ kind_of number };

    #[tactic(auto, unfolding(crate::specs::Kinds::kind_of, crate::specs::Kinds::kinds))]
    fn from(number: u8) -> Kind {
        match number {
            0 => Kind::LocalApic,
            1 => Kind::IoApic,
            2 => Kind::InterruptSourceOverride,
            3 => Kind::NmiSource,
            4 => Kind::LocalApicNmi,
            5 => Kind::LocalApicAddressOverride,
            9 => Kind::LocalX2Apic,
            10 => Kind::X2ApicNmi,
            16 => Kind::MultiprocessorWakeup,
            6..=8 | 11..=15 => Kind::Foreign,
            _ => Kind::Reserved,
        }
    }
}

impl Kind {
    // An entry of another interrupt model is refused: no length byte can say 256. It is no Option, since `least_length`
    // is promised for every kind.
    pub fn least_length(self) -> usize
        ensures { result ≡ least_length self }
    {
        match self {
            Kind::LocalApic => 8,
            Kind::IoApic => 12,
            Kind::InterruptSourceOverride => 10,
            Kind::NmiSource => 8,
            Kind::LocalApicNmi => 6,
            Kind::LocalApicAddressOverride => 12,
            Kind::LocalX2Apic => 16,
            Kind::X2ApicNmi => 12,
            Kind::MultiprocessorWakeup => 16,
            Kind::Foreign => 256,
            Kind::Reserved => 2,
        }
    }
}

#[derive(Clone, Copy)]
pub struct Madt {
    pub local_apic_address: u32,
    pub flags: u32,
    pub supports_8259: bool,
}

#[tactic(auto, unfolding(crate::specs::Fixed::madt_checked, crate::specs::Fixed::not_madt, sdt::specs::Valid::whole_checked, field::specs::First::checked, field::specs::First::when))]
fn check_madt(table: &[u8]) -> Result<(), Refusal>
    ensures { result ≡ madt_checked table.now }
{
    sdt::check_whole(table, 44)
}

#[tactic(auto, using(crate::proofs::FixedLaws::has_fixed_part), unfolding(crate::specs::Fixed::fixed_of, crate::specs::Fixed::madt_of))]
pub fn fixed_part(table: &[u8]) -> Result<Madt, Refusal>
    ensures { result ≡ fixed_of table.now }
{
    check_madt(table)?;
    let flags = field::u32_at(table, 40);
    Ok(Madt {
        local_apic_address: field::u32_at(table, 36),
        flags,
        supports_8259: flags % 2 == 1,
    })
}

// An entry by its kind, the kind's number, its offset in the table and its length. These are numbers and no slice: they
// are what callers in other languages are told.
#[derive(Clone, Copy)]
pub struct MadtEntry {
    pub kind: Kind,
    pub number: u8,
    pub at: usize,
    pub len: usize,
}

#[tactic(auto, unfolding(crate::specs::Entries::item_at, field::specs::First::when, field::specs::First::less))]
fn item_at(table: &[u8], at: usize) -> Result<MadtEntry, Refusal>
    requires { at < length table.now }
    ensures { result ≡ item_at table.now at }
{
    let left = table.len() - at;
    if left < 2 {
        return Err(Refusal::InconsistentEntry);
    }
    let number = field::u8_at(table, at);
    let kind = Kind::from(number);
    let len = field::u8_at(table, at + 1) as usize;
    if len < kind.least_length() || left < len {
        return Err(Refusal::InconsistentEntry);
    }
    Ok(MadtEntry {
        kind,
        number,
        at,
        len,
    })
}

// What stands at a place of the table: nothing where the table has ended, and a refusal where no entry can be told.
#[tactic(auto, unfolding(crate::specs::Entries::next_at, field::specs::First::when, field::specs::First::less))]
pub fn next_entry(table: &[u8], at: usize) -> Option<Result<MadtEntry, Refusal>>
    ensures { result ≡ next_at table.now at }
{
    if table.len() <= at {
        return None;
    }
    Some(item_at(table, at))
}

// The walk through the entries of a table, from a place on. A refusal is its last item.
#[derive(Clone, Copy)]
pub struct Walk<'a> {
    table: &'a [u8],
    at: usize,
}

impl Iterator for Walk<'_> {
    ghost use Rattle.std.specs.Iterator.{YieldsFirst, item_count};
    ghost use Rattle.madt.specs.Walk.{left};

    type Item = Result<MadtEntry, Refusal>;

    ghost next_gives = { YieldsFirst left };

    ghost remaining = { item_count left };

    fn next(&mut self) -> Option<Result<MadtEntry, Refusal>> {
        let item = next_entry(self.table, self.at)?;
        self.at = match item {
            Ok(e) => self.at + e.len,
            Err(_) => self.table.len(),
        };
        Some(item)
    }
}

// The entries of a table that has the fixed part.
#[tactic(auto, unfolding(crate::specs::Entries::entries))]
pub fn entries(table: &[u8]) -> Walk<'_>
    ensures { left result ≡ entries table.now }
{
    Walk { table, at: 44 }
}

// The same walk where no fault is to come. That is known, so that an entry is not tested again: its kind and its length
// are read, and only the table's end is asked for.
#[derive(Clone, Copy)]
pub struct SoundEntries<'a> {
    table: &'a [u8],
    at: usize,
    ghost sound: { faulty (entries_from table.now at) ≡ false },
}

impl<'a> SoundEntries<'a> {
    ghost use Rattle.madt.specs.SoundEntries.{sound_left};

    // The entries of a table that has the fixed part and no fault, as a caller knows that has gone through them before.
    #[tactic(auto, using(crate::proofs::EntryLaws::among_sound), unfolding(crate::specs::Entries::entries))]
    pub fn of(table: &'a [u8]) -> SoundEntries<'a>
        requires { faulty (entries table.now) ≡ false }
        ensures { map Ok (sound_left result) ≡ entries table.now }
    {
        SoundEntries { table, at: 44 }
    }
}

impl Iterator for SoundEntries<'_> {
    ghost use Rattle.std.specs.Iterator.{YieldsFirst, item_count};
    ghost use Rattle.madt.specs.SoundEntries.{sound_left};

    type Item = MadtEntry;

    ghost next_gives = { YieldsFirst sound_left };

    ghost remaining = { item_count sound_left };

    fn next(&mut self) -> Option<MadtEntry> {
        let at = self.at;
        if self.table.len() <= at {
            return None;
        }
        let number = field::u8_at(self.table, at);
        let len = field::u8_at(self.table, at + 1) as usize;
        self.at = at + len;
        Some(MadtEntry {
            kind: Kind::from(number),
            number,
            at,
            len,
        })
    }
}

// The entry that has k entries in front of it.
#[tactic(auto, unfolding(crate::specs::Entries::entry_of, crate::specs::Entries::nth))]
pub fn entry(table: &[u8], k: usize) -> Result<MadtEntry, Refusal>
    ensures { result ≡ entry_of table.now k }
{
    check_madt(table)?;
    entries(table).nth(k).unwrap_or(Err(Refusal::NotThere))
}

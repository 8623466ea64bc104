// The interrupt model of the machine, read out of the MADT: how many processors, controllers, overrides and
// non-maskable interrupts it has, and the lists of them. Every question takes a slice that is meant to be the
// table, and has an answer for any slice.
#![tactic(auto)]

ghost use Rattle.std.specs.Prelude.{◌≡◌, ◌+◌, ◌<◌, ◌≤◌, ◌%◌, ◌++◌, length, take, drop};
ghost use Rattle.field.specs.Number.{number};
ghost use Rattle.madt.specs.Kinds.{least_length};
ghost use Rattle.madt.specs.Entries.{entries};
ghost use Rattle.platform.specs.Lists.{of_model};
ghost use Rattle.platform.specs.Records.{state_of, uid_or_all, record_of};
ghost use Rattle.platform.specs.Wrong.{wrong_flags, wrong_at};
ghost use Rattle.platform.specs.Model.{model_of};
ghost use Rattle.platform.specs.Fill.{Filled};
ghost use Rattle.platform.specs.Mailbox.{first_mailbox, mailbox_of};
ghost use Rattle.platform.specs.Inner.{with_entry, seen_of, enabled_at};

use madt::{Kind, Madt, MadtEntry};
use refusal::Refusal;

// The model, by the names of the Rust crate: how many records each of its lists has, the address of the local
// interrupt controllers, and whether the machine also has the old pair of controllers. It is known if an entry of
// this model is there; where it is not known, all lists are empty. `known` is a field and no Option around the others:
// where it is false the address and the old controllers are told all the same, as `model_of` says.
#[derive(Clone, Copy, Default)]
pub struct Model {
    pub known: bool,
    pub local_apic_address: u64,
    pub also_has_legacy_pics: bool,
    pub processors: usize,
    pub io_apics: usize,
    pub interrupt_source_overrides: usize,
    pub nmi_sources: usize,
    pub local_apic_nmi_lines: usize,
}

// Whether an entry of this kind says that the machine has this interrupt model.
fn of_model(kind: Kind) -> bool
    ensures { result ≡ of_model kind }
{
    !matches!(
        kind,
        Kind::MultiprocessorWakeup | Kind::Foreign | Kind::Reserved
    )
}

// The value 2 is reserved, for the polarity in bits 0 and 1 and for the trigger in bits 2 and 3.
fn wrong_flags(flags: u16) -> bool
    ensures { result ≡ wrong_flags flags }
{
    flags % 4 == 2 || flags / 4 % 4 == 2
}

// In a Local APIC NMI entry the number 0xff stands for all processors, in an answer 0xffffffff does.
fn uid_or_all(uid: u8) -> u32
    ensures { result ≡ uid_or_all uid }
{
    if uid == 0xff { 0xffff_ffff } else { uid as u32 }
}

// What a processor is to do when the operating system starts, by the numbers of docs/TABLES.md.
#[derive(Clone, Copy)]
enum State {
    Disabled = 0,
    Waiting = 1,
    Running = 2,
}

// The state of a processor by bit 0 of its flags: `enabled`, or disabled.
fn state_of(flags: u32, enabled: State) -> State
    ensures { result ≡ state_of flags enabled }
{
    if flags % 2 == 1 {
        enabled
    } else {
        State::Disabled
    }
}

// Polarity and trigger: the low four bits of the flags.
fn inti_flags(flags: u16) -> u32
    ensures { result ≡ flags % 16 }
{
    (flags % 16) as u32
}

// An entry's record, by the list that it goes to.
#[derive(Clone, Copy)]
enum Record {
    Processor([u32; 3]),
    IoApic([u32; 3]),
    Override([u32; 3]),
    NmiSource([u32; 2]),
    NmiLine([u32; 2]),
}

// An entry, and the table that has all bytes which the entry's kind needs. Each kind's fields stand beside its name:
// closures would be looked up by the same match.
#[derive(Clone, Copy)]
struct Entry<'a> {
    table: &'a [u8],
    e: MadtEntry,
    ghost inside: { e.at + least_length e.kind ≤ length table.now },
}

impl Entry<'_> {
    // Whether what the entry says can not be. Only the ISA bus, 0, has overrides, and a local interrupt controller has
    // the lines 0 and 1.
    fn is_wrong(self) -> bool
        ensures { result ≡ wrong_at self.entry.table.now self.entry.e.at self.entry.e.kind }
    {
        let table = self.table;
        let at = self.e.at;
        match self.e.kind {
            Kind::InterruptSourceOverride => {
                field::u8_at(table, at + 2) != 0 || wrong_flags(field::u16_at(table, at + 8))
            }
            Kind::NmiSource => wrong_flags(field::u16_at(table, at + 2)),
            Kind::LocalApicNmi => 1 < field::u8_at(table, at + 5),
            Kind::X2ApicNmi => 1 < field::u8_at(table, at + 8),
            _ => false,
        }
    }

    // The record of the entry. `enabled` is the state of a processor that may be used; only processors have one.
    fn to_record(self, enabled: State) -> Option<Record>
        ensures { result ≡ record_of self.entry.table.now enabled self.entry.e.at self.entry.e.kind }
    {
        let table = self.table;
        let at = self.e.at;
        match self.e.kind {
            Kind::LocalApic => Some(Record::Processor([
                field::u8_at(table, at + 2) as u32,
                field::u8_at(table, at + 3) as u32,
                state_of(field::u32_at(table, at + 4), enabled) as u32,
            ])),
            Kind::LocalX2Apic => Some(Record::Processor([
                field::u32_at(table, at + 12),
                field::u32_at(table, at + 4),
                state_of(field::u32_at(table, at + 8), enabled) as u32,
            ])),
            Kind::IoApic => Some(Record::IoApic([
                field::u8_at(table, at + 2) as u32,
                field::u32_at(table, at + 4),
                field::u32_at(table, at + 8),
            ])),
            Kind::InterruptSourceOverride => Some(Record::Override([
                field::u8_at(table, at + 3) as u32,
                field::u32_at(table, at + 4),
                inti_flags(field::u16_at(table, at + 8)),
            ])),
            Kind::NmiSource => Some(Record::NmiSource([
                field::u32_at(table, at + 4),
                inti_flags(field::u16_at(table, at + 2)),
            ])),
            Kind::LocalApicNmi => Some(Record::NmiLine([
                uid_or_all(field::u8_at(table, at + 2)),
                field::u8_at(table, at + 5) as u32,
            ])),
            Kind::X2ApicNmi => Some(Record::NmiLine([
                field::u32_at(table, at + 4),
                field::u8_at(table, at + 8) as u32,
            ])),
            _ => None,
        }
    }
}

impl Model {
    // Takes in one more entry: a processor, controller, override or interrupt is counted, and an address override
    // replaces the address that was there before. As in `Entry`, what a kind does stands beside its name.
    fn take_in(&mut self, entry: Entry)
        requires processors { self.old.processors < usize.MAX }
        requires io_apics { self.old.io_apics < usize.MAX }
        requires overrides { self.old.interrupt_source_overrides < usize.MAX }
        requires nmi_sources { self.old.nmi_sources < usize.MAX }
        requires nmi_lines { self.old.local_apic_nmi_lines < usize.MAX }
        ensures { self.new ≡ with_entry entry.entry.table.now self.old entry.entry.e }
    {
        self.known |= of_model(entry.e.kind);
        match entry.e.kind {
            Kind::LocalApic | Kind::LocalX2Apic => self.processors += 1,
            Kind::IoApic => self.io_apics += 1,
            Kind::InterruptSourceOverride => self.interrupt_source_overrides += 1,
            Kind::NmiSource => self.nmi_sources += 1,
            Kind::LocalApicNmi | Kind::X2ApicNmi => self.local_apic_nmi_lines += 1,
            Kind::LocalApicAddressOverride => {
                self.local_apic_address = field::u64_at(entry.table, entry.e.at + 4);
            }
            _ => {}
        }
    }
}

// What going through all entries tells: whether an entry is wrong, and the model. A wrong entry is no refusal yet: a
// model without a processor is refused first (`model_of`), and a mailbox doesn't mind (`mailbox_of`).
#[derive(Clone, Copy)]
struct Seen {
    wrong: bool,
    model: Model,
}

// Goes through all entries once. A fault refuses, wherever it stands.
fn survey(table: &[u8], m: Madt) -> Result<Seen, Refusal>
    ensures { result ≡ seen_of table.now m }
{
    let mut wrong = false;
    let mut model = Model {
        local_apic_address: m.local_apic_address as u64,
        also_has_legacy_pics: m.supports_8259,
        ..Model::default()
    };
    for item in madt::entries(table) {
        let entry = Entry { table, e: item? };
        wrong |= entry.is_wrong();
        model.take_in(entry);
    }
    Ok(Seen { wrong, model })
}

// The interrupt model, or the refusal with the smallest number: `InconsistentEntry` goes before `WrongEntryField`, wherever the
// entries stand.
#[tactic(auto, unfolding(crate::specs::Model::model_of, crate::specs::Model::refusals, crate::specs::Inner::seen_of, madt::specs::Fixed::fixed_of, madt::specs::Fixed::madt_checked, field::specs::First::checked, field::specs::First::when))]
pub fn interrupt_model(table: &[u8]) -> Result<Model, Refusal>
    ensures { result ≡ model_of table.now }
{
    let m = madt::fixed_part(table)?;
    let seen = survey(table, m)?;
    let model = seen.model;
    if model.known && model.processors == 0 {
        return Err(Refusal::InconsistentEntry);
    }
    if seen.wrong {
        return Err(Refusal::WrongEntryField);
    }
    Ok(model)
}

// A lent table, and how many of its words are written. It stays the caller's: the reference keeps its ghost name.
#[derive(Drop)]
struct Lent<'a> {
    words: &'a mut [u32],
    written: usize,
}

impl<'a> Lent<'a> {
    fn new(words: &'a mut [u32]) -> Lent<'a>
        ensures loan { result.words.ghost_name ≡ words.entry.ghost_name }
        ensures words { result.words.now ≡ words.old }
        ensures none { result.written ≡ 0 }
    {
        Lent { words, written: 0 }
    }

    // Writes a record behind those that are there.
    fn push(&mut self, record: &[u32])
        requires { self.old.written + length record.now ≤ length self.old.words.now }
        ensures loan { self.new.words.ghost_name ≡ self.old.words.ghost_name }
        ensures next { self.new.written ≡ self.old.written + length record.now }
        ensures front { take self.new.written self.new.words.now ≡ take self.old.written self.old.words.now ++ record.now }
        ensures behind { drop self.new.written self.new.words.now ≡ drop self.new.written self.old.words.now }
        ensures long { length self.new.words.now ≡ length self.old.words.now }
    {
        let end = self.written + record.len();
        self.words[self.written..end].copy_from_slice(record);
        self.written = end;
    }
}

// The state of the next processor that is enabled: the first one runs, all others wait to be started.
fn enabled_at(to: usize) -> State
    ensures { result ≡ enabled_at to }
{
    if to == 0 {
        State::Running
    } else {
        State::Waiting
    }
}

// Fills five lent tables with the records of the model's lists: processors (number, controller id, state: 0 disabled,
// 1 waiting, 2 running), I/O controllers (id, address, interrupt base), overrides (source, interrupt, polarity and
// trigger), NMI sources (interrupt, polarity and trigger) and NMI lines (processor or 0xffffffff for all, line). What
// stands behind the records is left as it was, and a refusal leaves all five tables as they were. The tables are
// parameters of their own, as the interface for C has them.
pub fn fill(
    table: &[u8],
    processors: &mut [u32],
    io_apics: &mut [u32],
    interrupt_source_overrides: &mut [u32],
    nmi_sources: &mut [u32],
    local_apic_nmi_lines: &mut [u32],
) -> Result<(), Refusal>
    ensures { Filled table.now result processors.old processors.new io_apics.old
        io_apics.new interrupt_source_overrides.old interrupt_source_overrides.new
        nmi_sources.old nmi_sources.new local_apic_nmi_lines.old
        local_apic_nmi_lines.new }
{
    let m = interrupt_model(table)?;
    if processors.len() / 3 < m.processors
        || io_apics.len() / 3 < m.io_apics
        || interrupt_source_overrides.len() / 3 < m.interrupt_source_overrides
        || nmi_sources.len() / 2 < m.nmi_sources
        || local_apic_nmi_lines.len() / 2 < m.local_apic_nmi_lines
    {
        return Err(Refusal::BufferTooShort);
    }
    // Nothing was written so far. From here on the table has no fault, and each list has room.
    let mut processors = Lent::new(processors);
    let mut io_apics = Lent::new(io_apics);
    let mut interrupt_source_overrides = Lent::new(interrupt_source_overrides);
    let mut nmi_sources = Lent::new(nmi_sources);
    let mut local_apic_nmi_lines = Lent::new(local_apic_nmi_lines);
    for e in madt::SoundEntries::of(table) {
        let entry = Entry { table, e };
        match entry.to_record(enabled_at(processors.written)) {
            Some(Record::Processor(record)) => processors.push(&record),
            Some(Record::IoApic(record)) => io_apics.push(&record),
            Some(Record::Override(record)) => interrupt_source_overrides.push(&record),
            Some(Record::NmiSource(record)) => nmi_sources.push(&record),
            Some(Record::NmiLine(record)) => local_apic_nmi_lines.push(&record),
            None => {}
        }
    }
    Ok(())
}

#[tactic(auto, using(madt::proofs::EntryLaws::entries_stand, madt::proofs::EntryLaws::standing_rest), unfolding(crate::specs::Mailbox::first_mailbox, field::specs::First::when))]
fn first_mailbox(table: &[u8]) -> Result<u64, Refusal>
    ensures { result ≡ first_mailbox table.now (entries table.now) }
{
    for entry in madt::entries(table) {
        let e = entry?;
        if e.kind == Kind::MultiprocessorWakeup {
            return Ok(field::u64_at(table, e.at + 8));
        }
    }
    Err(Refusal::InconsistentEntry)
}

// The address of the mailbox through which an operating system wakes processors. A table with a fault has none, also
// where the fault stands behind the entry.
#[tactic(auto, unfolding(crate::specs::Mailbox::mailbox_of, crate::specs::Inner::seen_of, madt::specs::Fixed::fixed_of, madt::specs::Fixed::madt_checked, field::specs::First::checked, field::specs::First::when))]
pub fn mailbox_address(table: &[u8]) -> Result<u64, Refusal>
    ensures { result ≡ mailbox_of table.now }
{
    let m = madt::fixed_part(table)?;
    survey(table, m)?;
    first_mailbox(table)
}

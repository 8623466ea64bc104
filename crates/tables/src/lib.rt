// From the root pointer to valid tables: the root table, its entries, and finding a table by its signature.
#![tactic(auto)]

ghost use Rattle.std.specs.Prelude.{◌≡◌, true, ◌-◌, ◌/◌, ◌≤◌, length, MatchResult};
ghost use Rattle.field.specs.Number.{number};
ghost use Rattle.memory.specs.Ranges.{ranges_of, right};
ghost use Rattle.memory.specs.Places.{place_of, view_of};
ghost use Rattle.sdt.specs.Header.{header_size, whole_of};
ghost use Rattle.sdt.specs.declared.Wanted.TheVariants.{Signature, Any};
ghost use Rattle.tables.specs.Root.{kind_of, address_of, signature_of, size_of, entries_in, offset_of, root_at, root_of, listed};
ghost use Rattle.tables.specs.Tables.{entry_of, valid_table, table_at, nth_listed, nth_table};
ghost use Rattle.tables.specs.declared.RootTable.{RootTable};

mod listing;

use listing::Entries;
use memory::{Memory, Place};
use refusal::Refusal;
use rsdp::Rsdp;
use sdt::Wanted;

const RSDT: u32 = 0x5444_5352;

const XSDT: u32 = 0x5444_5358;

// The numbers are those that callers in other languages are told.
#[derive(Clone, Copy)]
pub enum RootKind {
    Rsdt = 0,
    Xsdt = 1,
}

#[tactic(auto, unfolding(crate::specs::Root::kind_of, crate::specs::Root::address_of, crate::specs::Root::signature_of, crate::specs::Root::size_of, field::specs::First::when, field::specs::First::differ))]
impl RootKind {
    // The kind that a root pointer leads to: revision 0 to the RSDT, all others to the XSDT.
    fn of(pointer: Rsdp) -> RootKind
        ensures { result ≡ kind_of pointer }
    {
        if pointer.revision == 0 {
            RootKind::Rsdt
        } else {
            RootKind::Xsdt
        }
    }

    // Where the root pointer says that it stands.
    fn address_in(self, pointer: Rsdp) -> u64
        ensures { result ≡ address_of self pointer }
    {
        match self {
            RootKind::Rsdt => u64::from(pointer.rsdt_address),
            RootKind::Xsdt => pointer.xsdt_address,
        }
    }

    fn signature(self) -> u32
        ensures { result ≡ signature_of self }
    {
        match self {
            RootKind::Rsdt => RSDT,
            RootKind::Xsdt => XSDT,
        }
    }

    // How many bytes an address in it has.
    fn size(self) -> usize
        ensures { result ≡ size_of self }
    {
        match self {
            RootKind::Rsdt => 4,
            RootKind::Xsdt => 8,
        }
    }

    // The address that an entry of it is.
    fn address(self, entry: &[u8]) -> u64
        requires { size_of self ≤ length entry.now }
        ensures { result ≡ number entry.now 0 (size_of self) }
    {
        match self {
            RootKind::Rsdt => u64::from(field::u32_at(entry, 0)),
            RootKind::Xsdt => field::u64_at(entry, 0),
        }
    }

    // How many whole entries follow the header in a table of so many bytes.
    fn entry_count(self, len: usize) -> usize
        ensures { result ≡ (len - header_size) / size_of self }
    {
        len.saturating_sub(sdt::HEADER_SIZE) / self.size()
    }
}

// A valid root table: where it stands in memory and in the slice, and what it lists. Numbers and no slice, as in `Table`: they are
// what callers in other languages are told, and the theorems speak of them.
#[derive(Clone, Copy)]
pub struct RootTable {
    pub kind: RootKind,
    pub address: u64,
    pub at: usize,
    pub len: usize,
    pub entry_size: usize,
    pub entries: usize,
}

// A valid table: its physical address, its offset in the slice and its length.
#[derive(Clone, Copy)]
pub struct Table {
    pub address: u64,
    pub at: usize,
    pub len: usize,
}

// The offset of a place in the slice. It is 0 where no range holds the address, as the definition `offset_of` says; of a valid
// table one does.
#[tactic(auto, unfolding(crate::specs::Root::offset_of))]
fn offset_of(place: Option<Place>) -> usize
    ensures { result ≡ offset_of place }
{
    place.map_or(0, |place| place.offset)
}

// All bytes of the table at an address whose header is mapped, or as many of them as are.
fn whole_in<'a>(memory: Memory<'a, '_>, address: u64) -> &'a [u8]
    requires { header_size ≤ length (view_of memory.image.now memory.ranges.now address) }
    ensures { result.now ≡ whole_of (view_of memory.entry.image.now memory.entry.ranges.now address) }
{
    let view = memory.view(address);
    let len = sdt::stated_length(view) as usize;
    view.get(..len).unwrap_or(view)
}

// The root table of a kind at an address.
fn root_at(memory: Memory, kind: RootKind, address: u64) -> Result<RootTable, Refusal>
    ensures { result ≡ root_at memory.entry.image.now memory.entry.ranges.now kind address }
{
    let (start, view) = memory.look_up(address);
    sdt::check_root(view, Wanted::Signature(kind.signature()))?;
    let len = sdt::stated_length(view) as usize;
    Ok(RootTable {
        kind,
        address,
        at: offset_of(start),
        len,
        entry_size: kind.size(),
        entries: kind.entry_count(len),
    })
}

// The root table that the root pointer at an address leads to.
fn root_in(memory: Memory, rsdp: u64) -> Result<RootTable, Refusal>
    ensures { result ≡ root_of memory.entry.image.now memory.entry.ranges.now rsdp }
{
    let pointer = rsdp::root_pointer(memory.view(rsdp))?;
    let kind = RootKind::of(pointer);
    root_at(memory, kind, kind.address_in(pointer))
}

// The addresses that it lists.
fn root_entries<'a>(memory: Memory<'a, '_>, rsdp: u64) -> Result<Entries<'a>, Refusal>
    ensures { MatchResult result
        (λ found. (root : RootTable)
        × (root_of memory.entry.image.now memory.entry.ranges.now rsdp ≡ Ok root)
        × (entries_in found.kind found.bytes.now ≡ listed memory.entry.image.now memory.entry.ranges.now root))
        (λ refusal. root_of memory.entry.image.now memory.entry.ranges.now rsdp ≡ Err refusal) }
{
    let root = root_in(memory, rsdp)?;
    let table = whole_in(memory, root.address);
    let (_, bytes) = table.split_at(sdt::HEADER_SIZE);
    Ok(Entries {
        kind: root.kind,
        bytes,
    })
}

// The table at an address, if nothing refuses it. The signature and the length wanted stay two parameters, as in every
// question from outside: a struct of both would be made there and taken apart here.
#[inline(always)]
fn valid_table(memory: Memory, p: u64, wanted: Wanted, least: u32) -> Result<Table, Refusal>
    ensures { result ≡ valid_table memory.entry.image.now memory.entry.ranges.now wanted least p }
{
    let (place, view) = memory.look_up(p);
    sdt::check_table(view, wanted, least)?;
    Ok(Table {
        address: p,
        at: offset_of(place),
        len: sdt::stated_length(view) as usize,
    })
}

// The n-th valid table among the entries. The closure is a `move` one, so that what it looks at is its own and is not read through
// references anew for each entry, which cost a find a third of its time.
fn nth_listed(memory: Memory, entries: Entries, wanted: Wanted, least: u32, n: u64) -> Option<Table>
    ensures { result ≡ nth_listed memory.entry.image.now memory.entry.ranges.now wanted least n
        (entries_in entries.entry.kind entries.entry.bytes.now) }
{
    entries
        .filter_map(move |p| valid_table(memory, p, wanted, least).ok())
        .nth(n as usize)
}

// The questions from outside. The slice and its list come apart in each, as callers lend them, and each tests the list
// (docs/DECISIONS.md, 6).

// The root table, from the address of the root pointer.
pub fn root_table(image: &[u8], ranges: &[u64], rsdp: u64) -> Result<RootTable, Refusal>
    ensures { result ≡ root_of image.now ranges.now rsdp }
{
    root_in(Memory::new(image, ranges)?, rsdp)
}

// The k-th entry of the root table, counted from 0.
pub fn root_entry(image: &[u8], ranges: &[u64], rsdp: u64, k: u64) -> Result<u64, Refusal>
    ensures { result ≡ entry_of image.now ranges.now rsdp k }
{
    root_entries(Memory::new(image, ranges)?, rsdp)?
        .get(k)
        .ok_or(Refusal::NotThere)
}

// The table at a physical address, for whoever wants this signature, or any, and at least so many bytes.
pub fn table_at(
    image: &[u8],
    ranges: &[u64],
    address: u64,
    wanted: Wanted,
    least: u32,
) -> Result<Table, Refusal>
    ensures { result ≡ table_at image.now ranges.now address wanted least }
{
    valid_table(Memory::new(image, ranges)?, address, wanted, least)
}

// The n-th valid table, counted from 0, that the root table lists for whoever wants this signature, or any, and at least
// so many bytes.
pub fn nth_table(
    image: &[u8],
    ranges: &[u64],
    rsdp: u64,
    wanted: Wanted,
    least: u32,
    n: u64,
) -> Result<Table, Refusal>
    ensures { result ≡ nth_table image.now ranges.now rsdp wanted least n }
{
    let memory = Memory::new(image, ranges)?;
    let entries = root_entries(memory, rsdp)?;
    nth_listed(memory, entries, wanted, least, n).ok_or(Refusal::NoValidTable)
}

// The first valid table with a signature.
pub fn find_table(
    image: &[u8],
    ranges: &[u64],
    rsdp: u64,
    signature: u32,
    least: u32,
) -> Result<Table, Refusal>
    ensures { result ≡ nth_table image.now ranges.now rsdp (Signature signature) least 0 }
{
    nth_table(image, ranges, rsdp, Wanted::Signature(signature), least, 0)
}

// The n-th valid table of any signature.
pub fn header(image: &[u8], ranges: &[u64], rsdp: u64, n: u64) -> Result<Table, Refusal>
    ensures { result ≡ nth_table image.now ranges.now rsdp Any header_size n }
{
    nth_table(image, ranges, rsdp, Wanted::Any, sdt::HEADER_SIZE as u32, n)
}

// As `whole_in`, of a slice and a right list of its ranges. This public form keeps its two demands and no refusal.
pub fn whole<'a>(image: &'a [u8], ranges: &[u64], address: u64) -> &'a [u8]
    requires right_ranges { right (length image.now) ranges.now ≡ true }
    requires mapped_header { header_size ≤ length (view_of image.now ranges.now address) }
    ensures { result.now ≡ whole_of (view_of image.now ranges.now address) }
{
    whole_in(Memory { image, ranges }, address)
}

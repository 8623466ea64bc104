// The root pointer: whether one stands at an address and what it says, and the search for it.
#![tactic(auto)]

ghost use Rattle.std.specs.Prelude.{◌≡◌, ◌+◌, ◌-◌, ◌*◌, ◌/◌, ◌^◌, ◌≤◌, min, length, drop, MatchResult};
ghost use Rattle.std.specs.Result.{is_ok};
ghost use Rattle.field.specs.Choice.{nth_valid};
ghost use Rattle.memory.specs.Places.{view_of};
ghost use Rattle.rsdp.specs.Pointer.{revision_of, needed_of, summed_of, wrong_sum, pointer_checked, pointer_of, root_pointer_of};
ghost use Rattle.rsdp.specs.Search.{every_sixteen, segment_of, second_area, checked_at, checked_in};
ghost use Rattle.rsdp.specs.Asked.{root_pointer_at, search_asked};

use memory::Memory;
use refusal::Refusal;

// "RSD PTR " with its trailing blank, lowest byte first.
const RSD_PTR: u64 = 0x2052_5450_2044_5352;

// The areas that are searched: the BIOS's read-only memory, and the extended BIOS data area or all that could hold it.
// In an area of 2^17 bytes 20 bytes fit at 8,191 places 16 bytes apart, in one of 1,024 bytes at 63.
const BIOS_AREA_START: u64 = 0xe0000;

const EBDA_EARLIEST_START: u64 = 0x80000;

const EBDA_END: u64 = 0x9ffff;

const EBDA_SEGMENT_ADDRESS: u64 = 0x40e;

const PLACES_IN_AN_AREA: u64 = 8191;

const PLACES_IN_A_KILOBYTE: u64 = 63;

// What a valid root pointer says. Where the revision is 0 the length is 20 and there is no XSDT; its address is 0 then and no Option,
// as `pointer_of` and callers in other languages have it.
#[derive(Clone, Copy)]
pub struct Rsdp {
    pub revision: u8,
    pub length: u32,
    pub rsdt_address: u32,
    pub xsdt_address: u64,
}

// The bytes of a root pointer, with all that its revision needs mapped.
#[derive(Clone, Copy)]
struct Structure<'a> {
    view: &'a [u8],
    ghost mapped: { needed_of view.now ≤ length view.now },
}

// Addresses 16 bytes apart, all below 4 GiB, at which a root pointer may stand.
#[derive(Clone, Copy)]
pub struct Area {
    pub start: u64,
    pub places: u64,
    pub ghost below_4_gib: { start + 16 * places ≤ 2 ^ 32 },
}

// How many bytes the structure at the start of the view has.
#[tactic(auto, unfolding(crate::specs::Pointer::needed_of, field::specs::First::when, field::specs::First::differ))]
fn needed(view: &[u8]) -> usize
    requires { 20 ≤ length view.now }
    ensures { result ≡ needed_of view.now }
{
    if field::u8_at(view, 15) == 0 { 20 } else { 36 }
}

#[tactic(auto, using(crate::proofs::PointerLaws::needed_least, crate::proofs::PointerLaws::needed_later), unfolding(crate::specs::Pointer::needed_of, crate::specs::Pointer::summed_of, crate::specs::Pointer::pointer_of, field::specs::First::when, field::specs::First::differ))]
impl<'a> Structure<'a> {
    // The structure at the start of the view, if it is mapped whole.
    fn mapped(view: &'a [u8]) -> Result<Structure<'a>, Refusal>
        ensures { MatchResult result
            (λ structure. structure.view.now ≡ view.now)
            (λ refusal. pointer_checked view.now ≡ Err refusal) }
    {
        if view.len() < 20 || view.len() < needed(view) {
            return Err(Refusal::PointerNotMapped);
        }
        Ok(Structure { view })
    }

    fn revision(self) -> u8
        ensures { result ≡ revision_of self.entry.view.now }
    {
        field::u8_at(self.view, 15)
    }

    // How many bytes are summed.
    fn summed(self) -> u32
        ensures { result ≡ summed_of self.entry.view.now }
    {
        if self.revision() == 0 {
            20
        } else {
            field::u32_at(self.view, 20)
        }
    }

    // The length can't be right, or the bytes don't sum to 0 over it.
    fn has_wrong_sum(self) -> bool
        ensures { result ≡ wrong_sum self.entry.view.now }
    {
        let len = self.summed() as usize;
        if len < 20 || 36 < len {
            return true;
        }
        field::sum(&self.view[..len]) != 0
    }

    // Whether the root pointer is valid, or why not.
    fn check(self) -> Result<(), Refusal>
        ensures { result ≡ pointer_checked self.entry.view.now }
    {
        if field::u64_at(self.view, 0) != RSD_PTR {
            return Err(Refusal::WrongPointerSignature);
        }
        if !field::is_text(&self.view[9..15]) {
            return Err(Refusal::WrongPointerOemId);
        }
        if self.has_wrong_sum() {
            return Err(Refusal::WrongPointerChecksum);
        }
        Ok(())
    }

    // What it says, if it is valid.
    fn says(self) -> Rsdp
        ensures { result ≡ pointer_of self.entry.view.now }
    {
        let revision = self.revision();
        Rsdp {
            revision,
            length: self.summed(),
            rsdt_address: field::u32_at(self.view, 16),
            xsdt_address: if revision == 0 {
                0
            } else {
                field::u64_at(self.view, 24)
            },
        }
    }
}

// Whether a valid root pointer stands at the start of the view, or why not.
pub fn check(view: &[u8]) -> Result<(), Refusal>
    ensures { result ≡ pointer_checked view.now }
{
    Structure::mapped(view)?.check()
}

// The root pointer at the start of the view.
pub fn root_pointer(view: &[u8]) -> Result<Rsdp, Refusal>
    ensures { result ≡ root_pointer_of view.now }
{
    let structure = Structure::mapped(view)?;
    structure.check()?;
    Ok(structure.says())
}

// The root pointer at a physical address. The slice and its list come apart, as callers lend them, and each question tests the
// list; so does the search below (docs/DECISIONS.md, 6).
pub fn root_pointer_at(image: &[u8], ranges: &[u64], address: u64) -> Result<Rsdp, Refusal>
    ensures { result ≡ root_pointer_at image.now ranges.now address }
{
    root_pointer(Memory::new(image, ranges)?.view(address))
}

// Whether a valid root pointer stands at an offset of the view. Nearly everywhere the signature alone says no.
fn is_valid(view: &[u8], at: usize) -> bool
    requires { at + 20 ≤ length view.now }
    ensures { result ≡ is_ok (pointer_checked (drop at view.now)) }
{
    field::u64_at(view, at) == RSD_PTR && check(&view[at..]).is_ok()
}

impl Area {
    // Its first places, as many as have 20 bytes or more in a view of so many bytes.
    fn within(self, bytes: usize) -> Area
        ensures { (result.start ≡ self.start) × (result.places ≡ min self.places ((bytes - 4) / 16)) }
    {
        Area {
            start: self.start,
            places: self.places.min((bytes as u64).saturating_sub(4) / 16),
        }
    }

    // How many of its first places have all their 16 bytes below an address.
    fn below(self, end: u64) -> u64
        ensures { result ≡ min self.places ((end - self.start) / 16) }
    {
        self.places.min(end.saturating_sub(self.start) / 16)
    }

    // The places behind its first ones.
    fn behind(self, passed: u64) -> Area
        requires { passed ≤ self.places }
        ensures { (result.start ≡ self.start + 16 * passed) × (result.places ≡ self.places - passed) }
    {
        Area {
            start: self.start + 16 * passed,
            places: self.places - passed,
        }
    }
}

// The first valid root pointer of an area, in a view that begins where the area does.
fn search_view(view: &[u8], area: Area) -> Option<u64>
    requires { 16 * area.places ≤ length view.now - 4 }
    ensures { result ≡ nth_valid (checked_in view.now area.start) 0 (every_sixteen area.places area.start) }
{
    for k in 0..area.places {
        let into = 16 * k;
        if is_valid(view, into as usize) {
            return Some(area.start + into);
        }
    }
    None
}

// The first valid root pointer of an area. A range is looked up once for all of its places at which 20 bytes can be read;
// where fewer can, no root pointer stands, and where nothing is mapped the search goes on at the next range. How many places the
// loop goes on by is known only once a view was looked up, so it is neither a `for` nor a chain.
fn search_area(memory: Memory, area: Area) -> Option<u64>
    ensures { result ≡ nth_valid (checked_at memory.entry.image.now memory.entry.ranges.now) 0 (every_sixteen area.places area.start) }
{
    let mut left = area;
    while 0 < left.places {
        let view = memory.view(left.start);
        if view.is_empty() {
            let passed = left.below(memory.unmapped_up_to(left.start));
            left = left.behind(passed.max(1));
            continue;
        }
        let here = left.within(view.len());
        let found = search_view(view, here);
        if found.is_some() {
            return found;
        }
        left = left.behind(here.places.max(1));
    }
    None
}

// The segment that the BIOS says its extended data area has. It is 0 where it isn't mapped, which is out of bounds like any other:
// `segment_of` has it so, and an Option would have one arm for both.
fn segment(memory: Memory) -> u16
    ensures { result ≡ segment_of (view_of memory.entry.image.now memory.entry.ranges.now 0x40e) }
{
    let view = memory.view(EBDA_SEGMENT_ADDRESS);
    if view.len() < 2 {
        0
    } else {
        field::u16_at(view, 0)
    }
}

// Where to search after the BIOS's own area.
fn second_area(segment: u16) -> Area
    ensures { every_sixteen result.places result.start ≡ second_area segment }
{
    let start = u64::from(segment) * 16;
    if (EBDA_EARLIEST_START..EBDA_END).contains(&start) {
        Area {
            start,
            places: PLACES_IN_A_KILOBYTE,
        }
    } else {
        Area {
            start: EBDA_EARLIEST_START,
            places: PLACES_IN_AN_AREA,
        }
    }
}

// The search for the root pointer where a BIOS leaves it. A `match` and no `or_else`: that was tried, and the prover knows nothing of
// what a closure that captures the memory returned.
pub fn search_for_on_bios(image: &[u8], ranges: &[u64]) -> Result<u64, Refusal>
    ensures { result ≡ search_asked image.now ranges.now }
{
    let memory = Memory::new(image, ranges)?;
    let bios = Area {
        start: BIOS_AREA_START,
        places: PLACES_IN_AN_AREA,
    };
    match search_area(memory, bios) {
        Some(p) => Ok(p),
        None => search_area(memory, second_area(segment(memory))).ok_or(Refusal::PointerNotFound),
    }
}

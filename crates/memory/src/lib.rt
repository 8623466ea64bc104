// The one place that knows ranges: whether a list of them is right, and where in the slice a physical address stands.
// Addresses are compared and subtracted, and never added to before a range is found.
#![tactic(auto)]

ghost use Rattle.std.specs.Prelude.{◌≡◌, true, false, ◌+◌, ◌/◌, ◌^◌, ◌≤◌, ◌<◌, length, map, IfOk, IfErr, MatchOption};
ghost use Rattle.std.specs.List.{list_all};
ghost use Rattle.std.specs.List.Sorted.{IsPartitionPoint, IsPartitionedBy};
ghost use Rattle.field.specs.First.{when};
ghost use Rattle.memory.specs.Ranges.{range_of, ranges_of, inside, follows, ordered, right};
ghost use Rattle.memory.specs.Places.{holds, place_in, place_of, starts_up_to, view_of, Unmapped};

use refusal::Refusal;

const MOST_RANGES: usize = 64;

// So many bytes from the physical start on stand in the slice from the offset on.
#[derive(Clone, Copy)]
pub struct Range {
    pub start: u64,
    pub len: u64,
    pub offset: u64,
}

// Where an address stands: its offset in the slice, and how many bytes its range has from there on.
// An offset and no slice: an answer about a table says where in the slice it stands.
#[derive(Clone, Copy)]
pub struct Place {
    pub offset: usize,
    pub room: usize,
}

// The list has three numbers for a range.
impl From<[u64; 3]> for Range {
    ghost from_gives = { λ numbers range. range ≡ range_of numbers };

    fn from(numbers: [u64; 3]) -> Range {
        let [start, len, offset] = numbers;
        Range { start, len, offset }
    }
}

impl Range {
    // The range lies inside a slice of so many bytes and ends at 2^64 or below.
    fn is_inside(self, size: usize) -> bool
        ensures { result ≡ inside size self }
    {
        let whole = size as u64;
        self.offset <= whole
            && self.len <= whole - self.offset
            && (self.len == 0 || self.len - 1 <= u64::MAX - self.start)
    }

    // The next range starts above the start of this one, and not before its end.
    fn is_followed_by(self, next: Range) -> bool
        ensures { result ≡ follows self next }
    {
        self.start < next.start && self.len <= next.start - self.start
    }

    // The range has the byte at physical address p.
    fn has(self, p: u64) -> bool
        ensures { result ≡ holds self p }
    {
        self.start <= p && p - self.start < self.len
    }

    // Where an address that the range holds stands.
    fn place(self, p: u64) -> Place
        requires within { (self.start ≤ p) × (p ≤ self.start + self.len) }
        requires addressable { self.offset + self.len < 2 ^ 64 }
        ensures { result ≡ place_in self p }
    {
        let into = p - self.start;
        Place {
            offset: (self.offset + into) as usize,
            room: (self.len - into) as usize,
        }
    }
}

// The ranges of a flat list, three numbers each; what is left of a cut-off one is none.
fn listed(numbers: &[u64]) -> &[[u64; 3]]
    ensures ranges { map range_of result.now ≡ ranges_of numbers.now }
    ensures count { length result.now ≡ length numbers.now / 3 }
{
    let (ranges, _) = numbers.as_chunks();
    ranges
}

// How many ranges start at the address or below, in a list that ascends. It stays a call: laid open in the walk through a root
// table its branches were guessed wrong (docs/BENCHMARK.md).
#[inline(never)]
fn starting_up_to(ranges: &[[u64; 3]], p: u64) -> usize
    ensures bound { result ≤ length ranges.now }
    ensures parted { IsPartitionedBy (starts_up_to p) ranges.now
        → IsPartitionPoint (λ numbers. starts_up_to p numbers ≡ true) (λ numbers. starts_up_to p numbers ≡ false) ranges.now result }
{
    ranges.partition_point(|numbers| Range::from(*numbers).start <= p)
}

fn are_inside(ranges: &[[u64; 3]], size: usize) -> bool
    ensures { result ≡ list_all (inside size) (map range_of ranges.now) }
{
    ranges
        .iter()
        .all(|numbers| Range::from(*numbers).is_inside(size))
}

fn are_ordered(ranges: &[[u64; 3]]) -> bool
    ensures { result ≡ ordered (map range_of ranges.now) }
{
    ranges.is_sorted_by(|numbers, next| Range::from(*numbers).is_followed_by(Range::from(*next)))
}

// Whether the list is right for the slice: whole, not too long, each range inside, ascending and not overlapping.
pub fn is_right(image: &[u8], ranges: &[u64]) -> bool
    ensures { result ≡ right (length image.now) ranges.now }
{
    let list = listed(ranges);
    if ranges.len() % 3 != 0 || MOST_RANGES < list.len() {
        return false;
    }
    are_inside(list, image.len()) && are_ordered(list)
}

// Memory as it is lent: the slice, with a list of ranges that is right for it. Every question about addresses is asked of it.
// What is read of the slice may outlive the list, which stays flat, three numbers for a range, as callers lend it.
#[derive(Clone, Copy)]
pub struct Memory<'a, 'r> {
    pub image: &'a [u8],
    pub ranges: &'r [u64],
    pub ghost right_ranges: { right (length image.now) ranges.now ≡ true },
}

impl<'a, 'r> Memory<'a, 'r> {
    // The slice with its list of ranges, unless the list is wrong.
    pub fn new(image: &'a [u8], ranges: &'r [u64]) -> Result<Memory<'a, 'r>, Refusal>
        ensures lent { IfOk result (λ memory. (memory.image.now ≡ image.now) × (memory.ranges.now ≡ ranges.now)) }
        ensures wrong { IfErr result (λ refusal. (refusal ≡ Refusal.WrongRanges) × (right (length image.now) ranges.now ≡ false)) }
    {
        if is_right(image, ranges) {
            Ok(Memory { image, ranges })
        } else {
            Err(Refusal::WrongRanges)
        }
    }

    // The last range that starts at the address or below. The ranges ascend, so no other can hold the address.
    #[inline(always)]
    fn last_up_to(self, p: u64) -> Option<Range>
        ensures { MatchOption result (place_of (ranges_of self.entry.ranges.now) p ≡ None)
            (λ range. (inside (length self.entry.image.now) range ≡ true)
            × (place_of (ranges_of self.entry.ranges.now) p ≡ when (holds range p) (Some (place_in range p)) None)) }
    {
        let ranges = listed(self.ranges);
        let starting = starting_up_to(ranges, p);
        let numbers = ranges[..starting].last()?;
        Some(Range::from(*numbers))
    }

    // Where the address stands, if a range holds it.
    #[inline(always)]
    pub fn locate(self, p: u64) -> Option<Place>
        ensures { result ≡ place_of (ranges_of self.entry.ranges.now) p }
    {
        let range = self.last_up_to(p)?;
        range.has(p).then(|| range.place(p))
    }

    // The place of an address, and all bytes from there to the end of its range, by one search: an empty slice where no range
    // holds the address, and no Option: unmapped and too short are one case (docs/DECISIONS.md, 2).
    #[inline(always)]
    pub fn look_up(self, p: u64) -> (Option<Place>, &'a [u8])
        ensures place { result.0 ≡ place_of (ranges_of self.entry.ranges.now) p }
        ensures bytes { result.1.now ≡ view_of self.entry.image.now self.entry.ranges.now p }
    {
        let place = self.locate(p);
        match place {
            Some(Place { offset, room }) => (place, &self.image[offset..offset + room]),
            None => (place, &self.image[..0]),
        }
    }

    // The bytes alone.
    #[inline(always)]
    pub fn view(self, p: u64) -> &'a [u8]
        ensures { result.now ≡ view_of self.entry.image.now self.entry.ranges.now p }
    {
        let (_, bytes) = self.look_up(p);
        bytes
    }

    // Up to where nothing is mapped, from an address on that no range holds: up to the start of the next range.
    pub fn unmapped_up_to(self, p: u64) -> u64
        ensures { place_of (ranges_of self.entry.ranges.now) p ≡ None → Unmapped self.entry.ranges.now p result }
    {
        let ranges = listed(self.ranges);
        let starting = starting_up_to(ranges, p);
        match ranges.get(starting) {
            Some(numbers) => Range::from(*numbers).start,
            None => u64::MAX,
        }
    }
}

// As `Memory::locate`, for whoever has slice and list apart. It asks for a right list, so there is nothing to refuse.
pub fn locate(image: &[u8], ranges: &[u64], p: u64) -> Option<Place>
    requires { right (length image.now) ranges.now ≡ true }
    ensures { result ≡ place_of (ranges_of ranges.now) p }
{
    Memory { image, ranges }.locate(p)
}

// As `Memory::view`, in the same way.
pub fn view<'a>(image: &'a [u8], ranges: &[u64], p: u64) -> &'a [u8]
    requires { right (length image.now) ranges.now ≡ true }
    ensures { result.now ≡ view_of image.now ranges.now p }
{
    Memory { image, ranges }.view(p)
}

// Asks field::is_text of every string of up to three bytes and of chosen ones of four, six and eight, and writes a line for each
// class. tests/reference/utf8.py writes the same lines with Python's own decoder, so the two have to agree on every string.
#![tactic(auto)]

ghost use Rattle.std.specs.Prelude.{◌≡◌, ◌≤◌, ◌<◌};
ghost use Rattle.utf8_cases.specs.Count.{Bounded, after_answer};

use std::io;

// What a line says of a class: how many strings it took, how many were well formed, and a checksum of the answers in order.
#[derive(Clone, Copy, Default)]
struct Tally {
    taken: u64,
    well_formed: u64,
    checksum: u64,
}

impl Tally {
    // The tally after one answer more.
    fn counted(self, ok: bool) -> Self
        requires { Bounded self }
        ensures { result ≡ after_answer self ok }
    {
        let addend = if ok { 1 } else { 2 };
        Tally {
            taken: self.taken + 1,
            well_formed: self.well_formed + u64::from(ok),
            checksum: (self.checksum * 31 + addend) % 1000000007,
        }
    }
}

// The strings of n bytes stand in counting order, so string k is the last n bytes of the number k, the highest first.
fn is_text_by_number(n: usize, k: u32) -> bool
    requires { n ≤ 4 }
{
    let four = k.to_be_bytes();
    field::is_text(&four[4 - n..])
}

// Each is the first or last value of some row of the table of well-formed sequences, or stands just outside of one.
const BOUNDARY_BYTES: [u8; 10] = [0x00, 0x7f, 0x80, 0x8f, 0x90, 0x9f, 0xa0, 0xbf, 0xc0, 0xff];

// A string of four bytes has a first byte from e0 on and three boundary bytes. The first byte is the slowest.
fn is_text_at_boundaries(k: u32) -> bool {
    let k = k as usize;
    let four = [
        (0xe0 + k / 1000 % 32) as u8,
        BOUNDARY_BYTES[k / 100 % 10],
        BOUNDARY_BYTES[k / 10 % 10],
        BOUNDARY_BYTES[k % 10],
    ];
    field::is_text(&four)
}

// Good pieces of every length at both ends of their rows, overlong forms, a surrogate, a number above 10ffff, a lone
// continuation byte and a cut-off piece. Letters A fill each up to four bytes, since the same letters follow it in a string.
const PIECES: [&[u8; 4]; 13] = [
    b"AAAA",
    b"\xc2\x80AA",
    b"\xdf\xbfAA",
    b"\xe0\xa0\x80A",
    b"\xed\x9f\xbfA",
    b"\xee\x80\x80A",
    b"\xf0\x90\x80\x80",
    b"\xf4\x8f\xbf\xbf",
    b"\xc0\x80AA",
    b"\xed\xa0\x80A",
    b"\xf4\x90\x80\x80",
    b"\x80AAA",
    b"\xf0\x90\x80A",
];

// A string of n bytes has a piece at an offset and letters A around it. What does not fit is cut off. Pieces stand in their order,
// each at every offset.
fn is_text_around(n: usize, k: u32) -> bool
    requires { (0 < n) × (n ≤ 8) }
{
    let k = k as usize;
    let offset = k % n;
    let mut letters = [b'A'; 12];
    letters[offset..offset + 4].copy_from_slice(PIECES[k / n % 13]);
    field::is_text(&letters[..n])
}

// The tally of the first strings of a class, of which a test says by their number whether each is well formed. The count is a u32,
// so that no sum of the tally can pass its bounds.
fn tally_of<F: Fn(u32) -> bool>(count: u32, is_text: F) -> Tally
    requires { F.IsAlwaysCallable is_text }
    ensures { result.taken ≡ count }
{
    let mut tally = Tally::default();
    for k in 0..count {
        tally = tally.counted(is_text(k));
    }
    tally
}

// Writes the line of a class that has so many strings.
fn report<F: Fn(u32) -> bool>(rt: &impl Print, name: &str, count: u32, is_text: F) -> io::Result<()>
    requires { F.IsAlwaysCallable is_text }
{
    let t = tally_of(count, is_text);
    println!(rt;
        "{name}: {} taken, {} well formed, checksum {}",
        t.taken, t.well_formed, t.checksum
    )
}

fn main(rt: HostRuntime) -> io::Result<()> {
    report(&rt, "length 0", 1, |k| is_text_by_number(0, k))?;
    report(&rt, "length 1", 256, |k| is_text_by_number(1, k))?;
    report(&rt, "length 2", 256 * 256, |k| is_text_by_number(2, k))?;
    report(
        &rt,
        "length 3",
        256 * 256 * 256,
        |k| is_text_by_number(3, k),
    )?;
    report(&rt, "four bytes", 32 * 10 * 10 * 10, is_text_at_boundaries)?;
    report(&rt, "six bytes", 13 * 6, |k| is_text_around(6, k))?;
    report(&rt, "eight bytes", 13 * 8, |k| is_text_around(8, k))
}

// The walk over UTF-8, a byte at a time: what is still expected of the sequence that has begun.
ghost use Rattle.std.specs.Prelude.{◌≡◌, ℕ, ◌<◌, ◌≤◌, List, ◌∷◌};
ghost use Rattle.field.specs.Text.{table, following_in, well_formed};
ghost use Rattle.field.specs.Walk.{spans_of, meaning, well_formed_after};

// So many bytes are left to come, and the next is from low to high; those behind it are from 80 to bf. Where none is left the
// bounds say nothing: an Option around them would be tested at each byte too.
#[derive(Clone, Copy)]
pub struct Expected {
    pub left: u8,
    pub low: u8,
    pub high: u8,
}

fn expect(left: u8, low: u8, high: u8) -> Option<Expected>
    ensures { result ≡ Some (record { left = left; low = low; high = high }) }
{
    Some(Expected { left, low, high })
}

// What is expected after a byte that begins a sequence, or nothing where none begins with it: the rows of the Unicode
// Standard's Table 3-7. Nearly all bytes of a table's text are letters, so the first row is told by one test.
pub fn begin(b: u8) -> Option<Expected>
    ensures { meaning result ≡ following_in table b }
{
    if b < 0x80 {
        return expect(0, 0x80, 0xbf);
    }
    match b {
        0xc2..=0xdf => expect(1, 0x80, 0xbf),
        0xe0 => expect(2, 0xa0, 0xbf),
        0xe1..=0xec => expect(2, 0x80, 0xbf),
        0xed => expect(2, 0x80, 0x9f),
        0xee..=0xef => expect(2, 0x80, 0xbf),
        0xf0 => expect(3, 0x90, 0xbf),
        0xf1..=0xf3 => expect(3, 0x80, 0xbf),
        0xf4 => expect(3, 0x80, 0x8f),
        _ => None,
    }
}

// What is expected after one byte more, or nothing where the bytes are not well formed.
pub fn next(e: Expected, b: u8) -> Option<Expected>
    ensures { (s : List ℕ) → well_formed (spans_of e) (b ∷ s) ≡ well_formed_after result s }
{
    let left = e.left;
    if left == 0 {
        return begin(b);
    }
    if b < e.low {
        return None;
    }
    if e.high < b {
        return None;
    }
    expect(left - 1, 0x80, 0xbf)
}

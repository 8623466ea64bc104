// Reads numbers, sums and text out of slices of bytes. Every other crate reads through these functions.
#![tactic(auto)]

mod utf8;

ghost use Rattle.std.specs.Prelude.{◌≡◌, ◌+◌, ◌%◌, ◌<◌, ◌≤◌, length, sum};
ghost use Rattle.field.specs.Number.{number};
ghost use Rattle.field.specs.Text.{text};

// The numbers of one, two, four and eight bytes at an offset, lowest byte first. Each width has a type of its own, whose
// method from_le_bytes does the work, so a trait over the four would only say these lines again. The bytes are named one by
// one, since a part of the slice would have to be unwrapped into an array. That they are inside is asked of each caller, in
// one clause: a type for an offset with room behind it would be made anew for each width.
pub fn u8_at(bytes: &[u8], at: usize) -> u8
    requires { at + 1 ≤ length bytes.now }
    ensures { result ≡ number bytes.now at 1 }
{
    bytes[at]
}

pub fn u16_at(bytes: &[u8], at: usize) -> u16
    requires { at + 2 ≤ length bytes.now }
    ensures { result ≡ number bytes.now at 2 }
{
    u16::from_le_bytes([bytes[at], bytes[at + 1]])
}

pub fn u32_at(bytes: &[u8], at: usize) -> u32
    requires { at + 4 ≤ length bytes.now }
    ensures { result ≡ number bytes.now at 4 }
{
    u32::from_le_bytes([bytes[at], bytes[at + 1], bytes[at + 2], bytes[at + 3]])
}

pub fn u64_at(bytes: &[u8], at: usize) -> u64
    requires { at + 8 ≤ length bytes.now }
    ensures { result ≡ number bytes.now at 8 }
{
    u64::from_le_bytes([
        bytes[at],
        bytes[at + 1],
        bytes[at + 2],
        bytes[at + 3],
        bytes[at + 4],
        bytes[at + 5],
        bytes[at + 6],
        bytes[at + 7],
    ])
}

// The sum of the bytes modulo 256, which is 0 for every table that is whole.
pub fn sum(bytes: &[u8]) -> u8
    ensures { result ≡ sum bytes.now % 256 }
{
    bytes.iter().fold(0, |total: u8, b| total.wrapping_add(*b))
}

// Whether the bytes are UTF-8.
pub fn is_text(bytes: &[u8]) -> bool
    ensures { result ≡ text bytes.now }
{
    let mut expected = utf8::Expected {
        left: 0,
        low: 0x80,
        high: 0xbf,
    };
    for b in bytes {
        match utf8::next(expected, *b) {
            Some(ahead) => expected = ahead,
            None => return false,
        }
    }
    expected.left == 0
}

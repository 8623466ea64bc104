// A question of a stored file as a program is asked it, and how an answer stands to the stored one.
ghost use Rattle.std.specs.Prelude.{◌≡◌, ◌↔◌, ◌<◌, ◌≤◌, ◌%◌, ◌^◌, All, IfSome, IsSome, IsTrue, MatchResult, OnSome, length, map, fold};
ghost use Rattle.std.specs.Int.{from_le_bytes, w64};
ghost use Rattle.cases.specs.Case.{IsOf, offset_of, with_patch};
ghost use Rattle.cases.specs.Values.{values_of};

use crate::record::{Image, Question};

// The stored answer as the file has it: its number, 0 where it has values, and its values. They stay in the file, eight bytes each,
// since most are only compared.
#[derive(Clone, Copy)]
pub struct Stored<'a> {
    pub number: u32,
    pub values: &'a [[u8; 8]],
}

// The number of an answer, and whether all of it is as the stored one.
#[derive(Clone, Copy)]
pub struct Outcome {
    pub number: u32,
    pub same: bool,
}

impl<'a> Stored<'a> {
    // Whether these are the stored values.
    fn has(&self, values: &[u64]) -> bool
        ensures { IsTrue result ↔ (values.now ≡ map (from_le_bytes w64) self.now.values.now) }
    {
        self.values.len() == values.len()
            && self
                .values
                .iter()
                .map(number)
                .zip(values)
                .all(|(stored, value)| stored == *value)
    }

    // A refusal stands in the file by its number, without values.
    pub fn outcome<const N: usize, E: Into<u32>>(&self, answer: Result<[u64; N], E>) -> Outcome
        ensures number { MatchResult answer (λ _. result.number ≡ 0) (λ e. E.converts e result.number) }
        ensures same { IsTrue result.same ↔ ((result.number ≡ self.now.number) × (values_of answer ≡ map (from_le_bytes w64) self.now.values.now)) }
    {
        match answer {
            Ok(values) => Outcome {
                number: 0,
                same: self.number == 0 && self.has(&values),
            },
            Err(refusal) => {
                let number = refusal.into();
                Outcome {
                    number,
                    same: self.number == number && self.values.is_empty(),
                }
            }
        }
    }
}

// What a question is asked about: the bytes of an image with its patches, its ranges, the question's number and its arguments. And
// the answer that is wanted. The number stays one: each program has questions of its own. The image stands in a room that lasts for
// the whole of a file, so a case takes no memory of its own. The other numbers stay in the file, eight bytes each, and `number` and
// `read_numbers` read those that a program asks for.
#[derive(Clone, Copy)]
pub struct Case<'i, 'f> {
    pub image: &'i [u8],
    pub ranges: &'f [[u8; 8]],
    pub id: u32,
    pub arguments: &'f [[u8; 8]],
    pub stored: Stored<'f>,
}

// The low four bytes of a number. The file has eight bytes for every number, and some mean one of four.
pub fn low(number: u64) -> u32
    ensures { result ≡ number % 2 ^ 32 }
{
    (number % 0x1_0000_0000) as u32
}

// The number that stands in a file, its lowest byte first.
pub fn number(bytes: &[u8; 8]) -> u64
    ensures { result ≡ from_le_bytes w64 bytes.now }
{
    u64::from_le_bytes(*bytes)
}

// Reads the numbers that stand in a file to the front of a room, in place of what stood there. None where the room is too small.
pub fn read_numbers<'a>(room: &'a mut [u64], bytes: &[[u8; 8]]) -> Option<&'a [u64]>
    ensures numbers { IfSome result (λ read. read.now ≡ map (from_le_bytes w64) bytes.now) }
    ensures fits { IsSome result ↔ (length bytes.now ≤ length room.old) }
{
    if room.len() < bytes.len() {
        return None;
    }
    let read = &mut room[..bytes.len()];
    for (i, place) in read.iter_mut().enumerate() {
        *place = number(&bytes[i]);
    }
    Some(read)
}

// Changes the byte that a patch names, by its offset and its value in four bytes each. None where the offset is outside. A test and
// no `get_mut`: that was tried, and the library's `get_mut` says nothing of what the slice ends as.
#[tactic(auto, unfolding(crate::specs::Case::offset_of))]
fn patch(image: &mut [u8], patch: &[u8; 8]) -> Option<()>
    ensures patched { OnSome result (image.new ≡ with_patch image.old patch.now) }
    ensures inside { IsSome result ↔ (offset_of patch.now < length image.old) }
{
    let [a, b, c, d, byte, ..] = *patch;
    let offset = u32::from_le_bytes([a, b, c, d]) as usize;
    if image.len() <= offset {
        return None;
    }
    image[offset] = byte;
    Some(())
}

fn patch_all(image: &mut [u8], patches: &[[u8; 8]]) -> Option<()>
    ensures patched { OnSome result (image.new ≡ fold with_patch image.old patches.now) }
    ensures inside { IsSome result ↔ All (λ p. offset_of p < length image.old) patches.now }
{
    for one in patches {
        patch(image, one)?;
    }
    Some(())
}

impl<'i, 'f> Case<'i, 'f> {
    // Every question has its image laid out anew, so no patch outlasts its question. The room that it is laid out in is lent. None
    // where the room is too small for the image, or the patches are not for it.
    pub(crate) fn new(room: &'i mut [u8], image: Image<'f>, question: Question<'f>) -> Option<Self>
        ensures value { IfSome result (IsOf image.entry question.entry) }
        ensures inside { IsSome result ↔ ((length image.entry.bytes.now ≤ length room.old) × All (λ p. offset_of p < length image.entry.bytes.now) question.entry.patches.now) }
    {
        if room.len() < image.bytes.len() {
            return None;
        }
        let laid_out = &mut room[..image.bytes.len()];
        laid_out.copy_from_slice(image.bytes);
        Case::laid_out(laid_out, image, question)
    }

    // The same where the image's bytes stand in the room already and fill it.
    pub(crate) fn laid_out(
        room: &'i mut [u8],
        image: Image<'f>,
        question: Question<'f>,
    ) -> Option<Self>
        requires { room.now ≡ image.bytes.now }
        ensures value { IfSome result (IsOf image.entry question.entry) }
        ensures inside { IsSome result ↔ All (λ p. offset_of p < length image.entry.bytes.now) question.entry.patches.now }
    {
        patch_all(room, question.patches)?;
        Some(Case {
            image: room,
            ranges: image.ranges,
            id: question.id,
            arguments: question.arguments,
            stored: Stored {
                number: question.answer,
                values: question.values,
            },
        })
    }
}

// The records of a stored file, as tests/reference/make_cases.py lays them out: images, each with the questions about it behind it.
// A record is taken only where all of it lies in the file, so a file that is cut off is noticed there.
ghost use Rattle.std.specs.Prelude.{◌≡◌, ◌↔◌, length, drop, replicate, IsTrue, OnSome};

// An image: the list of its ranges, three numbers each, and its bytes.
#[derive(Clone, Copy)]
pub struct Image<'a> {
    pub ranges: &'a [[u8; 8]],
    pub bytes: &'a [u8],
}

// A question: where it stands in the file, its number, what is changed in the image for it, what it is asked about, and the number
// and the values of the answer that is wanted.
#[derive(Clone, Copy)]
pub struct Question<'a> {
    pub at: usize,
    pub id: u32,
    pub patches: &'a [[u8; 8]],
    pub arguments: &'a [[u8; 8]],
    pub answer: u32,
    pub values: &'a [[u8; 8]],
}

#[derive(Clone, Copy)]
pub enum Record<'a> {
    Image(Image<'a>),
    Question(Question<'a>),
}

// Reads a file on from a place. Where what it wants to read is cut off, it may stand at any place behind.
#[derive(Clone, Copy)]
pub struct Reader<'a> {
    file: &'a [u8],
    at: usize,
}

impl<'a> Reader<'a> {
    ghost use Rattle.cases.specs.Reader.{Moves};

    pub fn new(file: &'a [u8]) -> Self
        ensures { (result.file.now ≡ file.now) × (result.at ≡ 0) }
    {
        Reader { file, at: 0 }
    }

    pub fn at(&self) -> usize
        ensures { result ≡ self.now.at }
    {
        self.at
    }

    fn bytes(&mut self, count: usize) -> Option<&'a [u8]>
        ensures { OnSome result (Moves self.old self.new count) }
    {
        let end = self.at.checked_add(count)?;
        let bytes = self.file.get(self.at..end)?;
        self.at = end;
        Some(bytes)
    }

    fn number(&mut self) -> Option<u32>
        ensures { OnSome result (Moves self.old self.new 4) }
    {
        let (number, _) = self.bytes(4)?.split_first_chunk()?;
        Some(u32::from_le_bytes(*number))
    }

    // A list of numbers of eight bytes each, behind their count.
    fn numbers(&mut self) -> Option<&'a [[u8; 8]]>
        ensures { OnSome result (Moves self.old self.new 4) }
    {
        let count = self.number()? as usize;
        let (numbers, _) = self.bytes(count * 8)?.as_chunks();
        Some(numbers)
    }

    // Zeros fill the bytes of an image up to a multiple of 4.
    fn image(&mut self) -> Option<Image<'a>>
        ensures { OnSome result (Moves self.old self.new 4) }
    {
        let ranges = self.numbers()?;
        let size = self.number()? as usize;
        let bytes = self.bytes(size)?;
        self.bytes(size.next_multiple_of(4) - size)?;
        Some(Image { ranges, bytes })
    }

    fn question(&mut self, at: usize) -> Option<Question<'a>>
        ensures { OnSome result (Moves self.old self.new 4) }
    {
        Some(Question {
            at,
            id: self.number()?,
            patches: self.numbers()?,
            arguments: self.numbers()?,
            answer: self.number()?,
            values: self.numbers()?,
        })
    }

    fn record(&mut self) -> Option<Record<'a>>
        ensures { OnSome result (Moves self.old self.new 4) }
    {
        let at = self.at;
        match self.number()? {
            1 => Some(Record::Image(self.image()?)),
            2 => Some(Record::Question(self.question(at)?)),
            _ => None,
        }
    }

    // Whether the record of the end stands here, and nothing behind it.
    pub fn is_at_end(&self) -> bool
        ensures { IsTrue result ↔ (drop self.now.at self.now.file.now ≡ replicate 4 0) }
    {
        self.file.get(self.at..) == Some(&[0; 4])
    }
}

// The records in order, up to the first that can't be read or is none.
impl<'a> Iterator for Reader<'a> {
    ghost use Rattle.std.specs.Prelude.{◌-◌};
    ghost use Rattle.std.specs.Iterator.{at_most};

    type Item = Record<'a>;

    ghost remaining = { λ reader. at_most (length reader.file.now - reader.at) };

    fn next(&mut self) -> Option<Record<'a>> {
        let mut ahead = *self;
        let record = ahead.record()?;
        *self = ahead;
        Some(record)
    }
}

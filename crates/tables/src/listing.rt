// The addresses that a root table lists.
ghost use Rattle.std.specs.Prelude.{◌≡◌, slice_get};
ghost use Rattle.std.specs.Iterator.{YieldsFirst, item_count};
ghost use Rattle.tables.specs.Root.{entries_in};

use crate::RootKind;

// The bytes behind the header of a root table, an address after the other. A cut-off rest is no address. It is an iterator of its
// own: the library's chunks with a closure over the kind would have no name as a result.
#[derive(Drop)]
pub struct Entries<'a> {
    pub kind: RootKind,
    pub bytes: &'a [u8],
}

impl<'a> Entries<'a> {
    // The k-th address, counted from 0, without a look at those before it.
    pub fn get(&self, k: u64) -> Option<u64>
        ensures { result ≡ slice_get (entries_in self.now.kind self.now.bytes.now) k }
    {
        let size = self.kind.size();
        if (self.bytes.len() / size) as u64 <= k {
            return None;
        }
        let at = k as usize * size;
        Some(self.kind.address(&self.bytes[at..at + size]))
    }
}

impl<'a> Iterator for Entries<'a> {
    type Item = u64;

    ghost next_gives = { YieldsFirst (λ s. entries_in s.kind s.bytes.now) };

    ghost remaining = { item_count (λ s. entries_in s.kind s.bytes.now) };

    #[inline(always)]
    fn next(&mut self) -> Option<u64> {
        let (entry, rest) = self.bytes.split_at_checked(self.kind.size())?;
        self.bytes = rest;
        Some(self.kind.address(entry))
    }
}

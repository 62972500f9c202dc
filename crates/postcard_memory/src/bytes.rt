//! Bytes that a caller lent to be read.

ghost use Rattle.std.specs.Prelude.{◌≡◌, ◌<◌, ◌≤◌, List, ℕ, ◌∷◌, length, take, drop};

use std::marker::{Model, PhantomData};
use std::slice;

/// The bytes of a `&'de [u8]` that are not taken yet. A contract sees the bytes.
#[derive(Drop)]
pub struct Bytes<'de> {
    start: *const u8,
    mark: PhantomData<&'de u8>,
    pub ghost items: { List ℕ },
}

impl<'de> Model for Bytes<'de> {
    ghost use Rattle.postcard_memory.specs.Read.{read_bytes, read_shared};

    ghost also_owns = { λ s. read_bytes 'de s.start s.items };

    ghost also_shares = { λ s p κ. read_shared 'de s.start s.items κ };
}

impl<'de> Bytes<'de> {
    /// Returns the bytes of this slice, of which none is taken yet.
    pub fn new(bytes: &'de [u8]) -> Bytes<'de>
        ensures { result.items ≡ bytes.now }
    {
        Bytes {
            start: bytes.as_ptr(),
            mark: PhantomData,
        }
    }

    /// Takes the first byte and returns it. At least one must be left.
    pub fn pop(&mut self) -> u8
        requires { 0 < length self.old.items }
        ensures { self.old.items ≡ result ∷ self.new.items }
    {
        let start = self.start;
        // SAFETY: a byte lies at `start`, so the next place is at most the end of the bytes.
        self.start = unsafe { start.add(1) };
        // SAFETY: as above, and the byte isn't written during 'de.
        unsafe { *start }
    }

    /// Takes the first `count` bytes and returns them. At least that many must be left.
    pub fn take(&mut self, count: usize) -> &'de [u8]
        requires { count ≤ length self.old.items }
        ensures taken { result.now ≡ take count self.old.items }
        ensures left { self.new.items ≡ drop count self.old.items }
    {
        let start = self.start;
        // SAFETY: at least `count` bytes lie at `start`.
        self.start = unsafe { start.add(count) };
        // SAFETY: as above, and they aren't written during 'de.
        unsafe { slice::from_raw_parts(start, count) }
    }

    /// Returns all bytes left; `len` must be their number.
    pub fn view(&self, len: usize) -> &[u8]
        requires { len ≡ length self.now.items }
        ensures { result.now ≡ self.now.items }
    {
        // SAFETY: `len` bytes lie at `start`, and they aren't written during 'de.
        unsafe { slice::from_raw_parts(self.start, len) }
    }

    /// Returns all bytes left, for as long as they were lent; `len` must be their number.
    pub fn whole(self, len: usize) -> &'de [u8]
        requires { len ≡ length self.items }
        ensures { result.now ≡ self.entry.items }
    {
        let Bytes { start, mark: _ } = self;
        // SAFETY: `len` bytes lie at `start`, and they aren't written during 'de.
        unsafe { slice::from_raw_parts(start, len) }
    }
}

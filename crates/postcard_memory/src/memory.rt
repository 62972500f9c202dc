//! Bytes that a caller lent to be written.

ghost use Rattle.std.specs.Prelude.{◌≡◌, List, ℕ, length};
ghost use Rattle.std.specs.Borrow.{GName};
ghost use base.Fml.{Lft};

use std::marker::Model;
use std::slice;

mod lends;
mod life;

pub use life::Life;

/// The bytes of a `&mut [u8]`. A contract sees the bytes, their loan, and how long it lasts: as
/// long as the [`Life`] that was made with the memory.
#[derive(Drop)]
pub struct Memory {
    /// Where the first byte lies.
    start: *mut u8,
    pub ghost time: { Lft },
    pub ghost loan: { GName },
    pub ghost items: { List ℕ },
}

impl Model for Memory {
    ghost use Rattle.postcard_memory.specs.Lent.{lent_bytes, bytes_shared};

    ghost also_owns = { λ s. lent_bytes s.time s.start s.loan s.items };

    ghost also_shares = { λ s p κ. bytes_shared s.time s.start s.loan s.items κ };
}

impl Memory {
    /// Takes a caller's bytes.
    pub fn new<'a>(buf: &'a mut [u8]) -> (Memory, &'a Life)
        ensures taken { (result.0.loan ≡ buf.entry.ghost_name) × (result.0.items ≡ buf.old) }
        ensures lasts { result.0.time ≡ result.1.now }
    {
        let start = buf.as_mut_ptr();
        // SAFETY: a `Life` has no bytes, so any place is one.
        let life = unsafe { &*(start as *const Life) };
        (Memory { start }, life)
    }

    /// Returns the reference that was lent, with the bytes as they are.
    pub fn whole<'a>(self, _life: &'a Life, len: usize) -> &'a mut [u8]
        requires { (self.time ≡ _life.now) × (len ≡ length self.items) }
        ensures { (result.ghost_name ≡ self.loan) × (result.now ≡ self.items) }
    {
        let Memory { start } = self;
        // SAFETY: `len` bytes lie at `start`, lent for 'a, and `self` is gone.
        unsafe { slice::from_raw_parts_mut(start, len) }
    }
}

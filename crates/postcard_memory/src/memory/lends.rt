//! The bytes are lent on, for as long as the memory is borrowed.

ghost use Rattle.std.specs.Prelude.{◌≡◌, ◌<◌, ◌^◌, length, slice_set, slice_index};
ghost use Rattle.postcard_memory.specs.{Array, Lends, sem, the_row, u8};

use super::{Life, Memory};
use std::slice;

impl Memory {
    /// Returns all `len` bytes, to be changed. The memory then holds what the borrower left there.
    pub fn lend<'a>(&'a mut self, _life: &'a Life, len: usize) -> &'a mut [u8]
        requires { (self.old.time ≡ _life.now) × (len ≡ length self.old.items) }
        ensures* writes_back { sem 𝓛 (Lends the_row
            (Array u8 0) self.entry result (λ w. record self.old { items = w })) }
        ensures value { result.now ≡ self.old.items }
    {
        // SAFETY: `len` bytes lie at `start`, and `self` is borrowed for as long as the result
        // lives.
        unsafe { slice::from_raw_parts_mut(self.start, len) }
    }

    /// Returns the byte at `place`, counted from 0, to be changed, as [`lend`](Memory::lend) does.
    pub fn at<'a>(&'a mut self, _life: &'a Life, place: usize) -> &'a mut u8
        requires { (self.old.time ≡ _life.now) × (place < length self.old.items) }
        ensures* writes_back { sem 𝓛 (Lends the_row u8
            self.entry result (λ w. record self.old { items = slice_set self.old.items place w })) }
        ensures value { result.now ≡ slice_index self.old.items place }
    {
        // SAFETY: the place is one of the bytes at `start`, and `self` is borrowed as above.
        unsafe { &mut *self.start.add(place) }
    }

    /// Returns all `len` bytes, to be read.
    pub fn view<'a>(&'a self, _life: &'a Life, len: usize) -> &'a [u8]
        requires lasts { self.now.time ≡ _life.now }
        requires counted { (len ≡ length self.now.items) × (len < 2 ^ 63) }
        ensures { result.now ≡ self.now.items }
    {
        // SAFETY: `len` bytes lie at `start`, and `self` is borrowed for as long as the result
        // lives.
        unsafe { slice::from_raw_parts(self.start, len) }
    }
}

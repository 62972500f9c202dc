//! The bytes of the whole slice by their place, to be read or changed.

ghost use Rattle.std.specs.Prelude.{◌≡◌, ◌<◌, [], length, slice_index, slice_set};

use crate::slice::Slice;
use std::ops::{Index, IndexMut};

impl<'a> Index<usize> for Slice<'a> {
    type Output = u8;

    ghost can_index = { λ s place. place < length s.buffer };

    ghost index_gives = { λ s place byte. byte ≡ slice_index s.buffer place };

    /// Returns the byte at `place` of the whole slice, also one that was not written yet.
    fn index(&self, place: usize) -> &u8 {
        let all = self.memory.view(self.life, self.len);
        &all[place]
    }
}

impl<'a> IndexMut<usize> for Slice<'a> {
    ghost use Rattle.std.specs.Borrow.{sem, Lends, u8 as byte_row};
    ghost use Rattle.postcard_ser_flavors.specs.contracts.slice.Slice.{the_row};
    ghost use mir.Syntax.{named};

    fn index_mut(&mut self, place: usize) -> &mut u8
        requires { place < length self.old.buffer }
        ensures* writes_back { sem 𝓛 (Lends (the_row (record { mir = named 1; lft = [] }))
            byte_row self.entry result
            (λ w. record self.old { buffer = slice_set self.old.buffer place w })) }
        ensures value { result.now ≡ slice_index self.old.buffer place }
    {
        self.memory.at(self.life, place)
    }
}

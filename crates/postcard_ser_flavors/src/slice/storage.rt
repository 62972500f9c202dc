//! The slice as a storage: what is written can still be changed.

ghost use Rattle.std.specs.Prelude.{◌≡◌, ◌<◌, length, slice_set};
ghost use Rattle.postcard_ser_flavors.specs.{HasFree, HasRoom, Reaches, SetsByte, held, slice_free};
ghost use Rattle.postcard_ser_flavors.specs.{slice_indexed, slice_storage};

use crate::slice::Slice;
use crate::storage::Storage;

impl<'a> Storage for Slice<'a> {
    ghost held = { held };

    ghost free = { HasFree };

    ghost free_lawful = { slice_free };

    fn set(&mut self, place: usize, byte: u8)
        requires { place < length (held self.old) }
        ensures sets_byte { SetsByte HasRoom Reaches held HasFree self.old place byte self.new }
        ensures only_byte_changed { self.new
            ≡ record self.old { buffer = slice_set self.old.buffer place byte } }
    {
        *self.memory.at(self.life, place) = byte;
    }

    fn held_len(&self) -> usize {
        self.position
    }

    ghost storage_lawful = { slice_storage };

    ghost indexed = { slice_indexed };
}

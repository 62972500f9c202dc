//! The writing flavor that adds a checksum.

ghost use Rattle.std.specs.Prelude.{◌≡◌};
ghost use Rattle.postcard_crc.specs.{Continues, EndsWithCrc, HasRoom, continues_join};
ghost use Rattle.postcard_crc.specs.{continues_none, front_has_room, rest_has_room};

use crate::trailer::trailer_of;
use crc::{Digest, Implementation, Table, Width};
use postcard_ser_flavors::Flavor;
use postcard_wire::Result;

/// Writes to another flavor, and adds the checksum of the message at its end. The checksum has all
/// bytes of its type, the lowest first.
///
/// It has room for a message if the inner flavor has room for both.
#[derive(Drop)]
pub struct CrcModifier<'a, B, W: Width, I: Implementation<W> = Table<W>> {
    pub flavor: B,
    /// The digest of the bytes so far. Its `finalize` is their checksum.
    pub digest: Digest<'a, W, I>,
}

impl<'a, B: Flavor + Drop, W: Width, I: Implementation<W>> CrcModifier<'a, B, W, I> {
    /// Returns a flavor that writes to `flavor`, and continues `digest`.
    pub fn new(flavor: B, digest: Digest<'a, W, I>) -> CrcModifier<'a, B, W, I>
        ensures flavor { result.flavor ≡ flavor }
        ensures digest { result.digest ≡ digest.entry }
    {
        CrcModifier { flavor, digest }
    }
}

impl<'a, B: Flavor + Drop, W: Width, I: Implementation<W>> Flavor for CrcModifier<'a, B, W, I> {
    type Output = B::Output;

    ghost appended = { λ s x t. B.appended s.flavor x t.flavor × Continues s.digest x t.digest };

    ghost room = { λ s x. HasRoom W.size B.room s.flavor x };

    ghost tidy = { ⊥ };

    ghost reaches = { λ s t. B.reaches s.flavor t.flavor };

    ghost finishes = { λ s output. EndsWithCrc B.Flavor W.size s.digest s.flavor output };

    ghost lawful = { record {
      appended_none = λ s. (B.lawful.appended_none s.flavor, continues_none s.digest);
      appended_join = λ s t u x y p q. (
        B.lawful.appended_join s.flavor t.flavor u.flavor x y p.0 q.0,
        continues_join s.digest t.digest u.digest x y p.1 q.1,
      );
      room_front = λ s x y r. front_has_room W.size B.lawful s.flavor x y r;
      room_rest = λ s t x y r p v. rest_has_room W.size B.lawful s.flavor t.flavor x y r p.0 v;
      reaches_self = λ s. B.lawful.reaches_self s.flavor;
      reaches_join = λ s t u p q. B.lawful.reaches_join s.flavor t.flavor u.flavor p q;
      reaches_prop = λ s t. B.lawful.reaches_prop s.flavor t.flavor;
    } };

    fn try_push(&mut self, byte: u8) -> Result<()> {
        self.try_extend(&[byte])
    }

    fn try_extend(&mut self, bytes: &[u8]) -> Result<()> {
        self.digest.update(bytes);
        self.flavor.try_extend(bytes)
    }

    /// Writes the checksum, ends the inner flavor, and returns its output. Fails with the inner
    /// flavor's error, such as `SerializeBufferFull`, if that refuses the bytes or can't end.
    fn finalize(self) -> Result<B::Output> {
        let CrcModifier { mut flavor, digest } = self;
        let trailer = trailer_of(digest.finalize());
        flavor.try_extend(&trailer.bytes[..trailer.len])?;
        flavor.finalize()
    }
}

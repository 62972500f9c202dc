//! A writing flavor that adds a byte at the end of a message.

ghost use Rattle.std.specs.Prelude.{[], ◌∷◌};
ghost use Rattle.example_types.specs.Trailer.{HasRoom, Ends, front_has_room, rest_has_room};

use postcard::Result;
use postcard::ser_flavors::Flavor;

/// Writes to another flavor, and adds a byte 0 at the end of the message.
///
/// It has room for a message if the inner flavor has room for the message's bytes and one more.
#[derive(Drop)]
pub struct Trailed<F> {
    /// The flavor to which all bytes are written.
    pub inner: F,
}

impl<F: Flavor + Drop> Flavor for Trailed<F> {
    type Output = F::Output;

    ghost appended = { λ s x t. F.appended s.inner x t.inner };

    ghost room = { λ s x. HasRoom F.room s.inner x };

    ghost tidy = { F.tidy };

    ghost reaches = { λ s t. F.reaches s.inner t.inner };

    ghost finishes = { λ s output. Ends F.Flavor s.inner (0 ∷ []) output };

    ghost lawful = { record {
      appended_none = λ s. F.lawful.appended_none s.inner;
      appended_join = λ s t u x y p q. F.lawful.appended_join s.inner t.inner u.inner x y p q;
      room_front = λ s x y r. front_has_room F.lawful s.inner x y r;
      room_rest = λ s t x y r p v. rest_has_room F.lawful s.inner t.inner x y r p v;
      reaches_self = λ s. F.lawful.reaches_self s.inner;
      reaches_join = λ s t u p q. F.lawful.reaches_join s.inner t.inner u.inner p q;
      reaches_prop = λ s t. F.lawful.reaches_prop s.inner t.inner;
    } };

    fn try_push(&mut self, byte: u8) -> Result<()> {
        self.inner.try_push(byte)
    }

    fn try_extend(&mut self, bytes: &[u8]) -> Result<()> {
        self.inner.try_extend(bytes)
    }

    /// Writes the byte 0, ends the inner flavor, and returns its output. Fails with the inner
    /// flavor's error, such as `SerializeBufferFull`, if that refuses the byte or can't end.
    fn finalize(self) -> Result<F::Output> {
        let mut inner = self.inner;
        inner.try_push(0)?;
        inner.finalize()
    }
}

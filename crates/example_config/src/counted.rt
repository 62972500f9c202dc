//! A writing flavor of a user that counts the bytes of a message.

ghost use Rattle.postcard_ser_flavors.specs.Counted.{Counts, CanCount, Rises, count_lawful};
ghost use Rattle.std.specs.Coded.{le_prop};
ghost use Rattle.std.specs.Prelude.{◌≡◌};

use postcard::ser_flavors::Flavor;
use postcard::{Error, Result};

/// Counts the bytes that are written to another flavor. Its output is that of the other flavor, and
/// the count.
///
/// It fails with `SerializeBufferFull` if the count would pass `usize::MAX`, and as the other
/// flavor does. After a failure the other flavor may have taken fewer bytes than were counted.
#[derive(Drop)]
pub struct Counted<F> {
    /// The flavor to which all bytes are written.
    pub inner: F,
    /// The number of bytes that were written so far.
    pub count: usize,
}

impl<F: Flavor + Drop> Flavor for Counted<F>
where
    F::Output: Drop,
{
    type Output = (F::Output, usize);

    ghost appended = { λ s x t. Counts s.count x t.count × F.appended s.inner x t.inner };

    ghost room = { λ s x. CanCount s.count x × F.room s.inner x };

    // A piece is counted also if the inner flavor refuses it.
    ghost tidy = { ⊥ };

    ghost reaches = { λ s t. Rises s.count t.count × F.reaches s.inner t.inner };

    ghost finishes = { λ s output. F.finishes s.inner output.0 × (output.1 ≡ s.count) };

    ghost lawful = { record {
      appended_none = λ s. (count_lawful.appended_none s.count, F.lawful.appended_none s.inner);
      appended_join = λ s t u x y p q. (
        count_lawful.appended_join s.count t.count u.count x y p.0 q.0,
        F.lawful.appended_join s.inner t.inner u.inner x y p.1 q.1,
      );
      room_front = λ s x y r. (
        count_lawful.room_front s.count x y r.0,
        F.lawful.room_front s.inner x y r.1,
      );
      room_rest = λ s t x y r p v. (
        count_lawful.room_rest s.count t.count x y r.0 p.0 v.0,
        F.lawful.room_rest s.inner t.inner x y r.1 p.1 v.1,
      );
      reaches_self = λ s. (count_lawful.reaches_self s.count, F.lawful.reaches_self s.inner);
      reaches_join = λ s t u p q. (
        count_lawful.reaches_join s.count t.count u.count p.0 q.0,
        F.lawful.reaches_join s.inner t.inner u.inner p.1 q.1,
      );
      reaches_prop = λ s t. Prim.hlevel (le_prop, F.lawful.reaches_prop);
    } };

    fn try_push(&mut self, byte: u8) -> Result<()> {
        self.try_extend(&[byte])
    }

    fn try_extend(&mut self, bytes: &[u8]) -> Result<()> {
        let Some(count) = self.count.checked_add(bytes.len()) else {
            return Err(Error::SerializeBufferFull);
        };
        self.count = count;
        self.inner.try_extend(bytes)
    }

    fn finalize(self) -> Result<(F::Output, usize)> {
        let Counted { inner, count } = self;
        Ok((inner.finalize()?, count))
    }
}

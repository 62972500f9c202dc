//! A writing flavor of a user that limits the bytes of a message.

ghost use Rattle.std.proofs.Common.{le_refl, le_trans, length-append, arith};
ghost use Rattle.std.specs.Coded.{le_prop};
ghost use Rattle.std.specs.Prelude.{◌≡◌, ◌+◌, ◌≤◌, length};

use postcard::ser_flavors::Flavor;
use postcard::{Error, Result};

/// Writes at most a given number of bytes to another flavor.
///
/// A piece that would exceed the limit is refused with `SerializeBufferFull`, and nothing of it is
/// written.
#[derive(Drop)]
pub struct Limited<F> {
    /// The flavor to which all bytes are written.
    pub inner: F,
    /// The number of bytes that may still be written.
    pub limit: usize,
}

impl<F: Flavor + Drop> Flavor for Limited<F> {
    type Output = F::Output;

    ghost appended = { λ s x t. (s.limit ≡ t.limit + length x) × F.appended s.inner x t.inner };

    ghost room = { λ s x. (length x ≤ s.limit) × F.room s.inner x };

    // A piece lowers the limit also if the inner flavor refuses it.
    ghost tidy = { ⊥ };

    ghost reaches = { λ s t. (t.limit ≤ s.limit) × F.reaches s.inner t.inner };

    ghost finishes = { λ s output. F.finishes s.inner output };

    ghost lawful = { record {
      appended_none = λ s. (Prim.omega arith, F.lawful.appended_none s.inner);
      appended_join = λ s t u x y p q. (
        Prim.omega (arith, length-append x y),
        F.lawful.appended_join s.inner t.inner u.inner x y p.1 q.1,
      );
      room_front = λ s x y r. (
        Prim.omega (arith, length-append x y),
        F.lawful.room_front s.inner x y r.1,
      );
      room_rest = λ s t x y r p v. (
        Prim.omega (arith, length-append x y),
        F.lawful.room_rest s.inner t.inner x y r.1 p.1 v.1,
      );
      reaches_self = λ s. (le_refl s.limit, F.lawful.reaches_self s.inner);
      reaches_join = λ s t u p q. (
        le_trans q.0 p.0,
        F.lawful.reaches_join s.inner t.inner u.inner p.1 q.1,
      );
      reaches_prop = λ s t. Prim.hlevel (le_prop, F.lawful.reaches_prop);
    } };

    fn try_push(&mut self, byte: u8) -> Result<()> {
        self.try_extend(&[byte])
    }

    fn try_extend(&mut self, bytes: &[u8]) -> Result<()> {
        if bytes.len() > self.limit {
            return Err(Error::SerializeBufferFull);
        }
        self.limit -= bytes.len();
        self.inner.try_extend(bytes)
    }

    fn finalize(self) -> Result<F::Output> {
        self.inner.finalize()
    }
}

//! A user's own reading flavor, which reads at most a given number of bytes of another.

ghost use Rattle.std.proofs.Common.{le_refl, le_trans};
ghost use Rattle.std.specs.Prelude.{◌≤◌, min, option_map, take};

use postcard::de_flavors::Flavor;
use postcard::{Error, Result};

/// Reads at most a given number of bytes of another flavor, and then fails with
/// `DeserializeUnexpectedEnd`.
///
/// A call for more bytes than the limit allows fails and changes nothing. `finalize` is that of the
/// inner flavor, which still has the bytes after the limit.
#[derive(Drop)]
pub struct Limited<F> {
    /// The flavor from which the bytes come.
    pub inner: F,
    /// The number of bytes that may still be read. A call lowers it by the number of bytes that it
    /// asks the inner flavor for, also if that fails.
    pub limit: usize,
}

impl<F: Flavor> Flavor for Limited<F> {
    type Remainder = F::Remainder;

    type Source = F::Source;

    ghost left = { λ s. record {
      bytes = option_map (take s.limit) (F.left s.inner).bytes;
      scratch = (F.left s.inner).scratch;
    } };

    ghost able = { λ s n. (n ≤ s.limit) × F.able s.inner n };

    ghost may_leave = { λ s t. (t.limit ≤ s.limit) × F.may_leave s.inner t.inner };

    ghost finishes = { λ s result. F.finishes s.inner result };

    ghost hint = { λ s. option_map (λ n. min n s.limit) (F.hint s.inner) };

    ghost lawful = { record {
      fewer = λ s m n le a. (le_trans le a.0, F.lawful.fewer s.inner m n le a.1);
      itself = λ s. (le_refl s.limit, F.lawful.itself s.inner);
      joins = λ s t u a b. (le_trans b.0 a.0, F.lawful.joins s.inner t.inner u.inner a.1 b.1);
    } };

    fn pop(&mut self) -> Result<u8> {
        if self.limit == 0 {
            return Err(Error::DeserializeUnexpectedEnd);
        }
        self.limit -= 1;
        self.inner.pop()
    }

    fn size_hint(&self) -> Option<usize> {
        Some(self.inner.size_hint()?.min(self.limit))
    }

    fn try_take_n<'de>(&mut self, ct: usize) -> Result<&'de [u8]>
    where
        Self: 'de,
    {
        if ct > self.limit {
            return Err(Error::DeserializeUnexpectedEnd);
        }
        self.limit -= ct;
        self.inner.try_take_n(ct)
    }

    fn try_take_n_temp(&mut self, ct: usize) -> Result<&[u8]> {
        if ct > self.limit {
            return Err(Error::DeserializeUnexpectedEnd);
        }
        self.limit -= ct;
        self.inner.try_take_n_temp(ct)
    }

    fn finalize(self) -> Result<F::Remainder> {
        self.inner.finalize()
    }
}

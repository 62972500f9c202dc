//! A user's own writing flavor, which writes to two others.

use postcard::Result;
use postcard::ser_flavors::Flavor;

/// Writes all bytes to two flavors. Its output is the pair of their outputs.
///
/// It fails as soon as one of the two fails. The first may then have bytes that the second hasn't.
#[derive(Drop)]
pub struct Both<F, G> {
    /// The flavor that is written to first.
    pub first: F,
    /// The flavor that is written to second.
    pub second: G,
}

impl<F: Flavor + Drop, G: Flavor + Drop> Flavor for Both<F, G>
where
    F::Output: Drop,
{
    type Output = (F::Output, G::Output);

    ghost appended = { λ s x t. F.appended s.first x t.first × G.appended s.second x t.second };

    ghost room = { λ s x. F.room s.first x × G.room s.second x };

    // Bytes that the second flavor refuses are already in the first.
    ghost tidy = { ⊥ };

    ghost reaches = { λ s t. F.reaches s.first t.first × G.reaches s.second t.second };

    ghost finishes = { λ s output. F.finishes s.first output.0 × G.finishes s.second output.1 };

    ghost lawful = { record {
      appended_none = λ s. (F.lawful.appended_none s.first, G.lawful.appended_none s.second);
      appended_join = λ s t u x y p q. (
        F.lawful.appended_join s.first t.first u.first x y p.0 q.0,
        G.lawful.appended_join s.second t.second u.second x y p.1 q.1,
      );
      room_front = λ s x y r. (
        F.lawful.room_front s.first x y r.0,
        G.lawful.room_front s.second x y r.1,
      );
      room_rest = λ s t x y r p v. (
        F.lawful.room_rest s.first t.first x y r.0 p.0 v.0,
        G.lawful.room_rest s.second t.second x y r.1 p.1 v.1,
      );
      reaches_self = λ s. (F.lawful.reaches_self s.first, G.lawful.reaches_self s.second);
      reaches_join = λ s t u p q. (
        F.lawful.reaches_join s.first t.first u.first p.0 q.0,
        G.lawful.reaches_join s.second t.second u.second p.1 q.1,
      );
      reaches_prop = λ s t. Prim.hlevel (F.lawful.reaches_prop, G.lawful.reaches_prop);
    } };

    fn try_push(&mut self, byte: u8) -> Result<()> {
        self.first.try_push(byte)?;
        self.second.try_push(byte)
    }

    fn try_extend(&mut self, bytes: &[u8]) -> Result<()> {
        self.first.try_extend(bytes)?;
        self.second.try_extend(bytes)
    }

    fn finalize(self) -> Result<(F::Output, G::Output)> {
        let Both { first, second } = self;
        Ok((first.finalize()?, second.finalize()?))
    }
}

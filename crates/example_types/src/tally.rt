//! A list of lists whose elements have no bytes, with capacities as bounds.

use arrayvec::ArrayVec;
use postcard::ser_flavors::Flavor;
use postcard::{FromRepr, Repr, Result, Serialize, SerializeRepr, Serializer};

/// The strokes of a tally, in rows.
#[derive(Debug, Drop, PartialEq)]
pub struct Tally {
    /// At most 8 rows of at most 5 strokes. A stroke has no bytes, so even a short message can
    /// announce a row of 2^64 - 1 of them. With the capacity the 6th is refused, where a `Vec`
    /// would take them all.
    pub rows: ArrayVec<ArrayVec<(), 5>, 8>,
}

impl Repr for Tally {
    type As = ArrayVec<ArrayVec<(), 5>, 8>;

    ghost repr = { λ v. v.rows };
}

impl FromRepr for Tally {
    fn from_repr(rows: Self::As) -> Self {
        Tally { rows }
    }
}

impl SerializeRepr for Tally {
    fn serialize_repr<F: Flavor>(&self, serializer: &mut Serializer<F>) -> Result<()> {
        self.rows.serialize(serializer)
    }
}

//! A struct with an unsigned number of each width but 128 bits.

use postcard::ser_flavors::Flavor;
use postcard::{FromRepr, Repr, Result, Serialize, SerializeRepr, Serializer};

/// An unsigned number of each width but 128 bits.
#[derive(Clone, Debug, Drop, PartialEq)]
pub struct BasicU8S {
    /// A number of 16 bits.
    pub st: u16,
    /// A number of 8 bits.
    pub ei: u8,
    /// A number of 64 bits.
    pub sf: u64,
    /// A number of 32 bits.
    pub tt: u32,
}

impl Repr for BasicU8S {
    type As = (u16, u8, u64, u32);

    ghost repr = { λ v. (v.st, v.ei, v.sf, v.tt) };
}

impl FromRepr for BasicU8S {
    fn from_repr((st, ei, sf, tt): Self::As) -> Self {
        BasicU8S { st, ei, sf, tt }
    }
}

impl SerializeRepr for BasicU8S {
    fn serialize_repr<F: Flavor>(&self, serializer: &mut Serializer<F>) -> Result<()> {
        (self.st, self.ei, self.sf, self.tt).serialize(serializer)
    }
}

//! A struct with an unsigned number of each width.

use postcard::ser_flavors::Flavor;
use postcard::{FromRepr, Repr, Result, Serialize, SerializeRepr, Serializer};

/// An unsigned number of each width.
#[derive(Clone, Debug, Drop, PartialEq)]
pub struct WideU8S {
    /// A number of 16 bits.
    pub st: u16,
    /// A number of 8 bits.
    pub ei: u8,
    /// A number of 128 bits.
    pub ote: u128,
    /// A number of 64 bits.
    pub sf: u64,
    /// A number of 32 bits.
    pub tt: u32,
}

impl Repr for WideU8S {
    type As = (u16, u8, u128, u64, u32);

    ghost repr = { λ v. (v.st, v.ei, v.ote, v.sf, v.tt) };
}

impl FromRepr for WideU8S {
    fn from_repr((st, ei, ote, sf, tt): Self::As) -> Self {
        WideU8S {
            st,
            ei,
            ote,
            sf,
            tt,
        }
    }
}

impl SerializeRepr for WideU8S {
    fn serialize_repr<F: Flavor>(&self, serializer: &mut Serializer<F>) -> Result<()> {
        (self.st, self.ei, self.ote, self.sf, self.tt).serialize(serializer)
    }
}

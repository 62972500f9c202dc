//! A struct of eight fields: numbers with and without a sign.

use postcard::ser_flavors::Flavor;
use postcard::{FromRepr, Repr, Result, Serialize, SerializeRepr, Serializer};

/// A number of each width from 8 to 64 bits, with and without a sign.
#[derive(Debug, Drop, PartialEq)]
pub struct Numbers {
    /// A number of 8 bits without a sign: one byte.
    pub byte: u8,
    /// A number of 8 bits with a sign: one byte in two's complement.
    pub signed_byte: i8,
    /// A number of 16 bits without a sign: a varint.
    pub short: u16,
    /// A number of 16 bits with a sign: zigzag, and then a varint.
    pub signed_short: i16,
    /// A number of 32 bits without a sign.
    pub word: u32,
    /// A number of 32 bits with a sign.
    pub signed_word: i32,
    /// A number of 64 bits without a sign.
    pub long: u64,
    /// A number of 64 bits with a sign.
    pub signed_long: i64,
}

impl Repr for Numbers {
    type As = (u8, i8, u16, i16, u32, i32, u64, i64);

    ghost repr = { λ v. (
      v.byte,
      v.signed_byte,
      v.short,
      v.signed_short,
      v.word,
      v.signed_word,
      v.long,
      v.signed_long,
    ) };
}

impl FromRepr for Numbers {
    fn from_repr(repr: Self::As) -> Self {
        let (byte, signed_byte, short, signed_short, word, signed_word, long, signed_long) = repr;
        Numbers {
            byte,
            signed_byte,
            short,
            signed_short,
            word,
            signed_word,
            long,
            signed_long,
        }
    }
}

impl SerializeRepr for Numbers {
    fn serialize_repr<F: Flavor>(&self, serializer: &mut Serializer<F>) -> Result<()> {
        (
            self.byte,
            self.signed_byte,
            self.short,
            self.signed_short,
            self.word,
            self.signed_word,
            self.long,
            self.signed_long,
        )
            .serialize(serializer)
    }
}

//! Numbers at their full width, the lowest byte first: little-endian.

ghost use Rattle.std.specs.Prelude.{◌≡◌, OnOk};
ghost use Rattle.postcard_fixint.specs.{DeserializesNode, Wrote, fixed, fixed_node, little, never};

use crate::array::ByteArray;
use crate::number::FixInt;
use postcard_de::{Deserialize, DeserializeOwned, Deserializer};
use postcard_ser::{Serialize, Serializer};
use postcard_shape::Shaped;
use postcard_shape::blocks::{self, OfBytes};
use postcard_wire::Result;
use std::alloc::Global;
use std::marker::Model;

/// A number that is written with the lowest byte first, as the [crate's page](crate) says. A
/// contract sees the number.
#[derive(Debug, Drop)]
pub struct LE<T>(T);

impl<T> Model for LE<T> {
    ghost Value = { T };

    ghost view = { λ v. v.0 };
}

impl<T: FixInt> LE<T> {
    /// Wraps a number.
    pub fn new(value: T) -> LE<T>
        ensures { result ≡ value }
    {
        LE(value)
    }

    /// Returns the wrapped number.
    pub fn get(self) -> T
        ensures { result ≡ self }
    {
        self.0
    }
}

impl<T: FixInt> OfBytes for LE<T> {
    ghost size = { T.Bytes.size };

    ghost form = { fixed little T.width };

    #[inline(always)]
    fn size() -> usize {
        T::Bytes::size()
    }

    #[inline(always)]
    fn from_front(bytes: &[u8]) -> Self {
        LE(T::decode_le(T::Bytes::from_front(bytes)))
    }
}

impl<T: FixInt> Shaped for LE<T> {
    ghost shape = { fixed little T.width };

    #[inline(always)]
    fn append_at_hand(items: &mut Vec<Self>, bytes: &[u8], most: usize) -> Result<Option<usize>> {
        blocks::append(items, bytes, most)
    }
}

impl<T: FixInt> Serialize for LE<T> {
    fn serialize<F: postcard_ser::Flavor>(&self, serializer: &mut Serializer<F>) -> Result<()> {
        self.0.encode_le().serialize(serializer)
    }
}

impl<'de, T: FixInt> Deserialize<'de> for LE<T> {
    fn deserialize<F: postcard_de::Flavor>(
        alloc: Global,
        d: &mut Deserializer<'de, F>,
    ) -> Result<Self>
        ensures { DeserializesNode F.Flavor (fixed_node little T.width) d.old result d.new }
    {
        LE::deserialize_owned(alloc, d)
    }
}

impl<T: FixInt> DeserializeOwned for LE<T> {
    fn deserialize_owned<'de, F: postcard_de::Flavor>(
        _alloc: Global,
        d: &mut Deserializer<'de, F>,
    ) -> Result<Self>
        ensures { DeserializesNode F.Flavor (fixed_node little T.width) d.old result d.new }
    {
        let bytes = T::Bytes::read(d)?;
        Ok(LE(T::decode_le(bytes)))
    }
}

/// Writes a number as [`LE`] does. Fails with `SerializeBufferFull` if the flavor refuses the
/// bytes.
#[tactic(auto, using(crate::proofs::Spelled::bytes_of_bytes))]
pub fn serialize<T: FixInt, F: postcard_ser::Flavor>(
    value: &T,
    serializer: &mut Serializer<F>,
) -> Result<()>
    ensures wrote { Wrote F.Flavor serializer.old.output
        (little.spell T.width.size (T.width.modulo value.now)) never ⊥ result serializer.new.output }
    ensures fits { OnOk result (T.width.fits value.now) }
{
    LE(*value).serialize(serializer)
}

/// Reads a number as [`LE`] does. Fails with `DeserializeUnexpectedEnd` if the source can't give
/// that many bytes; some of them may have been taken then.
pub fn deserialize<'de, T: FixInt, F: postcard_de::Flavor>(
    alloc: Global,
    d: &mut Deserializer<'de, F>,
) -> Result<T>
    ensures { DeserializesNode F.Flavor (fixed_node little T.width) d.old result d.new }
{
    let value = <LE<T>>::deserialize_owned(alloc, d)?;
    Ok(value.get())
}

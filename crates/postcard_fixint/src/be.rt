//! Numbers at their full width, the highest byte first: big-endian.

ghost use Rattle.std.specs.Prelude.{◌≡◌, OnOk};
ghost use Rattle.postcard_fixint.specs.{DeserializesNode, Wrote, big, fixed, fixed_node, never};

use crate::array::ByteArray;
use crate::number::FixInt;
use postcard_de::{Deserialize, DeserializeOwned, Deserializer};
use postcard_ser::{Serialize, Serializer};
use postcard_shape::Shaped;
use postcard_shape::blocks::{self, OfBytes};
use postcard_wire::Result;
use std::alloc::Global;
use std::marker::Model;

/// A number that is written with the highest byte first, as the [crate's page](crate) says. A
/// contract sees the number.
#[derive(Debug, Drop)]
pub struct BE<T>(T);

impl<T> Model for BE<T> {
    ghost Value = { T };

    ghost view = { λ v. v.0 };
}

impl<T: FixInt> BE<T> {
    /// Wraps a number.
    pub fn new(value: T) -> BE<T>
        ensures { result ≡ value }
    {
        BE(value)
    }

    /// Returns the wrapped number.
    pub fn get(self) -> T
        ensures { result ≡ self }
    {
        self.0
    }
}

impl<T: FixInt> OfBytes for BE<T> {
    ghost size = { T.Bytes.size };

    ghost form = { fixed big T.width };

    #[inline(always)]
    fn size() -> usize {
        T::Bytes::size()
    }

    #[inline(always)]
    fn from_front(bytes: &[u8]) -> Self {
        BE(T::decode_be(T::Bytes::from_front(bytes)))
    }
}

impl<T: FixInt> Shaped for BE<T> {
    ghost shape = { fixed big T.width };

    #[inline(always)]
    fn append_at_hand(items: &mut Vec<Self>, bytes: &[u8], most: usize) -> Result<Option<usize>> {
        blocks::append(items, bytes, most)
    }
}

impl<T: FixInt> Serialize for BE<T> {
    fn serialize<F: postcard_ser::Flavor>(&self, serializer: &mut Serializer<F>) -> Result<()> {
        self.0.encode_be().serialize(serializer)
    }
}

impl<'de, T: FixInt> Deserialize<'de> for BE<T> {
    fn deserialize<F: postcard_de::Flavor>(
        alloc: Global,
        d: &mut Deserializer<'de, F>,
    ) -> Result<Self>
        ensures { DeserializesNode F.Flavor (fixed_node big T.width) d.old result d.new }
    {
        BE::deserialize_owned(alloc, d)
    }
}

impl<T: FixInt> DeserializeOwned for BE<T> {
    fn deserialize_owned<'de, F: postcard_de::Flavor>(
        _alloc: Global,
        d: &mut Deserializer<'de, F>,
    ) -> Result<Self>
        ensures { DeserializesNode F.Flavor (fixed_node big T.width) d.old result d.new }
    {
        let bytes = T::Bytes::read(d)?;
        Ok(BE(T::decode_be(bytes)))
    }
}

/// Writes a number as [`BE`] does. Fails with `SerializeBufferFull` if the flavor refuses the
/// bytes.
#[tactic(auto, using(crate::proofs::Spelled::bytes_of_bytes))]
pub fn serialize<T: FixInt, F: postcard_ser::Flavor>(
    value: &T,
    serializer: &mut Serializer<F>,
) -> Result<()>
    ensures wrote { Wrote F.Flavor serializer.old.output
        (big.spell T.width.size (T.width.modulo value.now)) never ⊥ result serializer.new.output }
    ensures fits { OnOk result (T.width.fits value.now) }
{
    BE(*value).serialize(serializer)
}

/// Reads a number as [`BE`] does. Fails with `DeserializeUnexpectedEnd` if the source can't give
/// that many bytes; some of them may have been taken then.
pub fn deserialize<'de, T: FixInt, F: postcard_de::Flavor>(
    alloc: Global,
    d: &mut Deserializer<'de, F>,
) -> Result<T>
    ensures { DeserializesNode F.Flavor (fixed_node big T.width) d.old result d.new }
{
    let value = <BE<T>>::deserialize_owned(alloc, d)?;
    Ok(value.get())
}

//! Arrays, and vectors and texts of a fixed capacity.

ghost use Rattle.postcard_de.specs.{DeserializesNode, seen_node, short_text_node};

use crate::deserialize::Deserialize;
use crate::deserializer::Deserializer;
use crate::owned::DeserializeOwned;
use crate::read_element::{ByDeserialize, ByDeserializeOwned};
use arrayvec::{ArrayString, ArrayVec};
use postcard_de_flavors::Flavor;
use postcard_de_nodes::texts;
use postcard_wire::Result;
use std::alloc::Global;

impl<'de, T: Deserialize<'de> + Copy + Default, const N: usize> Deserialize<'de> for [T; N] {
    fn deserialize<F: Flavor>(alloc: Global, d: &mut Deserializer<'de, F>) -> Result<Self> {
        d.array::<T, ByDeserialize, N>(alloc)
    }
}

impl<T: DeserializeOwned + Copy + Default, const N: usize> DeserializeOwned for [T; N] {
    fn deserialize_owned<'de, F: Flavor>(
        alloc: Global,
        d: &mut Deserializer<'de, F>,
    ) -> Result<Self> {
        d.array::<T, ByDeserializeOwned, N>(alloc)
    }
}

/// Fails with `SerdeDeCustom` if the list has more elements than the capacity, once the first
/// element that doesn't fit has been read.
impl<'de, T: Deserialize<'de> + Default, const CAP: usize> Deserialize<'de> for ArrayVec<T, CAP> {
    fn deserialize<F: Flavor>(alloc: Global, d: &mut Deserializer<'de, F>) -> Result<Self> {
        d.array_vec::<T, ByDeserialize, CAP>(alloc)
    }
}

impl<T: DeserializeOwned + Default, const CAP: usize> DeserializeOwned for ArrayVec<T, CAP> {
    fn deserialize_owned<'de, F: Flavor>(
        alloc: Global,
        d: &mut Deserializer<'de, F>,
    ) -> Result<Self> {
        d.array_vec::<T, ByDeserializeOwned, CAP>(alloc)
    }
}

/// Fails with `SerdeDeCustom` if the text has more bytes than the capacity, once its bytes were
/// taken and found to be UTF-8.
impl<'de, const CAP: usize> Deserialize<'de> for ArrayString<CAP> {
    fn deserialize<F: Flavor>(_alloc: Global, d: &mut Deserializer<'de, F>) -> Result<Self>
        ensures { DeserializesNode F.Flavor (seen_node (λ v. v.bytes) (short_text_node CAP))
            d.old result d.new }
    {
        texts::short_text(&mut d.flavor)
    }
}

impl<const CAP: usize> DeserializeOwned for ArrayString<CAP> {
    fn deserialize_owned<'de, F: Flavor>(
        alloc: Global,
        d: &mut Deserializer<'de, F>,
    ) -> Result<Self>
        ensures { DeserializesNode F.Flavor (seen_node (λ v. v.bytes) (short_text_node CAP))
            d.old result d.new }
    {
        <ArrayString<CAP>>::deserialize(alloc, d)
    }
}

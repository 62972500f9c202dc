//! Heaps: the number of the elements, a varint, and then the elements in the order in which the
//! heap keeps them.

use crate::serialize::Serialize;
use crate::serializer::Serializer;
use postcard_ser_flavors::Flavor;
use postcard_wire::Result;
use std::collections::BinaryHeap;

impl<T: Serialize + Ord> Serialize for BinaryHeap<T> {
    fn serialize<F: Flavor>(&self, serializer: &mut Serializer<F>) -> Result<()> {
        let items = self.as_slice();
        items.serialize(serializer)
    }
}

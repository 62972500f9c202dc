//! Heaps: `BinaryHeap<T>`, read as a list of its elements.

ghost use Rattle.std.specs.Prelude.{IfOk, IsOkUnless};
ghost use Rattle.postcard_de.specs.{Error, IsPermutation, heap_items};

use crate::deserialize::Deserialize;
use crate::deserializer::Deserializer;
use crate::owned::DeserializeOwned;
use postcard_de_flavors::Flavor;
use postcard_wire::Result;
use std::alloc::Global;
use std::collections::BinaryHeap;

fn heap_of<T: Ord + Drop>(alloc: Global, items: Vec<T>) -> Result<BinaryHeap<T>>
    ensures items { IfOk result (λ heap. IsPermutation items.items (heap_items heap)) }
    ensures only_out_of_memory { IsOkUnless result Error.OutOfMemory }
{
    let mut heap = BinaryHeap::new(alloc);
    for item in items {
        heap.push(item)?;
    }
    Ok(heap)
}

/// Reads the elements in any order, and puts them into a heap in the order in which they were read,
/// as the Rust crate does.
impl<'de, T: Deserialize<'de> + Ord> Deserialize<'de> for BinaryHeap<T> {
    fn deserialize<F: Flavor>(alloc: Global, d: &mut Deserializer<'de, F>) -> Result<Self> {
        let items = <Vec<T>>::deserialize(alloc, d)?;
        heap_of(alloc, items)
    }
}

impl<T: DeserializeOwned + Ord> DeserializeOwned for BinaryHeap<T> {
    fn deserialize_owned<'de, F: Flavor>(
        alloc: Global,
        d: &mut Deserializer<'de, F>,
    ) -> Result<Self> {
        let elements = <Vec<T>>::deserialize_owned(alloc, d)?;
        heap_of(alloc, elements)
    }
}

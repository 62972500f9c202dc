//! Lists of any length: `Vec<T>`, `VecDeque<T>`, `LinkedList<T>`, and `&[u8]`, which borrows from
//! the source.

ghost use Rattle.std.specs.Prelude.{◌≡◌, IfOk, IsOkUnless};
ghost use Rattle.postcard_de.specs.{DeserializesNode, lent_bytes_node};

use crate::deserialize::Deserialize;
use crate::deserializer::Deserializer;
use crate::owned::DeserializeOwned;
use crate::read_element::{ByDeserialize, ByDeserializeOwned};
use postcard_de_flavors::Flavor;
use postcard_wire::{Error, Result};
use std::alloc::Global;
use std::collections::{LinkedList, VecDeque};

impl<'de> Deserialize<'de> for &'de [u8] {
    fn deserialize<F: Flavor>(_alloc: Global, d: &mut Deserializer<'de, F>) -> Result<Self>
        ensures { DeserializesNode F.Flavor lent_bytes_node d.old result d.new }
    {
        d.deserialize_bytes()
    }
}

impl<'de, T: Deserialize<'de>> Deserialize<'de> for Vec<T> {
    fn deserialize<F: Flavor>(alloc: Global, d: &mut Deserializer<'de, F>) -> Result<Self> {
        d.list::<T, ByDeserialize>(alloc)
    }
}

impl<T: DeserializeOwned> DeserializeOwned for Vec<T> {
    fn deserialize_owned<'de, F: Flavor>(
        alloc: Global,
        d: &mut Deserializer<'de, F>,
    ) -> Result<Self> {
        d.list::<T, ByDeserializeOwned>(alloc)
    }
}

impl<'de, T: Deserialize<'de>> Deserialize<'de> for VecDeque<T> {
    fn deserialize<F: Flavor>(alloc: Global, d: &mut Deserializer<'de, F>) -> Result<Self> {
        let items = <Vec<T>>::deserialize(alloc, d)?;
        Ok(VecDeque::from_vec(items))
    }
}

impl<T: DeserializeOwned> DeserializeOwned for VecDeque<T> {
    fn deserialize_owned<'de, F: Flavor>(
        alloc: Global,
        d: &mut Deserializer<'de, F>,
    ) -> Result<Self> {
        let items = <Vec<T>>::deserialize_owned(alloc, d)?;
        Ok(VecDeque::from_vec(items))
    }
}

fn linked_of<T: Drop>(alloc: Global, items: Vec<T>) -> Result<LinkedList<T>>
    ensures same { IfOk result (λ linked. linked ≡ items.items) }
    ensures only_out_of_memory { IsOkUnless result Error.OutOfMemory }
{
    let mut linked = LinkedList::new(alloc);
    for item in items {
        if linked.push_back(item).is_err() {
            return Err(Error::OutOfMemory);
        }
    }
    Ok(linked)
}

/// Reads the elements, and then moves each into a node.
impl<'de, T: Deserialize<'de>> Deserialize<'de> for LinkedList<T> {
    fn deserialize<F: Flavor>(alloc: Global, d: &mut Deserializer<'de, F>) -> Result<Self> {
        let elements: Vec<T> = Deserialize::deserialize(alloc, d)?;
        linked_of(alloc, elements)
    }
}

impl<T: DeserializeOwned> DeserializeOwned for LinkedList<T> {
    fn deserialize_owned<'de, F: Flavor>(
        alloc: Global,
        d: &mut Deserializer<'de, F>,
    ) -> Result<Self> {
        let owned: Vec<T> = DeserializeOwned::deserialize_owned(alloc, d)?;
        linked_of(alloc, owned)
    }
}

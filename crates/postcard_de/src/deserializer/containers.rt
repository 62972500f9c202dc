//! The calls that read a whole container: its count, if it has one, and its elements in one loop.
//! They fail with `OutOfMemory` if an allocation fails.

ghost use Rattle.std.specs.Prelude.{◌≡◌, [], ◌∷◌, ◌++◌, OnOk, IsOkUnless};
ghost use Rattle.postcard_de.specs.{Deserializes};

use crate::deserializer::Deserializer;
use crate::read_element::ReadElement;
use arrayvec::ArrayVec;
use postcard_de_flavors::Flavor;
use postcard_de_nodes::{lists, numbers};
use postcard_shape::Shaped;
use postcard_wire::{Error, Result};
use std::alloc::Global;
use std::collections::{BTreeMap, BTreeSet};

/// Appends an element to a list that is to get `announced` more elements, this one included, or
/// fails with `OutOfMemory`.
///
/// If the list is full, it first asks for room: for `first` more elements, or for three times the
/// number that it has if that is greater. It never asks for more than `announced`. So a list takes
/// few requests for memory, and none is for more than `first` elements or three times those that
/// were read, whatever count a damaged message announces.
fn push_announced<T: Drop>(
    items: &mut Vec<T>,
    item: T,
    first: usize,
    announced: usize,
) -> Result<()>
    ensures pushed { OnOk result (items.new.items ≡ items.old.items ++ item ∷ []) }
    ensures only_out_of_memory { IsOkUnless result Error.OutOfMemory }
{
    if items.len() == items.capacity() {
        let room = items.len().saturating_mul(3).max(first).min(announced);
        if items.reserve_exact(room).is_err() {
            return Err(Error::OutOfMemory);
        }
    }
    match items.push(item) {
        Ok(()) => Ok(()),
        Err(_) => Err(Error::OutOfMemory),
    }
}

impl<'de, F: Flavor> Deserializer<'de, F> {
    /// Reads a list: a count, and that many elements.
    pub(crate) fn list<T: Shaped + Drop, E: ReadElement<'de, T>>(
        &mut self,
        alloc: Global,
    ) -> Result<Vec<T>>
        ensures { Deserializes F.Flavor ⟦<Vec<T> as Shaped>⟧.shape self.old result self.new }
    {
        let count = numbers::count(&mut self.flavor)?;
        // Each element has at least one byte, except for types that write nothing.
        let first = self.flavor.at_hand().len().clamp(16, 128);
        let mut items = Vec::new(alloc);
        let mut pause = 0;
        'elements: while items.len() < count {
            let left = count - items.len();
            let appended = lists::append_at_hand(&mut items, &mut self.flavor, left, &mut pause)?;
            if appended {
                continue;
            }
            let item = E::read_element(alloc, self)?;
            push_announced(&mut items, item, first, left)?;
        }
        Ok(items)
    }

    /// Reads a list of at most `CAP` elements: a count, and that many elements. Also fails with
    /// `SerdeDeCustom` if there are more than `CAP`, once `CAP + 1` of them have been read.
    pub(crate) fn array_vec<T: Shaped + Drop + Default, E: ReadElement<'de, T>, const CAP: usize>(
        &mut self,
        alloc: Global,
    ) -> Result<ArrayVec<T, CAP>>
        ensures { Deserializes F.Flavor ⟦<ArrayVec<T, CAP> as Shaped>⟧.shape
            self.old result self.new }
    {
        let count = numbers::count(&mut self.flavor)?;
        let mut items = ArrayVec::new();
        for _ in 0..count {
            let item = E::read_element(alloc, self)?;
            if items.try_push(item).is_err() {
                return Err(Error::SerdeDeCustom);
            }
        }
        Ok(items)
    }

    /// Reads an array: `N` elements, without a count.
    pub(crate) fn array<T: Shaped + Drop + Copy + Default, E: ReadElement<'de, T>, const N: usize>(
        &mut self,
        alloc: Global,
    ) -> Result<[T; N]>
        ensures { Deserializes F.Flavor ⟦<[T; N] as Shaped>⟧.shape self.old result self.new }
    {
        let mut items = [T::default(); N];
        for i in 0..N {
            items[i] = E::read_element(alloc, self)?;
        }
        Ok(items)
    }

    /// Reads a map: a count, and that many pairs of a key and a value, in any order of the keys. If
    /// a key is repeated, its last value is kept.
    pub(crate) fn map<
        K: Shaped + Ord + Drop,
        V: Shaped + Drop,
        E: ReadElement<'de, K> + ReadElement<'de, V>,
    >(&mut self, alloc: Global) -> Result<BTreeMap<K, V>>
        ensures { Deserializes F.Flavor ⟦<BTreeMap<K, V> as Shaped>⟧.shape
            self.old result self.new }
    {
        let count = numbers::count(&mut self.flavor)?;
        let mut map = BTreeMap::new(alloc);
        for _ in 0..count {
            let key: K = E::read_element(alloc, self)?;
            let value: V = E::read_element(alloc, self)?;
            if map.insert(key, value).is_err() {
                return Err(Error::OutOfMemory);
            }
        }
        Ok(map)
    }

    /// Reads a set: a count, and that many keys, in any order. If a key is repeated, the first is
    /// kept.
    pub(crate) fn set<K: Shaped + Ord + Drop, E: ReadElement<'de, K>>(
        &mut self,
        alloc: Global,
    ) -> Result<BTreeSet<K>>
        ensures { Deserializes F.Flavor ⟦<BTreeSet<K> as Shaped>⟧.shape self.old result self.new }
    {
        let count = numbers::count(&mut self.flavor)?;
        let mut set = BTreeSet::new(alloc);
        for _ in 0..count {
            let key = E::read_element(alloc, self)?;
            if set.insert(key).is_err() {
                return Err(Error::OutOfMemory);
            }
        }
        Ok(set)
    }
}

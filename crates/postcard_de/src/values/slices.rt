//! Slices in a box, an `Rc` or an `Arc`, and slices that may be borrowed, as owned ones: read as a
//! `Vec`, with the same errors. An `Rc` or an `Arc` is allocated after that, and may fail with
//! `OutOfMemory`.

use crate::deserialize::Deserialize;
use crate::deserializer::Deserializer;
use crate::owned::DeserializeOwned;
use postcard_de_flavors::Flavor;
use postcard_wire::{Error, Result};
use std::alloc::Global;
use std::borrow::CowSlice;
use std::boxed::BoxedSlice;
use std::rc::RcSlice;
use std::sync::ArcSlice;

impl<'de, T: Deserialize<'de>> Deserialize<'de> for BoxedSlice<T> {
    fn deserialize<F: Flavor>(alloc: Global, d: &mut Deserializer<'de, F>) -> Result<Self> {
        let items = <Vec<T>>::deserialize(alloc, d)?;
        Ok(items.into_boxed_slice())
    }
}

impl<T: DeserializeOwned> DeserializeOwned for BoxedSlice<T> {
    fn deserialize_owned<'de, F: Flavor>(
        alloc: Global,
        d: &mut Deserializer<'de, F>,
    ) -> Result<Self> {
        let elements = <Vec<T>>::deserialize_owned(alloc, d)?;
        Ok(elements.into_boxed_slice())
    }
}

impl<'de, T: Deserialize<'de>> Deserialize<'de> for RcSlice<T> {
    fn deserialize<F: Flavor>(alloc: Global, d: &mut Deserializer<'de, F>) -> Result<Self> {
        let items = <Vec<T>>::deserialize(alloc, d)?;
        match RcSlice::from_vec(items) {
            Ok(shared) => Ok(shared),
            Err(_) => Err(Error::OutOfMemory),
        }
    }
}

impl<T: DeserializeOwned> DeserializeOwned for RcSlice<T> {
    fn deserialize_owned<'de, F: Flavor>(
        alloc: Global,
        d: &mut Deserializer<'de, F>,
    ) -> Result<Self> {
        let elements = <Vec<T>>::deserialize_owned(alloc, d)?;
        match RcSlice::from_vec(elements) {
            Ok(shared) => Ok(shared),
            Err(_) => Err(Error::OutOfMemory),
        }
    }
}

impl<'de, T: Deserialize<'de>> Deserialize<'de> for ArcSlice<T> {
    fn deserialize<F: Flavor>(alloc: Global, d: &mut Deserializer<'de, F>) -> Result<Self> {
        let items = <Vec<T>>::deserialize(alloc, d)?;
        match ArcSlice::from_vec(items) {
            Ok(held) => Ok(held),
            Err(_) => Err(Error::OutOfMemory),
        }
    }
}

impl<T: DeserializeOwned> DeserializeOwned for ArcSlice<T> {
    fn deserialize_owned<'de, F: Flavor>(
        alloc: Global,
        d: &mut Deserializer<'de, F>,
    ) -> Result<Self> {
        let elements = <Vec<T>>::deserialize_owned(alloc, d)?;
        match ArcSlice::from_vec(elements) {
            Ok(held) => Ok(held),
            Err(_) => Err(Error::OutOfMemory),
        }
    }
}

impl<'de, T: Deserialize<'de>> Deserialize<'de> for CowSlice<'_, T> {
    fn deserialize<F: Flavor>(alloc: Global, d: &mut Deserializer<'de, F>) -> Result<Self> {
        let items = <Vec<T>>::deserialize(alloc, d)?;
        Ok(CowSlice::Owned(items))
    }
}

impl<T: DeserializeOwned> DeserializeOwned for CowSlice<'_, T> {
    fn deserialize_owned<'de, F: Flavor>(
        alloc: Global,
        d: &mut Deserializer<'de, F>,
    ) -> Result<Self> {
        let elements = <Vec<T>>::deserialize_owned(alloc, d)?;
        Ok(CowSlice::Owned(elements))
    }
}

//! Types that hold one value of another: read as that value, with the same errors, and `Box`, `Rc`
//! and `Arc` also with `OutOfMemory` if the allocation fails.

use crate::deserialize::Deserialize;
use crate::deserializer::Deserializer;
use crate::owned::DeserializeOwned;
use crate::repr::FromRepr;
use postcard_de_flavors::Flavor;
use postcard_shape::Shaped;
use postcard_wire::{Error, Result};
use std::alloc::Global;
use std::borrow::Cow;
use std::cmp::Reverse;
use std::num::{Saturating, Wrapping};
use std::rc::Rc;
use std::sync::Arc;

impl<'de, T: Deserialize<'de>> Deserialize<'de> for Box<T> {
    fn deserialize<F: Flavor>(alloc: Global, d: &mut Deserializer<'de, F>) -> Result<Self> {
        let value = T::deserialize(alloc, d)?;
        match Box::new(alloc, value) {
            Ok(boxed) => Ok(boxed),
            Err(_) => Err(Error::OutOfMemory),
        }
    }
}

impl<T: DeserializeOwned> DeserializeOwned for Box<T> {
    fn deserialize_owned<'de, F: Flavor>(
        alloc: Global,
        d: &mut Deserializer<'de, F>,
    ) -> Result<Self> {
        let content = T::deserialize_owned(alloc, d)?;
        match Box::new(alloc, content) {
            Ok(boxed) => Ok(boxed),
            Err(_) => Err(Error::OutOfMemory),
        }
    }
}

impl<'de, T: Deserialize<'de>> Deserialize<'de> for Rc<T> {
    fn deserialize<F: Flavor>(alloc: Global, d: &mut Deserializer<'de, F>) -> Result<Self> {
        let value = T::deserialize(alloc, d)?;
        match Rc::new(alloc, value) {
            Ok(shared) => Ok(shared),
            Err(_) => Err(Error::OutOfMemory),
        }
    }
}

impl<T: DeserializeOwned> DeserializeOwned for Rc<T> {
    fn deserialize_owned<'de, F: Flavor>(
        alloc: Global,
        d: &mut Deserializer<'de, F>,
    ) -> Result<Self> {
        let content = T::deserialize_owned(alloc, d)?;
        match Rc::new(alloc, content) {
            Ok(shared) => Ok(shared),
            Err(_) => Err(Error::OutOfMemory),
        }
    }
}

impl<T: Shaped + Drop> FromRepr for Wrapping<T> {
    fn from_repr(value: Self::As) -> Self {
        Wrapping(value)
    }
}

impl<T: Shaped + Drop> FromRepr for Reverse<T> {
    fn from_repr(value: Self::As) -> Self {
        Reverse(value)
    }
}

impl<T: Shaped + Drop> FromRepr for Saturating<T> {
    fn from_repr(value: Self::As) -> Self {
        Saturating(value)
    }
}

impl<'de, T: Deserialize<'de>> Deserialize<'de> for Arc<T> {
    fn deserialize<F: Flavor>(alloc: Global, d: &mut Deserializer<'de, F>) -> Result<Self> {
        let value = T::deserialize(alloc, d)?;
        match Arc::new(alloc, value) {
            Ok(shared) => Ok(shared),
            Err(_) => Err(Error::OutOfMemory),
        }
    }
}

impl<T: DeserializeOwned> DeserializeOwned for Arc<T> {
    fn deserialize_owned<'de, F: Flavor>(
        alloc: Global,
        d: &mut Deserializer<'de, F>,
    ) -> Result<Self> {
        let content = T::deserialize_owned(alloc, d)?;
        match Arc::new(alloc, content) {
            Ok(shared) => Ok(shared),
            Err(_) => Err(Error::OutOfMemory),
        }
    }
}

/// A value that was read is owned.
impl<T: Shaped + Drop> FromRepr for Cow<'_, T> {
    fn from_repr(value: Self::As) -> Self {
        Cow::Owned(value)
    }
}

//! Types that hold one value of another, or point to it: written as that value. A value that
//! several hold is written for each of them.

use crate::repr::SerializeRepr;
use crate::serialize::Serialize;
use crate::serializer::Serializer;
use postcard_ser_flavors::Flavor;
use postcard_wire::Result;
use std::borrow::Cow;
use std::cmp::Reverse;
use std::num::{Saturating, Wrapping};
use std::rc::Rc;
use std::sync::Arc;

impl<T: Serialize> SerializeRepr for &T {
    fn serialize_repr<F: Flavor>(&self, serializer: &mut Serializer<F>) -> Result<()> {
        T::serialize(self, serializer)
    }
}

impl<T: Serialize> SerializeRepr for &mut T {
    fn serialize_repr<F: Flavor>(&self, serializer: &mut Serializer<F>) -> Result<()> {
        (**self).serialize(serializer)
    }
}

impl<T: Serialize> Serialize for Box<T> {
    fn serialize<F: Flavor>(&self, serializer: &mut Serializer<F>) -> Result<()> {
        self.as_ref().serialize(serializer)
    }
}

impl<T: Serialize> Serialize for Rc<T> {
    fn serialize<F: Flavor>(&self, serializer: &mut Serializer<F>) -> Result<()> {
        let shared: &T = self;
        shared.serialize(serializer)
    }
}

impl<T: Serialize> SerializeRepr for Wrapping<T> {
    fn serialize_repr<F: Flavor>(&self, serializer: &mut Serializer<F>) -> Result<()> {
        self.0.serialize(serializer)
    }
}

impl<T: Serialize> SerializeRepr for Reverse<T> {
    fn serialize_repr<F: Flavor>(&self, serializer: &mut Serializer<F>) -> Result<()> {
        let Reverse(value) = self;
        value.serialize(serializer)
    }
}

impl<T: Serialize> SerializeRepr for Saturating<T> {
    fn serialize_repr<F: Flavor>(&self, serializer: &mut Serializer<F>) -> Result<()> {
        let number = &self.0;
        number.serialize(serializer)
    }
}

impl<T: Serialize> Serialize for Arc<T> {
    fn serialize<F: Flavor>(&self, serializer: &mut Serializer<F>) -> Result<()> {
        let held: &T = self;
        held.serialize(serializer)
    }
}

impl<T: Serialize> SerializeRepr for Cow<'_, T> {
    fn serialize_repr<F: Flavor>(&self, serializer: &mut Serializer<F>) -> Result<()> {
        match self {
            Cow::Borrowed(lent) => lent.serialize(serializer),
            Cow::Owned(kept) => kept.serialize(serializer),
        }
    }
}

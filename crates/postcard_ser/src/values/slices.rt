//! Slices in a box, an `Rc` or an `Arc`, and slices that may be borrowed: written as lists.

use crate::serialize::Serialize;
use crate::serializer::Serializer;
use postcard_ser_flavors::Flavor;
use postcard_wire::Result;
use std::borrow::CowSlice;
use std::boxed::BoxedSlice;
use std::rc::RcSlice;
use std::sync::ArcSlice;

impl<T: Serialize> Serialize for BoxedSlice<T> {
    fn serialize<F: Flavor>(&self, serializer: &mut Serializer<F>) -> Result<()> {
        let boxed = self.as_slice();
        boxed.serialize(serializer)
    }
}

impl<T: Serialize> Serialize for RcSlice<T> {
    fn serialize<F: Flavor>(&self, serializer: &mut Serializer<F>) -> Result<()> {
        let shared = self.as_slice();
        shared.serialize(serializer)
    }
}

impl<T: Serialize> Serialize for ArcSlice<T> {
    fn serialize<F: Flavor>(&self, serializer: &mut Serializer<F>) -> Result<()> {
        let held = self.as_slice();
        held.serialize(serializer)
    }
}

impl<T: Serialize> Serialize for CowSlice<'_, T> {
    fn serialize<F: Flavor>(&self, serializer: &mut Serializer<F>) -> Result<()> {
        let items = self.as_slice();
        items.serialize(serializer)
    }
}

//! Strings: borrowed, owned, and shared. A string is written as the number of its bytes, a varint,
//! and then the bytes.

use crate::serialize::Serialize;
use crate::serializer::Serializer;
use postcard_ser_flavors::Flavor;
use postcard_wire::Result;
use std::borrow::CowStr;
use std::boxed::BoxedStr;
use std::rc::RcStr;
use std::sync::ArcStr;

impl Serialize for &str {
    fn serialize<F: Flavor>(&self, serializer: &mut Serializer<F>) -> Result<()> {
        serializer.serialize_str(self)
    }
}

impl Serialize for String {
    fn serialize<F: Flavor>(&self, serializer: &mut Serializer<F>) -> Result<()> {
        serializer.serialize_str(self.as_str())
    }
}

impl Serialize for BoxedStr {
    fn serialize<F: Flavor>(&self, serializer: &mut Serializer<F>) -> Result<()> {
        let boxed = self.as_str();
        serializer.serialize_str(boxed)
    }
}

impl Serialize for RcStr {
    fn serialize<F: Flavor>(&self, serializer: &mut Serializer<F>) -> Result<()> {
        let shared = self.as_str();
        serializer.serialize_str(shared)
    }
}

impl Serialize for ArcStr {
    fn serialize<F: Flavor>(&self, serializer: &mut Serializer<F>) -> Result<()> {
        let held = self.as_str();
        serializer.serialize_str(held)
    }
}

impl Serialize for CowStr<'_> {
    fn serialize<F: Flavor>(&self, serializer: &mut Serializer<F>) -> Result<()> {
        let text = self.as_str();
        serializer.serialize_str(text)
    }
}

//! Texts: `&str`, which borrows from the source, and the others, which are read as a `String`, with
//! the same errors. An `Rc` or an `Arc` is allocated after that, and may fail with `OutOfMemory`.

ghost use Rattle.postcard_de.specs.{DeserializesNode, lent_text_node, text_node};

use crate::deserialize::Deserialize;
use crate::deserializer::Deserializer;
use crate::owned::DeserializeOwned;
use postcard_de_flavors::Flavor;
use postcard_wire::{Error, Result};
use std::alloc::Global;
use std::borrow::CowStr;
use std::boxed::BoxedStr;
use std::rc::RcStr;
use std::sync::ArcStr;

impl<'de> Deserialize<'de> for &'de str {
    // So that the caller has the text in registers, too.
    #[inline(always)]
    fn deserialize<F: Flavor>(_alloc: Global, d: &mut Deserializer<'de, F>) -> Result<Self>
        ensures { DeserializesNode F.Flavor lent_text_node d.old result d.new }
    {
        d.deserialize_str()
    }
}

impl<'de> Deserialize<'de> for String {
    fn deserialize<F: Flavor>(alloc: Global, d: &mut Deserializer<'de, F>) -> Result<Self>
        ensures { DeserializesNode F.Flavor text_node d.old result d.new }
    {
        d.deserialize_string(alloc)
    }
}

impl DeserializeOwned for String {
    fn deserialize_owned<'de, F: Flavor>(
        alloc: Global,
        d: &mut Deserializer<'de, F>,
    ) -> Result<Self>
        ensures { DeserializesNode F.Flavor text_node d.old result d.new }
    {
        String::deserialize(alloc, d)
    }
}

impl<'de> Deserialize<'de> for BoxedStr {
    fn deserialize<F: Flavor>(alloc: Global, d: &mut Deserializer<'de, F>) -> Result<Self> {
        let text = <String>::deserialize(alloc, d)?;
        Ok(text.into_boxed_str())
    }
}

impl DeserializeOwned for BoxedStr {
    fn deserialize_owned<'de, F: Flavor>(
        alloc: Global,
        d: &mut Deserializer<'de, F>,
    ) -> Result<Self> {
        let content = <String>::deserialize_owned(alloc, d)?;
        Ok(content.into_boxed_str())
    }
}

impl<'de> Deserialize<'de> for RcStr {
    fn deserialize<F: Flavor>(alloc: Global, d: &mut Deserializer<'de, F>) -> Result<Self> {
        let text = <String>::deserialize(alloc, d)?;
        match RcStr::from_string(text) {
            Ok(shared) => Ok(shared),
            Err(_) => Err(Error::OutOfMemory),
        }
    }
}

impl DeserializeOwned for RcStr {
    fn deserialize_owned<'de, F: Flavor>(
        alloc: Global,
        d: &mut Deserializer<'de, F>,
    ) -> Result<Self> {
        let content = <String>::deserialize_owned(alloc, d)?;
        match RcStr::from_string(content) {
            Ok(shared) => Ok(shared),
            Err(_) => Err(Error::OutOfMemory),
        }
    }
}

impl<'de> Deserialize<'de> for ArcStr {
    fn deserialize<F: Flavor>(alloc: Global, d: &mut Deserializer<'de, F>) -> Result<Self> {
        let text = <String>::deserialize(alloc, d)?;
        match ArcStr::from_string(text) {
            Ok(held) => Ok(held),
            Err(_) => Err(Error::OutOfMemory),
        }
    }
}

impl DeserializeOwned for ArcStr {
    fn deserialize_owned<'de, F: Flavor>(
        alloc: Global,
        d: &mut Deserializer<'de, F>,
    ) -> Result<Self> {
        let content = <String>::deserialize_owned(alloc, d)?;
        match ArcStr::from_string(content) {
            Ok(held) => Ok(held),
            Err(_) => Err(Error::OutOfMemory),
        }
    }
}

impl<'de> Deserialize<'de> for CowStr<'_> {
    fn deserialize<F: Flavor>(alloc: Global, d: &mut Deserializer<'de, F>) -> Result<Self> {
        let text = <String>::deserialize(alloc, d)?;
        Ok(CowStr::Owned(text))
    }
}

impl DeserializeOwned for CowStr<'_> {
    fn deserialize_owned<'de, F: Flavor>(
        alloc: Global,
        d: &mut Deserializer<'de, F>,
    ) -> Result<Self> {
        let content = <String>::deserialize_owned(alloc, d)?;
        Ok(CowStr::Owned(content))
    }
}

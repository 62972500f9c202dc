//! A struct with a type parameter, and one that borrows from the message and has a field at its full
//! width.

ghost use Rattle.postcard_shape.specs.Shape.{via};

use postcard::de_flavors::Flavor as DeFlavor;
use postcard::fixint::LE;
use postcard::ser_flavors::Flavor;
use postcard::{
    Deserialize, DeserializeOwned, Deserializer, Result, Serialize, Serializer, Shaped,
};
use std::alloc::Global;

/// The value before a change and the one after it.
#[derive(Debug, Drop)]
pub struct Pair<T> {
    /// The value before the change.
    pub old: T,
    /// The value after the change.
    pub new: T,
}

impl<T: Shaped> Shaped for Pair<T> {
    ghost shape = { via (λ v. (v.old, v.new)) ⟦<(T, T) as Shaped>⟧.shape };
}

impl<T: Serialize> Serialize for Pair<T> {
    fn serialize<F: Flavor>(&self, serializer: &mut Serializer<F>) -> Result<()> {
        (&self.old, &self.new).serialize(serializer)
    }
}

impl<'de, T: Deserialize<'de>> Deserialize<'de> for Pair<T> {
    fn deserialize<F: DeFlavor>(alloc: Global, d: &mut Deserializer<'de, F>) -> Result<Self> {
        let (old, new) = Deserialize::deserialize(alloc, d)?;
        Ok(Pair { old, new })
    }
}

impl<T: DeserializeOwned> DeserializeOwned for Pair<T> {
    fn deserialize_owned<F: DeFlavor>(alloc: Global, d: &mut Deserializer<'_, F>) -> Result<Self> {
        let (old, new) = DeserializeOwned::deserialize_owned(alloc, d)?;
        Ok(Pair { old, new })
    }
}

/// A string with values.
#[derive(Debug, Drop)]
pub struct Label<'a> {
    /// The string, borrowed from the message.
    pub text: &'a str,
    /// The values.
    pub values: Vec<u16>,
    /// Seconds since 1970, in four bytes: a varint of today's number has five.
    pub at: LE<u32>,
}

impl<'a> Shaped for Label<'a> {
    ghost shape = { via (λ v. (v.text, v.values, v.at))
        ⟦<(&'a str, Vec<u16>, LE<u32>) as Shaped>⟧.shape };
}

impl Serialize for Label<'_> {
    fn serialize<F: Flavor>(&self, serializer: &mut Serializer<F>) -> Result<()> {
        (self.text, &self.values, &self.at).serialize(serializer)
    }
}

impl<'de> Deserialize<'de> for Label<'de> {
    fn deserialize<F: DeFlavor>(alloc: Global, d: &mut Deserializer<'de, F>) -> Result<Self> {
        let (text, values, at) = Deserialize::deserialize(alloc, d)?;
        Ok(Label { text, values, at })
    }
}

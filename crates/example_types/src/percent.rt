//! A type that refuses values above 100 when it is read.

ghost use Rattle.postcard_shape.specs.Shape.{via};
ghost use Rattle.postcard_shape.specs.Leaves.{byte};
ghost use Rattle.postcard_shape.specs.Only.{only};
ghost use Rattle.std.specs.Prelude.{◌≡◌, ◌≤◌, ◌↔◌, IsSome, IfSome, IsTrue};

use postcard::de_flavors::Flavor as DeFlavor;
use postcard::ser_flavors::Flavor;
use postcard::{
    Deserialize, DeserializeOwned, Deserializer, Error, Result, Serialize, Serializer, Shaped,
};
use std::alloc::Global;

/// A percentage, from 0 to 100.
#[derive(Debug, Drop, PartialEq)]
pub struct Percent {
    value: u8,
    ghost in_range: { value ≤ 100 },
}

/// Returns whether a number is at most 100.
fn is_percent(value: u8) -> bool
    ensures { IsTrue result ↔ (value ≤ 100) }
{
    value <= 100
}

impl Percent {
    /// Returns the percentage, or `None` if `value` is above 100.
    pub fn new(value: u8) -> Option<Percent>
        ensures accepts { IsSome result ↔ (value ≤ 100) }
        ensures keeps { IfSome result (λ percent. percent.value ≡ value) }
    {
        if is_percent(value) {
            Some(Percent { value })
        } else {
            None
        }
    }

    /// Returns the percentage as a number from 0 to 100.
    pub fn get(&self) -> u8
        ensures { result ≡ self.now.value }
    {
        self.value
    }
}

impl Shaped for Percent {
    ghost shape = { via (λ v. v.value) (only (λ n. n ≤ 100) byte) };
}

impl Serialize for Percent {
    fn serialize<F: Flavor>(&self, serializer: &mut Serializer<F>) -> Result<()> {
        self.get().serialize(serializer)
    }
}

/// Reading fails with `SerdeDeCustom` if the byte is above 100.
impl<'de> Deserialize<'de> for Percent {
    fn deserialize<F: DeFlavor>(alloc: Global, d: &mut Deserializer<'de, F>) -> Result<Self> {
        let value = u8::deserialize(alloc, d)?;
        if !is_percent(value) {
            return Err(Error::de_custom("above 100"));
        }
        Ok(Percent { value })
    }
}

impl DeserializeOwned for Percent {
    fn deserialize_owned<'de, F: DeFlavor>(
        alloc: Global,
        d: &mut Deserializer<'de, F>,
    ) -> Result<Self> {
        Percent::deserialize(alloc, d)
    }
}

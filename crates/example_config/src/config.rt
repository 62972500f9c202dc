//! The configuration of a receiver: a struct with memory, and in it a list of others with memory.

ghost use Rattle.example_config.specs.declared.config.Parity.{Parity};
ghost use Rattle.postcard_shape.specs.Shape.{via};
ghost use Rattle.postcard_shape.specs.declared.cases.Case.TheVariants.{This, Next};

use postcard::de_flavors::Flavor as DeFlavor;
use postcard::ser_flavors::Flavor;
use postcard::{
    Case, Deserialize, DeserializeOwned, Deserializer, NoCase, Result, Serialize, Serializer,
    Shaped, write_variant,
};
use std::alloc::Global;

/// The parity of a serial line.
#[derive(Debug, Drop)]
pub enum Parity {
    /// No parity bit.
    None,
    /// The number of ones is even.
    Even,
    /// The number of ones is odd.
    Odd,
}

impl Shaped for Parity {
    ghost shape = { via (elim [
      | Parity.None ↦ This tt
      | Parity.Even ↦ Next (This tt)
      | Parity.Odd ↦ Next (Next (This tt))
    ]) ⟦<Case<(), Case<(), Case<(), NoCase>>> as Shaped>⟧.shape };
}

impl Serialize for Parity {
    fn serialize<F: Flavor>(&self, serializer: &mut Serializer<F>) -> Result<()> {
        match self {
            Parity::None => write_variant(self, 0, &(), serializer),
            Parity::Even => write_variant(self, 1, &(), serializer),
            Parity::Odd => write_variant(self, 2, &(), serializer),
        }
    }
}

impl<'de> Deserialize<'de> for Parity {
    fn deserialize<F: DeFlavor>(alloc: Global, d: &mut Deserializer<'de, F>) -> Result<Self> {
        let case: Case<(), Case<(), Case<(), NoCase>>> = Deserialize::deserialize(alloc, d)?;
        Ok(match case {
            Case::This(()) => Parity::None,
            Case::Next(Case::This(())) => Parity::Even,
            Case::Next(Case::Next(Case::This(()))) => Parity::Odd,
            Case::Next(Case::Next(Case::Next(never))) => match never {},
        })
    }
}

impl DeserializeOwned for Parity {
    fn deserialize_owned<F: DeFlavor>(alloc: Global, d: &mut Deserializer<'_, F>) -> Result<Self> {
        Parity::deserialize(alloc, d)
    }
}

/// A filter of messages.
#[derive(Debug, Drop)]
pub struct Filter {
    /// The id of the messages that pass.
    pub id: u16,
    /// A remark.
    pub note: Option<String>,
}

impl Shaped for Filter {
    ghost shape = { via (λ v. (v.id, v.note)) ⟦<(u16, Option<String>) as Shaped>⟧.shape };
}

impl Serialize for Filter {
    fn serialize<F: Flavor>(&self, serializer: &mut Serializer<F>) -> Result<()> {
        (self.id, &self.note).serialize(serializer)
    }
}

impl<'de> Deserialize<'de> for Filter {
    fn deserialize<F: DeFlavor>(alloc: Global, d: &mut Deserializer<'de, F>) -> Result<Self> {
        let (id, note) = Deserialize::deserialize(alloc, d)?;
        Ok(Filter { id, note })
    }
}

impl DeserializeOwned for Filter {
    fn deserialize_owned<F: DeFlavor>(alloc: Global, d: &mut Deserializer<'_, F>) -> Result<Self> {
        Filter::deserialize(alloc, d)
    }
}

/// The configuration of a receiver.
#[derive(Debug, Drop)]
pub struct Config {
    /// The name of the receiver.
    pub name: String,
    /// The speed of the line, in bits a second.
    pub baud: u32,
    /// The parity of the line.
    pub parity: Parity,
    /// The messages that pass.
    pub filters: Vec<Filter>,
}

impl Shaped for Config {
    ghost shape = { via (λ v. (v.name, v.baud, v.parity, v.filters))
        ⟦<(String, u32, Parity, Vec<Filter>) as Shaped>⟧.shape };
}

impl Serialize for Config {
    fn serialize<F: Flavor>(&self, serializer: &mut Serializer<F>) -> Result<()> {
        (&self.name, self.baud, &self.parity, &self.filters).serialize(serializer)
    }
}

impl<'de> Deserialize<'de> for Config {
    fn deserialize<F: DeFlavor>(alloc: Global, d: &mut Deserializer<'de, F>) -> Result<Self> {
        let (name, baud, parity, filters) = Deserialize::deserialize(alloc, d)?;
        Ok(Config {
            name,
            baud,
            parity,
            filters,
        })
    }
}

impl DeserializeOwned for Config {
    fn deserialize_owned<F: DeFlavor>(alloc: Global, d: &mut Deserializer<'_, F>) -> Result<Self> {
        Config::deserialize(alloc, d)
    }
}

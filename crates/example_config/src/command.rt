//! Commands to a receiver: an enum whose variants hold structs with memory, and lists of them.

ghost use Rattle.example_config.specs.declared.command.Command.{Command};
ghost use Rattle.postcard_shape.specs.Shape.{via};
ghost use Rattle.postcard_shape.specs.declared.cases.Case.TheVariants.{This, Next};

use crate::config::Config;
use postcard::de_flavors::Flavor as DeFlavor;
use postcard::ser_flavors::Flavor;
use postcard::{
    Case, Deserialize, DeserializeOwned, Deserializer, FromParts, NoCase, Result, Serialize,
    Serializer, Shaped, read_parts, write_variant,
};
use std::alloc::Global;

/// A command to a receiver.
#[derive(Debug, Drop)]
pub enum Command {
    /// Answer.
    Ping,
    /// Take this configuration.
    Set(Config),
    /// Take these configurations, one after another.
    Batch(Vec<Config>),
    /// Show a fault.
    Fault {
        /// The number of the fault.
        code: u8,
        /// A description of the fault.
        text: String,
    },
}

/// What the variants of [`Command`] hold, in a row.
type Parts = Case<(), Case<Config, Case<Vec<Config>, Case<(u8, String), NoCase>>>>;

impl FromParts for Command {
    type Parts = Parts;

    ghost seen = { elim [
      | Command.Ping ↦ This tt
      | Command.Set config ↦ Next (This config)
      | Command.Batch configs ↦ Next (Next (This configs))
      | Command.Fault code text ↦ Next (Next (Next (This (code, text))))
    ] };

    fn from_parts(parts: Self::Parts) -> Self {
        match parts {
            Case::This(()) => Command::Ping,
            Case::Next(Case::This(config)) => Command::Set(config),
            Case::Next(Case::Next(Case::This(configs))) => Command::Batch(configs),
            Case::Next(Case::Next(Case::Next(Case::This((code, text))))) => {
                Command::Fault { code, text }
            }
            Case::Next(Case::Next(Case::Next(Case::Next(never)))) => match never {},
        }
    }
}

impl Shaped for Command {
    ghost shape = { via ⟦<Command as FromParts>⟧.seen ⟦<Parts as Shaped>⟧.shape };
}

impl Serialize for Command {
    fn serialize<F: Flavor>(&self, serializer: &mut Serializer<F>) -> Result<()> {
        match self {
            Command::Ping => write_variant(self, 0, &(), serializer),
            Command::Set(config) => write_variant(self, 1, config, serializer),
            Command::Batch(configs) => write_variant(self, 2, configs, serializer),
            Command::Fault { code, text } => write_variant(self, 3, &(code, text), serializer),
        }
    }
}

impl<'de> Deserialize<'de> for Command {
    fn deserialize<F: DeFlavor>(alloc: Global, d: &mut Deserializer<'de, F>) -> Result<Self> {
        read_parts(alloc, d)
    }
}

impl DeserializeOwned for Command {
    fn deserialize_owned<F: DeFlavor>(alloc: Global, d: &mut Deserializer<'_, F>) -> Result<Self> {
        Command::deserialize(alloc, d)
    }
}

//! The calls that the format can't serve, since a message doesn't say what type it has. As in
//! postcard 1.1.3, each fails with `WontImplement`, and changes nothing.

ghost use Rattle.postcard_de.specs.{IsUnsupported};

use crate::deserializer::Deserializer;
use postcard_de_flavors::Flavor;
use postcard_wire::{Error, Result};

impl<'de, F: Flavor> Deserializer<'de, F> {
    /// Would read a value of any type. Always fails.
    pub fn deserialize_any(&mut self) -> Result<()>
        ensures { IsUnsupported self.old result self.new }
    {
        Err(Error::WontImplement)
    }

    /// Would read the name of a field or a variant. Always fails.
    pub fn deserialize_identifier(&mut self) -> Result<()>
        ensures { IsUnsupported self.old result self.new }
    {
        self.deserialize_any()
    }

    /// Would skip a value of any type. Always fails.
    pub fn deserialize_ignored_any(&mut self) -> Result<()>
        ensures { IsUnsupported self.old result self.new }
    {
        self.deserialize_identifier()
    }
}

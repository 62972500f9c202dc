//! The calls for options, and for structs of one part.

ghost use Rattle.postcard_de.specs.{Deserializes, DeserializesOption};

use crate::deserialize::Deserialize;
use crate::deserializer::Deserializer;
use postcard_de_flavors::Flavor;
use postcard_wire::{Error, Result};
use std::alloc::Global;

impl<'de, F: Flavor> Deserializer<'de, F> {
    /// Reads an option: the byte 0 for `None`, or the byte 1 and then the content. Also fails with
    /// `DeserializeBadOption` for any other byte, which is taken.
    #[inline(always)]
    pub fn deserialize_option<T: Deserialize<'de>>(&mut self, alloc: Global) -> Result<Option<T>>
        ensures { DeserializesOption F.Flavor T.shape self.old result self.new }
    {
        match self.flavor.pop()? {
            0 => Ok(None),
            1 => {
                let value = T::deserialize(alloc, self)?;
                Ok(Some(value))
            }
            _ => Err(Error::DeserializeBadOption),
        }
    }

    /// Reads a struct of one part, whose bytes are those of that part.
    pub fn deserialize_newtype_struct<T: Deserialize<'de>>(
        &mut self,
        alloc: Global,
        _name: &str,
    ) -> Result<T>
        ensures { Deserializes F.Flavor T.shape self.old result self.new }
    {
        T::deserialize(alloc, self)
    }
}

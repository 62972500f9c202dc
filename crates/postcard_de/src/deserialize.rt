//! The trait of the types that are read.

ghost use Rattle.postcard_de.specs.{Deserializes};

use crate::deserializer::Deserializer;
use postcard_de_flavors::Flavor;
use postcard_shape::Shaped;
use postcard_wire::Result;
use std::alloc::Global;

/// A type whose values can be read.
pub trait Deserialize<'de>: Shaped + Sized + Drop {
    /// Reads a value from the front of what is left, and takes just the bytes that spell it.
    ///
    /// # Errors
    ///
    /// Fails as `take_from_bytes` does. Some of the bytes may have been taken then.
    fn deserialize<F: Flavor>(alloc: Global, d: &mut Deserializer<'de, F>) -> Result<Self>
        ensures { Deserializes F.Flavor Self.shape d.old result d.new };
}

//! Configurations in a file: one is saved, and read back when a receiver starts.

ghost use Rattle.std.specs.Prelude.{◌≡◌, ◌≤◌, length, IfOk, OnOk, string_bytes};
ghost use Rattle.std.specs.Io.KnownBytes.{Appends};
ghost use Rattle.postcard_wire.specs.Spelling.{canonical};
ghost use Rattle.postcard_de_flavors.specs.Source.{Begins};
ghost use Rattle.postcard_shape.specs.Lists.{SameList};
ghost use Rattle.example_config.specs.declared.config.Config.{Config};

use crate::config::{Config, Filter};
use postcard::de_flavors::Reader;
use postcard::{Result, Shaped, from_io, to_io};
use std::alloc::Global;
use std::io::Write;

/// Appends a configuration to a file, and returns the file.
///
/// # Errors
///
/// Fails with `SerializeBufferFull` if the file can't be written. The file may then end with a part
/// of the configuration.
pub fn save<W: Write + Drop>(file: W, config: &Config) -> Result<W>
    ensures fits { OnOk result (⟦<Config as Shaped>⟧.shape.fits config.now) }
    ensures appends { IfOk result (λ after. Appends (W.contents file) (W.contents after)
        (canonical (⟦<Config as Shaped>⟧.shape.tree config.now))) }
{
    to_io(config, file)
}

/// Reads the configuration at the start of a file. While a string is read, it needs its length in
/// bytes of `scratch`.
///
/// # Errors
///
/// Fails as `from_bytes` does if the file begins with no configuration. Fails with
/// `DeserializeUnexpectedEnd` also if the file can't be read, or if `scratch` is too short. Fails
/// with `OutOfMemory` if an allocation fails.
pub fn load<R: Reader>(alloc: Global, file: R, scratch: &mut [u8]) -> Result<Config>
    ensures comes_back { (saved : Config) → ⟦<Config as Shaped>⟧.shape.fits saved → R.steady file
        → Begins (R.remaining file) (canonical (⟦<Config as Shaped>⟧.shape.tree saved))
        → length (canonical (⟦<Config as Shaped>⟧.shape.tree saved)) ≤ length scratch.old
        → IfOk result (λ loaded. (string_bytes loaded.name ≡ string_bytes saved.name)
        × (loaded.baud ≡ saved.baud)
        × SameList ⟦<Filter as Shaped>⟧.shape.same loaded.filters.items saved.filters.items) }
{
    let (config, _) = from_io(alloc, (file, scratch))?;
    Ok(config)
}

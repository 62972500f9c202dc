//! Booleans, which are written as the byte 0 or 1.

ghost use Rattle.postcard_de_nodes.specs.{ReadsNode, boolean_node};

use postcard_de_flavors::Flavor;
use postcard_wire::{Error, Result};

/// Reads a `bool`: the byte 0 for `false`, or 1 for `true` (wire format 1.0, "bool"). Also fails
/// with `DeserializeBadBool` for any other byte, which is taken.
pub fn boolean<F: Flavor>(flavor: &mut F) -> Result<bool>
    ensures { ReadsNode F.Flavor boolean_node flavor.old result flavor.new }
{
    match flavor.pop()? {
        0 => Ok(false),
        1 => Ok(true),
        _ => Err(Error::DeserializeBadBool),
    }
}

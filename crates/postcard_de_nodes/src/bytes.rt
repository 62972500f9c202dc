//! Byte strings: a length and the bytes, lent or copied.

ghost use Rattle.postcard_de_nodes.specs.{ReadsNode, bytes_node, lent_bytes_node};

use crate::numbers;
use postcard_de_flavors::Flavor;
use postcard_wire::laws::in_range;
use postcard_wire::{Error, Result};
use std::alloc::Global;

/// Reads a byte string: its length as a varint, and that many bytes (wire format 1.0, "byte
/// array"). The slice borrows from what the source borrows, and stays valid after later calls. If
/// only the bytes after the length can't be given, the length is taken.
pub fn bytes<'de, F: Flavor>(flavor: &mut F) -> Result<&'de [u8]>
where
    F: 'de,
    ensures { ReadsNode F.Flavor lent_bytes_node flavor.old result flavor.new }
{
    let count = numbers::count(flavor)?;
    let lent = flavor.try_take_n(count)?;
    let bytes = in_range(lent);
    Ok(bytes)
}

/// Reads a byte string into a new `Vec`, which is allocated once the bytes were taken. Fails as
/// [`bytes`], and with `OutOfMemory` if the allocation fails.
pub fn bytes_copy<F: Flavor>(alloc: Global, flavor: &mut F) -> Result<Vec<u8>>
    ensures { ReadsNode F.Flavor bytes_node flavor.old result flavor.new }
{
    let count = numbers::count(flavor)?;
    let lent = flavor.try_take_n_temp(count)?;
    let bytes = in_range(lent);
    match bytes.to_vec(alloc) {
        Ok(copy) => Ok(copy),
        Err(_) => Err(Error::OutOfMemory),
    }
}

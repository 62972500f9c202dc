//! Floating-point numbers: arrays of the bytes of their bits, the lowest first. Every NaN is read
//! as a NaN, whatever its bits.

ghost use Rattle.std.specs.Float.{binary32, binary64};
ghost use Rattle.postcard_de_nodes.specs.Nodes.{ReadsNode, byte_array_node, float_node};

use postcard_de_flavors::Flavor;
use postcard_wire::Result;
use postcard_wire::laws::in_range;
use std::num::{f32_from_bits_with_nan, f64_from_bits_with_nan};

/// Reads an array of `N` bytes at once, without a count.
pub fn byte_array<F: Flavor, const N: usize>(flavor: &mut F) -> Result<[u8; N]>
    ensures { ReadsNode F.Flavor (byte_array_node N) flavor.old result flavor.new }
{
    let lent = flavor.try_take_n_temp(N)?;
    let front = in_range(lent);
    let mut bytes = [0; N];
    bytes.copy_from_slice(front);
    Ok(bytes)
}

/// Reads an `f32` from 4 bytes (wire format 1.0, "f32").
pub fn float_32<F: Flavor>(flavor: &mut F) -> Result<f32>
    ensures { ReadsNode F.Flavor (float_node binary32) flavor.old result flavor.new }
{
    let bytes = byte_array::<F, 4>(flavor)?;
    Ok(f32_from_bits_with_nan(u32::from_le_bytes(bytes)))
}

/// Reads an `f64` from 8 bytes (wire format 1.0, "f64").
pub fn float_64<F: Flavor>(flavor: &mut F) -> Result<f64>
    ensures { ReadsNode F.Flavor (float_node binary64) flavor.old result flavor.new }
{
    let bytes = byte_array::<F, 8>(flavor)?;
    Ok(f64_from_bits_with_nan(u64::from_le_bytes(bytes)))
}

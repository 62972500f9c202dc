//! Varints: numbers of a given width, and counts.

ghost use Rattle.postcard_de_nodes.specs.{IsWidth, ReadsNode, number_node};

use postcard_de_flavors::Flavor;
use postcard_wire::digits::Digits;
use postcard_wire::varint::MAX_OF_LAST_BYTE_64;
use postcard_wire::{Error, Result};

/// The place of the tenth and last byte of a number of 64 bits, counted from 0.
const LAST_PLACE_64: u32 = 9;

/// Reads a number of `bits` bits, which must be 16, 32, 64 or 128: a varint of at most 3, 5, 10 or
/// 19 bytes (wire format 1.0, "varint"). Padded varints are read too. Also fails with
/// `DeserializeBadVarint` if the varint has more bytes than that or the number more than `bits`
/// bits; the greatest number of bytes is taken then.
#[inline(always)]
pub fn number<F: Flavor>(flavor: &mut F, bits: u32) -> Result<u128>
    requires { IsWidth bits }
    ensures { ReadsNode F.Flavor (number_node bits) flavor.old result flavor.new }
{
    let mut digits = Digits::new();
    // A counted loop, so that the compiler unrolls it. At the last byte that the width allows,
    // `push` returns the number or an error, so the code after the loop is never reached.
    for place in 0..(bits + 6) / 7 {
        let byte = flavor.pop()?;
        if let Some(n) = digits.push(bits, byte)? {
            return Ok(n);
        }
    }
    Err(Error::DeserializeBadVarint)
}

/// Reads the number of elements of a list or of pairs of a map, or the length of a text or a byte
/// string: a number of 64 bits.
#[inline(always)]
pub fn count<F: Flavor>(flavor: &mut F) -> Result<usize>
    ensures { ReadsNode F.Flavor (number_node 64) flavor.old result flavor.new }
{
    let first = flavor.pop()?;
    if first < 128 {
        return Ok(first as usize);
    }
    // `Digits` would add in 128 bits, which takes longer. The loop isn't counted, so the compiler
    // doesn't unroll it: most counts have one byte. A call would keep the source in memory.
    let mut value = u64::from(first % 128);
    let mut place: u32 = 1;
    loop {
        let byte = flavor.pop()?;
        if place == LAST_PLACE_64 && byte > MAX_OF_LAST_BYTE_64 {
            return Err(Error::DeserializeBadVarint);
        }
        value += u64::from(byte % 128) << (7 * place);
        if byte < 128 {
            return Ok(value as usize);
        }
        place += 1;
    }
}

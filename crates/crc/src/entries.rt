//! The entries of the tables of an algorithm: what a byte, and zero bytes after it, do to a
//! register.

ghost use Rattle.std.specs.Prelude.{◌<◌, ◌≤◌, ◌≡◌, ◌*◌, ◌^◌, length, map, slice_index};
ghost use Rattle.crc.specs.{IsServable, Serve, feedback, first_byte, parameters};

use crate::algorithm::Algorithm;
use crate::register;
use crate::width::Width;

/// Returns the generator without its highest power, as a register has it.
fn feedback<W: Width>(algorithm: &Algorithm<W>) -> u128
    requires { IsServable W.Width algorithm.now }
    ensures is { result ≡ feedback (8 * W.size) (parameters W.number algorithm.now) }
    ensures fits { result < 2 ^ (8 * W.size) }
{
    let bits = W::bits();
    let gap = bits - u32::from(algorithm.width);
    let lifted = register::raised(algorithm.poly.to_u128(), gap, bits);
    register::in_order(algorithm.refin, bits, lifted)
}

/// Returns a register of `bits` bits whose first eight are those of the byte, the lowest of it first if
/// `refin`, and whose others are 0.
fn first_byte(refin: bool, bits: u32, byte: u8) -> u128
    requires some { 8 ≤ bits }
    requires few { bits ≤ 128 }
    ensures { result ≡ first_byte refin bits byte }
{
    if refin {
        u128::from(byte)
    } else {
        register::raised(u128::from(byte), bits - 8, bits)
    }
}

/// Returns the entry at an index, as a number.
#[inline]
pub fn look_up<W: Width>(entries: &[W], at: usize) -> u128
    requires { at < length entries.now }
    ensures number { result ≡ slice_index (map W.number entries.now) at }
    ensures fits { result < 2 ^ (8 * W.size) }
{
    entries[at].to_u128()
}

/// Fills tables of 256 entries each, one after the other.
pub fn fill<W: Width>(algorithm: &Algorithm<W>, entries: &mut [W])
    requires { IsServable W.Width algorithm.now }
    ensures { Serve W.Width algorithm.now (length entries.old) (map W.number entries.new) }
{
    let bits = W::bits();
    let refin = algorithm.refin;
    let feedback = feedback(algorithm);
    for j in 0..entries.len() {
        let start = if j < 256 {
            first_byte(refin, bits, j as u8)
        } else {
            look_up(entries, j - 256)
        };
        entries[j] = W::from_u128(register::eight(refin, bits, feedback, start));
    }
}

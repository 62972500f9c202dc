//! One table of an algorithm, by which a register takes a byte at a time.

ghost use Rattle.std.specs.Prelude.{◌<◌, ◌≤◌, ◌*◌, ◌^◌, length, map};
ghost use Rattle.crc.specs.{HoldsMore, IsServable, Serve, Takes, in_order, parameters};

use crate::algorithm::Algorithm;
use crate::entries::{fill, look_up};
use crate::implementation::Implementation;
use crate::register;
use crate::width::Width;

/// A table of 256 entries: 256 bytes for each byte of a checksum's type, 1 KiB at `u32`.
#[derive(Drop)]
pub struct Table<W> {
    entries: [W; 256],
}

#[inline]
fn step<W: Width>(algorithm: &Algorithm<W>, entries: &[W], register: W, byte: u8) -> W
    requires valid { IsServable W.Width algorithm.now }
    requires enough { 256 ≤ length entries.now }
    requires served { Serve W.Width algorithm.now 256 (map W.number entries.now) }
    ensures takes { Takes (8 * W.size) (parameters W.number algorithm.now) 8 (W.number register)
        (in_order algorithm.now.refin 8 byte) (W.number result) }
    ensures fits { W.number result < 2 ^ (8 * W.size) }
{
    let bits = W::bits();
    let register = register.to_u128();
    if algorithm.refin {
        let at = (register & 0xff) as u8 ^ byte;
        let entry = look_up(entries, at as usize);
        W::from_u128((register >> 8) ^ entry)
    } else {
        let at = register::top_byte(register, bits) ^ byte;
        let entry = look_up(entries, at as usize);
        W::from_u128(register::raised(register, 8, bits) ^ entry)
    }
}

/// Returns the register after more bytes, by the first of the tables.
pub(crate) fn by_bytes<W: Width>(
    algorithm: &Algorithm<W>,
    entries: &[W],
    register: W,
    bytes: &[u8],
) -> W
    requires valid { IsServable W.Width algorithm.now }
    requires enough { 256 ≤ length entries.now }
    requires served { Serve W.Width algorithm.now 256 (map W.number entries.now) }
    ensures { HoldsMore W.Width algorithm.now register bytes.now result }
{
    let mut register = register;
    for byte in bytes {
        register = step(algorithm, entries, register, *byte);
    }
    register
}

impl<W: Width> Implementation<W> for Table<W> {
    ghost entries = { λ t. map W.number t.entries };

    ghost count = { 256 };

    fn new(algorithm: &Algorithm<W>) -> Table<W> {
        let mut entries = [W::from_u128(0); 256];
        fill(algorithm, &mut entries);
        Table { entries }
    }

    fn update(&self, algorithm: &Algorithm<W>, register: W, bytes: &[u8]) -> W {
        by_bytes(algorithm, &self.entries, register, bytes)
    }
}

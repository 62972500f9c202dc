//! Eight tables of an algorithm, by which a register takes eight bytes at a time.

ghost use Rattle.std.specs.Prelude.{◌≡◌, ◌<◌, ◌≤◌, ◌*◌, ◌^◌, length, map};
ghost use Rattle.crc.specs.{AreEntries, HoldsMore, IsServable, IsSumFor, IsValid, Parameters};
ghost use Rattle.crc.specs.{Serve, in_order, leaving, message, staying};

use crate::algorithm::Algorithm;
use crate::entries::{fill, look_up};
use crate::implementation::Implementation;
use crate::register;
use crate::table::by_bytes;
use crate::width::Width;

/// Eight tables of 256 entries each: 2048 bytes for each byte of a checksum's type, 8 KiB at `u32`.
#[derive(Drop)]
pub struct Slice8<W> {
    entries: [W; 2048],
}

/// Returns the number whose 64 bits are those of eight bytes, in the order of a message.
#[inline]
fn word(refin: bool, eight: &[u8]) -> u64
    requires { length eight.now ≡ 8 }
    ensures { in_order refin 64 result ≡ message refin eight.now }
{
    let bytes = [
        eight[0], eight[1], eight[2], eight[3], eight[4], eight[5], eight[6], eight[7],
    ];
    if refin {
        u64::from_le_bytes(bytes)
    } else {
        u64::from_be_bytes(bytes)
    }
}

/// Returns the eight bytes of a number: the reverse of [`word`].
#[inline]
fn spelled(refin: bool, word: u64) -> [u8; 8]
    ensures { message refin result ≡ in_order refin 64 word }
{
    if refin {
        word.to_le_bytes()
    } else {
        word.to_be_bytes()
    }
}

/// Returns the 64 bits that leave a register when eight bytes come.
#[inline]
fn leaving(refin: bool, bits: u32, register: u128) -> u64
    requires some { 8 ≤ bits }
    requires few { bits ≤ 128 }
    requires fits { register < 2 ^ bits }
    ensures { result ≡ leaving refin bits 64 register }
{
    if refin {
        (register & 0xffff_ffff_ffff_ffff) as u64
    } else {
        (register << (128 - bits) >> 64) as u64
    }
}

/// Returns what is left of a register when eight bytes come.
#[inline]
fn staying(refin: bool, bits: u32, register: u128) -> u128
    requires some { 8 ≤ bits }
    requires few { bits ≤ 128 }
    requires fits { register < 2 ^ bits }
    ensures is { result ≡ staying refin bits 64 register }
    ensures fits { result < 2 ^ bits }
{
    if refin {
        register >> 64
    } else {
        register::raised(register, 64, bits)
    }
}

/// Returns the sum of the entries of eight bytes, each from the table of its place.
#[inline]
fn pick<W: Width>(entries: &[W], bytes: &[u8]) -> u128
    requires enough { 2048 ≤ length entries.now }
    requires eight { length bytes.now ≡ 8 }
    ensures is { (a : Parameters) → IsValid (8 * W.size) a
        → AreEntries (8 * W.size) a 2048 (map W.number entries.now)
        → IsSumFor (8 * W.size) a bytes.now result }
    ensures fits { result < 2 ^ (8 * W.size) }
{
    let mut sum = 0;
    for k in 0..8usize {
        sum ^= look_up(entries, 256 * k + bytes[7 - k] as usize);
    }
    sum
}

#[inline]
fn step_eight<W: Width>(algorithm: &Algorithm<W>, entries: &[W], register: W, eight: &[u8]) -> W
    requires valid { IsServable W.Width algorithm.now }
    requires enough { 2048 ≤ length entries.now }
    requires served { Serve W.Width algorithm.now 2048 (map W.number entries.now) }
    requires eight { length eight.now ≡ 8 }
    ensures { HoldsMore W.Width algorithm.now register eight.now result }
{
    let refin = algorithm.refin;
    let bits = W::bits();
    let register = register.to_u128();
    let index = leaving(refin, bits, register) ^ word(refin, eight);
    let sum = pick(entries, &spelled(refin, index));
    W::from_u128(staying(refin, bits, register) ^ sum)
}

impl<W: Width> Implementation<W> for Slice8<W> {
    ghost entries = { λ t. map W.number t.entries };

    ghost count = { 2048 };

    fn new(algorithm: &Algorithm<W>) -> Slice8<W> {
        let mut entries = [W::from_u128(0); 2048];
        fill(algorithm, &mut entries);
        Slice8 { entries }
    }

    fn update(&self, algorithm: &Algorithm<W>, register: W, bytes: &[u8]) -> W {
        let mut register = register;
        let mut rest = bytes;
        while rest.len() >= 8 {
            let (eight, after) = rest.split_at(8);
            register = step_eight(algorithm, &self.entries, register, eight);
            rest = after;
        }
        by_bytes(algorithm, &self.entries, register, rest)
    }
}

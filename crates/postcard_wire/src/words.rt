//! Varints that are in memory, many at a time: the bytes of each by one load of eight bytes. If
//! what is here returns no numbers, as for a varint of more than eight bytes or out of range, the
//! caller reads byte by byte (`Digits`).

ghost use Rattle.std.specs.Prelude.{◌≡◌, ℕ, ◌+◌, ◌*◌, ◌≤◌, ◌<◌, ◌^◌, List, length, take, drop};
ghost use Rattle.std.specs.Prelude.{IfSome, slice_index};
ghost use Rattle.postcard_wire.specs.{AreBytes, AreCut, IsCut, IsNarrow, number, word_of};

use std::simd::prelude::*;

/// How many numbers [`cut`] finds.
pub const RUN: usize = 12;

/// How many bytes [`cut`] looks at.
pub const BLOCK: usize = 80;

/// By the number of bytes of a varint, the high bit of each of them.
const HIGH_BITS: [u64; 10] = [
    0,
    0x80,
    0x8080,
    0x80_8080,
    0x8080_8080,
    0x80_8080_8080,
    0x8080_8080_8080,
    0x80_8080_8080_8080,
    0x8080_8080_8080_8080,
    0,
];

/// [`HIGH_BITS`] for a number of 32 bits, of at most five bytes, with the bits of the fifth that
/// exceed 32.
const HIGH_BITS_32: [u64; 10] = [
    0,
    0x80,
    0x8080,
    0x80_8080,
    0x8080_8080,
    0xf0_8080_8080,
    0,
    0,
    0,
    0,
];

/// [`HIGH_BITS`] for a number of 16 bits, of at most three bytes.
const HIGH_BITS_16: [u64; 10] = [0, 0x80, 0x8080, 0xfc_8080, 0, 0, 0, 0, 0, 0];

/// The value of the high bits: 1 in each byte but the last. If there is no such varint, a value that
/// they can't have.
const GOES_ON: [u64; 10] = [
    1,
    0,
    0x80,
    0x8080,
    0x80_8080,
    0x8080_8080,
    0x80_8080_8080,
    0x8080_8080_8080,
    0x80_8080_8080_8080,
    1,
];

/// By the number of bytes of a varint, the seven bits of each that are data.
const DATA: [u64; 10] = [
    0,
    0x7f,
    0x7f7f,
    0x7f_7f7f,
    0x7f7f_7f7f,
    0x7f_7f7f_7f7f,
    0x7f7f_7f7f_7f7f,
    0x7f_7f7f_7f7f_7f7f,
    0x7f7f_7f7f_7f7f_7f7f,
    0,
];

/// Returns four digits of seven bits, each in a byte of its own, as one number of 28 bits.
#[inline(always)]
fn four_digits(digits: u32) -> u32
    ensures { (a b c d : ℕ) → a < 128 → b < 128 → c < 128 → d < 128
        → digits ≡ a + 256 * b + 65536 * c + 16777216 * d
        → result ≡ a + 128 * b + 16384 * c + 2097152 * d }
{
    let pairs = digits - (digits & 0x7f00_7f00) / 2;
    pairs % 0x1_0000 + pairs / 0x1_0000 * 0x4000
}

/// Returns the number of at most `bits` bits whose digits are each in a byte of its own, as [`cut`]
/// returns them.
#[inline(always)]
pub fn number_of(digits: u64, bits: u32) -> u64
    ensures { (p : List ℕ) → IsCut bits p digits → result ≡ number p }
{
    let low = four_digits((digits % 0x1_0000_0000) as u32);
    let high = (digits / 0x1_0000_0000) as u32;
    let high = if bits <= 32 { high } else { four_digits(high) };
    u64::from(low) + u64::from(high) * 0x1000_0000
}

/// Returns the faults and the digits, each in a byte of its own, of a varint of `bits` bits, whose
/// `len` bytes are the first of `word`. The faults are 0 if these bytes are a varint of that
/// length, of at most eight bytes, and in range.
#[inline(always)]
fn cut_one(word: u64, len: usize, bits: u32) -> (u64, u64)
    requires width { IsNarrow bits }
    requires within { len ≤ 9 }
    ensures { (p : List ℕ) → AreBytes p → length p ≡ 8 → word ≡ word_of p → result.0 ≡ 0
        → IsCut bits (take len p) result.1 × (len ≤ 8) }
{
    let high_bits = if bits == 16 {
        HIGH_BITS_16[len]
    } else if bits == 32 {
        HIGH_BITS_32[len]
    } else {
        HIGH_BITS[len]
    };
    ((word & high_bits) ^ GOES_ON[len], word & DATA[len])
}

#[inline(always)]
fn word_at(block: &[u8; BLOCK], at: usize) -> u64
    requires { at + 8 ≤ 80 }
    ensures word { result ≡ word_of (take 8 (drop at block.now)) }
    ensures bytes { AreBytes (take 8 (drop at block.now)) }
{
    u64::from_le_bytes([
        block[at],
        block[at + 1],
        block[at + 2],
        block[at + 3],
        block[at + 4],
        block[at + 5],
        block[at + 6],
        block[at + 7],
    ])
}

/// Returns which of the first 64 bytes end a varint, because they are below 128: bit `i` stands for
/// byte `i`.
#[inline(always)]
pub fn ends(block: &[u8; BLOCK]) -> u64
    ensures { result ≡ u64.MAX → (k : ℕ) → k < 64 → slice_index block.now k < 128 }
{
    u8x64::from_slice(&block[..64])
        .simd_lt(u8x64::splat(128))
        .to_bitmask()
}

/// The next numbers, cut from their bytes.
#[derive(Drop)]
pub struct Run {
    /// The digits of each number, as [`number_of`] takes them.
    pub digits: [u64; RUN],
    /// The number of bytes of all these numbers.
    pub len: usize,
}

/// Cuts the next numbers of `bits` bits, which must be 16, 32 or 64, from the front of a block, for
/// which [`ends`] returned `ends`. Returns `None` if one has more than eight bytes or is out of
/// range, or if they have more than 64 bytes together.
#[inline(always)]
pub fn cut(block: &[u8; BLOCK], ends: u64, bits: u32) -> Option<Run>
    requires { IsNarrow bits }
    ensures { IfSome result (λ run. (0 < run.len) × (run.len ≤ 64) × (length run.digits ≡ 12)
        × AreCut bits run.digits (take run.len block.now)) }
{
    let mut ends = ends;
    let mut digits = [0u64; RUN];
    let mut len = 0;
    // No branch within the loop, so that the compiler unrolls it, and no number waits for another.
    let mut wrong = 0u64;
    for i in 0..RUN {
        let end = ((ends | 1 << 63).trailing_zeros() % 64) as usize;
        let bytes = (end + 1).wrapping_sub(len).min(9);
        let (differs, data) = cut_one(word_at(block, len), bytes, bits);
        wrong |= differs;
        digits[i] = data;
        len = end + 1;
        ends &= ends.wrapping_sub(1);
    }
    if wrong != 0 {
        return None;
    }
    Some(Run { digits, len })
}

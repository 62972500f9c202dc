//! Zigzag: signed numbers as unsigned ones (wire format 1.0, "signed integer encoding"). A number
//! `n` becomes `2 * n`, or `-2 * n - 1` if it is negative: 0, -1, 1, -2, 2 become 0, 1, 2, 3, 4. So a
//! number near zero is short whatever its sign. An `i8` is not a varint: it is written as one byte.

ghost use Rattle.std.specs.Prelude.{◌≡◌};
ghost use Rattle.postcard_wire.specs.{zigzag};

/// Twice a number, with each bit flipped if the number is negative.
macro_rules! fold_sign {
    ($n:ident, $int:ty) => {
        (($n << 1) ^ ($n >> (<$int>::BITS - 1))).cast_unsigned()
    };
}

/// Half of a number, with each bit flipped if the number is odd.
macro_rules! unfold_sign {
    ($n:ident) => {
        ($n >> 1).cast_signed() ^ -(($n & 1).cast_signed())
    };
}

/// Returns the zigzag encoding of an `i16`.
#[tactic(auto, using(crate::proofs::Folded::folded_16))]
pub fn zig_zag_i16(n: i16) -> u16
    ensures { result ≡ zigzag n }
{
    fold_sign!(n, i16)
}

/// Returns the zigzag encoding of an `i32`.
#[tactic(auto, using(crate::proofs::Folded::folded_32))]
pub fn zig_zag_i32(n: i32) -> u32
    ensures { result ≡ zigzag n }
{
    fold_sign!(n, i32)
}

/// Returns the zigzag encoding of an `i64`.
#[tactic(auto, using(crate::proofs::Folded::folded_64))]
pub fn zig_zag_i64(n: i64) -> u64
    ensures { result ≡ zigzag n }
{
    fold_sign!(n, i64)
}

/// Returns the zigzag encoding of an `i128`.
#[tactic(auto, using(crate::proofs::Folded::folded_128))]
pub fn zig_zag_i128(n: i128) -> u128
    ensures { result ≡ zigzag n }
{
    fold_sign!(n, i128)
}

/// Returns the `i16` whose zigzag encoding is `n`.
#[tactic(auto, using(crate::proofs::Folded::unfolded))]
pub fn de_zig_zag_i16(n: u16) -> i16
    ensures { zigzag result ≡ n }
{
    unfold_sign!(n)
}

/// Returns the `i32` whose zigzag encoding is `n`.
#[tactic(auto, using(crate::proofs::Folded::unfolded))]
pub fn de_zig_zag_i32(n: u32) -> i32
    ensures { zigzag result ≡ n }
{
    unfold_sign!(n)
}

/// Returns the `i64` whose zigzag encoding is `n`.
#[tactic(auto, using(crate::proofs::Folded::unfolded))]
pub fn de_zig_zag_i64(n: u64) -> i64
    ensures { zigzag result ≡ n }
{
    unfold_sign!(n)
}

/// Returns the `i128` whose zigzag encoding is `n`.
#[tactic(auto, using(crate::proofs::Folded::unfolded))]
pub fn de_zig_zag_i128(n: u128) -> i128
    ensures { zigzag result ≡ n }
{
    unfold_sign!(n)
}

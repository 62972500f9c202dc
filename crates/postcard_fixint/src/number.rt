//! The numbers that can be written at their full width.

ghost use Rattle.std.specs.Prelude.{◌≡◌, ℕ, List, refl};
ghost use Rattle.postcard_fixint.specs.{FixedWidth, IsByteArray, big, byte_array, little, signed};
ghost use Rattle.postcard_fixint.specs.{unsigned};

use crate::array::ByteArray;
use postcard_ser::Serialize;
use sealed::Sealed;

/// Seals [`FixInt`]: only types of this file can implement it.
mod sealed {
    pub trait Sealed {}
}

/// A type of numbers that can be written at its full width: `u16`, `u32`, `u64`, `u128`, `i16`,
/// `i32`, `i64` and `i128`. The trait is sealed.
pub trait FixInt: Sealed + Copy + Drop {
    /// An array of the bytes of a number: `[u8; 2]`, `[u8; 4]`, `[u8; 8]` or `[u8; 16]`.
    type Bytes: Serialize + ByteArray;

    /// The number of bytes, and each number modulo 256 to that power: an unsigned number is itself,
    /// and a signed one is its two's complement.
    ghost width: { FixedWidth Self };

    /// The bytes of an array.
    ghost list: { Self.Bytes → List ℕ };

    /// Returns the bytes of the number, the lowest first.
    fn encode_le(self) -> Self::Bytes
        ensures bytes { list result ≡ little.spell width.size (width.modulo self) }
        ensures fits { width.fits self };

    /// Returns the number of which `bytes` are the bytes, the lowest first.
    fn decode_le(bytes: Self::Bytes) -> Self
        ensures value { width.modulo result ≡ little.value (list bytes) }
        ensures fits { width.fits result };

    /// Returns the bytes of the number, the highest first.
    fn encode_be(self) -> Self::Bytes
        ensures bytes { list result ≡ big.spell width.size (width.modulo self) }
        ensures fits { width.fits self };

    /// Returns the number of which `bytes` are the bytes, the highest first.
    fn decode_be(bytes: Self::Bytes) -> Self
        ensures value { width.modulo result ≡ big.value (list bytes) }
        ensures fits { width.fits result };

    /// An array is written and read as its bytes.
    ghost is_array: { IsByteArray Self.Bytes.shape list width.size };

    /// An array has as many bytes as a number.
    ghost same_size: { Self.Bytes.size ≡ width.size };
}

impl Sealed for u16 {}

impl FixInt for u16 {
    type Bytes = [u8; 2];

    ghost width = { unsigned 2 };

    ghost list = { λ bytes. bytes };

    ghost is_array = { byte_array 2 };

    ghost same_size = { refl };

    fn encode_le(self) -> [u8; 2] {
        u16::to_le_bytes(self)
    }

    fn decode_le(bytes: [u8; 2]) -> u16 {
        u16::from_le_bytes(bytes)
    }

    fn encode_be(self) -> [u8; 2] {
        u16::to_be_bytes(self)
    }

    fn decode_be(bytes: [u8; 2]) -> u16 {
        u16::from_be_bytes(bytes)
    }
}

impl Sealed for u32 {}

impl FixInt for u32 {
    type Bytes = [u8; 4];

    ghost width = { unsigned 4 };

    ghost list = { λ bytes. bytes };

    ghost is_array = { byte_array 4 };

    ghost same_size = { refl };

    fn encode_le(self) -> [u8; 4] {
        u32::to_le_bytes(self)
    }

    fn decode_le(bytes: [u8; 4]) -> u32 {
        u32::from_le_bytes(bytes)
    }

    fn encode_be(self) -> [u8; 4] {
        u32::to_be_bytes(self)
    }

    fn decode_be(bytes: [u8; 4]) -> u32 {
        u32::from_be_bytes(bytes)
    }
}

impl Sealed for u64 {}

impl FixInt for u64 {
    type Bytes = [u8; 8];

    ghost width = { unsigned 8 };

    ghost list = { λ bytes. bytes };

    ghost is_array = { byte_array 8 };

    ghost same_size = { refl };

    fn encode_le(self) -> [u8; 8] {
        u64::to_le_bytes(self)
    }

    fn decode_le(bytes: [u8; 8]) -> u64 {
        u64::from_le_bytes(bytes)
    }

    fn encode_be(self) -> [u8; 8] {
        u64::to_be_bytes(self)
    }

    fn decode_be(bytes: [u8; 8]) -> u64 {
        u64::from_be_bytes(bytes)
    }
}

impl Sealed for u128 {}

impl FixInt for u128 {
    type Bytes = [u8; 16];

    ghost width = { unsigned 16 };

    ghost list = { λ bytes. bytes };

    ghost is_array = { byte_array 16 };

    ghost same_size = { refl };

    fn encode_le(self) -> [u8; 16] {
        u128::to_le_bytes(self)
    }

    fn decode_le(bytes: [u8; 16]) -> u128 {
        u128::from_le_bytes(bytes)
    }

    fn encode_be(self) -> [u8; 16] {
        u128::to_be_bytes(self)
    }

    fn decode_be(bytes: [u8; 16]) -> u128 {
        u128::from_be_bytes(bytes)
    }
}

impl Sealed for i16 {}

impl FixInt for i16 {
    type Bytes = [u8; 2];

    ghost width = { signed 2 16 refl };

    ghost list = { λ bytes. bytes };

    ghost is_array = { byte_array 2 };

    ghost same_size = { refl };

    fn encode_le(self) -> [u8; 2] {
        i16::to_le_bytes(self)
    }

    fn decode_le(bytes: [u8; 2]) -> i16 {
        i16::from_le_bytes(bytes)
    }

    fn encode_be(self) -> [u8; 2] {
        i16::to_be_bytes(self)
    }

    fn decode_be(bytes: [u8; 2]) -> i16 {
        i16::from_be_bytes(bytes)
    }
}

impl Sealed for i32 {}

impl FixInt for i32 {
    type Bytes = [u8; 4];

    ghost width = { signed 4 32 refl };

    ghost list = { λ bytes. bytes };

    ghost is_array = { byte_array 4 };

    ghost same_size = { refl };

    fn encode_le(self) -> [u8; 4] {
        i32::to_le_bytes(self)
    }

    fn decode_le(bytes: [u8; 4]) -> i32 {
        i32::from_le_bytes(bytes)
    }

    fn encode_be(self) -> [u8; 4] {
        i32::to_be_bytes(self)
    }

    fn decode_be(bytes: [u8; 4]) -> i32 {
        i32::from_be_bytes(bytes)
    }
}

impl Sealed for i64 {}

impl FixInt for i64 {
    type Bytes = [u8; 8];

    ghost width = { signed 8 64 refl };

    ghost list = { λ bytes. bytes };

    ghost is_array = { byte_array 8 };

    ghost same_size = { refl };

    fn encode_le(self) -> [u8; 8] {
        i64::to_le_bytes(self)
    }

    fn decode_le(bytes: [u8; 8]) -> i64 {
        i64::from_le_bytes(bytes)
    }

    fn encode_be(self) -> [u8; 8] {
        i64::to_be_bytes(self)
    }

    fn decode_be(bytes: [u8; 8]) -> i64 {
        i64::from_be_bytes(bytes)
    }
}

impl Sealed for i128 {}

impl FixInt for i128 {
    type Bytes = [u8; 16];

    ghost width = { signed 16 128 refl };

    ghost list = { λ bytes. bytes };

    ghost is_array = { byte_array 16 };

    ghost same_size = { refl };

    fn encode_le(self) -> [u8; 16] {
        i128::to_le_bytes(self)
    }

    fn decode_le(bytes: [u8; 16]) -> i128 {
        i128::from_le_bytes(bytes)
    }

    fn encode_be(self) -> [u8; 16] {
        i128::to_be_bytes(self)
    }

    fn decode_be(bytes: [u8; 16]) -> i128 {
        i128::from_be_bytes(bytes)
    }
}

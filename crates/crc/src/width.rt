//! The types of checksums.

ghost use Rattle.std.specs.Prelude.{◌≡◌, ◌<◌, ◌≤◌, ◌*◌, ◌^◌, ℕ};

/// The type of a checksum: an unsigned integer of 8, 16, 32, 64 or 128 bits, of which a checksum
/// may have fewer.
pub trait Width: Copy {
    /// The number that a value is.
    ghost number: { Self → ℕ };

    /// The number of bytes of a value.
    ghost size: { ℕ };

    /// Returns the number of bits of the type.
    fn bits() -> u32
        ensures bits { result ≡ 8 * size }
        ensures some { 8 ≤ result }
        ensures few { result ≤ 128 };

    /// Returns the number.
    fn to_u128(self) -> u128
        ensures number { result ≡ number self }
        ensures fits { result < 2 ^ (8 * size) };

    /// Returns the value of a number that fits.
    fn from_u128(n: u128) -> Self
        requires { n < 2 ^ (8 * size) }
        ensures { number result ≡ n };
}

impl Width for u8 {
    ghost number = { λ n. n };

    ghost size = { 1 };

    #[inline]
    fn bits() -> u32 {
        8
    }

    #[inline]
    fn to_u128(self) -> u128 {
        u128::from(self)
    }

    #[inline]
    fn from_u128(n: u128) -> u8 {
        n as u8
    }
}

impl Width for u16 {
    ghost number = { λ n. n };

    ghost size = { 2 };

    #[inline]
    fn bits() -> u32 {
        16
    }

    #[inline]
    fn to_u128(self) -> u128 {
        u128::from(self)
    }

    #[inline]
    fn from_u128(n: u128) -> u16 {
        n as u16
    }
}

impl Width for u32 {
    ghost number = { λ n. n };

    ghost size = { 4 };

    #[inline]
    fn bits() -> u32 {
        32
    }

    #[inline]
    fn to_u128(self) -> u128 {
        u128::from(self)
    }

    #[inline]
    fn from_u128(n: u128) -> u32 {
        n as u32
    }
}

impl Width for u64 {
    ghost number = { λ n. n };

    ghost size = { 8 };

    #[inline]
    fn bits() -> u32 {
        64
    }

    #[inline]
    fn to_u128(self) -> u128 {
        u128::from(self)
    }

    #[inline]
    fn from_u128(n: u128) -> u64 {
        n as u64
    }
}

impl Width for u128 {
    ghost number = { λ n. n };

    ghost size = { 16 };

    #[inline]
    fn bits() -> u32 {
        128
    }

    #[inline]
    fn to_u128(self) -> u128 {
        self
    }

    #[inline]
    fn from_u128(n: u128) -> u128 {
        n
    }
}

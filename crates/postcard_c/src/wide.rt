//! Numbers of 128 bits, which cross to C as two halves.

ghost use Rattle.std.specs.Prelude.{◌≡◌, ◌+◌, ◌*◌, ◌^◌, ◌<◌};

/// One more than the greatest number of 64 bits.
const HALF: u128 = 1 << 64;

/// Returns the number whose lower and higher 64 bits these are.
pub(crate) fn joined(low: u64, high: u64) -> u128
    ensures { result ≡ low + 2 ^ 64 * high }
{
    u128::from(low) + (u128::from(high) << 64)
}

/// Returns the lower and the higher 64 bits of a number.
pub(crate) fn halves(number: u128) -> (u64, u64)
    ensures { number ≡ result.0 + 2 ^ 64 * result.1 }
{
    ((number % HALF) as u64, (number / HALF) as u64)
}

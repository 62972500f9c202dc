//! The register of a checksum, of 1 to 128 bits.

ghost use Rattle.std.specs.Prelude.{◌≡◌, ◌<◌, ◌≤◌, ◌*◌, ◌-◌, ◌/◌, ◌%◌, ◌^◌};
ghost use Rattle.crc.specs.{in_order, next, rounds};

/// Returns a number of `bits` bits, in reverse order if `reflected`.
#[inline]
pub fn in_order(reflected: bool, bits: u32, n: u128) -> u128
    requires some { 1 ≤ bits }
    requires few { bits ≤ 128 }
    requires fits { n < 2 ^ bits }
    ensures { result ≡ in_order reflected bits n }
{
    if reflected {
        n.reverse_bits() >> (128 - bits)
    } else {
        n
    }
}

/// Returns `n` times two to the power `by`, in a register of `bits` bits.
#[inline]
pub fn raised(n: u128, by: u32, bits: u32) -> u128
    requires shift { by < 128 }
    requires some { 1 ≤ bits }
    requires few { bits ≤ 128 }
    ensures { result ≡ n * 2 ^ by % 2 ^ bits }
{
    (n << by) & (u128::MAX >> (128 - bits))
}

/// Returns the highest eight bits of a register of `bits` bits.
#[inline]
pub fn top_byte(register: u128, bits: u32) -> u8
    requires some { 8 ≤ bits }
    requires few { bits ≤ 128 }
    requires fits { register < 2 ^ bits }
    ensures { result ≡ register / 2 ^ (bits - 8) }
{
    (register >> (bits - 8)) as u8
}

/// Returns the register after one more power of x.
pub fn next(refin: bool, bits: u32, feedback: u128, register: u128) -> u128
    requires some { 1 ≤ bits }
    requires few { bits ≤ 128 }
    ensures { result ≡ next refin bits feedback register }
{
    if refin {
        let half = register / 2;
        if register % 2 == 1 {
            half ^ feedback
        } else {
            half
        }
    } else {
        let double = raised(register, 1, bits);
        if register >> (bits - 1) == 1 {
            double ^ feedback
        } else {
            double
        }
    }
}

/// Returns the register after eight more powers of x.
#[tactic(auto, using(crate::proofs::RegisterLemmas::rounds_none, crate::proofs::RegisterLemmas::rounds_more))]
pub fn eight(refin: bool, bits: u32, feedback: u128, start: u128) -> u128
    requires some { 1 ≤ bits }
    requires few { bits ≤ 128 }
    ensures { result ≡ rounds refin bits feedback 8 start }
{
    let mut register = start;
    for k in 0..8u32 {
        let _ = k;
        register = next(refin, bits, feedback, register);
    }
    register
}

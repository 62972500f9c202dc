//! The operations on numbers of 128 bits, which C passes as their lower and higher 64.

/// Returns the number of 128 bits with these halves.
fn joined(low: u64, high: u64) -> u128 {
    u128::from(low) | (u128::from(high) << 64)
}

/// Writes the higher half of a number, and returns the lower one.
fn halves(n: u128, high: &mut u64) -> u64 {
    *high = (n >> 64) as u64;
    (n & 0xffff_ffff_ffff_ffff) as u64
}

fn unsigned(operation: u32, a: u128, b: u128) -> u128 {
    match operation {
        0 => a.wrapping_add(b),
        1 => a.wrapping_sub(b),
        2 => a.wrapping_mul(b),
        3 => (a / 2) + (b / 2),
        4 => a - (a & b),
        5 => if b == 0 { a } else { a / b },
        6 => if b == 0 { a } else { a % b },
        7 => a | b,
        8 => a ^ b,
        9 => !a,
        10 => a << (b & 127),
        11 => a >> (b & 127),
        12 => u128::from(a < b) + 2 * u128::from(a <= b),
        13 => u128::from(a == b) + 2 * u128::from(a != b),
        14 => u128::from(a.trailing_zeros()) + (u128::from(a.leading_zeros()) << 8),
        15 => u128::from(a.count_ones()),
        _ => (a << 64) >> 7,
    }
}

fn signed(operation: u32, a: i128, b: i128) -> i128 {
    match operation {
        0 => (a / 2) + (b / 2),
        1 => (a / 2) - (b / 2),
        2 => (a % 1000) * (b % 1000),
        3 => if b == 0 || b == -1 { a } else { a / b },
        4 => if b == 0 || b == -1 { a } else { a % b },
        5 => a >> (b & 127),
        6 => a << (b & 127),
        7 => i128::from(a < b) + 2 * i128::from(a <= b),
        8 => a >> 100,
        _ => -(a / 2),
    }
}

/// Returns what an operation on two numbers of 128 bits gives.
#[unsafe(no_mangle)]
pub extern "C" fn unsigned_128(
    operation: u32,
    a: u64,
    a_high: u64,
    b: u64,
    b_high: u64,
    high: &mut u64,
) -> u64 {
    halves(
        unsigned(operation, joined(a, a_high), joined(b, b_high)),
        high,
    )
}

/// Returns what an operation on two signed numbers of 128 bits gives, as two's complement.
#[unsafe(no_mangle)]
pub extern "C" fn signed_128(
    operation: u32,
    a: u64,
    a_high: u64,
    b: u64,
    b_high: u64,
    high: &mut u64,
) -> u64 {
    let a = joined(a, a_high).cast_signed();
    let b = joined(b, b_high).cast_signed();
    halves(signed(operation, a, b).cast_unsigned(), high)
}

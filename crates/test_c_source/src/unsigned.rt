//! The operations on numbers without sign, of each width but 128.

/// Returns what an operation on two numbers of 8 bits gives.
#[unsafe(no_mangle)]
pub extern "C" fn unsigned_8(operation: u32, a: u8, b: u8) -> u8 {
    match operation {
        0 => a.wrapping_add(b),
        1 => a.wrapping_sub(b),
        2 => a.wrapping_mul(b),
        3 => (a / 2) + (b / 2),
        4 => a - (a & b),
        5 => (a % 11) * (b % 13),
        6 => if b == 0 { a } else { a / b },
        7 => if b == 0 { a } else { a % b },
        8 => a & b,
        9 => a | b,
        10 => a ^ b,
        11 => !a,
        12 => a << (b & 7),
        13 => a >> (b & 7),
        14 => u8::from(a < b),
        15 => u8::from(a <= b),
        16 => u8::from(a == b),
        17 => u8::from(a != b),
        18 => (!a.wrapping_add(b) >> 1) / 3,
        _ => a << 3,
    }
}

/// Returns the zeros below and above the ones of a number of 8 bits, and the number of its ones.
#[unsafe(no_mangle)]
pub extern "C" fn counts_8(a: u8) -> u32 {
    a.trailing_zeros() + (a.leading_zeros() << 8) + (a.count_ones() << 16)
}

/// Returns what an operation on two numbers of 16 bits gives.
#[unsafe(no_mangle)]
pub extern "C" fn unsigned_16(operation: u32, a: u16, b: u16) -> u16 {
    match operation {
        0 => a.wrapping_add(b),
        1 => a.wrapping_sub(b),
        2 => a.wrapping_mul(b),
        3 => (a / 2) + (b / 2),
        4 => a - (a & b),
        5 => (a % 11) * (b % 13),
        6 => if b == 0 { a } else { a / b },
        7 => if b == 0 { a } else { a % b },
        8 => a & b,
        9 => a | b,
        10 => a ^ b,
        11 => !a,
        12 => a << (b & 15),
        13 => a >> (b & 15),
        14 => u16::from(a < b),
        15 => u16::from(a <= b),
        16 => u16::from(a == b),
        17 => u16::from(a != b),
        18 => (!a.wrapping_add(b) >> 1) / 3,
        _ => a << 3,
    }
}

/// Returns the zeros below and above the ones of a number of 16 bits, and the number of its ones.
#[unsafe(no_mangle)]
pub extern "C" fn counts_16(a: u16) -> u32 {
    a.trailing_zeros() + (a.leading_zeros() << 8) + (a.count_ones() << 16)
}

/// Returns what an operation on two numbers of 32 bits gives.
#[unsafe(no_mangle)]
pub extern "C" fn unsigned_32(operation: u32, a: u32, b: u32) -> u32 {
    match operation {
        0 => a.wrapping_add(b),
        1 => a.wrapping_sub(b),
        2 => a.wrapping_mul(b),
        3 => (a / 2) + (b / 2),
        4 => a - (a & b),
        5 => (a % 11) * (b % 13),
        6 => if b == 0 { a } else { a / b },
        7 => if b == 0 { a } else { a % b },
        8 => a & b,
        9 => a | b,
        10 => a ^ b,
        11 => !a,
        12 => a << (b & 31),
        13 => a >> (b & 31),
        14 => u32::from(a < b),
        15 => u32::from(a <= b),
        16 => u32::from(a == b),
        17 => u32::from(a != b),
        18 => (!a.wrapping_add(b) >> 1) / 3,
        _ => a << 3,
    }
}

/// Returns the zeros below and above the ones of a number of 32 bits, and the number of its ones.
#[unsafe(no_mangle)]
pub extern "C" fn counts_32(a: u32) -> u32 {
    a.trailing_zeros() + (a.leading_zeros() << 8) + (a.count_ones() << 16)
}

/// Returns what an operation on two numbers of 64 bits gives.
#[unsafe(no_mangle)]
pub extern "C" fn unsigned_64(operation: u32, a: u64, b: u64) -> u64 {
    match operation {
        0 => a.wrapping_add(b),
        1 => a.wrapping_sub(b),
        2 => a.wrapping_mul(b),
        3 => (a / 2) + (b / 2),
        4 => a - (a & b),
        5 => (a % 11) * (b % 13),
        6 => if b == 0 { a } else { a / b },
        7 => if b == 0 { a } else { a % b },
        8 => a & b,
        9 => a | b,
        10 => a ^ b,
        11 => !a,
        12 => a << (b & 63),
        13 => a >> (b & 63),
        14 => u64::from(a < b),
        15 => u64::from(a <= b),
        16 => u64::from(a == b),
        17 => u64::from(a != b),
        18 => (!a.wrapping_add(b) >> 1) / 3,
        _ => a << 3,
    }
}

/// Returns the zeros below and above the ones of a number of 64 bits, and the number of its ones.
#[unsafe(no_mangle)]
pub extern "C" fn counts_64(a: u64) -> u32 {
    a.trailing_zeros() + (a.leading_zeros() << 8) + (a.count_ones() << 16)
}

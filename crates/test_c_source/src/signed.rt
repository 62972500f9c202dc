//! The operations on signed numbers of each width but 128.

/// Returns what an operation on two signed numbers of 8 bits gives.
#[unsafe(no_mangle)]
pub extern "C" fn signed_8(operation: u32, a: i8, b: i8) -> i8 {
    match operation {
        0 => a.wrapping_add(b),
        1 => a.wrapping_sub(b),
        2 => a.wrapping_mul(b),
        3 => (a / 2) + (b / 2),
        4 => (a / 2) - (b / 2),
        5 => (a % 11) * (b % 10),
        6 => if b == 0 || b == -1 { a } else { a / b },
        7 => if b == 0 || b == -1 { a } else { a % b },
        8 => a & b,
        9 => a | b,
        10 => a ^ b,
        11 => !a,
        12 => a << (b & 7),
        13 => a >> (b & 7),
        14 => i8::from(a < b),
        15 => i8::from(a <= b),
        16 => i8::from(a == b),
        17 => -(a / 2),
        18 => a.wrapping_mul(b) / 3,
        _ => a >> 3,
    }
}

/// Returns what an operation on two signed numbers of 16 bits gives.
#[unsafe(no_mangle)]
pub extern "C" fn signed_16(operation: u32, a: i16, b: i16) -> i16 {
    match operation {
        0 => a.wrapping_add(b),
        1 => a.wrapping_sub(b),
        2 => a.wrapping_mul(b),
        3 => (a / 2) + (b / 2),
        4 => (a / 2) - (b / 2),
        5 => (a % 11) * (b % 10),
        6 => if b == 0 || b == -1 { a } else { a / b },
        7 => if b == 0 || b == -1 { a } else { a % b },
        8 => a & b,
        9 => a | b,
        10 => a ^ b,
        11 => !a,
        12 => a << (b & 15),
        13 => a >> (b & 15),
        14 => i16::from(a < b),
        15 => i16::from(a <= b),
        16 => i16::from(a == b),
        17 => -(a / 2),
        18 => a.wrapping_mul(b) / 3,
        _ => a >> 3,
    }
}

/// Returns what an operation on two signed numbers of 32 bits gives.
#[unsafe(no_mangle)]
pub extern "C" fn signed_32(operation: u32, a: i32, b: i32) -> i32 {
    match operation {
        0 => a.wrapping_add(b),
        1 => a.wrapping_sub(b),
        2 => a.wrapping_mul(b),
        3 => (a / 2) + (b / 2),
        4 => (a / 2) - (b / 2),
        5 => (a % 11) * (b % 10),
        6 => if b == 0 || b == -1 { a } else { a / b },
        7 => if b == 0 || b == -1 { a } else { a % b },
        8 => a & b,
        9 => a | b,
        10 => a ^ b,
        11 => !a,
        12 => a << (b & 31),
        13 => a >> (b & 31),
        14 => i32::from(a < b),
        15 => i32::from(a <= b),
        16 => i32::from(a == b),
        17 => -(a / 2),
        18 => a.wrapping_mul(b) / 3,
        _ => a >> 3,
    }
}

/// Returns what an operation on two signed numbers of 64 bits gives.
#[unsafe(no_mangle)]
pub extern "C" fn signed_64(operation: u32, a: i64, b: i64) -> i64 {
    match operation {
        0 => a.wrapping_add(b),
        1 => a.wrapping_sub(b),
        2 => a.wrapping_mul(b),
        3 => (a / 2) + (b / 2),
        4 => (a / 2) - (b / 2),
        5 => (a % 11) * (b % 10),
        6 => if b == 0 || b == -1 { a } else { a / b },
        7 => if b == 0 || b == -1 { a } else { a % b },
        8 => a & b,
        9 => a | b,
        10 => a ^ b,
        11 => !a,
        12 => a << (b & 63),
        13 => a >> (b & 63),
        14 => i64::from(a < b),
        15 => i64::from(a <= b),
        16 => i64::from(a == b),
        17 => -(a / 2),
        18 => a.wrapping_mul(b) / 3,
        _ => a >> 3,
    }
}

//! Numbers of one width and sign as another.

/// Returns the lowest 8, 16 or 32 bits of a number, extended to 64 bits with zeros or with their
/// sign. For other kinds than 0 to 5, returns whether the number exceeds 7.
#[unsafe(no_mangle)]
pub extern "C" fn cut(kind: u32, a: u64) -> u64 {
    match kind {
        0 => u64::from((a & 0xff) as u8),
        1 => u64::from((a & 0xffff) as u16),
        2 => u64::from((a & 0xffff_ffff) as u32),
        3 => i64::from(((a & 0xff) as u8).cast_signed()).cast_unsigned(),
        4 => i64::from(((a & 0xffff) as u16).cast_signed()).cast_unsigned(),
        5 => i64::from(((a & 0xffff_ffff) as u32).cast_signed()).cast_unsigned(),
        _ => u64::from(a > 7),
    }
}

/// Returns a number of 8 bits as one of 16 and of 32 with its sign, and one of 16 as one of 32.
#[unsafe(no_mangle)]
pub extern "C" fn widened(a: i8, b: i16, of_16: &mut u16) -> u32 {
    *of_16 = i16::from(a).cast_unsigned();
    i32::from(a).cast_unsigned() ^ (i32::from(b).cast_unsigned() << 1)
}

/// Widens numbers of each width to 128 bits with their signs, and joins them by exclusive or.
/// Returns the lower half, and writes the higher half to `high`.
#[unsafe(no_mangle)]
pub extern "C" fn widened_128(a: i8, b: i16, c: i32, d: i64, high: &mut u64) -> u64 {
    let wide = i128::from(a) ^ (i128::from(b) << 1) ^ (i128::from(c) << 2) ^ (i128::from(d) << 3);
    let wide = wide.cast_unsigned();
    *high = (wide >> 64) as u64;
    (wide & 0xffff_ffff_ffff_ffff) as u64
}

/// Returns which operations of Boolean values hold, a bit for each.
#[unsafe(no_mangle)]
pub extern "C" fn of_bools(a: bool, b: bool) -> u32 {
    u32::from(a & b)
        | (u32::from(a | b) << 1)
        | (u32::from(a ^ b) << 2)
        | (u32::from(!a) << 3)
        | (u32::from(a == b) << 4)
        | (u32::from(a != b) << 5)
}

//! Nested loops that are left by `break`, `continue` and `return`.

/// Returns the place of the first byte that is not below a limit and stands before a zero, or the
/// length.
#[unsafe(no_mangle)]
pub extern "C" fn first_large(bytes: &[u8], limit: u8) -> u64 {
    for place in 0..bytes.len() {
        if bytes[place] == 0 {
            break;
        }
        if bytes[place] >= limit {
            return place as u64;
        }
    }
    bytes.len() as u64
}

/// Returns the number of pairs of equal bytes, at most `most`, by nested loops. The inner loop
/// breaks and continues the outer one.
#[unsafe(no_mangle)]
pub extern "C" fn equal_pairs(bytes: &[u8], most: u64) -> u64 {
    let mut count: u64 = 0;
    'outer: for i in 0..bytes.len() {
        for j in 0..i {
            if bytes[j] == 255 {
                continue 'outer;
            }
            if bytes[i] == bytes[j] {
                count = count.wrapping_add(1);
                if count > most {
                    break 'outer;
                }
            }
        }
        count ^= 1;
    }
    count
}

/// Returns a number made of bytes, by a `match` within a loop whose arms break or continue the
/// loop.
#[unsafe(no_mangle)]
pub extern "C" fn kinds(bytes: &[u8]) -> u64 {
    let mut sum: u64 = 1;
    let mut last = 0;
    for i in 0..bytes.len() {
        let byte = bytes[i];
        match byte {
            0 => break,
            1 | 2 | 3 => continue,
            7 => sum = sum.wrapping_mul(3),
            9 if last == 9 => return sum,
            _ => {
                let kept = sum;
                sum = sum.wrapping_add(u64::from(byte));
                if sum < kept {
                    last = 7;
                    continue;
                }
            }
        }
        last = byte;
    }
    sum ^ (u64::from(last) << 56)
}

/// Returns a number made of two variables, each of which takes the other's last value in each turn
/// of a loop.
#[unsafe(no_mangle)]
pub extern "C" fn turns(count: u8, a: u64, b: u64) -> u64 {
    let mut x = a;
    let mut y = b;
    for i in 0..count {
        let before = x;
        x = y;
        y = before.wrapping_mul(31).wrapping_add(u64::from(i));
    }
    x ^ y.wrapping_mul(7)
}

/// Returns the number of digits of a number, by a function that calls itself.
#[unsafe(no_mangle)]
pub extern "C" fn digits(n: u64) -> u64 {
    if n < 10 {
        1
    } else {
        digits(n / 10).wrapping_add(1)
    }
}

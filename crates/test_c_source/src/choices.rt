//! Enums with and without content, nested matches, and structs that are copied and changed.

/// An enum without content.
#[derive(Clone, Copy, PartialEq)]
enum Color {
    Red,
    Green,
    Blue,
    White,
}

/// An enum with contents of many kinds, one of no size.
#[derive(Clone, Copy)]
enum Shape {
    Nothing,
    Square(u16),
    Box { width: u32, height: u32 },
    Far(u64, u8, bool),
    Colored(Color, Pair),
}

/// A struct with a field of another type, and of none.
#[derive(Clone, Copy)]
struct Pair {
    first: u64,
    empty: (),
    second: u8,
}

fn color_of(n: u32) -> Color {
    match n % 5 {
        0 => Color::Red,
        1 => Color::Green,
        2 | 3 => Color::Blue,
        _ => Color::White,
    }
}

fn shape_of(n: u32, a: u64, b: u8) -> Shape {
    match n % 6 {
        0 => Shape::Nothing,
        1 => Shape::Square((a & 0xffff) as u16),
        2 => Shape::Box {
            width: n,
            height: u32::from(b),
        },
        3 => Shape::Far(a, b, a > 100),
        _ => Shape::Colored(
            color_of(n),
            Pair {
                first: a,
                empty: (),
                second: b,
            },
        ),
    }
}

fn code(color: Color) -> u64 {
    match color {
        Color::Red => 3,
        Color::Green => 1,
        Color::Blue => 4,
        Color::White => 15,
    }
}

fn weight(shape: Shape) -> u64 {
    match shape {
        Shape::Nothing => 17,
        Shape::Square(side) => u64::from(side) << 1,
        Shape::Box { width, height } => u64::from(width) ^ (u64::from(height) << 32),
        Shape::Far(far, near, is_far) => {
            if is_far {
                far ^ u64::from(near)
            } else {
                u64::from(near).wrapping_sub(far)
            }
        }
        Shape::Colored(
            color,
            Pair {
                first,
                empty: _,
                second,
            },
        ) => {
            first
                .wrapping_add(u64::from(second))
                .wrapping_mul(code(color))
        }
    }
}

/// Returns a number of each variant of an enum, by nested matches.
#[unsafe(no_mangle)]
pub extern "C" fn weights(n: u32, a: u64, b: u8) -> u64 {
    weight(shape_of(n, a, b))
}

/// Returns a number made of two options by nested matches.
#[unsafe(no_mangle)]
pub extern "C" fn options(n: u32, a: u64, b: u64) -> u64 {
    let first = if n & 1 == 0 { Some(a) } else { None };
    let second: Result<u64, u8> = if n & 2 == 0 {
        Ok(b)
    } else {
        Err((n & 0xff) as u8)
    };
    match (first, second) {
        (Some(x), Ok(y)) if x < y => y - x,
        (Some(x), Ok(y)) => x ^ y,
        (Some(x), Err(e)) => x.wrapping_add(u64::from(e)),
        (None, Ok(y)) => !y,
        (None, Err(_)) => 5,
    }
}

fn half(n: u64) -> Result<u64, Color> {
    if n % 2 == 0 {
        Ok(n / 2)
    } else {
        Err(color_of((n & 7) as u32))
    }
}

fn eighth(n: u64) -> Result<u64, Color> {
    half(half(half(n)?)?)
}

/// Returns the eighth of a number, by halving it three times. If a half isn't whole, returns a
/// number for the error.
#[unsafe(no_mangle)]
pub extern "C" fn eighths(n: u64) -> u64 {
    match eighth(n) {
        Ok(n) => n,
        Err(Color::Blue) => 1_000_000,
        Err(other) => code(other),
    }
}

/// Returns the parts of a struct after they were exchanged a number of times.
#[unsafe(no_mangle)]
pub extern "C" fn exchanged(a: u64, b: u8, times: u32) -> u64 {
    let mut pair = Pair {
        first: a,
        empty: (),
        second: b,
    };
    let mut other = pair;
    for _ in 0..times % 4 {
        pair = Pair {
            first: u64::from(pair.second),
            empty: pair.empty,
            second: (pair.first & 0xff) as u8,
        };
        std::mem::swap(&mut pair, &mut other);
        other.first = other.first.wrapping_add(1);
    }
    pair.first ^ (u64::from(pair.second) << 40) ^ (other.first << 3) ^ u64::from(other.second)
}

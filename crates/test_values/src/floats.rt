//! Tests of floats: their bytes, which python3's `struct` packs, and their texts.

use crate::helpers::check_texts;
use crate::vectors::check_row;
use std::process::Abort;

/// Type expressions, each with the text of a value as it is printed, and the value's encoding. The
/// values are powers of two, zeros, the least and the greatest numbers, infinities, and NaNs with
/// each kind of bits.
const VECTORS: [(&str, &str, &[u8]); 54] = [
    ("f32", "-32.00586", &[0x00, 0x06, 0x00, 0xC2]),
    ("f32", "1.5", &[0x00, 0x00, 0xC0, 0x3F]),
    ("f32", "0.0", &[0x00, 0x00, 0x00, 0x00]),
    ("f32", "-0.0", &[0x00, 0x00, 0x00, 0x80]),
    ("f32", "0.1", &[0xCD, 0xCC, 0xCC, 0x3D]),
    ("f32", "0.33333334", &[0xAB, 0xAA, 0xAA, 0x3E]),
    ("f32", "16777216.0", &[0x00, 0x00, 0x80, 0x4B]),
    ("f32", "0.0009765625", &[0x00, 0x00, 0x80, 0x3A]),
    ("f32", "10000000000.0", &[0xF9, 0x02, 0x15, 0x50]),
    ("f32", "1e13", &[0xE7, 0x84, 0x11, 0x55]),
    ("f32", "0.000001", &[0xBD, 0x37, 0x86, 0x35]),
    ("f32", "1e-7", &[0x95, 0xBF, 0xD6, 0x33]),
    ("f32", "1e-45", &[0x01, 0x00, 0x00, 0x00]),
    ("f32", "-1e-45", &[0x01, 0x00, 0x00, 0x80]),
    ("f32", "1.1754942e-38", &[0xFF, 0xFF, 0x7F, 0x00]),
    ("f32", "1.1754944e-38", &[0x00, 0x00, 0x80, 0x00]),
    ("f32", "3.4028235e38", &[0xFF, 0xFF, 0x7F, 0x7F]),
    ("f32", "-3.4028235e38", &[0xFF, 0xFF, 0x7F, 0xFF]),
    ("f32", "inf", &[0x00, 0x00, 0x80, 0x7F]),
    ("f32", "-inf", &[0x00, 0x00, 0x80, 0xFF]),
    ("f32", "nan", &[0x00, 0x00, 0xC0, 0x7F]),
    ("f32", "nan(0x7fc00001)", &[0x01, 0x00, 0xC0, 0x7F]),
    ("f32", "nan(0xffc00000)", &[0x00, 0x00, 0xC0, 0xFF]),
    ("f32", "nan(0x7f800001)", &[0x01, 0x00, 0x80, 0x7F]),
    ("f32", "nan(0xffffffff)", &[0xFF, 0xFF, 0xFF, 0xFF]),
    (
        "f64",
        "-32.005859375",
        &[0x00, 0x00, 0x00, 0x00, 0xC0, 0x00, 0x40, 0xC0],
    ),
    (
        "f64",
        "-32.0078125",
        &[0x00, 0x00, 0x00, 0x00, 0x00, 0x01, 0x40, 0xC0],
    ),
    (
        "f64",
        "0.0",
        &[0x00, 0x00, 0x00, 0x00, 0x00, 0x00, 0x00, 0x00],
    ),
    (
        "f64",
        "-0.0",
        &[0x00, 0x00, 0x00, 0x00, 0x00, 0x00, 0x00, 0x80],
    ),
    (
        "f64",
        "0.1",
        &[0x9A, 0x99, 0x99, 0x99, 0x99, 0x99, 0xB9, 0x3F],
    ),
    (
        "f64",
        "12345.678",
        &[0x58, 0x39, 0xB4, 0xC8, 0xD6, 0x1C, 0xC8, 0x40],
    ),
    (
        "f64",
        "1000000000000000.0",
        &[0x00, 0x00, 0x34, 0x26, 0xF5, 0x6B, 0x0C, 0x43],
    ),
    (
        "f64",
        "1e16",
        &[0x00, 0x80, 0xE0, 0x37, 0x79, 0xC3, 0x41, 0x43],
    ),
    (
        "f64",
        "0.0001",
        &[0x2D, 0x43, 0x1C, 0xEB, 0xE2, 0x36, 0x1A, 0x3F],
    ),
    (
        "f64",
        "1e-6",
        &[0x8D, 0xED, 0xB5, 0xA0, 0xF7, 0xC6, 0xB0, 0x3E],
    ),
    (
        "f64",
        "1e21",
        &[0x50, 0xEF, 0xE2, 0xD6, 0xE4, 0x1A, 0x4B, 0x44],
    ),
    (
        "f64",
        "9.223372036854776e18",
        &[0x00, 0x00, 0x00, 0x00, 0x00, 0x00, 0xE0, 0x43],
    ),
    (
        "f64",
        "5e-324",
        &[0x01, 0x00, 0x00, 0x00, 0x00, 0x00, 0x00, 0x00],
    ),
    (
        "f64",
        "2.225073858507201e-308",
        &[0xFF, 0xFF, 0xFF, 0xFF, 0xFF, 0xFF, 0x0F, 0x00],
    ),
    (
        "f64",
        "2.2250738585072014e-308",
        &[0x00, 0x00, 0x00, 0x00, 0x00, 0x00, 0x10, 0x00],
    ),
    (
        "f64",
        "1.7976931348623157e308",
        &[0xFF, 0xFF, 0xFF, 0xFF, 0xFF, 0xFF, 0xEF, 0x7F],
    ),
    (
        "f64",
        "-1.7976931348623157e308",
        &[0xFF, 0xFF, 0xFF, 0xFF, 0xFF, 0xFF, 0xEF, 0xFF],
    ),
    (
        "f64",
        "inf",
        &[0x00, 0x00, 0x00, 0x00, 0x00, 0x00, 0xF0, 0x7F],
    ),
    (
        "f64",
        "-inf",
        &[0x00, 0x00, 0x00, 0x00, 0x00, 0x00, 0xF0, 0xFF],
    ),
    (
        "f64",
        "nan",
        &[0x00, 0x00, 0x00, 0x00, 0x00, 0x00, 0xF8, 0x7F],
    ),
    (
        "f64",
        "nan(0x7ff8000000000001)",
        &[0x01, 0x00, 0x00, 0x00, 0x00, 0x00, 0xF8, 0x7F],
    ),
    (
        "f64",
        "nan(0xfff8000000000000)",
        &[0x00, 0x00, 0x00, 0x00, 0x00, 0x00, 0xF8, 0xFF],
    ),
    (
        "f64",
        "nan(0x7ff0000000000001)",
        &[0x01, 0x00, 0x00, 0x00, 0x00, 0x00, 0xF0, 0x7F],
    ),
    (
        "[f32]",
        "[1.5, -0.0, nan]",
        &[
            0x03, 0x00, 0x00, 0xC0, 0x3F, 0x00, 0x00, 0x00, 0x80, 0x00, 0x00, 0xC0, 0x7F,
        ],
    ),
    (
        "[f32; 2]",
        "[nan(0x7fc00001), inf]",
        &[0x01, 0x00, 0xC0, 0x7F, 0x00, 0x00, 0x80, 0x7F],
    ),
    (
        "{at: f64, on: bool, gain: f32?}",
        "{at: -2.5, on: true, gain: Some(0.5)}",
        &[
            0x00, 0x00, 0x00, 0x00, 0x00, 0x00, 0x04, 0xC0, 0x01, 0x01, 0x00, 0x00, 0x00, 0x3F,
        ],
    ),
    (
        "{f32 => f64}",
        "{1.0 => 2.0}",
        &[
            0x01, 0x00, 0x00, 0x80, 0x3F, 0x00, 0x00, 0x00, 0x00, 0x00, 0x00, 0x00, 0x40,
        ],
    ),
    (
        "Off | Level(f32) | At(f64, u8)",
        "Level(nan(0xffc00001))",
        &[0x01, 0x01, 0x00, 0xC0, 0xFF],
    ),
    (
        "Off | Level(f32) | At(f64, u8)",
        "At(1e300, 7)",
        &[0x02, 0x9C, 0x75, 0x00, 0x88, 0x3C, 0xE4, 0x37, 0x7E, 0x07],
    ),
];

/// Types and texts, each beside the text that is printed of the value.
const READ: [(&str, &str, &str); 17] = [
    ("f32", "1", "1.0"),
    ("f64", " -3 ", "-3.0"),
    ("f32", "+.5", "0.5"),
    ("f32", "5.", "5.0"),
    ("f64", "1e10", "10000000000.0"),
    ("f64", "1E+2", "100.0"),
    ("f32", "16777217", "16777216.0"),
    ("f64", "0.30000000000000000000001", "0.3"),
    ("f64", "1e400", "inf"),
    ("f64", "-1e-400", "-0.0"),
    ("f32", "Infinity", "inf"),
    ("f32", "NaN", "nan"),
    ("f32", "nan(0x7fc00000)", "nan"),
    ("f32", "nan ( 0xFFC00001 ) ", "nan(0xffc00001)"),
    ("f64", "nan(0x7ff8000000000000)", "nan"),
    ("[f64]", "[1,-2,nan,]", "[1.0, -2.0, nan]"),
    (
        "(f32, f32)",
        "(inf,nan(0x07fc00001))",
        "(inf, nan(0x7fc00001))",
    ),
];

/// Types and texts that are no value, each beside the error as it is printed.
const REFUSED: [(&str, &str, &str); 13] = [
    (
        "f32",
        "",
        "bad value at character 1: expected a number of f32, as 1.5, inf or nan",
    ),
    (
        "f32",
        "0x10",
        "bad value at character 1: expected a number of f32, as 1.5, inf or nan",
    ),
    (
        "f64",
        "1.5.2",
        "bad value at character 1: expected a number of f64, as 1.5, inf or nan",
    ),
    (
        "f64",
        "1e",
        "bad value at character 1: expected a number of f64, as 1.5, inf or nan",
    ),
    (
        "f64",
        "one",
        "bad value at character 1: expected a number of f64, as 1.5, inf or nan",
    ),
    (
        "f64",
        "1_0",
        "bad value at character 1: expected a number of f64, as 1.5, inf or nan",
    ),
    (
        "f32",
        "1.5 (2)",
        "bad value at character 5: expected the end",
    ),
    (
        "f32",
        "nan(0x3f800000)",
        "bad value at character 1: expected a number of f32, as 1.5, inf or nan",
    ),
    (
        "f32",
        "nan(0x17fc00001)",
        "bad value at character 1: expected a number of f32, as 1.5, inf or nan",
    ),
    (
        "f64",
        "nan(0x7fc00001)",
        "bad value at character 1: expected a number of f64, as 1.5, inf or nan",
    ),
    (
        "f32",
        "nan(7fc00001)",
        "bad value at character 5: expected the bits of a NaN, as 0x7fc00001, and `)`",
    ),
    (
        "f32",
        "nan(0x7fc00001",
        "bad value at character 5: expected the bits of a NaN, as 0x7fc00001, and `)`",
    ),
    (
        "(u8, f32)",
        "(1, x)",
        "bad value at character 5: expected a number of f32, as 1.5, inf or nan",
    ),
];

#[test]
fn both_ways(rt: HostRuntime) {
    for (expression, text, message) in &VECTORS {
        check_row(&rt, expression, text, message);
    }
}

#[test]
fn reads_other_texts(rt: HostRuntime) {
    check_texts(&rt, &READ);
}

#[test]
fn refuses_texts(rt: HostRuntime) {
    check_texts(&rt, &REFUSED);
}

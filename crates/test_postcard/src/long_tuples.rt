//! A test of the longest tuple, of sixteen parts, which std neither compares nor prints. Tuples of
//! thirteen to fifteen parts are read, written and proved in the same way.

use crate::asserts::{assert_written, same, taken};

/// The encodings of sixteen parts, one after another.
const PARTS: [u8; 20] = [
    0x01, 0xAC, 0x02, 0x01, 0x78, 0x01, 0x05, 0x06, 0x07, 0x08, 0x01, 0x79, 0x01, 0x0B, 0x0C, 0x0D,
    0x0E, 0x01, 0x7A, 0x00,
];

type Sixteen<'a> = (
    u8,
    u16,
    &'a str,
    bool,
    u8,
    u8,
    u8,
    u16,
    &'a str,
    i16,
    u8,
    u8,
    u8,
    u16,
    &'a str,
    bool,
);

#[test]
fn sixteen_parts(rt: HostRuntime) {
    let (value, rest) = taken::<Sixteen>(&rt, &PARTS);
    same(&rt, rest.is_empty(), true);
    same(
        &rt,
        (value.8, value.13, value.14, value.15),
        ("y", 14, "z", false),
    );
    assert_written(&rt, &value, &PARTS);
}

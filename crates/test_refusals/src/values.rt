//! Tests of damage and short buffers, with values of each type and their bytes by the wire format.

use crate::damage::{changes, frame_changes, frames_are_kept, withstands, withstands_lent};
use arrayvec::{ArrayString, ArrayVec};
use std::alloc::AllocGlobal;
use std::collections::BTreeMap;
use std::process::Abort;
use test_support::types::{
    BasicEnum, BasicU8S, DataEnum, DualTupleStruct, EnumStruct, NewTypeStruct, RefStruct,
    TupleStruct, WideU8S,
};

/// Does the same as `withstands` for a value that borrows from its bytes, which outlive it here.
macro_rules! withstands_lent {
    ($rt:expr, $t:ty, $value:expr, $bytes:expr) => {
        let copies = changes(&$rt, $bytes);
        let mut frames = frame_changes(&$rt, $bytes);
        withstands_lent::<$t>(&$rt, &$value, $bytes, &copies, &mut frames);
        frames_are_kept(&$rt, $bytes, &frames);
    };
}

#[test]
fn numbers(rt: HostRuntime) {
    withstands(&rt, 5u8, &[0x05]);
    withstands(&rt, 0xA5C7u16, &[0xC7, 0xCB, 0x02]);
    withstands(&rt, 0xCDAB3412u32, &[0x92, 0xE8, 0xAC, 0xED, 0x0C]);
    withstands(
        &rt,
        0x1234567890ABCDEFu64,
        &[0xEF, 0x9B, 0xAF, 0x85, 0x89, 0xCF, 0x95, 0x9A, 0x12],
    );
    withstands(
        &rt,
        0x1234567890ABCDEF1234567890ABCDEFu128,
        &[
            0xEF, 0x9B, 0xAF, 0x85, 0x89, 0xCF, 0x95, 0x9A, 0x92, 0xDE, 0xB7, 0xDE, 0x8A, 0x92,
            0x9E, 0xAB, 0xB4, 0x24,
        ],
    );
    withstands(
        &rt,
        usize::MAX,
        &[0xFF, 0xFF, 0xFF, 0xFF, 0xFF, 0xFF, 0xFF, 0xFF, 0xFF, 0x01],
    );
    withstands(&rt, 1usize, &[0x01]);
    withstands(&rt, -3i32, &[0x05]);
}

#[test]
fn scalars(rt: HostRuntime) {
    withstands(&rt, (), &[]);
    withstands(&rt, false, &[0x00]);
    withstands(&rt, true, &[0x01]);
    withstands(&rt, 'z', &[0x01, 0x7A]);
    withstands(&rt, '¢', &[0x02, 0xC2, 0xA2]);
    withstands(&rt, '𐍈', &[0x04, 0xF0, 0x90, 0x8D, 0x88]);
    withstands(&rt, '🥺', &[0x04, 0xF0, 0x9F, 0xA5, 0xBA]);
    withstands(&rt, Some(300u16), &[0x01, 0xAC, 0x02]);
}

#[test]
fn enums(rt: HostRuntime) {
    withstands(&rt, BasicEnum::Bim, &[0x01]);
    withstands(&rt, DataEnum::Bib(u16::MAX), &[0x00, 0xFF, 0xFF, 0x03]);
    withstands(
        &rt,
        DataEnum::Bim(u64::MAX),
        &[
            0x01, 0xFF, 0xFF, 0xFF, 0xFF, 0xFF, 0xFF, 0xFF, 0xFF, 0xFF, 0x01,
        ],
    );
    withstands(&rt, DataEnum::Bap(u8::MAX), &[0x02, 0xFF]);
    let inner = EnumStruct {
        eight: 0xF0,
        sixt: 0xACAC,
    };
    withstands(&rt, DataEnum::Kim(inner), &[0x03, 0xF0, 0xAC, 0xD9, 0x02]);
    let fields = DataEnum::Chi {
        a: 0x0F,
        b: 0xC7C7C7C7,
    };
    withstands(&rt, fields, &[0x04, 0x0F, 0xC7, 0x8F, 0x9F, 0xBE, 0x0C]);
    withstands(
        &rt,
        DataEnum::Sho(0x6969, 0x07),
        &[0x05, 0xE9, 0xD2, 0x01, 0x07],
    );
}

#[test]
fn parts_in_a_row(rt: HostRuntime) {
    withstands(&rt, (0x12u8, 0xC7A5u16), &[0x12, 0xA5, 0x8F, 0x03]);
    withstands(&rt, NewTypeStruct(5), &[0x05]);
    withstands(&rt, TupleStruct((0xA0, 0x1234)), &[0xA0, 0xB4, 0x24]);
    withstands(&rt, DualTupleStruct(0xA0, 0x1234), &[0xA0, 0xB4, 0x24]);
    let basic = BasicU8S {
        st: 0xABCD,
        ei: 0xFE,
        sf: 0x12344321ABCDDCBA,
        tt: 0xACACACAC,
    };
    withstands(
        &rt,
        basic,
        &[
            0xCD, 0xD7, 0x02, 0xFE, 0xBA, 0xB9, 0xB7, 0xDE, 0x9A, 0xE4, 0x90, 0x9A, 0x12, 0xAC,
            0xD9, 0xB2, 0xE5, 0x0A,
        ],
    );
    let wide = WideU8S {
        st: 0xABCD,
        ei: 0xFE,
        ote: 0x12344321ABCDDCBA12344321ABCDDCBA,
        sf: 0x12344321ABCDDCBA,
        tt: 0xACACACAC,
    };
    withstands(
        &rt,
        wide,
        &[
            0xCD, 0xD7, 0x02, 0xFE, 0xBA, 0xB9, 0xB7, 0xDE, 0x9A, 0xE4, 0x90, 0x9A, 0x92, 0xF4,
            0xF2, 0xEE, 0xBC, 0xB5, 0xC8, 0xA1, 0xB4, 0x24, 0xBA, 0xB9, 0xB7, 0xDE, 0x9A, 0xE4,
            0x90, 0x9A, 0x12, 0xAC, 0xD9, 0xB2, 0xE5, 0x0A,
        ],
    );
}

/// Does the same for a struct that borrows.
fn borrowed_parts(rt: &(impl Abort + AllocGlobal), value: RefStruct<'_>, bytes: &[u8]) {
    withstands_lent!(*rt, RefStruct, value, bytes);
}

/// Does the same for borrowed bytes.
fn borrowed_bytes(rt: &(impl Abort + AllocGlobal), value: &[u8], bytes: &[u8]) {
    withstands_lent!(*rt, &[u8], value, bytes);
}

/// Does the same for a borrowed string.
fn borrowed_text(rt: &(impl Abort + AllocGlobal), value: &str, bytes: &[u8]) {
    withstands_lent!(*rt, &str, value, bytes);
}

#[test]
fn bytes_and_texts(rt: HostRuntime) {
    let lent = RefStruct {
        bytes: &[0x01, 0x10, 0x02, 0x20],
        str_s: "hElLo",
    };
    borrowed_parts(&rt, lent, b"\x04\x01\x10\x02\x20\x05hElLo");
    borrowed_text(&rt, "hello, postcard!", b"\x10hello, postcard!");
    let eight = [1u8, 2, 3, 4, 5, 6, 7, 8];
    let bytes = [8, 1, 2, 3, 4, 5, 6, 7, 8];
    borrowed_bytes(&rt, &eight, &bytes);
    let list = eight.to_vec(rt.alloc()).expect(&rt, "a list");
    withstands(&rt, list, &bytes);
    let text = String::from_str(rt.alloc(), "Hi!").expect(&rt, "a text");
    withstands(&rt, text, b"\x03Hi!");
    let mut zeros = [0; 33];
    zeros[0] = 0x20;
    borrowed_bytes(&rt, &[0; 32], &zeros);
    withstands(&rt, [0u8; 32], &[0; 32]);
}

#[test]
fn collections(rt: HostRuntime) {
    let list = ArrayVec::<u8, 4>::from([1, 2, 3, 4]);
    withstands(&rt, list, &[0x04, 0x01, 0x02, 0x03, 0x04]);
    let text = ArrayString::<6>::from("helLO!").expect(&rt, "a text");
    withstands(&rt, text, b"\x06helLO!");
    let mut map: BTreeMap<u8, u8> = BTreeMap::new(rt.alloc());
    for (key, value) in [(1, 5), (2, 6), (3, 7), (4, 8)] {
        let inserted: Result<_, _> = map.insert(key, value);
        assert!(rt; inserted.is_ok());
    }
    withstands(&rt, map, &[4, 1, 5, 2, 6, 3, 7, 4, 8]);
    let numbers = vec![in rt.alloc(); 300u32, 7].expect(&rt, "a list");
    withstands(&rt, (numbers, true), &[0x02, 0xAC, 0x02, 0x07, 0x01]);
}

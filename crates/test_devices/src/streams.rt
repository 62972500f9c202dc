//! Tests of a user's values, written to a writer and read back from a reader.

use crate::asserts::{assert_read, assert_refused, same, same_bytes};
use crate::writers::sent;
use test_support::devices::readers::Pieces;
use test_support::types::{BasicU8S, DataEnum, RefStruct};

#[test]
fn an_enum(rt: HostRuntime) {
    let mut scratch = [0; 2048];
    let bytes = [0x05, 0xE9, 0xD2, 0x01, 0x07];
    let choice = DataEnum::Sho(0x6969, 0x07);
    let writer = sent::<_, 5>(&choice).expect(&rt, "the value has room");
    same_bytes(&rt, writer.held.as_slice(), &bytes);
    let (value, _) = assert_read::<DataEnum, _>(&rt, (bytes.as_slice(), &mut scratch));
    same(&rt, value, choice);
}

#[test]
fn a_struct(rt: HostRuntime) {
    let mut scratch = [0; 2048];
    let bytes = [
        0xCD, 0xD7, 0x02, 0xFE, 0xBA, 0xB9, 0xB7, 0xDE, 0x9A, 0xE4, 0x90, 0x9A, 0x12, 0xAC, 0xD9,
        0xB2, 0xE5, 0x0A,
    ];
    let record = BasicU8S {
        st: 0xABCD,
        ei: 0xFE,
        sf: 0x12344321ABCDDCBA,
        tt: 0xACACACAC,
    };
    let writer = sent::<_, 18>(&record).expect(&rt, "the value has room");
    same_bytes(&rt, writer.held.as_slice(), &bytes);
    let (value, _) = assert_read::<BasicU8S, _>(&rt, (bytes.as_slice(), &mut scratch));
    same(&rt, value, record);
}

#[test]
fn lent_fields(rt: HostRuntime) {
    let bytes = [
        0x04, 0x01, 0x10, 0x02, 0x20, 0x05, 0x68, 0x45, 0x6C, 0x4C, 0x6F,
    ];
    let mut scratch = [0; 9];
    let reader = Pieces::new(&bytes, &[1]);
    let (lent, (_, left)) = assert_read::<RefStruct, _>(&rt, (reader, &mut scratch));
    same_bytes(&rt, lent.bytes, &[0x01, 0x10, 0x02, 0x20]);
    same(&rt, lent.str_s, "hElLo");
    same(&rt, left.len(), 0);
    let mut short = [0; 8];
    let reader = Pieces::new(&bytes, &[1]);
    assert_refused::<RefStruct, _>(&rt, (reader, &mut short));
}

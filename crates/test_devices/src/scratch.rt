//! Tests of the scratch buffer of a reader. Numbers and lists need none. Values that are copied out
//! of it need it only for a while.

use crate::OLD;
use crate::asserts::{assert_read, assert_refused, same, same_bytes};
use arrayvec::ArrayString;
use postcard::Deserializer;
use postcard::de_flavors::io::io::IOReader;

/// A value of each kind that is read byte by byte.
type Parts = (u8, i8, bool, u16, i32, (Option<u8>, Vec<u8>));

/// The encoding of 7, -1, `true`, 300, -2, `Some(9)` and a list of 5 and 6.
const PARTS: [u8; 11] = [
    0x07, 0xFF, 0x01, 0xAC, 0x02, 0x03, 0x01, 0x09, 0x02, 0x05, 0x06,
];

#[test]
fn none_for_numbers_and_lists(rt: HostRuntime) {
    let (parts, _) = assert_read::<Parts, _>(&rt, (PARTS.as_slice(), &mut []));
    let (byte, signed, truth, short, word, (choice, list)) = parts;
    same(&rt, byte, 7);
    same(&rt, signed, -1);
    same(&rt, truth, true);
    same(&rt, short, 300);
    same(&rt, word, -2);
    same(&rt, choice, Some(9));
    same_bytes(&rt, list.as_slice(), &[5, 6]);
}

/// The string "Hi!".
const TEXT: [u8; 4] = [0x03, 0x48, 0x69, 0x21];

#[test]
fn given_back_after_a_text_is_copied(rt: HostRuntime) {
    let mut scratch = [OLD; 3];
    let (text, (_, left)) = assert_read::<ArrayString<4>, _>(&rt, (TEXT.as_slice(), &mut scratch));
    same(&rt, text.as_str(), "Hi!");
    same(&rt, left.len(), 3);
    let mut scratch = [OLD; 2];
    assert_refused::<ArrayString<4>, _>(&rt, (TEXT.as_slice(), &mut scratch));
}

#[test]
fn given_back_after_bytes_are_copied(rt: HostRuntime) {
    let mut scratch = [OLD; 3];
    let source = IOReader::new([0x02, 0x05, 0x06].as_slice(), &mut scratch);
    let mut deserializer = Deserializer::from_flavor(source);
    let answer = deserializer.deserialize_byte_buf(rt.alloc());
    let bytes = answer.expect(&rt, "bytes are read");
    same_bytes(&rt, bytes.as_slice(), &[5, 6]);
    let (_, left) = deserializer.finalize().expect(&rt, "the source comes back");
    same(&rt, left.len(), 3);
}

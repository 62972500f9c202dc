//! Tests of reading values from readers. Steady readers give pieces of several lengths. The same
//! readers are used without the promise to be steady. One reader fails.

use crate::OLD;
use crate::asserts::{assert_read, assert_refused, assert_scratch, same, same_bytes};
use postcard::de_flavors::io::io::IOReader;
use postcard::de_flavors::{Flavor, Plain, Reader};
use postcard::{Error, from_io};
use std::alloc::AllocGlobal;
use std::process::Abort;
use test_support::devices::readers::{FailingReader, Pieces};

/// The strings "ab" and "c".
const TEXTS: [u8; 5] = [0x02, 0x61, 0x62, 0x01, 0x63];

/// The string "ab", the character 'c', which needs scratch only for a while, and the string "d".
const MIXED: [u8; 7] = [0x02, 0x61, 0x62, 0x01, 0x63, 0x01, 0x64];

/// The string "z", and a byte after it.
const LETTER: [u8; 3] = [0x01, 0x7A, 0x99];

/// The string "Hi!", the number 300 as a `u16`, the pair of 5 as a `u8` and the string "z", and two
/// bytes after them.
const RECORDS: [u8; 11] = [
    0x03, 0x48, 0x69, 0x21, 0xAC, 0x02, 0x05, 0x01, 0x7A, 0x99, 0x98,
];

/// A reader over given bytes.
trait Over: Reader {
    /// Returns a reader of these bytes, in pieces of these lengths if it reads in pieces.
    fn over(bytes: &'static [u8], lengths: &'static [usize]) -> Self;
}

impl Over for &'static [u8] {
    fn over(bytes: &'static [u8], _lengths: &'static [usize]) -> Self {
        bytes
    }
}

impl Over for Pieces<'static> {
    fn over(bytes: &'static [u8], lengths: &'static [usize]) -> Self {
        Pieces::new(bytes, lengths)
    }
}

impl Over for Plain<&'static [u8]> {
    fn over(bytes: &'static [u8], _lengths: &'static [usize]) -> Self {
        Plain::new(bytes)
    }
}

impl Over for Plain<Pieces<'static>> {
    fn over(bytes: &'static [u8], lengths: &'static [usize]) -> Self {
        Plain::new(Pieces::new(bytes, lengths))
    }
}

/// Asserts that the reader has just these bytes left, and gives them with no scratch.
fn assert_unread<R: Reader>(rt: &impl Abort, reader: R, unread: &[u8]) {
    let mut rest = IOReader::new(reader, &mut []);
    for byte in unread {
        same(rt, rest.pop(), Ok(*byte));
    }
    same(rt, rest.pop(), Err(Error::DeserializeUnexpectedEnd));
}

/// Reads two strings that borrow from a scratch buffer with just room for them, to the reader's
/// end.
fn lends_all<'b, R: Reader + 'b>(rt: &(impl Abort + AllocGlobal), reader: R) {
    let mut memory = [OLD; 3];
    let ((first, last), (reader, left)) = assert_read::<(&str, &str), _>(rt, (reader, &mut memory));
    same(rt, first, "ab");
    same(rt, last, "c");
    same(rt, left.len(), 0);
    assert_unread(rt, reader, &[]);
}

/// Reads a string that borrows from a part of the scratch buffer. A byte is left in the reader.
fn lends_one<'b, R: Reader + 'b>(rt: &(impl Abort + AllocGlobal), reader: R) {
    let mut memory = [OLD; 2];
    let (text, (reader, left)) = assert_read::<&str, _>(rt, (reader, &mut memory));
    same(rt, text, "z");
    same(rt, left.len(), 1);
    assert_unread(rt, reader, &[0x99]);
}

/// Reads two strings that borrow from a scratch buffer with just room for them, and a character
/// between them, which borrows nothing.
fn lends_around<'b, R: Reader + 'b>(rt: &(impl Abort + AllocGlobal), reader: R) {
    let mut memory = [OLD; 3];
    let ((first, letter, last), (_, left)) = assert_read::<(&str, char, &str), _>(
        rt,
        (reader, &mut memory),
    );
    same(rt, first, "ab");
    same(rt, letter, 'c');
    same(rt, last, "d");
    same(rt, left.len(), 0);
}

/// Reads two strings for which the scratch is too short.
fn refuses_texts<'b, R: Reader + 'b>(rt: &(impl Abort + AllocGlobal), reader: R) {
    let mut memory = [OLD; 2];
    assert_refused::<(&str, &str), _>(rt, (reader, &mut memory));
}

/// Reads a string with no scratch.
fn refuses_a_text<'b, R: Reader + 'b>(rt: &(impl Abort + AllocGlobal), reader: R) {
    let mut memory = [OLD; 0];
    assert_refused::<&str, _>(rt, (reader, &mut memory));
}

/// Reads strings as `String`s, which need the scratch only for a while.
fn copies_texts<'b, R: Reader + 'b>(rt: &(impl Abort + AllocGlobal), reader: R) {
    let mut memory = [OLD; 2];
    let ((first, last), (reader, left)) = assert_read::<(String, String), _>(
        rt,
        (reader, &mut memory),
    );
    same(rt, first.as_str(), "ab");
    same(rt, last.as_str(), "c");
    same(rt, left.len(), 2);
    assert_unread(rt, reader, &[]);
}

/// Takes two of five bytes at a time, and keeps them borrowed. The third take is refused.
fn takes<'b, R: Reader + 'b>(rt: &impl Abort, reader: R) {
    let mut memory = [OLD; 8];
    let mut source = IOReader::new(reader, &mut memory);
    same(rt, source.try_take_n(2), Ok([0xAA, 0xBB].as_slice()));
    same(rt, source.try_take_n(2), Ok([0xCC, 0xDD].as_slice()));
    same(
        rt,
        source.try_take_n(2),
        Err(Error::DeserializeUnexpectedEnd),
    );
}

/// Takes more bytes than the reader has, in one call. Their scratch is used up.
fn refuses_a_take<'b, R: Reader + 'b>(rt: &impl Abort, reader: R) {
    let mut memory = [OLD; 4];
    let mut source = IOReader::new(reader, &mut memory);
    same(
        rt,
        source.try_take_n(3),
        Err(Error::DeserializeUnexpectedEnd),
    );
    assert_scratch(rt, source, 1);
}

/// Takes more bytes than the reader has, for a while, which uses up no scratch.
fn refuses_a_temporary_take<'b, R: Reader + 'b>(rt: &impl Abort, reader: R) {
    let mut memory = [OLD; 4];
    let mut source = IOReader::new(reader, &mut memory);
    let refused = source.try_take_n_temp(3);
    same(rt, refused, Err(Error::DeserializeUnexpectedEnd));
    assert_scratch(rt, source, 4);
}

/// Takes more bytes than the scratch has room for. They stay in the reader.
fn lacks_scratch<'b, R: Reader + 'b>(rt: &impl Abort, reader: R) {
    let mut memory = [OLD; 1];
    let mut source = IOReader::new(reader, &mut memory);
    same(
        rt,
        source.try_take_n(2),
        Err(Error::DeserializeUnexpectedEnd),
    );
    let reader = assert_scratch(rt, source, 1);
    assert_unread(rt, reader, &[0x01, 0x02]);
}

/// Reads records one after another, each with the scratch that the one before left. The bytes after
/// the records aren't read.
fn reads_records<'b, R: Reader + 'b>(rt: &(impl Abort + AllocGlobal), reader: R) {
    let mut memory = [OLD; 6];
    let (text, from) = assert_read::<&str, _>(rt, (reader, &mut memory));
    let (number, from) = assert_read::<u16, _>(rt, from);
    let ((byte, letter), (reader, left)) = assert_read::<(u8, &str), _>(rt, from);
    same(rt, text, "Hi!");
    same(rt, number, 300);
    same(rt, byte, 5);
    same(rt, letter, "z");
    same(rt, left.len(), 2);
    assert_unread(rt, reader, &[0x99, 0x98]);
}

/// Runs all of these tests that read values, over readers of one kind.
fn all_values<'b, R: Over + 'b>(rt: &(impl Abort + AllocGlobal), lengths: &'static [usize]) {
    lends_all(rt, R::over(&TEXTS, lengths));
    lends_one(rt, R::over(&LETTER, lengths));
    lends_around(rt, R::over(&MIXED, lengths));
    refuses_texts(rt, R::over(&TEXTS, lengths));
    refuses_a_text(rt, R::over(&LETTER, lengths));
    copies_texts(rt, R::over(&TEXTS, lengths));
    reads_records(rt, R::over(&RECORDS, lengths));
}

/// Runs all of these tests that take bytes, over readers of one kind.
fn all_takes<'b, R: Over + 'b>(rt: &impl Abort, lengths: &'static [usize]) {
    takes(rt, R::over(&[0xAA, 0xBB, 0xCC, 0xDD, 0xEE], lengths));
    let reader = R::over(&[0xAA, 0xBB, 0xCC], lengths);
    assert_unread(rt, reader, &[0xAA, 0xBB, 0xCC]);
    refuses_a_take(rt, R::over(&[0x01, 0x02], lengths));
    refuses_a_temporary_take(rt, R::over(&[0x01, 0x02], lengths));
    lacks_scratch(rt, R::over(&[0x01, 0x02], lengths));
}

/// Runs all of these tests over readers of one kind.
fn all_tests<'b, R: Over + 'b>(rt: &(impl Abort + AllocGlobal), lengths: &'static [usize]) {
    all_values::<R>(rt, lengths);
    all_takes::<R>(rt, lengths);
}

#[test]
fn over_steady_readers(rt: HostRuntime) {
    all_tests::<&[u8]>(&rt, &[]);
    all_tests::<Pieces>(&rt, &[1]);
    all_tests::<Pieces>(&rt, &[2, 3]);
    all_tests::<Pieces>(&rt, &[4, 1, 9]);
}

#[test]
fn over_any_reader(rt: HostRuntime) {
    all_tests::<Plain<&[u8]>>(&rt, &[]);
    all_tests::<Plain<Pieces>>(&rt, &[1]);
    all_tests::<Plain<Pieces>>(&rt, &[2, 3]);
}

/// Reads `(5u8, 300u32, "Hi!")` from a reader of which one read fails, if the value needs it.
fn read_through(rt: &(impl Abort + AllocGlobal), fails_at: usize) {
    let bytes = [0x05, 0xAC, 0x02, 0x03, 0x48, 0x69, 0x21, 0x99];
    let mut failing = FailingReader {
        inner: Pieces::new(&bytes, &[1]),
        reads: 0,
        fails_at,
    };
    let mut memory = [OLD; 3];
    let outcome = from_io::<(u8, u32, &str), _>(
        rt.alloc(),
        (Plain::new(&mut failing), &mut memory),
    );
    match outcome {
        Ok(((byte, number, text), _)) => {
            same(rt, byte, 5);
            same(rt, number, 300);
            same(rt, text, "Hi!");
            same(rt, fails_at >= 7, true);
        }
        Err(e) => {
            same(rt, e, Error::DeserializeUnexpectedEnd);
            same(rt, fails_at < 7, true);
        }
    }
    let (_, unread) = bytes.split_at(fails_at.min(7));
    same_bytes(rt, failing.inner.unread(), unread);
}

#[test]
fn each_read_fails_in_turn(rt: HostRuntime) {
    for fails_at in 0..9 {
        read_through(&rt, fails_at);
    }
}

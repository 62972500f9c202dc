//! Tests of readers and writers of which every other call is interrupted: the call is made again,
//! and nothing is lost.

use crate::OLD;
use crate::asserts::{assert_read, assert_scratch, same, same_bytes};
use postcard::de_flavors::io::io::IOReader;
use postcard::de_flavors::{Flavor, Plain, Reader};
use postcard::{Error, to_io};
use std::io;
use std::io::{ErrorKind, Read, Write};
use std::process::Abort;
use test_support::devices::readers::{InterruptedReader, Pieces};
use test_support::devices::writers::{Bounded, InterruptedWriter};

/// Returns a reader of these bytes, one with each read, whose first call is interrupted.
fn interrupted(bytes: &[u8]) -> InterruptedReader<Pieces<'_>> {
    InterruptedReader {
        inner: Pieces::new(bytes, &[1]),
        interrupts: true,
    }
}

/// Asserts that a call was interrupted.
fn assert_interrupted(rt: &impl Abort, answer: io::Result<usize>) {
    match answer {
        Ok(count) => panic!(rt; "{count} bytes"),
        Err(e) => same(rt, e.kind(), ErrorKind::Interrupted),
    }
}

/// Reads this byte and writes it. Asserts that each of the two is interrupted once.
fn passes_on(
    rt: &impl Abort,
    reader: &mut InterruptedReader<Pieces<'_>>,
    writer: &mut InterruptedWriter<Bounded<2>>,
    want: u8,
) {
    let mut byte = [OLD];
    assert_interrupted(rt, reader.read(&mut byte));
    same(rt, reader.read(&mut byte).ok(), Some(1));
    same_bytes(rt, &byte, &[want]);
    assert_interrupted(rt, writer.write(&byte));
    same(rt, writer.write(&byte).ok(), Some(1));
}

#[test]
fn every_other_call(rt: HostRuntime) {
    let mut reader = interrupted(&[1, 2]);
    let mut writer = InterruptedWriter {
        inner: Bounded::<2>::new(),
        interrupts: true,
    };
    passes_on(&rt, &mut reader, &mut writer, 1);
    passes_on(&rt, &mut reader, &mut writer, 2);
    same(&rt, writer.flush().is_ok(), true);
    same_bytes(&rt, writer.inner.held.as_slice(), &[1, 2]);
}

/// Takes the bytes from 1 to 5 in each way that a source has. Then no byte is left.
fn takes_each_way<'b, R: Reader + 'b>(rt: &impl Abort, reader: R) {
    let mut scratch = [OLD; 3];
    let mut source = IOReader::new(reader, &mut scratch);
    same(rt, source.pop(), Ok(1));
    same(rt, source.try_take_n(2), Ok([2, 3].as_slice()));
    same(rt, source.try_take_n_temp(1), Ok([4].as_slice()));
    same(rt, source.pop(), Ok(5));
    same(rt, source.pop(), Err(Error::DeserializeUnexpectedEnd));
    assert_scratch(rt, source, 1);
}

#[test]
fn of_a_source(rt: HostRuntime) {
    takes_each_way(&rt, Plain::new(interrupted(&[1, 2, 3, 4, 5])));
}

/// The encoding of 1 as a `u8`, 10 as a `u32` and the string "Hello!".
const TUPLE: [u8; 9] = [0x01, 0x0A, 0x06, 0x48, 0x65, 0x6C, 0x6C, 0x6F, 0x21];

#[test]
fn of_a_value(rt: HostRuntime) {
    let mut scratch = [OLD; 6];
    let reader = Plain::new(interrupted(&TUPLE));
    let (value, _) = assert_read::<(u8, u32, &str), _>(&rt, (reader, &mut scratch));
    let (byte, number, text) = value;
    same(&rt, byte, 1);
    same(&rt, number, 10);
    same(&rt, text, "Hello!");
}

#[test]
fn of_a_writer(rt: HostRuntime) {
    let writer = InterruptedWriter {
        inner: Bounded::<9>::new(),
        interrupts: true,
    };
    let written = to_io(&(1u8, 10u32, "Hello!"), writer);
    let writer = written.expect(&rt, "the value has room");
    same_bytes(&rt, writer.inner.held.as_slice(), &TUPLE);
}

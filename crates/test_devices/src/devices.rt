//! Tests of the readers and writers of `devices` themselves, call by call.

use crate::asserts::{same, same_bytes};
use postcard::de_flavors::Reader;
use std::io::{Read, Write};
use std::process::Abort;
use test_support::devices::readers::{FailingReader, Pieces};
use test_support::devices::writers::{Bounded, FailingWriter};

/// Asserts the number of bytes that the next read of at most four bytes reads.
fn assert_reads(rt: &impl Abort, reader: &mut Pieces<'_>, count: usize) {
    let mut buffer = [0; 4];
    same(rt, reader.read_some(&mut buffer).ok(), Some(count));
}

#[test]
fn pieces_of_stated_lengths(rt: HostRuntime) {
    let mut reader = Pieces::new(&[1, 2, 3, 4, 5, 6, 7], &[2, 0, 3]);
    assert_reads(&rt, &mut reader, 2);
    assert_reads(&rt, &mut reader, 1);
    assert_reads(&rt, &mut reader, 3);
    assert_reads(&rt, &mut reader, 1);
    assert_reads(&rt, &mut reader, 0);
}

#[test]
fn pieces_that_fill_a_buffer(rt: HostRuntime) {
    let mut buffer = [0; 4];
    let mut reader = Pieces::new(&[1, 2, 3, 4, 5], &[2, 5]);
    same(&rt, reader.read_full(&mut buffer).is_ok(), true);
    same_bytes(&rt, &buffer, &[1, 2, 3, 4]);
    same_bytes(&rt, reader.unread(), &[5]);
    same(&rt, reader.read_full(&mut buffer).is_err(), true);
}

#[test]
fn pieces_of_no_stated_length(rt: HostRuntime) {
    let mut buffer = [0; 4];
    let mut reader = Pieces::new(&[1, 2], &[]);
    same(&rt, reader.read(&mut buffer).ok(), Some(1));
    same_bytes(&rt, reader.unread(), &[2]);
}

/// Asserts the number of bytes of the piece that a write takes.
fn assert_takes(rt: &impl Abort, writer: &mut Bounded<3>, piece: &[u8], count: usize) {
    same(rt, writer.write(piece).ok(), Some(count));
}

#[test]
fn a_writer_gets_full(rt: HostRuntime) {
    let mut writer = Bounded::<3>::new();
    assert_takes(&rt, &mut writer, &[1, 2], 2);
    assert_takes(&rt, &mut writer, &[3, 4], 1);
    assert_takes(&rt, &mut writer, &[5, 6], 0);
    same_bytes(&rt, writer.held.as_slice(), &[1, 2, 3]);
}

/// Writes a byte and reads one. Asserts whether both succeed or both fail.
fn assert_turn(
    rt: &impl Abort,
    writer: &mut FailingWriter<Bounded<4>>,
    reader: &mut FailingReader<&[u8]>,
    byte: u8,
    succeeds: bool,
) {
    same(rt, writer.write(&[byte]).is_ok(), succeeds);
    same(rt, reader.read(&mut [0]).is_ok(), succeeds);
}

#[test]
fn one_call_fails(rt: HostRuntime) {
    let mut writer = FailingWriter {
        inner: Bounded::<4>::new(),
        writes: 0,
        fails_at: 1,
        flush_fails: false,
        flushed: false,
    };
    let mut reader = FailingReader {
        inner: [1, 2, 3].as_slice(),
        reads: 0,
        fails_at: 1,
    };
    assert_turn(&rt, &mut writer, &mut reader, 7, true);
    assert_turn(&rt, &mut writer, &mut reader, 8, false);
    assert_turn(&rt, &mut writer, &mut reader, 9, true);
    same_bytes(&rt, writer.inner.held.as_slice(), &[7, 9]);
    same_bytes(&rt, reader.inner, &[3]);
    same(&rt, writer.flushed, false);
    same(&rt, writer.flush().is_ok(), true);
    same(&rt, writer.flushed, true);
}

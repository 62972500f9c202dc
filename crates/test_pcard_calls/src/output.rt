//! Tests of calls of `pcard` whose output fails.

use crate::calls::answer;
use crate::same::same;
use std::io;
use std::io::{ErrorKind, Write};
use std::process::Abort;

/// The words of calls, each with the number of bytes that it prints, and its exit status.
const CALLS: [(&[&str], usize, u8); 18] = [
    (&["enc", "u32", "4294967295"], 11, 0),
    (&["dec", "u32", "ffffffff0f99"], 14, 0),
    (&["dec", "list-u32", "0201ac02"], 7, 0),
    (&["dec", "str", "034869"], 42, 1),
    (&["enc", "u8", "256"], 10, 2),
    (&["dec", "u8", "7"], 8, 2),
    (&["frames"], 12, 0),
    (&["enc", "--frame", "u32", "300"], 9, 0),
    (&["enc", "--frame", "--raw", "u32", "300"], 4, 0),
    (&["dec", "--frame", "u8", "02070099"], 5, 0),
    (&["dec", "--frame", "u8", "0207"], 46, 1),
    (&["frames", "--hex", "u8", "020700"], 2, 0),
    (&["frames", "--json", "[u8]"], 65, 0),
    (&["explain", "--json", "u8", "07"], 32, 0),
    (&["explain", "--json", "u8", ""], 70, 1),
    (&["enc", "--raw", "u8", "7"], 1, 0),
    (&["dec", "--raw", "[u8]"], 13, 0),
    (&["decs", "--raw", "u8"], 10, 0),
];

/// A writer that takes one byte with each write, and fails once `writes_left` is 0, or at its
/// flush. `flushed` is false after a write, until a flush.
#[derive(Drop)]
pub struct Failing {
    pub writes_left: usize,
    pub flushes: bool,
    pub flushed: bool,
}

impl Write for Failing {
    fn write(&mut self, buf: &[u8]) -> io::Result<usize> {
        if self.writes_left == 0 {
            return Err(io::Error::from(ErrorKind::BrokenPipe));
        }
        self.writes_left -= 1;
        self.flushed = false;
        Ok(buf.len().min(1))
    }

    fn flush(&mut self) -> io::Result<()> {
        if !self.flushes {
            return Err(io::Error::from(ErrorKind::BrokenPipe));
        }
        self.flushed = true;
        Ok(())
    }
}

/// Asserts that the call of these words, over an output that takes this number of writes, has this status,
/// and that it flushes what it wrote unless its status is 3.
fn check(
    rt: &(impl Abort + AllocGlobal),
    call: &[&str],
    writes_left: usize,
    flushes: bool,
    status: u8,
) {
    let mut output = Failing {
        writes_left,
        flushes,
        flushed: true,
    };
    let mut input: &[u8] = &[0x03, 0x01, 0x07, 0x00, 0x00];
    let found = answer(rt, call, &mut input, &mut output);
    same(rt, found, status, (call, writes_left));
    same(rt, output.flushed || status == 3, true, (call, writes_left));
}

/// Asserts that the call of these words, which prints `length` bytes, has this status if its output
/// takes them all and flushes, and else 3, after each number of writes.
fn check_each(rt: &(impl Abort + AllocGlobal), call: &[&str], length: usize, status: u8) {
    for writes in 0..length {
        check(rt, call, writes, false, 3);
        check(rt, call, writes, true, 3);
    }
    check(rt, call, length, false, 3);
    check(rt, call, length, true, status);
}

#[test]
fn answers_failed_output(rt: HostRuntime) {
    for (call, length, status) in &CALLS {
        check_each(&rt, call, *length, *status);
    }
}

//! Tests of calls with `--raw` whose bytes are in a file: what they print, their status, and that nothing is
//! read of the input.

use crate::held::{Held, words_of};
use crate::same::same;
use pcard_files::run;
use std::process::Abort;

/// The words of a call, what it prints to the output and as errors, and its status.
type Call<'a> = (&'a [&'a str], &'a str, &'a str, u8);

/// Calls whose last word names a file of input.
const CALLS: [Call; 14] = [
    (
        &["frames", "--raw", "(u8, u16)", "@frames.bin"],
        "(7, 300)\n(8, 1)\n",
        "",
        0,
    ),
    (
        &["frames", "--raw", "@a:b.rs:Pair", "@frames.bin"],
        "(7, 300)\n(8, 1)\n",
        "",
        0,
    ),
    (
        &["dec", "--raw", "@a:b.rs:Pair", "@frames.bin"],
        "(4, 7)\nac020003080100\n",
        "",
        0,
    ),
    (
        &["decs", "--raw", "u16", "@frames.bin"],
        "4\n7\n300\n0\n3\n8\n1\n0\n",
        "",
        0,
    ),
    (
        &["frames", "--raw", "(u8, u16)", "@broken.bin"],
        "(7, 300)\nread failed\n",
        "",
        3,
    ),
    (
        &["frames", "--raw", "(u8, u16)", "@dead.bin"],
        "read failed\n",
        "",
        3,
    ),
    (
        &["dec", "--raw", "u8", "@broken.bin"],
        "read failed\n",
        "",
        3,
    ),
    (
        &["decs", "--raw", "u8", "@broken.bin"],
        "read failed\n",
        "",
        3,
    ),
    (
        &["dec", "--raw", "u8", "@full.bin"],
        "",
        "pcard: full.bin: out of memory\n",
        1,
    ),
    (
        &["decs", "--raw", "@full.rs:Pair", "@other.bin"],
        "",
        "pcard: other.bin: the file can't be read\n",
        2,
    ),
    (
        &["decs", "--raw", "@full.rs:Pair", "@frames.bin"],
        "",
        "pcard: full.rs: out of memory\n",
        1,
    ),
    (
        &["explain", "--raw", "--frame", "(u8, u16)", "@broken.bin"],
        "read failed\n",
        "",
        3,
    ),
    (
        &["frames", "u8", "@frames.bin"],
        "usage: pcard enc TYPE VALUE, dec TYPE HEX, frames\n",
        "pcard: frames takes [--crc NAME] [--json] [--longest N] [TYPE], --hex TYPE HEX, or --raw TYPE [@FILE]\n",
        2,
    ),
    (
        &["frames", "--hex", "u8", "@frames.bin"],
        "at character 1: expected two hex digits: bad hex\n",
        "",
        2,
    ),
];

/// Asserts that a call prints this, has this status, and reads nothing of its input.
fn check(rt: &(impl Abort + AllocGlobal), call: &Call) {
    let (call, printed, told, status) = call;
    let mut words = words_of(rt, call);
    let mut input = b"\x02\x09\x00".as_slice();
    let mut output = Vec::new(rt.alloc());
    let mut errors = Vec::new(rt.alloc());
    let found = run(
        rt.alloc(),
        words.as_mut_slice(),
        &Held,
        &mut input,
        &mut output,
        &mut errors,
    );
    same(rt, output.as_slice(), printed.as_bytes(), call);
    same(rt, errors.as_slice(), told.as_bytes(), call);
    same(rt, found, *status, call);
    same(rt, input.len(), 3, call);
}

#[test]
fn reads_bytes_from_files(rt: HostRuntime) {
    for call in &CALLS {
        check(&rt, call);
    }
}

#[test]
fn ends_with_three_if_an_error_is_not_written(rt: HostRuntime) {
    let mut words = words_of(&rt, &["dec", "--raw", "u8", "@other.bin"]);
    let mut input = b"".as_slice();
    let mut output = Vec::new(rt.alloc());
    let mut room = [0; 4];
    let status = run(
        rt.alloc(),
        words.as_mut_slice(),
        &Held,
        &mut input,
        &mut output,
        &mut room.as_mut_slice(),
    );
    same(&rt, status, 3, "status");
    same(&rt, output.as_slice(), b"".as_slice(), "output");
}

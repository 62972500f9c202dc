//! Tests of calls whose TYPE is in a file: what they print, and their status.

use crate::held::{Held, words_of};
use crate::same::same;
use pcard_files::run;
use std::process::Abort;

/// The words of a call, what it prints to the output and as errors, and its status.
type Call<'a> = (&'a [&'a str], &'a str, &'a str, u8);

/// Calls with a type in a file, and calls that name none.
const CALLS: [Call; 14] = [
    (
        &[
            "enc",
            "@types.rs:Reading",
            "{id: 42, label: \"x\", samples: [1, 2]}",
        ],
        "2a0178020204\n",
        "",
        0,
    ),
    (
        &["dec", "--json", "@types.rs:Event", "02070121"],
        "{\"at\":0,\"value\":{\"Fault\":{\"code\":7,\"text\":\"!\"}}}\n",
        "",
        0,
    ),
    (
        &[
            "enc",
            "--crc",
            "CRC-16/XMODEM",
            "@types.rs:Millimetres",
            "150",
        ],
        "ac025178\n",
        "",
        0,
    ),
    (
        &["frames", "--longest", "3", "@a:b.rs:Pair"],
        "error at byte 0: overfull\n",
        "",
        0,
    ),
    (
        &["size", "@longest.rs:Pair"],
        "bytes: 2 to 4, as a frame 4 to 6\n",
        "",
        0,
    ),
    // TYPE alone names a file. A VALUE that begins with `@` is itself.
    (
        &["enc", "str", "@full.rs:Reading"],
        "104066756c6c2e72733a52656164696e67\n",
        "",
        0,
    ),
    (
        &["@types.rs:Reading"],
        "usage: pcard enc TYPE VALUE, dec TYPE HEX, frames\n",
        "pcard: unknown command @types.rs:Reading: there are enc, dec, decs, frames, explain, size, key, compat, crc, types, impl, c, python and demo\n",
        2,
    ),
    (
        &["enc", "@types.rs:Wrong", "{id: 1}"],
        "",
        "pcard: types.rs: line 9, column 9: unknown type\n",
        2,
    ),
    (
        &["dec", "@other.rs:Reading", "00"],
        "",
        "pcard: other.rs: the file can't be read\n",
        2,
    ),
    (
        &["explain", "--all", "@latin1.rs:Pair", "0000"],
        "",
        "pcard: latin1.rs: the file is not UTF-8\n",
        2,
    ),
    (
        &["decs", "@long.rs:Pair", "0000"],
        "",
        "pcard: long.rs: the file has more than 1048576 bytes\n",
        2,
    ),
    (
        &["size", "@full.rs:Pair"],
        "",
        "pcard: full.rs: out of memory\n",
        1,
    ),
    // A file without a name after it is a schema message.
    (
        &["size", "@types.rs"],
        "",
        "pcard: types.rs: name the type, as in @FILE:NAME\n",
        2,
    ),
    (
        &["size", "@full.rs"],
        "",
        "pcard: full.rs: out of memory\n",
        1,
    ),
];

/// Asserts that a call over a frame prints this and has this status.
fn check(rt: &(impl Abort + AllocGlobal), call: &Call) {
    let (call, printed, told, status) = call;
    let mut words = words_of(rt, call);
    let mut input = b"\x04\x07\xac\x02\x00".as_slice();
    let mut output = Vec::new(rt.alloc());
    let mut errors = Vec::new(rt.alloc());
    let found = run(
        rt.alloc(),
        words.as_mut_slice(),
        &Held,
        &mut input,
        &mut output,
        &mut errors,
    );
    same(rt, output.as_slice(), printed.as_bytes(), call);
    same(rt, errors.as_slice(), told.as_bytes(), call);
    same(rt, found, *status, call);
}

#[test]
fn reads_types_from_files(rt: HostRuntime) {
    for call in &CALLS {
        check(&rt, call);
    }
}

#[test]
fn ends_with_three_if_an_error_is_not_written(rt: HostRuntime) {
    let mut words = words_of(&rt, &["size", "@other.rs:Pair"]);
    let mut input = b"".as_slice();
    let mut output = Vec::new(rt.alloc());
    let mut room = [0; 4];
    let status = run(
        rt.alloc(),
        words.as_mut_slice(),
        &Held,
        &mut input,
        &mut output,
        &mut room.as_mut_slice(),
    );
    same(&rt, status, 3, "status");
    same(&rt, output.as_slice(), b"".as_slice(), "output");
}

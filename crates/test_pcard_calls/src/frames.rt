//! Tests of `frames` and `frames TYPE`, the calls of `pcard` that read a stream.

ghost use Rattle.std.specs.Prelude.{None};

use crate::calls::{SENSOR, answer, check, check_over};
use crate::helpers::joined;
use crate::same::same;
use postcard_de_flavors::Plain;
use std::cell::Cell;
use std::io;
use std::io::{ErrorKind, Read, Write};
use std::process::Abort;

/// Three frames: of four bytes, of none, and of no list.
const THREE: [u8; 11] = [3, 4, 1, 3, 0x20, 0x30, 0, 1, 1, 0, 0];

/// A stream, the number of reads that succeed, what `frames` prints, and its exit status.
const STREAMS: [(&[u8], usize, &str, u8); 2] = [
    (&THREE, 1, "ok 01002030\nok \nerror\nread failed\n", 3),
    (&THREE, 0, "read failed\n", 3),
];

/// A sensor's frame, the same with a byte lost, which is no COBS frame, the same with a byte lost
/// before it was framed, and the frame again.
const SENSORS: [u8; 30] = [
    7, 42, 1, 0x78, 2, 2, 4, 0, 7, 42, 1, 0x78, 2, 4, 0, 6, 42, 1, 0x78, 2, 4, 0, 7, 42, 1, 0x78,
    2, 2, 4, 0,
];

const SENSORS_SHOWN: &str = "{id: 42, label: \"x\", samples: [1, 2]}\n\
                             error at byte 8: no COBS frame: 072a01780204\n\
                             error at byte 15: samples[1]: unexpected end: 2a01780204\n\
                             {id: 42, label: \"x\", samples: [1, 2]}\n";

const OVERFULL: &str = "error at byte 0: overfull\n";

const OVERFULL_JSON: &str = "{\"at\":0,\"error\":\"overfull\"}\n";

/// The pieces of four frames: the first ends in the second piece, two in the fourth, and one in the
/// sixth.
const FOUR: [&[u8]; 6] = [
    &[2],
    &[7, 0, 3],
    &[8],
    &[9, 0, 2, 10, 0],
    &[5, 11, 12],
    &[0],
];

/// What is printed of them.
const FOUR_SHOWN: &str = "7\n8 and 1 byte more: 09\n10\n\
                            error at byte 10: no COBS frame: 050b0c\n";

/// How many bytes were flushed before each read.
const FOUR_FLUSHED: [usize; 7] = [0, 0, 2, 2, 27, 27, 67];

/// A source of some bytes whose reads fail once `reads_left` is 0.
#[derive(Drop)]
struct Breaking<'a> {
    bytes: &'a [u8],
    reads_left: usize,
}

impl Read for Breaking<'_> {
    ghost remaining = { λ _. None };

    fn read(&mut self, buf: &mut [u8]) -> io::Result<usize> {
        if self.reads_left == 0 {
            return Err(io::Error::from(ErrorKind::BrokenPipe));
        }
        self.reads_left -= 1;
        self.bytes.read(buf)
    }
}

/// Asserts that the call over the bytes, where `reads` reads succeed, prints `printed` and has this
/// status.
fn check_reads(
    rt: &(impl Abort + AllocGlobal),
    call: &[&str],
    bytes: &[u8],
    reads: usize,
    printed: &str,
    status: u8,
) {
    let mut input = Plain::new(Breaking {
        bytes,
        reads_left: reads,
    });
    check(rt, call, &mut input, printed, status);
}

/// A reader that gives one piece with each read, and then is at its end, and notes at each read how
/// many bytes of the output were flushed.
#[derive(Drop)]
struct Pieces<'a> {
    pieces: &'a [&'a [u8]],
    next: usize,
    flushed: &'a Cell<usize>,
    seen: &'a mut Vec<usize>,
}

impl Read for Pieces<'_> {
    ghost remaining = { λ _. None };

    fn read(&mut self, buf: &mut [u8]) -> io::Result<usize> {
        let _ = self.seen.push(self.flushed.get());
        let Some(piece) = self.pieces.get(self.next) else {
            return Ok(0);
        };
        self.next = self.next.saturating_add(1);
        let mut piece = *piece;
        piece.read(buf)
    }
}

/// An output that notes how many bytes it has when it is flushed.
#[derive(Drop)]
struct Flushed<'a> {
    flushed: &'a Cell<usize>,
    printed: &'a mut Vec<u8>,
}

impl Write for Flushed<'_> {
    fn write(&mut self, buf: &[u8]) -> io::Result<usize> {
        self.printed.write(buf)
    }

    fn flush(&mut self) -> io::Result<()> {
        self.flushed.set(self.printed.len());
        Ok(())
    }
}

/// Does the call `frames (u8)` over the pieces, and returns its exit status.
fn answer_pieces(
    rt: &(impl Abort + AllocGlobal),
    pieces: &[&[u8]],
    seen: &mut Vec<usize>,
    printed: &mut Vec<u8>,
) -> u8 {
    let flushed = Cell::new(0);
    let mut input = Plain::new(Pieces {
        pieces,
        next: 0,
        flushed: &flushed,
        seen,
    });
    let mut output = Flushed {
        flushed: &flushed,
        printed,
    };
    answer(rt, &["frames", "(u8)"], &mut input, &mut output)
}

/// Each frame's line is flushed before the read after its zero.
#[test]
fn prints_each_answer_before_the_next_read(rt: HostRuntime) {
    let mut seen = Vec::new(rt.alloc());
    let mut printed = Vec::new(rt.alloc());
    let status = answer_pieces(&rt, &FOUR, &mut seen, &mut printed);
    same(&rt, status, 0, "the status");
    same(&rt, printed.as_slice(), FOUR_SHOWN.as_bytes(), "printed");
    same(&rt, seen.as_slice(), FOUR_FLUSHED.as_slice(), "flushed");
}

#[test]
fn reads_frames(rt: HostRuntime) {
    for (bytes, reads, printed, status) in &STREAMS {
        check_reads(&rt, &["frames"], bytes, *reads, printed, *status);
    }
}

#[test]
fn reports_a_failed_read_of_a_typed_stream(rt: HostRuntime) {
    let call = ["frames", SENSOR];
    check_reads(&rt, &call, &SENSORS, 0, "read failed\n", 3);
    let printed = joined(&rt, SENSORS_SHOWN, "read failed\n");
    check_reads(&rt, &call, &SENSORS, 1, printed.as_str(), 3);
}

#[test]
fn reports_a_failed_read_of_all_bytes(rt: HostRuntime) {
    let calls: [&[&str]; 4] = [
        &["dec", "--raw", "u8"],
        &["decs", "--raw", "u8"],
        &["explain", "--raw", "u8"],
        &["frames", "--hex", "u8", "-"],
    ];
    for call in &calls {
        for reads in 0..2 {
            check_reads(&rt, call, &[7], reads, "read failed\n", 3);
        }
    }
}

/// Returns `count` bytes, each of them 1.
fn ones(rt: &(impl Abort + AllocGlobal), count: usize) -> Vec<u8> {
    [1].repeat(rt.alloc(), count).expect(rt, "memory")
}

#[test]
fn stops_after_65536_reads(rt: HostRuntime) {
    let most = ones(&rt, 1_048_560);
    check_reads(&rt, &["frames"], &most, 100_000, "overfull\n", 0);
    let more = ones(&rt, 1_048_561);
    check_reads(&rt, &["frames"], &more, 100_000, "overfull\nlimit\n", 3);
}

#[test]
fn skips_frames_that_are_too_long(rt: HostRuntime) {
    let call = ["frames", "--longest", "65536", "(u8)"];
    check_over(&rt, &call, &ones(&rt, 65_537), OVERFULL, 0);
    check_over(&rt, &["frames", "(u8)"], &ones(&rt, 65_536), "", 0);
    let call = ["frames", "--json", "u8"];
    check_over(&rt, &call, &ones(&rt, 65_537), OVERFULL_JSON, 0);
}

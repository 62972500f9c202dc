//! Tests of the answers of `read_frames` to whole streams.

ghost use Rattle.std.specs.Prelude.{◌<◌, ◌≤◌};

use crate::rows::joined;
use crate::same::{same, same_at};
use postcard_accumulator::{Answer, CobsAccumulator, ReadEnd, read_frames};
use postcard_de::DeserializeOwned;
use postcard_de_flavors::{Plain, Reader};
use std::alloc::AllocGlobal;
use std::fmt::Debug;
use std::process::Abort;
use test_support::devices::readers::FailingReader;

/// A stream of two frames. The first has no room in four bytes, and the second has.
const STREAM: [u8; 9] = [5, 1, 1, 1, 1, 0, 2, 7, 0];

/// The answers to that stream.
const BOTH: [Answer<u8>; 2] = [Answer::OverFull, Answer::Success(7)];

/// Reads a stream by at most `reads` reads, with a chunk of `size` bytes.
fn read<R: Reader, T: DeserializeOwned, const N: usize>(
    rt: &impl AllocGlobal,
    reader: &mut R,
    size: usize,
    reads: usize,
    acc: &mut CobsAccumulator<N>,
    out: &mut Vec<Answer<T>>,
) -> ReadEnd
    requires not_empty { 0 < size }
    requires fits { size ≤ 32 }
{
    let mut chunk = [0; 32];
    read_frames(rt.alloc(), reader, &mut chunk[..size], reads, acc, out)
}

/// Asserts that the stream has these answers, and this end, with a chunk of `size` bytes and at most
/// `reads` reads.
fn is_answered(
    rt: &(impl Abort + AllocGlobal),
    size: usize,
    reads: usize,
    expected: &[Answer<u8>],
    end: ReadEnd,
)
    requires not_empty { 0 < size }
    requires fits { size ≤ 32 }
{
    let mut acc = CobsAccumulator::<4>::new();
    let mut out = Vec::new(rt.alloc());
    let ended = read(rt, &mut STREAM.as_slice(), size, reads, &mut acc, &mut out);
    same_at(rt, (out.as_slice(), ended), (expected, end), (size, reads));
}

#[test]
fn chunks_and_reads(rt: HostRuntime) {
    is_answered(&rt, 16, 5, &BOTH, ReadEnd::End);
    is_answered(&rt, 16, 1, &BOTH, ReadEnd::Limit);
    is_answered(&rt, 16, 0, &[], ReadEnd::Limit);
    is_answered(&rt, 5, 5, &BOTH, ReadEnd::End);
    is_answered(&rt, 1, 10, &BOTH, ReadEnd::End);
    is_answered(&rt, 1, 9, &BOTH, ReadEnd::Limit);
}

/// Asserts that the whole stream has these answers, with chunks of each size up to 32 bytes. A zero
/// that is fed after each reading ends a frame that was left open.
fn check<T: DeserializeOwned + PartialEq + Debug, const N: usize>(
    rt: &(impl Abort + AllocGlobal),
    acc: &mut CobsAccumulator<N>,
    stream: &[u8],
    expected: &[Answer<T>],
) {
    for size in 1..33 {
        let mut out = Vec::new(rt.alloc());
        let end = read(rt, &mut &*stream, size, 1000, acc, &mut out);
        same_at(rt, (out.as_slice(), end), (expected, ReadEnd::End), size);
        let _ = acc.feed::<u8>(rt.alloc(), &[0]);
    }
}

#[test]
fn whole_streams(rt: HostRuntime) {
    let mut none = CobsAccumulator::<0>::new();
    let mut four = CobsAccumulator::<4>::new();
    let over = [Answer::<u8>::OverFull, Answer::OverFull];
    check(&rt, &mut four, &[9; 8], &over[..1]);
    check(&rt, &mut four, &[9; 9], &over[..1]);
    check(&rt, &mut none, &[2, 7, 0, 0], &over);
    let truths = [Answer::Success(true), Answer::Success(false)];
    check(&rt, &mut four, &[2, 1, 0, 1, 1, 0], &truths);
}

#[test]
fn streams_of_pairs(rt: HostRuntime) {
    let mut many = CobsAccumulator::<64>::new();
    let pairs = [
        Answer::Success((10u32, 20u8)),
        Answer::Success((256_854_231, 115)),
    ];
    check(&rt, &mut many, &[3, 10, 20, 0], &pairs[..1]);
    let stream = [3, 10, 20, 0, 6, 0xD7, 0x91, 0xBD, 0x7A, 115, 0];
    check(&rt, &mut many, &stream, &pairs);
}

#[test]
fn lists(rt: HostRuntime) {
    check::<Vec<u8>, 64>(
        &rt,
        &mut CobsAccumulator::new(),
        &[3, 4, 1, 3, 0x20, 0x30, 0, 1, 1, 0, 0],
        &[
            Answer::Success(joined(&rt, &[&[1, 0, 0x20, 0x30]])),
            Answer::Success(Vec::new(rt.alloc())),
            Answer::DeserError,
        ],
    );
}

/// Tests a record of 143 bytes without a zero, in a frame of 145.
#[test]
fn a_long_record(rt: HostRuntime) {
    let word = [0xE7, 0x8A, 0x8D, 0x09].as_slice();
    let frame = joined(
        &rt,
        &[
            &[0x90, 0x80, 0xDE, 0xB7, 0xDE, 0x0A],
            &joined(&rt, &[word; 32]),
            &[0xFF; 9],
            &[0x01, 0x00],
        ],
    );
    same(&rt, frame.len(), 145);
    check::<(u32, [u32; 32], u64), 256>(
        &rt,
        &mut CobsAccumulator::new(),
        &frame,
        &[Answer::Success((0xABCD_EF00, [0x0123_4567; 32], u64::MAX))],
    );
}

/// Reads the stream by single bytes from a reader of which one read fails. Asserts that `out` then
/// has the first `count` answers, and that the next call goes on.
fn goes_on(rt: &(impl Abort + AllocGlobal), fails_at: usize, count: usize) {
    let bytes: &[u8] = &STREAM;
    let mut reader = Plain::new(FailingReader {
        inner: bytes,
        reads: 0,
        fails_at,
    });
    let mut acc = CobsAccumulator::<4>::new();
    let mut out = Vec::new(rt.alloc());
    let failed = read(rt, &mut reader, 1, 20, &mut acc, &mut out);
    same_at(rt, failed, ReadEnd::ReadFailed, fails_at);
    same_at(rt, Some(out.as_slice()), BOTH.get(..count), fails_at);
    let ended = read(rt, &mut reader, 1, 20, &mut acc, &mut out);
    same_at(rt, ended, ReadEnd::End, fails_at);
    same_at(rt, out.as_slice(), BOTH.as_slice(), fails_at);
}

/// The number of answers before the read that fails, for each of the reads by single bytes.
const COUNTS: [usize; 10] = [0, 0, 0, 0, 0, 1, 1, 1, 1, 2];

#[test]
fn failing_reads(rt: HostRuntime) {
    for fails_at in 0..10 {
        goes_on(&rt, fails_at, COUNTS[fails_at]);
    }
}

/// Reads a stream to its end, and returns whether an allocation for an answer failed on the way.
/// The bytes that weren't fed then are fed again.
fn read_on<T: DeserializeOwned, const N: usize>(
    rt: &(impl Abort + AllocGlobal),
    stream: &[u8],
    acc: &mut CobsAccumulator<N>,
    out: &mut Vec<Answer<T>>,
) -> bool {
    let mut chunk = [0; 32];
    let mut reader = stream;
    let first = read_frames(rt.alloc(), &mut reader, &mut chunk, 5, acc, out);
    let ReadEnd::OutOfMemory { from, to } = first else {
        same(rt, first, ReadEnd::End);
        return false;
    };
    let unfed = chunk.get(from..to);
    let mut unfed = unfed.expect(rt, "the bytes that weren't fed lie in the chunk");
    let ended = read_frames(rt.alloc(), &mut unfed, &mut [0; 32], 5, acc, out);
    same(rt, ended, ReadEnd::End);
    true
}

/// Prints a line if an allocation failed, which `rt try --test --fail-alloc N` shows.
fn tell(rt: &(impl Abort + Print), refused: bool) {
    if refused {
        println!(rt; "refused").expect(rt, "a line is printed");
    }
}

/// No answer is lost, whichever allocation fails.
#[test]
fn refused_answers(rt: HostRuntime) {
    let mut acc = CobsAccumulator::<4>::new();
    let mut out = Vec::new(rt.alloc());
    let refused = read_on(&rt, &STREAM, &mut acc, &mut out);
    tell(&rt, refused);
    same(&rt, out.as_slice(), BOTH.as_slice());
}

/// Asserts that the answer is this list. If the allocation for the list failed, and none was
/// `refused` before, it is `DeserError`. Returns whether an allocation has been refused by now.
fn is_list(rt: &impl Abort, answer: Option<&Answer<Vec<u8>>>, list: &[u8], refused: bool) -> bool {
    match answer {
        Some(Answer::Success(read)) => {
            same(rt, read.as_slice(), list);
            refused
        }
        other => {
            same(rt, (other, refused), (Some(&Answer::DeserError), false));
            true
        }
    }
}

/// If an allocation for a list fails, its frame is answered `DeserError`, and no other answer
/// changes.
#[test]
fn refused_lists(rt: HostRuntime) {
    let mut acc = CobsAccumulator::<8>::new();
    let mut out = Vec::<Answer<Vec<u8>>>::new(rt.alloc());
    let refused = read_on(&rt, &[4, 2, 9, 8, 0, 3, 1, 7, 0], &mut acc, &mut out);
    same(&rt, out.len(), 2);
    let refused = is_list(&rt, out.first(), &[9, 8], refused);
    let refused = is_list(&rt, out.get(1), &[7], refused);
    tell(&rt, refused);
}

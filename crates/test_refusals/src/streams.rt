//! Tests of streams that are cut in each way, by readers that fail or are interrupted.

use postcard::accumulator::CobsAccumulator;
use postcard::de_flavors::Plain;
use postcard::{Answer, ReadEnd, read_frames};
use std::alloc::{AllocError, AllocGlobal, Global};
use std::process::Abort;
use test_support::devices::readers::{FailingReader, InterruptedReader, Pieces};

/// A stream of two frames. The first has no room in four bytes, and the second has.
const STREAM: [u8; 9] = [5, 1, 1, 1, 1, 0, 2, 7, 0];

/// The answers to the stream.
const BOTH: [Answer<u8>; 2] = [Answer::OverFull, Answer::Success(7)];

/// Returns the lengths of the pieces of the stream if it is cut after each place whose bit is set
/// in `cuts`.
fn lengths(alloc: Global, cuts: u32) -> Result<Vec<usize>, AllocError> {
    let mut all = Vec::new(alloc);
    let mut length = 0usize;
    for place in 0..9u32 {
        length = length.saturating_add(1);
        if place == 8 || (cuts >> place) % 2 == 1 {
            all.push(length)?;
            length = 0;
        }
    }
    Ok(all)
}

/// Returns the number of answers to the first `count` pieces of the stream.
fn answered(lengths: &[usize], count: usize) -> usize {
    let given = lengths.iter().take(count);
    match given.fold(0, |sum: usize, length| sum.saturating_add(*length)) {
        0..5 => 0,
        5..9 => 1,
        _ => 2,
    }
}

/// Reads the stream in pieces of these lengths, where the read with the number `fails_at` fails, if
/// there are that many. Asserts that the call returns the answers to the bytes before, and that the
/// next call goes on.
fn read_through(rt: &(impl Abort + AllocGlobal), lengths: &[usize], fails_at: usize) {
    let mut reader = Plain::new(FailingReader {
        inner: Pieces::new(&STREAM, lengths),
        reads: 0,
        fails_at,
    });
    let mut acc = CobsAccumulator::<4>::new();
    let mut out = Vec::new(rt.alloc());
    let mut chunk = [0; 16];
    let mut end = read_frames(rt.alloc(), &mut reader, &mut chunk, 20, &mut acc, &mut out);
    if fails_at <= lengths.len() {
        let before = BOTH.get(..answered(lengths, fails_at));
        let right = end == ReadEnd::ReadFailed && Some(out.as_slice()) == before;
        assert!(rt; right, "{lengths:?}, {fails_at}");
        end = read_frames(rt.alloc(), &mut reader, &mut chunk, 20, &mut acc, &mut out);
    }
    let right = end == ReadEnd::End && out.as_slice() == BOTH.as_slice() && !acc.skipping();
    assert!(rt; right, "{lengths:?}, {fails_at}");
}

/// Reads the stream in pieces of these lengths, where every other read is interrupted. Asserts that
/// an interrupted read counts as one that failed, and that the next call goes on.
fn read_interrupted(rt: &(impl Abort + AllocGlobal), lengths: &[usize]) {
    let mut reader = Plain::new(InterruptedReader {
        inner: Pieces::new(&STREAM, lengths),
        interrupts: true,
    });
    let mut acc = CobsAccumulator::<4>::new();
    let mut out = Vec::new(rt.alloc());
    let mut chunk = [0; 16];
    for _ in 0..=lengths.len() {
        let end = read_frames(rt.alloc(), &mut reader, &mut chunk, 20, &mut acc, &mut out);
        assert!(rt; end == ReadEnd::ReadFailed);
    }
    let end = read_frames(rt.alloc(), &mut reader, &mut chunk, 20, &mut acc, &mut out);
    let right = end == ReadEnd::End && out.as_slice() == BOTH.as_slice();
    assert!(rt; right, "{lengths:?}");
}

/// Runs these checks with the stream cut so.
fn is_read_in_pieces(rt: &(impl Abort + AllocGlobal), cuts: u32) {
    let lengths = lengths(rt.alloc(), cuts).expect(rt, "lengths");
    for fails_at in 0..11 {
        read_through(rt, &lengths, fails_at);
    }
    read_interrupted(rt, &lengths);
}

#[test]
fn streams_cut_in_each_way(rt: HostRuntime) {
    for cuts in 0..256 {
        is_read_in_pieces(&rt, cuts);
    }
}

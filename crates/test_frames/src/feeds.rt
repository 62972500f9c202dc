//! Tests of the results of `feed`, piece by piece.

use crate::same::{same, same_at};
use postcard_accumulator::{CobsAccumulator, FeedResult};
use std::alloc::AllocGlobal;
use std::process::Abort;

/// The kind of a result, its value if it has one, and the number of bytes that are left after it.
type Fed = (&'static str, Option<u8>, usize);

/// The result of a piece of which all is consumed.
const CONSUMED: Fed = ("consumed", None, 0);

/// Returns the kind of a result, its value if it has one, and the bytes that are left after it.
fn parts<'a, T>(fed: FeedResult<'a, T>) -> (&'static str, Option<T>, &'a [u8]) {
    match fed {
        FeedResult::Consumed => ("consumed", None, &[]),
        FeedResult::OverFull(rest) => ("over full", None, rest),
        FeedResult::DeserError(rest) => ("no value", None, rest),
        FeedResult::Success { value, remaining } => ("value", Some(value), remaining),
    }
}

/// Feeds a piece, and returns the result and the bytes that are left after it.
fn feed_once<'a, const N: usize>(
    rt: &impl AllocGlobal,
    acc: &mut CobsAccumulator<N>,
    piece: &'a [u8],
) -> (Fed, &'a [u8]) {
    let (kind, value, rest) = parts(acc.feed::<u8>(rt.alloc(), piece));
    ((kind, value, rest.len()), rest)
}

/// Feeds a piece, and then what is left of it, until nothing is. Adds the results to `all`.
fn feed_piece<const N: usize>(
    rt: &(impl Abort + AllocGlobal),
    acc: &mut CobsAccumulator<N>,
    piece: &[u8],
    all: &mut Vec<Fed>,
) {
    let mut window = piece;
    for _ in 0..=piece.len() {
        let (fed, rest) = feed_once(rt, acc, window);
        all.push(fed).expect(rt, "there is memory");
        window = rest;
        if window.is_empty() {
            break;
        }
    }
}

/// Asserts that feeding the pieces has just these results. A zero that is fed after them ends a
/// frame that they left.
fn is_fed<const N: usize>(
    rt: &(impl Abort + AllocGlobal),
    acc: &mut CobsAccumulator<N>,
    pieces: &[&[u8]],
    expected: &[Fed],
) {
    let mut all = Vec::new(rt.alloc());
    for piece in pieces {
        feed_piece(rt, acc, piece, &mut all);
    }
    same_at(rt, all.as_slice(), expected, pieces);
    feed_once(rt, acc, &[0]);
}

/// Pieces for an accumulator of four bytes, each beside the results.
const FOUR: [(&[&[u8]], &[Fed]); 11] = [
    (&[&[]], &[CONSUMED]),
    (&[&[0]], &[("no value", None, 0)]),
    (&[&[2, 7, 0, 9, 9]], &[("value", Some(7), 2), CONSUMED]),
    (
        &[&[2], &[7], &[0]],
        &[CONSUMED, CONSUMED, ("value", Some(7), 0)],
    ),
    (&[&[5, 1, 1, 1], &[0]], &[CONSUMED, ("over full", None, 0)]),
    (
        &[&[5, 1, 1, 1], &[1], &[0, 2, 7, 0]],
        &[CONSUMED, ("over full", None, 0), ("value", Some(7), 0)],
    ),
    (
        &[&[9, 9, 9, 9, 2], &[7, 0], &[2, 7, 0]],
        &[("over full", None, 0), CONSUMED, ("value", Some(7), 0)],
    ),
    (
        &[&[5, 1, 1, 1, 1, 0, 2, 7, 0]],
        &[("over full", None, 3), ("value", Some(7), 0)],
    ),
    // A code byte that runs past its frame, and the frame after it.
    (
        &[&[3, 7, 0, 2, 7, 0]],
        &[("no value", None, 3), ("value", Some(7), 0)],
    ),
    // A frame without data has no value.
    (&[&[1, 0]], &[("no value", None, 0)]),
    // Bytes after the value are ignored.
    (&[&[3, 7, 8, 0]], &[("value", Some(7), 0)]),
];

/// Pieces for an accumulator of no bytes, each beside the results.
const NONE: [(&[&[u8]], &[Fed]); 3] = [
    (&[&[1], &[0]], &[("over full", None, 0), CONSUMED]),
    (&[&[0]], &[("over full", None, 0)]),
    (
        &[&[1, 0, 0, 1]],
        &[
            ("over full", None, 2),
            ("over full", None, 1),
            ("over full", None, 0),
        ],
    ),
];

#[test]
fn pieces(rt: HostRuntime) {
    let mut four = CobsAccumulator::<4>::new();
    for (pieces, expected) in &FOUR {
        is_fed(&rt, &mut four, pieces, expected);
    }
    let mut none = CobsAccumulator::<0>::default();
    for (pieces, expected) in &NONE {
        is_fed(&rt, &mut none, pieces, expected);
    }
}

/// Feeds the stream in pieces, each of which ends after a byte whose bit in `cuts` is set, and
/// returns the results.
fn fed_in_pieces(rt: &(impl Abort + AllocGlobal), stream: &[u8], cuts: u32) -> Vec<Fed> {
    let mut acc = CobsAccumulator::<4>::new();
    let mut all = Vec::new(rt.alloc());
    let mut piece = Vec::new(rt.alloc());
    let mut bits = cuts;
    for byte in stream {
        piece.push(*byte).expect(rt, "there is memory");
        if bits % 2 == 1 {
            feed_piece(rt, &mut acc, &piece, &mut all);
            piece.clear();
        }
        bits /= 2;
    }
    all
}

/// Returns the kinds and the values of the results, without those that consumed a whole piece.
fn answers(rt: &(impl Abort + AllocGlobal), all: &[Fed]) -> Vec<(&'static str, Option<u8>)> {
    let mut answers = Vec::new(rt.alloc());
    for (kind, value, _) in all {
        if *kind != "consumed" {
            answers.push((*kind, *value)).expect(rt, "there is memory");
        }
    }
    answers
}

/// Asserts that a stream of an oversized frame and one that has room, cut as the bits say, has an
/// answer to each. No bytes are left after the last.
fn is_cut(rt: &(impl Abort + AllocGlobal), cuts: u32) {
    let all = fed_in_pieces(rt, &[5, 1, 1, 1, 1, 0, 2, 7, 0], cuts);
    let expected = [("over full", None), ("value", Some(7))];
    same_at(rt, answers(rt, &all).as_slice(), expected.as_slice(), cuts);
    same_at(rt, all.last(), Some(&("value", Some(7), 0)), cuts);
}

/// A stream of an oversized frame and one that has room has the same answers, however it is cut.
#[test]
fn cut_in_each_way(rt: HostRuntime) {
    for cuts in 256..512 {
        is_cut(&rt, cuts);
    }
}

/// The frame of ten bytes, with a code byte and the zero, has room in twelve bytes and not in
/// eleven.
#[test]
fn exact_room(rt: HostRuntime) {
    let frame = [
        0x0B, 0xCC, 0xCC, 0xCC, 0xCC, 0xCC, 0xCC, 0xCC, 0xCC, 0xCC, 0xCC, 0,
    ];
    let mut short = CobsAccumulator::<11>::new();
    let (kind, value, rest) = parts(short.feed::<[u8; 10]>(rt.alloc(), &frame));
    same(&rt, (kind, value, rest.len()), ("over full", None, 0));
    same(&rt, short.skipping(), false);
    let mut long = CobsAccumulator::<12>::new();
    let (kind, value, rest) = parts(long.feed::<[u8; 10]>(rt.alloc(), &frame));
    let expected = ("value", Some([0xCC; 10]), 0);
    same(&rt, (kind, value, rest.len()), expected);
}

/// A value may borrow from the accumulator, which can be used again once the value is dropped.
#[test]
fn lent_texts(rt: HostRuntime) {
    let stream = [
        0x08, 0x0A, 0x14, 0x04, 0x74, 0x65, 0x73, 0x74, 0x00, 0x15, 0xD7, 0x91, 0xBD, 0x7A, 0x73,
        0x0E, 0x64, 0x69, 0x66, 0x66, 0x65, 0x72, 0x65, 0x6E, 0x74, 0x20, 0x74, 0x65, 0x73, 0x74,
        0x00,
    ];
    let mut acc = CobsAccumulator::<64>::new();
    let (_, value, rest) = parts(acc.feed_ref::<(u32, u8, &str)>(rt.alloc(), &stream));
    same(&rt, value, Some((10, 20, "test")));
    let (_, value, rest) = parts(acc.feed_ref::<(u32, u8, &str)>(rt.alloc(), rest));
    let expected = Some((256_854_231, 115, "different test"));
    same(&rt, value, expected);
    same(&rt, rest.is_empty(), true);
}

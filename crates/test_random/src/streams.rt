//! Checks of streams that are fed in random pieces: frames of values, with damaged frames between
//! them.

use crate::choices::Choices;
use crate::made::Made;
use crate::plain::{Plain, data_of};
use crate::random::Random;
use postcard::accumulator::{CobsAccumulator, FeedResult};
use postcard::{Answer, DeserializeOwned, Serialize, to_allocvec_cobs};
use std::alloc::{AllocError, Global};
use std::fmt::Debug;
use std::process::Abort;

/// The number of bytes that the accumulator has room for, each frame's zero included.
const ROOM: usize = 512;

/// Adds a damaged frame and a zero to a stream. A few bytes of the frame are changed, lost or
/// doubled. Sometimes more bytes follow than there is room for.
fn add_damaged(random: &mut Random, stream: &mut Vec<u8>, frame: &[u8]) -> Result<(), AllocError> {
    for byte in frame {
        match random.below(12) {
            0 => stream.push(random.low_byte())?,
            1 => {}
            2 => stream.extend_from_slice(&[*byte, *byte])?,
            _ => stream.push(*byte)?,
        }
    }
    if random.one_in(8) {
        stream.extend_from_slice(&[0x11; 600])?;
    }
    Ok(stream.push(0)?)
}

/// Returns the right answer to a frame, given without its zero.
fn answer<T: Made>(alloc: Global, frame: &[u8]) -> Answer<T> {
    if frame.len() >= ROOM {
        return Answer::OverFull;
    }
    let Some(data) = data_of(alloc, frame) else {
        return Answer::DeserError;
    };
    match T::made(&mut Plain::new(alloc, &data)) {
        Some(value) => Answer::Success(value),
        None => Answer::DeserError,
    }
}

/// Returns whether the right answer to a frame, given with its zero, is this value.
fn is_sent<T: Made + PartialEq>(alloc: Global, frame: &[u8], value: &T) -> bool {
    let Some((0, front)) = frame.split_last() else {
        return false;
    };
    match answer::<T>(alloc, front) {
        Answer::Success(sent) => sent == *value,
        _ => false,
    }
}

/// Returns the right answers to the frames of a stream. The bytes after its last zero are no frame.
fn right_answers<T: Made>(rt: &impl Abort, alloc: Global, stream: &[u8]) -> Vec<Answer<T>> {
    let mut answers = Vec::new(alloc);
    for frame in stream.split(|byte| *byte == 0) {
        answers.push(answer(alloc, frame)).expect(rt, "an answer");
    }
    let _ = answers.pop();
    answers
}

/// Returns a stream of ten values, with damaged frames between theirs. Asserts that the right answer
/// to a value's frame is the value.
fn random_stream<T: Made + Serialize + PartialEq>(rt: &impl Abort, random: &mut Random) -> Vec<u8> {
    let mut stream = Vec::new(random.alloc());
    for _ in 0..10 {
        let value = T::made(random).expect(rt, "a value");
        let frame = to_allocvec_cobs(random.alloc(), &value).expect(rt, "a frame");
        if random.one_in(2) {
            add_damaged(random, &mut stream, &frame).expect(rt, "a stream");
        }
        stream.extend_from_slice(&frame).expect(rt, "a stream");
        assert!(rt; is_sent(random.alloc(), &frame, &value), "{frame:?}");
    }
    stream
}

/// Feeds a stream in random pieces, each until nothing is left of it, and returns the answers.
fn answers<T: DeserializeOwned>(
    rt: &impl Abort,
    random: &mut Random,
    acc: &mut CobsAccumulator<ROOM>,
    stream: &[u8],
) -> Vec<Answer<T>> {
    let mut answers = Vec::new(random.alloc());
    let (mut piece, mut later) = stream.split_at(0);
    for _ in 0..stream.len().saturating_mul(2) {
        if piece.is_empty() {
            let count = random.below(40).saturating_add(1).min(later.len());
            (piece, later) = later.split_at(count);
        }
        let (answer, rest) = match acc.feed::<T>(random.alloc(), piece) {
            FeedResult::Consumed => {
                piece = &[];
                continue;
            }
            FeedResult::OverFull(rest) => (Answer::OverFull, rest),
            FeedResult::DeserError(rest) => (Answer::DeserError, rest),
            FeedResult::Success { value, remaining } => (Answer::Success(value), remaining),
        };
        answers.push(answer).expect(rt, "an answer");
        piece = rest;
    }
    assert!(rt;
        piece.is_empty() && later.is_empty(),
        "the stream isn't consumed"
    );
    answers
}

/// Asserts that the answers to a hundred streams of ten values each are right.
pub(crate) fn arrive<T: Made + Serialize + DeserializeOwned + PartialEq + Debug>(
    rt: &impl Abort,
    random: &mut Random,
) {
    let mut acc = CobsAccumulator::<ROOM>::new();
    for _ in 0..100 {
        let stream = random_stream::<T>(rt, random);
        let answers = answers::<T>(rt, random, &mut acc, &stream);
        assert_eq!(rt;
            answers,
            right_answers(rt, random.alloc(), &stream),
            "{stream:?}"
        );
    }
}

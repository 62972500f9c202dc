//! Tests of feeding and reading frames of values that allocate, where an allocation may be refused.

use crate::reading::{has_encoding, one_is_right};
use postcard::accumulator::{CobsAccumulator, FeedResult};
use postcard::{Answer, DeserializeOwned, ReadEnd, Serialize, read_frames};
use std::alloc::{AllocGlobal, Global};
use std::collections::BTreeMap;
use std::process::Abort;

/// Feeds a frame. Returns `Some(true)` for the value with this encoding, and `Some(false)` for a
/// failed allocation. Returns `None` for any other answer, or if the frame isn't used up.
fn judged<T: DeserializeOwned + Serialize>(
    alloc: Global,
    acc: &mut CobsAccumulator<32>,
    frame: &[u8],
    bytes: &[u8],
) -> Option<bool> {
    match acc.feed::<T>(alloc, frame) {
        FeedResult::Success { value, remaining } => {
            (has_encoding(&value, bytes) && remaining.is_empty()).then_some(true)
        }
        FeedResult::DeserError(rest) => rest.is_empty().then_some(false),
        _ => None,
    }
}

/// Asserts that feeding the frame returns the value with this encoding, or that an allocation
/// fails. The accumulator is then empty, and feeding the frame returns the value the other time.
fn is_fed<T: DeserializeOwned + Serialize>(
    rt: &(impl Abort + AllocGlobal),
    frame: &[u8],
    bytes: &[u8],
) {
    let mut acc = CobsAccumulator::<32>::new();
    let first = judged::<T>(rt.alloc(), &mut acc, frame, bytes);
    let second = judged::<T>(rt.alloc(), &mut acc, frame, bytes);
    assert!(rt; one_is_right(first, second), "{bytes:?}");
}

#[test]
fn refused_values_of_frames(rt: HostRuntime) {
    is_fed::<String>(&rt, b"\x05\x03Hi!\0", b"\x03Hi!");
    is_fed::<Vec<u8>>(&rt, &[4, 2, 9, 8, 0], &[2, 9, 8]);
    is_fed::<Vec<u16>>(&rt, &[4, 1, 0xAC, 2, 0], &[1, 0xAC, 2]);
    is_fed::<BTreeMap<u8, Box<u8>>>(&rt, &[6, 2, 1, 5, 2, 6, 0], &[2, 1, 5, 2, 6]);
}

/// A stream of a frame without room in four bytes and one with room. If the allocation for an
/// answer fails, all bytes of the chunk are left for the next call, which returns both answers.
#[test]
fn refused_first_answer(rt: HostRuntime) {
    let stream = [5, 1, 1, 1, 1, 0, 2, 7, 0];
    let mut acc = CobsAccumulator::<4>::new();
    let mut out = Vec::new(rt.alloc());
    let mut chunk = [0; 16];
    let mut reader = stream.as_slice();
    let mut end = read_frames(rt.alloc(), &mut reader, &mut chunk, 5, &mut acc, &mut out);
    if end == (ReadEnd::OutOfMemory { from: 0, to: 9 }) {
        assert!(rt; out.is_empty() && !acc.skipping());
        let mut unfed = &chunk[0..9];
        end = read_frames(rt.alloc(), &mut unfed, &mut [0; 16], 5, &mut acc, &mut out);
    }
    let both = [Answer::OverFull, Answer::Success(7u8)];
    assert!(rt; end == ReadEnd::End && out.as_slice() == both.as_slice());
}

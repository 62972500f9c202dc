//! Frames: one frame of a long list of bytes, and a stream of frames of small records.

use crate::lists::last_of;
use crate::records::Record;
use postcard::accumulator::{CobsAccumulator, FeedResult};
use postcard::{from_bytes_cobs, take_from_bytes_cobs, to_slice_cobs};
use std::alloc::Global;

/// Encodes a list of bytes as a frame into `out`. Returns the number of bytes of the frame.
#[unsafe(no_mangle)]
pub extern "C" fn port_cobs_encode(values: &[u8], out: &mut [u8]) -> u64 {
    match to_slice_cobs(&values, out) {
        Ok(frame) => frame.len() as u64,
        Err(_) => u64::MAX,
    }
}

/// Decodes the frame of a list of bytes in place. Returns the sum of the list's length and its last
/// byte.
#[unsafe(no_mangle)]
pub extern "C" fn port_cobs_decode(alloc: Global, frame: &mut [u8]) -> u64 {
    match from_bytes_cobs::<&[u8]>(alloc, frame) {
        Ok(list) => (list.len() as u64).wrapping_add(last_of(list)),
        Err(_) => u64::MAX,
    }
}

/// Encodes the `i`th record as a frame into the front of `out`. Returns the number of bytes of the frame.
#[unsafe(no_mangle)]
pub extern "C" fn port_record_frame(i: u32, out: &mut [u8]) -> u64 {
    match to_slice_cobs(&Record::numbered(i), out) {
        Ok(frame) => frame.len() as u64,
        Err(_) => u64::MAX,
    }
}

/// Encodes `count` records as frames into `out`, one after another. Returns the number of bytes of the frames.
#[unsafe(no_mangle)]
pub extern "C" fn port_frames_encode(count: u32, out: &mut [u8]) -> u64 {
    let mut used: usize = 0;
    for i in 0..count {
        let Some(rest) = out.get_mut(used..) else {
            return u64::MAX;
        };
        match to_slice_cobs(&Record::numbered(i), rest) {
            Ok(frame) => used = used.saturating_add(frame.len()),
            Err(_) => return u64::MAX,
        }
    }
    used as u64
}

/// Decodes `count` frames of records in place, one after another, each by a call of `take_from_bytes_cobs`. Returns the sum of
/// [`Record::sum`] over the records.
#[unsafe(no_mangle)]
pub extern "C" fn port_frames_decode(alloc: Global, count: u32, frames: &mut [u8]) -> u64 {
    let mut sum: u64 = 0;
    let mut rest = frames;
    for _ in 0..count {
        match take_from_bytes_cobs::<Record>(alloc, rest) {
            Ok((record, left)) => {
                sum = sum.wrapping_add(record.sum());
                rest = left;
            }
            Err(_) => return u64::MAX,
        }
    }
    sum
}

/// Feeds a stream of frames to an accumulator of 64 bytes, in pieces of `piece` bytes. Returns the
/// sum of [`Record::sum`] over the records, and 1,000 more for each oversized frame and 1,000,000
/// more for each frame without a record. Returns `u64::MAX` if `piece` is 0.
#[unsafe(no_mangle)]
pub extern "C" fn port_accumulate(alloc: Global, stream: &[u8], piece: usize) -> u64 {
    if piece == 0 {
        return u64::MAX;
    }
    let mut accumulator = CobsAccumulator::<64>::new();
    let mut sum: u64 = 0;
    for chunk in stream.chunks(piece) {
        let mut rest = chunk;
        // Each call consumes at least one byte.
        for _ in 0..chunk.len() {
            if rest.is_empty() {
                break;
            }
            rest = match accumulator.feed_ref::<Record>(alloc, rest) {
                FeedResult::Consumed => &[],
                FeedResult::OverFull(left) => {
                    sum = sum.wrapping_add(1_000);
                    left
                }
                FeedResult::DeserError(left) => {
                    sum = sum.wrapping_add(1_000_000);
                    left
                }
                FeedResult::Success { value, remaining } => {
                    sum = sum.wrapping_add(value.sum());
                    remaining
                }
            };
        }
    }
    sum
}

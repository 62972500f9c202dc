//! Frames with a checksum, from a stream.

ghost use Rattle.std.specs.Prelude.{◌<◌, ◌≤◌};

use crc::{CRC_8_MAXIM_DOW, Crc};
use postcard_accumulator::{Answer, CobsAccumulator, FeedResult, ReadEnd};
use postcard_crc::frames::{feed, read_frames};
use std::alloc::AllocGlobal;
use std::process::Abort;

/// The frames of the messages `01 5E`; `01 5F`, whose checksum is wrong; `01 5E 01`, which has a byte
/// too many; and `00 00`.
const STREAM: [u8; 17] = [
    3, 0x01, 0x5e, 0, 3, 0x01, 0x5f, 0, 4, 0x01, 0x5e, 0x01, 0, 1, 1, 1, 0,
];

/// The answers to that stream.
const ANSWERS: [Answer<u8>; 4] = [
    Answer::Success(1),
    Answer::DeserError,
    Answer::DeserError,
    Answer::Success(0),
];

/// Asserts that the stream has these answers, with a chunk of `size` bytes.
fn is_answered(rt: &(impl Abort + AllocGlobal), size: usize)
    requires not_empty { 0 < size }
    requires fits { size ≤ 17 }
{
    let crc: Crc<u8> = Crc::new(&CRC_8_MAXIM_DOW);
    let mut acc = CobsAccumulator::<8>::new();
    let mut out = Vec::new(rt.alloc());
    let mut chunk = [0; 17];
    let end = read_frames(
        rt.alloc(),
        &mut STREAM.as_slice(),
        &mut chunk[..size],
        20,
        &mut acc,
        &mut out,
        &crc,
    );
    assert!(rt; out.as_slice() == ANSWERS.as_slice());
    assert!(rt; end == ReadEnd::End);
}

#[test]
fn streams(rt: HostRuntime) {
    is_answered(&rt, 17);
    is_answered(&rt, 1);
}

#[test]
fn one_feed(rt: HostRuntime) {
    let crc: Crc<u8> = Crc::new(&CRC_8_MAXIM_DOW);
    let mut acc = CobsAccumulator::<8>::new();
    let fed: FeedResult<'_, u8> = feed(rt.alloc(), &mut acc, &[3, 0x01, 0x5e, 0], &crc);
    let got = match fed {
        FeedResult::Success { value, .. } => value,
        _ => 0,
    };
    assert!(rt; got == 1);
}

//! Tests of encoding and decoding frames, by the steps of the encoder and in place.

ghost use Rattle.std.specs.Prelude.{◌+◌, ◌<◌, IsTrue, length};
ghost use Rattle.postcard_cobs.specs.Groups.{NoZero};

use crate::rows::{FRAMES, FULL_LESS_ONE, LONG, first_zero, joined, set};
use crate::same::{same, same_at};
use postcard_cobs::{
    DecodeReport, EncoderState, PushResult, decode_in_place, decode_in_place_report, frame_len,
};
use postcard_wire::Error;
use std::alloc::AllocGlobal;
use std::process::Abort;

/// Returns whether no byte is zero.
fn has_no_zero(bytes: &[u8]) -> bool
    ensures { IsTrue result → NoZero bytes.now }
{
    frame_len(bytes) == bytes.len()
}

/// Asserts that no byte is zero, and that there are fewer than 1000 bytes.
fn is_run(rt: &impl Abort, bytes: &[u8])
    ensures no_zero { NoZero bytes.now }
    ensures short { length bytes.now < 1000 }
{
    assert!(rt; bytes.len() < 1000);
    assert!(rt; has_no_zero(bytes));
}

/// Asserts that the state has counted this many bytes of a frame, and that they are fewer than
/// 1000.
fn stands_at(rt: &impl Abort, state: &EncoderState, len: usize)
    ensures { state.now.code_at + state.now.code < 1000 }
{
    assert!(rt; state.place() == len && len < 1000);
}

/// Adds a byte at the end.
fn push(rt: &impl Abort, bytes: &mut Vec<u8>, byte: u8) {
    bytes.push(byte).expect(rt, "there is memory");
}

/// Changes the frame as the result of a push says.
fn apply(rt: &impl Abort, frame: &mut Vec<u8>, asked: PushResult) {
    match asked {
        PushResult::AddSingle(byte) => push(rt, frame, byte),
        PushResult::ModifyFromStartAndSkip((place, code)) => {
            set(frame, place, code);
            push(rt, frame, 0);
        }
        PushResult::ModifyFromStartAndPushAndSkip((place, code, byte)) => {
            set(frame, place, code);
            push(rt, frame, byte);
            push(rt, frame, 0);
        }
    }
}

/// Pushes a byte of data, and changes the frame as the result says. Asserts that the state has
/// counted the frame's bytes.
fn push_data(rt: &impl Abort, frame: &mut Vec<u8>, state: &mut EncoderState, byte: u8) {
    stands_at(rt, &*state, frame.len());
    apply(rt, frame, state.push(byte));
}

/// Sets the last code byte, and adds the zero at the end.
fn end(rt: &impl Abort, frame: &mut Vec<u8>, state: EncoderState) {
    let (place, code) = state.finalize();
    set(frame, place, code);
    push(rt, frame, 0);
}

/// Returns the made frame of the data, with one push for each byte.
fn made(rt: &(impl Abort + AllocGlobal), content: &[u8]) -> Vec<u8> {
    let mut frame = joined(rt, &[&[0]]);
    let mut state = EncoderState::default();
    for byte in content {
        push_data(rt, &mut frame, &mut state, *byte);
    }
    end(rt, &mut frame, state);
    frame
}

/// Takes the longest possible run from the start of the data, and adds it to the frame. Then pushes
/// the next byte, if there is one. Returns the remaining data.
fn push_run<'a>(
    rt: &impl Abort,
    frame: &mut Vec<u8>,
    state: &mut EncoderState,
    content: &'a [u8],
) -> &'a [u8] {
    let (run, rest) = content.split_at(frame_len(content).min(state.run_room() - 1));
    stands_at(rt, &*state, frame.len());
    is_run(rt, run);
    state.push_run(run);
    frame.extend_from_slice(run).expect(rt, "there is memory");
    let Some((byte, more)) = rest.split_first() else {
        return rest;
    };
    push_data(rt, frame, state, *byte);
    more
}

/// Returns the made frame of the data, with runs as long as possible and a push after each.
fn made_by_runs(rt: &(impl Abort + AllocGlobal), content: &[u8]) -> Vec<u8> {
    let mut frame = joined(rt, &[&[0]]);
    let mut state = EncoderState::default();
    let mut rest = content;
    for _ in 0..content.len() {
        rest = push_run(rt, &mut frame, &mut state, rest);
    }
    end(rt, &mut frame, state);
    frame
}

#[test]
fn a_new_state(rt: HostRuntime) {
    let mut state = EncoderState::default();
    same(&rt, state.place(), 1);
    same(&rt, state.push(0x01), PushResult::AddSingle(0x01));
    same(
        &rt,
        state.push(0x00),
        PushResult::ModifyFromStartAndSkip((0, 2)),
    );
    same(&rt, state.push(0x20), PushResult::AddSingle(0x20));
    same(&rt, state.place(), 4);
    same(&rt, state.finalize(), (2, 2));
}

/// Asserts that the state is that after 253 bytes of the first group, which one byte more fills.
fn is_filled_by_one(rt: &impl Abort, state: EncoderState) {
    let mut state = state;
    stands_at(rt, &state, 254);
    same(rt, state.run_room(), 1);
    let full = PushResult::ModifyFromStartAndPushAndSkip((0, 255, 0x11));
    same(rt, state.push(0x11), full);
    same(rt, (state.run_room(), state.place()), (254, 256));
    same(rt, state.finalize(), (255, 1));
}

/// Pushes the byte at this place of a frame, which belongs to the open group.
fn push_single(rt: &impl Abort, state: &mut EncoderState, place: usize) {
    stands_at(rt, &*state, place);
    same(rt, state.push(0x11), PushResult::AddSingle(0x11));
}

#[test]
fn a_group_is_full_at_254_bytes(rt: HostRuntime) {
    let mut pushed = EncoderState::default();
    for place in 1..254 {
        push_single(&rt, &mut pushed, place);
    }
    is_filled_by_one(&rt, pushed);
}

#[test]
fn a_group_is_full_after_a_run_and_a_byte(rt: HostRuntime) {
    let mut run = EncoderState::default();
    same(&rt, run.run_room(), 254);
    is_run(&rt, &FULL_LESS_ONE);
    run.push_run(&FULL_LESS_ONE);
    is_filled_by_one(&rt, run);
}

/// Asserts that the frame is decoded in place, to this data.
fn is_decoded(rt: &impl Abort, frame: &mut [u8], content: &[u8]) {
    same_at(rt, decode_in_place(frame), Ok(content.len()), content);
    same(rt, frame.get(..content.len()), Some(content));
}

/// Asserts that the data has this made frame, which is decoded to it.
fn is_framed(rt: &(impl Abort + AllocGlobal), content: &[u8], frame: &[u8]) {
    let mut buffer = made(rt, content);
    same_at(rt, buffer.as_slice(), frame, content);
    is_decoded(rt, &mut buffer, content);
}

#[test]
fn the_frames_of_the_table(rt: HostRuntime) {
    for (content, frame) in &FRAMES {
        is_framed(&rt, content, frame);
    }
}

#[test]
fn long_groups(rt: HostRuntime) {
    for (content, frame) in &LONG {
        is_framed(&rt, &joined(&rt, content), &joined(&rt, frame));
    }
}

/// Asserts that the data has a made frame which is longer by `more` bytes, the same by runs, and is
/// decoded to the data.
pub fn comes_back(rt: &(impl Abort + AllocGlobal), content: &[u8], more: usize) {
    let mut buffer = made(rt, content);
    same(rt, buffer.len().checked_sub(more), Some(content.len()));
    same(rt, made_by_runs(rt, content).as_slice(), buffer.as_slice());
    is_decoded(rt, &mut buffer, content);
}

/// Asserts that a group of 254 bytes is decoded if `end` follows it. A group that is a byte shorter
/// than its code says is refused.
fn is_whole_or_short(rt: &(impl Abort + AllocGlobal), end: &[u8]) {
    let mut whole = joined(rt, &[&[0xFF, 0x11], &FULL_LESS_ONE, end]);
    same(rt, decode_in_place(&mut whole), Ok(254));
    let mut short = joined(rt, &[&[0xFF], &FULL_LESS_ONE, end]);
    let refused = decode_in_place(&mut short);
    same(rt, refused, Err(Error::DeserializeBadEncoding));
}

#[test]
fn a_full_group_at_the_end(rt: HostRuntime) {
    is_whole_or_short(&rt, &[]);
    is_whole_or_short(&rt, &[0]);
}

/// Frames, each beside the report of its decoding, which is two numbers of bytes, and the bytes
/// after it. The numbers are those read of the source and written of the data.
const REPORTS: [(&[u8], usize, usize, &[u8]); 7] = [
    (&[1, 0], 1, 0, &[1, 0]),
    (&[2, 7], 2, 1, &[7, 7]),
    (&[2, 7, 0, 0, 9], 2, 1, &[7, 7, 0, 0, 9]),
    (&[3, 7, 8, 0, 5], 3, 2, &[7, 8, 8, 0, 5]),
    (&[1, 1, 1, 0, 4], 3, 2, &[0, 0, 1, 0, 4]),
    (
        &[3, 4, 1, 3, 0x20, 0x30],
        6,
        5,
        &[4, 1, 0, 0x20, 0x30, 0x30],
    ),
    (
        &[3, 4, 1, 3, 0x20, 0x30, 0, 0x77],
        6,
        5,
        &[4, 1, 0, 0x20, 0x30, 0x30, 0, 0x77],
    ),
];

/// Asserts that decoding these bytes in place has this report, and leaves the bytes `after`.
fn is_reported(rt: &(impl Abort + AllocGlobal), before: &[u8], report: DecodeReport, after: &[u8]) {
    let mut buffer = joined(rt, &[before]);
    same(rt, decode_in_place_report(&mut buffer), Ok(report));
    same(rt, buffer.as_slice(), after);
}

#[test]
fn frames_are_reported(rt: HostRuntime) {
    for (before, src_used, dst_used, after) in &REPORTS {
        let report = DecodeReport {
            src_used: *src_used,
            dst_used: *dst_used,
        };
        is_reported(&rt, before, report, after);
    }
}

/// Bytes that aren't a frame.
const NO_FRAMES: [&[u8]; 8] = [
    &[],
    &[0],
    &[0, 9],
    &[3, 0x11],
    &[2],
    &[5, 1, 0],
    &[1, 3, 1, 0, 4],
    &[2, 7, 0xFF, 0, 8],
];

/// Asserts that these bytes aren't decoded, and that each from the first zero on stays as it was.
fn is_not_decoded(rt: &(impl Abort + AllocGlobal), before: &[u8]) {
    let mut buffer = joined(rt, &[before]);
    let report = decode_in_place_report(&mut buffer);
    same(rt, report, Err(Error::DeserializeBadEncoding));
    let end = first_zero(before);
    same(rt, frame_len(before), end);
    same_at(rt, buffer.get(end..), before.get(end..), before);
}

#[test]
fn what_is_no_frame_is_not_decoded(rt: HostRuntime) {
    for before in &NO_FRAMES {
        is_not_decoded(&rt, before);
    }
}

/// Decodes the frame at the start of the bytes, which may succeed or fail. Asserts that a frame
/// ends at the first zero, and that each byte from there on stays as it was.
fn survives(rt: &(impl Abort + AllocGlobal), before: &[u8]) {
    let mut after = joined(rt, &[before]);
    let end = first_zero(before);
    match decode_in_place_report(&mut after) {
        Ok(report) => same_at(rt, report.src_used, end, before),
        Err(e) => same_at(rt, e, Error::DeserializeBadEncoding, before),
    }
    same_at(rt, after.get(end..), before.get(end..), before);
}

/// Changes the byte at this place of a frame to each of the 256 values, and decodes the frame with
/// two other bytes after it.
fn place_survives(rt: &(impl Abort + AllocGlobal), frame: &[u8], place: usize) {
    for byte in 0..=255 {
        let mut changed = joined(rt, &[frame, &[0x77, 0x78]]);
        set(&mut changed, place, byte);
        survives(rt, &changed);
    }
}

#[test]
fn a_changed_byte_is_decoded_or_not(rt: HostRuntime) {
    for (_, frame) in &FRAMES {
        for place in 0..frame.len() {
            place_survives(&rt, frame, place);
        }
    }
}

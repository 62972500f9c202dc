//! Tests of the calls that allocate their output. Each is made twice, and an allocation of one of
//! them may be refused.

use postcard::{
    Error, Result, to_allocvec, to_allocvec_cobs, to_allocvec_cobs_after, to_extend, to_io,
    to_stdvec, to_stdvec_cobs,
};
use std::alloc::Global;
use std::process::Abort;

/// Returns whether the result is these bytes.
fn is_whole(answer: &Result<Vec<u8>>, bytes: &[u8]) -> bool {
    match answer {
        Ok(written) => written.as_slice() == bytes,
        Err(_) => false,
    }
}

/// Returns whether the result is these bytes or a failed allocation.
fn is_answer(answer: &Result<Vec<u8>>, bytes: &[u8]) -> bool {
    match answer {
        Ok(written) => written.as_slice() == bytes,
        Err(e) => *e == Error::SerializeBufferFull,
    }
}

/// Asserts that both calls return these bytes, or that one of them does and an allocation fails for
/// the other.
fn is_written(rt: &impl Abort, call: Result<Vec<u8>>, again: Result<Vec<u8>>, bytes: &[u8]) {
    assert!(rt; is_answer(&call, bytes) && is_answer(&again, bytes));
    assert!(rt; is_whole(&call, bytes) || is_whole(&again, bytes));
}

/// Numbers of one byte each. They are written one by one, so that a vector allocates several times.
const LONG: &[u16] = &[7; 300];

/// Returns the encodings of `true` and of [`LONG`], in a row.
fn long_bytes() -> [u8; 303] {
    let mut bytes = [7; 303];
    bytes[..3].copy_from_slice(&[1, 0xAC, 0x02]);
    bytes
}

/// Returns the frames of `true` and of [`LONG`], in a row.
fn long_frames() -> [u8; 308] {
    let mut frames = [7; 308];
    frames[..6].copy_from_slice(&[2, 1, 0, 0xFF, 0xAC, 0x02]);
    frames[258] = 0x31;
    frames[307] = 0;
    frames
}

/// Writes `true` and [`LONG`] into a vector, one after the other.
fn extended(alloc: Global) -> Result<Vec<u8>> {
    to_extend(&LONG, to_extend(&true, Vec::new(alloc))?)
}

/// Writes `true` and [`LONG`] to a writer, one after the other.
fn written(alloc: Global) -> Result<Vec<u8>> {
    to_io(&LONG, to_io(&true, Vec::new(alloc))?)
}

/// Writes `true` and [`LONG`] as frames, one after the other.
fn framed(alloc: Global) -> Result<Vec<u8>> {
    to_allocvec_cobs_after(&LONG, to_allocvec_cobs(alloc, &true)?)
}

#[test]
fn refused_vectors(rt: HostRuntime) {
    let alloc = rt.alloc();
    let bytes = long_bytes();
    is_written(
        &rt,
        to_allocvec(alloc, &LONG),
        to_allocvec(alloc, &LONG),
        &bytes[1..],
    );
}

#[test]
fn refused_standard_vectors(rt: HostRuntime) {
    let alloc = rt.alloc();
    let bytes = long_bytes();
    is_written(
        &rt,
        to_stdvec(alloc, &LONG),
        to_stdvec(alloc, &LONG),
        &bytes[1..],
    );
}

#[test]
fn refused_extensions(rt: HostRuntime) {
    is_written(
        &rt,
        extended(rt.alloc()),
        extended(rt.alloc()),
        &long_bytes(),
    );
}

#[test]
fn refused_writers(rt: HostRuntime) {
    is_written(&rt, written(rt.alloc()), written(rt.alloc()), &long_bytes());
}

#[test]
fn refused_frames(rt: HostRuntime) {
    let alloc = rt.alloc();
    let bytes = long_frames();
    is_written(
        &rt,
        to_allocvec_cobs(alloc, &LONG),
        to_allocvec_cobs(alloc, &LONG),
        &bytes[3..],
    );
}

#[test]
fn refused_standard_frames(rt: HostRuntime) {
    let alloc = rt.alloc();
    let bytes = long_frames();
    is_written(
        &rt,
        to_stdvec_cobs(alloc, &LONG),
        to_stdvec_cobs(alloc, &LONG),
        &bytes[3..],
    );
}

#[test]
fn refused_frames_in_a_row(rt: HostRuntime) {
    is_written(&rt, framed(rt.alloc()), framed(rt.alloc()), &long_frames());
}

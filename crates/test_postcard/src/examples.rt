//! Tests of the examples of `README.md` and `docs/CALLING.md` that are just calls. `test_crc` has
//! the example with a checksum.

use crate::asserts::same;
use postcard::experimental::serialized_size;
use postcard::{
    Result, from_bytes, from_io, take_from_bytes, to_allocvec, to_extend, to_io, to_slice,
    to_stdvec, to_vec,
};
use std::process::Abort;
use std::test::Fail;

/// The encoding of `(1u8, 10u32, "Hello!")`.
const TUPLE: [u8; 9] = [0x01, 0x0A, 0x06, 0x48, 0x65, 0x6C, 0x6C, 0x6F, 0x21];

/// The encoding of the tuple and then that of `true`.
const TUPLE_AND_TRUE: [u8; 10] = [0x01, 0x0A, 0x06, 0x48, 0x65, 0x6C, 0x6C, 0x6F, 0x21, 0x01];

#[test]
fn encoding(rt: HostRuntime) -> Result<()> {
    let mut buffer = [0; 16];
    let used = to_slice(&[1u32, 300].as_slice(), &mut buffer)?;
    same(&rt, &*used, [0x02, 0x01, 0xAC, 0x02].as_slice());

    let tuple = (1u8, 10u32, "Hello!");
    let fixed = to_vec::<_, 9>(&tuple)?;
    same(&rt, fixed.as_slice(), TUPLE.as_slice());
    let size = serialized_size(&tuple)?;
    same(&rt, size, 9);
    Ok(())
}

#[test]
fn encoding_into_growing_memory(rt: HostRuntime) -> Result<()> {
    let tuple = (1u8, 10u32, "Hello!");
    let growing = to_stdvec(rt.alloc(), &tuple)?;
    same(&rt, growing.as_slice(), TUPLE.as_slice());
    let longer = to_extend(&true, to_allocvec(rt.alloc(), &tuple)?)?;
    same(&rt, longer.as_slice(), TUPLE_AND_TRUE.as_slice());
    Ok(())
}

#[test]
fn encoding_to_a_writer(rt: HostRuntime) -> Result<()> {
    let tuple = (1u8, 10u32, "Hello!");
    let written = to_io(&tuple, Vec::new(rt.alloc()))?;
    same(&rt, written.as_slice(), TUPLE.as_slice());
    Ok(())
}

#[test]
fn decoding(rt: HostRuntime) -> Result<()> {
    let bytes = [0x03, 0x48, 0x69, 0x21, 0x07];
    let (text, rest) = take_from_bytes::<&str>(rt.alloc(), &bytes)?;
    same(&rt, text, "Hi!");
    let seven: u8 = from_bytes(rt.alloc(), rest)?;
    same(&rt, seven, 7);
    Ok(())
}

#[test]
fn records(rt: HostRuntime) -> Result<()> {
    let records = [0x01, 0x61, 0xAC, 0x02, 0x99];
    let mut scratch = [0; 8];
    let (name, from) = from_io::<&str, _>(rt.alloc(), (records.as_slice(), &mut scratch))?;
    let (number, (reader, left)) = from_io::<u32, _>(rt.alloc(), from)?;
    same(&rt, (name, number), ("a", 300));
    same(&rt, (reader, left.len()), ([0x99].as_slice(), 7));
    Ok(())
}

#[test]
fn framing(rt: HostRuntime) -> Result<()> {
    use postcard::{from_bytes_cobs, take_from_bytes_cobs, to_allocvec_cobs_after, to_slice_cobs};

    let mut buffer = [0; 16];
    let frame = to_slice_cobs(&[0x01u8, 0x00, 0x20, 0x30].as_slice(), &mut buffer)?;
    same(
        &rt,
        &*frame,
        [0x03, 0x04, 0x01, 0x03, 0x20, 0x30, 0x00].as_slice(),
    );
    let mut two = to_allocvec_cobs_after(&5u8, frame.to_vec(rt.alloc())?)?; // after the first frame
    same(&rt, two.get(7..), Some([0x02, 0x05, 0x00].as_slice()));

    let (list, rest) = take_from_bytes_cobs::<&[u8]>(rt.alloc(), &mut two)?;
    let five: u8 = from_bytes_cobs(rt.alloc(), rest)?;
    same(&rt, (list, five), ([0x01, 0x00, 0x20, 0x30].as_slice(), 5));
    Ok(())
}

#[test]
fn streams(rt: HostRuntime) -> std::result::Result<(), Fail> {
    use postcard::accumulator::{CobsAccumulator, FeedResult};

    let pieces = [[0x03, 0x07], [0x2A, 0x00], [0x03, 0x08], [0x2B, 0x00]]; // as the line cuts them
    let mut accumulator = CobsAccumulator::<16>::new();
    let mut readings = Vec::new(rt.alloc());
    for piece in pieces {
        let mut left = piece.as_slice();
        for _ in 0..piece.len() {
            left = match accumulator.feed::<(u8, u8)>(rt.alloc(), left) {
                FeedResult::Consumed => break,
                FeedResult::OverFull(rest) => rest, // a frame of more than 16 bytes
                FeedResult::DeserError(rest) => rest, // a damaged frame
                FeedResult::Success { value, remaining } => {
                    readings.push(value)?;
                    remaining
                }
            };
        }
    }
    same(&rt, readings.as_slice(), [(7, 42), (8, 43)].as_slice());
    Ok(())
}

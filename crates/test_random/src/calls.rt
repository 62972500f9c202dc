//! Checks that a value is written and read back by each call.

use crate::choices::Choices;
use crate::made::Made;
use crate::plain::Plain;
use crate::random::Random;
use postcard::experimental::serialized_size;
use postcard::{
    DeserializeOwned, Owned, Serialize, from_bytes, from_bytes_cobs, from_io, take_from_bytes,
    take_from_bytes_cobs, to_allocvec, to_allocvec_cobs, to_extend, to_io, to_slice, to_slice_cobs,
};
use std::alloc::{AllocError, Global};
use std::fmt::Debug;
use std::process::Abort;
use test_support::devices::readers::Pieces;

/// The bytes after a value, which no call reads as a part of it.
const BEHIND: [u8; 4] = [0x00, 0xFF, 0x80, 0x01];

/// Returns the bytes, and then [`BEHIND`].
fn with_more(alloc: Global, bytes: &[u8]) -> Result<Vec<u8>, AllocError> {
    let mut more = bytes.to_vec(alloc)?;
    more.extend_from_slice(&BEHIND)?;
    Ok(more)
}

/// Returns whether a call wrote these bytes.
fn wrote(answer: postcard::Result<Vec<u8>>, bytes: &[u8]) -> bool {
    match answer {
        Ok(written) => written.as_slice() == bytes,
        Err(_) => false,
    }
}

/// Returns whether a call wrote these bytes into a buffer of their length.
fn filled(answer: postcard::Result<&mut [u8]>, bytes: &[u8]) -> bool {
    match answer {
        Ok(front) => &*front == bytes,
        Err(_) => false,
    }
}

/// Returns whether a call read this value.
fn gave<T: DeserializeOwned + PartialEq>(answer: postcard::Result<Owned<T>>, value: &T) -> bool {
    match answer {
        Ok(Owned(read)) => read == *value,
        Err(_) => false,
    }
}

/// Returns whether each call that writes the value writes these bytes, and a buffer of their length
/// is enough.
fn is_written<T: Serialize>(alloc: Global, value: &T, bytes: &[u8]) -> bool {
    let Ok(mut buffer) = bytes.to_vec(alloc) else {
        return false;
    };
    buffer.fill(0);
    serialized_size(value) == Ok(bytes.len())
        && wrote(to_extend(value, Vec::new(alloc)), bytes)
        && wrote(to_io(value, Vec::new(alloc)), bytes)
        && filled(to_slice(value, &mut buffer), bytes)
}

/// Returns whether the bytes encode the value.
fn is_spelled<T: Made + PartialEq>(alloc: Global, value: &T, bytes: &[u8]) -> bool {
    match T::made(&mut Plain::new(alloc, bytes)) {
        Some(spelled) => spelled == *value,
        None => false,
    }
}

/// Returns whether the value is read from these bytes, and [`BEHIND`] is left if it follows.
fn is_read<T: DeserializeOwned + PartialEq>(alloc: Global, value: &T, bytes: &[u8]) -> bool {
    let Ok(more) = with_more(alloc, bytes) else {
        return false;
    };
    let alone = gave(from_bytes::<Owned<T>>(alloc, bytes), value);
    match take_from_bytes::<Owned<T>>(alloc, &more) {
        Ok((read, rest)) => alone && rest == BEHIND.as_slice() && gave(Ok(read), value),
        Err(_) => false,
    }
}

/// Returns whether the value is read from a reader with pieces of these lengths, and [`BEHIND`] and
/// the whole scratch are left.
fn is_read_in_pieces<T: DeserializeOwned + PartialEq>(
    alloc: Global,
    value: &T,
    bytes: &[u8],
    lengths: &[usize],
) -> bool {
    let Ok(more) = with_more(alloc, bytes) else {
        return false;
    };
    let mut scratch = [0; 64];
    match from_io::<Owned<T>, _>(alloc, (Pieces::new(&more, lengths), &mut scratch)) {
        Ok((read, (reader, left))) => {
            reader.unread() == BEHIND.as_slice() && left.len() == 64 && gave(Ok(read), value)
        }
        Err(_) => false,
    }
}

/// Returns whether the value is written as this frame into a buffer of its length, and read from
/// there.
fn is_framed<T: Serialize + DeserializeOwned + PartialEq>(
    alloc: Global,
    value: &T,
    frame: &[u8],
) -> bool {
    let Ok(mut buffer) = frame.to_vec(alloc) else {
        return false;
    };
    buffer.fill(0);
    filled(to_slice_cobs(value, &mut buffer), frame)
        && gave(from_bytes_cobs::<Owned<T>>(alloc, &mut buffer), value)
}

/// Returns whether the value is read from the frame if more bytes follow, which are left.
fn is_taken<T: DeserializeOwned + PartialEq>(alloc: Global, value: &T, frame: &[u8]) -> bool {
    let Ok(mut more) = with_more(alloc, frame) else {
        return false;
    };
    match take_from_bytes_cobs::<Owned<T>>(alloc, &mut more) {
        Ok((read, rest)) => &*rest == BEHIND.as_slice() && gave(Ok(read), value),
        Err(_) => false,
    }
}

/// Asserts that the value is written and read back by each call.
pub(crate) fn comes_back<T: Made + Serialize + DeserializeOwned + PartialEq + Debug>(
    rt: &impl Abort,
    random: &mut Random,
    value: &T,
) {
    let alloc = random.alloc();
    let lengths = [random.below(9), random.below(9), random.below(9)];
    let bytes = to_allocvec(alloc, value).expect(rt, "to_allocvec");
    let frame = to_allocvec_cobs(alloc, value).expect(rt, "to_allocvec_cobs");
    let checks = [
        is_written(alloc, value, &bytes),
        is_spelled(alloc, value, &bytes),
        is_read(alloc, value, &bytes),
        is_read_in_pieces(alloc, value, &bytes, &lengths),
        is_framed(alloc, value, &frame),
        is_taken(alloc, value, &frame),
    ];
    assert_eq!(rt; checks, [true; 6], "{value:?}");
}

//! The checks of a row, for any type.

use crate::row::{Mark, Row};
use crate::row_error::{Reason, RowError};
use postcard::experimental::max_size::{MaxSize, fill_max_size};
use postcard::experimental::serialized_size;
use postcard::{
    Deserialize, DeserializeOwned, Error, Owned, Result, Serialize, fill_slice, from_bytes,
    from_io, take_from_bytes, to_allocvec, to_extend, to_io, to_slice, to_stdvec,
};
use std::alloc::Global;
use std::fmt::Debug;

/// The outcome of a check.
pub type Outcome = std::result::Result<(), RowError>;

/// A byte of a buffer before anything is written.
const OLD: u8 = 0xAA;

/// The text of the result of reading bytes that end within a value.
const ENDS: &str = "Err(DeserializeUnexpectedEnd)";

/// Requires that the result of the call is printed as this text.
fn same<R: Debug>(alloc: Global, call: &str, found: &R, want: &str) -> Outcome {
    let got = format!(in alloc; "{found:?}")?;
    if got.as_str() == want {
        return Ok(());
    }
    let call = String::from_str(alloc, call)?;
    let want = String::from_str(alloc, want)?;
    Err(RowError::Other { call, want, got })
}

/// Requires that the result of the call is printed as this value is.
fn equal<R: Debug>(alloc: Global, call: &str, found: &R, want: &R) -> Outcome {
    let want = format!(in alloc; "{want:?}")?;
    same(alloc, call, found, &want)
}

/// Reads a value from a reader of these bytes, and returns it with the bytes after it.
fn from_reader<'a, T: Deserialize<'a>>(
    alloc: Global,
    bytes: &'a [u8],
    scratch: &'a mut [u8],
) -> Result<(T, &'a [u8])> {
    match from_io::<T, _>(alloc, (bytes, scratch)) {
        Ok((value, (rest, _))) => Ok((value, rest)),
        Err(error) => Err(error),
    }
}

/// Reads a value that borrows nothing.
fn from_owned<T: DeserializeOwned>(alloc: Global, bytes: &[u8]) -> Result<T> {
    match from_bytes::<Owned<T>>(alloc, bytes) {
        Ok(Owned(value)) => Ok(value),
        Err(error) => Err(error),
    }
}

/// Requires that the value is written into the buffer, or refused if it doesn't fit. The other
/// bytes of the buffer must be unchanged.
fn fills<T: Serialize>(alloc: Global, value: &T, want: &[u8], buffer: &mut [u8]) -> Outcome {
    for byte in buffer.iter_mut() {
        *byte = OLD;
    }
    let result = fill_slice(value, buffer);
    let fits = want.len() <= buffer.len();
    let answer = if fits {
        Ok(want.len())
    } else {
        Err(Error::SerializeBufferFull)
    };
    equal(alloc, "fill_slice", &result, &answer)?;
    let written = buffer.iter().zip(want).take_while(|(a, b)| a == b).count();
    if fits {
        equal(alloc, "fill_slice, bytes written", &written, &want.len())?;
    }
    let unchanged = buffer.iter().skip(written).all(|byte| *byte == OLD);
    equal(
        alloc,
        "fill_slice, bytes after them unchanged",
        &unchanged,
        &true,
    )
}

/// Requires that the value is written as these bytes into allocated memory and to a writer. Two of
/// the calls append to a byte.
///
/// No clause says that these calls succeed. A faulty flavor could refuse a longer message though
/// memory is left. For messages of more than 600 bytes, only this test would catch that.
fn written_growing<T: Serialize>(alloc: Global, value: &T, want: &[u8]) -> Outcome {
    let mut after = vec![in alloc; OLD]?;
    after.extend_from_slice(want)?;
    let after = Ok(after);
    let extended = to_extend(value, vec![in alloc; OLD]?);
    equal(alloc, "to_extend", &extended, &after)?;
    let sent = to_io(value, vec![in alloc; OLD]?);
    equal(alloc, "to_io", &sent, &after)?;
    let want = Ok(want.to_vec(alloc)?);
    equal(alloc, "to_allocvec", &to_allocvec(alloc, value), &want)?;
    equal(alloc, "to_stdvec", &to_stdvec(alloc, value), &want)
}

/// Requires that the value is written as these bytes, in a buffer of each length up to three more
/// than are needed.
fn written<T: Serialize>(alloc: Global, value: &T, want: &[u8]) -> Outcome {
    equal(
        alloc,
        "serialized_size",
        &serialized_size(value),
        &Ok(want.len()),
    )?;
    let mut buffer = Vec::new(alloc);
    for _ in 0..want.len().saturating_add(4) {
        fills(alloc, value, want, &mut buffer)?;
        buffer.push(OLD)?;
    }
    match to_slice(value, &mut buffer) {
        Ok(front) => equal(alloc, "to_slice", &&*front, &want),
        Err(error) => equal(alloc, "to_slice", &Err(error), &Ok(())),
    }
}

/// Requires that each proper prefix of the value's bytes is refused.
fn ends<'a, T: Deserialize<'a> + Debug>(alloc: Global, bytes: &'a [u8]) -> Outcome {
    for count in 0..bytes.len() {
        let (front, _) = bytes.split_at(count);
        same(
            alloc,
            "from_bytes of a front",
            &from_bytes::<T>(alloc, front),
            ENDS,
        )?;
    }
    Ok(())
}

/// Checks how the value of a row is read. Also checks how it is written, if the row doesn't say
/// that it is written as other bytes.
fn check<'a, T: Serialize + Deserialize<'a> + Debug>(
    alloc: Global,
    row: &'a Row<'_>,
    scratch: &'a mut [u8],
) -> Outcome {
    let bytes: &'a [u8] = row.bytes.as_slice();
    let encoding: &'a [u8] = row.spelled.as_slice();
    same(
        alloc,
        "take_from_bytes",
        &take_from_bytes::<T>(alloc, bytes),
        &row.taken,
    )?;
    same(
        alloc,
        "from_io",
        &from_reader::<T>(alloc, bytes, scratch),
        &row.taken,
    )?;
    let answer = from_bytes::<T>(alloc, encoding);
    same(alloc, "from_bytes", &answer, &row.value)?;
    let Ok(value) = answer else {
        return Ok(());
    };
    ends::<T>(alloc, encoding)?;
    if row.mark == Mark::Reads {
        return Ok(());
    }
    written(alloc, &value, encoding)?;
    written_growing(alloc, &value, encoding)
}

/// Requires that the value of the row is written as other bytes, which are read as the same value.
fn rewritten<T: Serialize + DeserializeOwned + Debug>(alloc: Global, row: &Row<'_>) -> Outcome {
    let answer = match from_owned::<T>(alloc, row.spelled.as_slice()) {
        Ok(value) => to_allocvec(alloc, &value),
        Err(error) => Err(error),
    };
    match answer {
        Ok(bytes) => {
            let is_other = bytes.as_slice() != row.spelled.as_slice();
            equal(
                alloc,
                "the value is written as other bytes",
                &is_other,
                &true,
            )?;
            same(
                alloc,
                "from_bytes of those",
                &from_owned::<T>(alloc, &bytes),
                &row.value,
            )
        }
        Err(error) => equal(alloc, "to_allocvec", &Err(error), &Ok(())),
    }
}

/// Requires that the value of the row has the greatest size of its type.
fn greatest<T: Serialize + DeserializeOwned + MaxSize>(alloc: Global, row: &Row<'_>) -> Outcome {
    let bytes = row.spelled.as_slice();
    let size = T::postcard_max_size();
    equal(alloc, "postcard_max_size", &size, &Some(bytes.len()))?;
    let mut buffer = bytes.to_vec(alloc)?;
    let answer = match from_owned::<T>(alloc, bytes) {
        Ok(value) => fill_max_size(&value, &mut buffer),
        Err(error) => Err(error),
    };
    equal(alloc, "fill_max_size", &answer, &Ok(bytes.len()))
}

/// Checks a row of this type, which borrows from its bytes.
pub fn borrowed<'a, T: Serialize + Deserialize<'a> + Debug>(
    alloc: Global,
    row: &'a Row<'_>,
    scratch: &'a mut [u8],
) -> Outcome {
    match row.mark {
        Mark::Same | Mark::Refused => check::<T>(alloc, row, scratch),
        _ => Err(RowError::NotARow(Reason::Borrows)),
    }
}

/// Checks a row of this type, which borrows nothing. Its greatest size is not checked here.
fn check_owned<'a, T: Serialize + Deserialize<'a> + DeserializeOwned + Debug>(
    alloc: Global,
    row: &'a Row<'_>,
    scratch: &'a mut [u8],
) -> Outcome {
    let answer = from_owned::<T>(alloc, row.bytes.as_slice());
    same(alloc, "from_bytes of an Owned", &answer, &row.value)?;
    check::<T>(alloc, row, scratch)?;
    if row.mark == Mark::Reads {
        return rewritten::<T>(alloc, row);
    }
    Ok(())
}

/// Checks a row of this type, which borrows nothing, with this scratch for its bytes.
pub fn owned_with<'a, T: Serialize + Deserialize<'a> + DeserializeOwned + Debug>(
    alloc: Global,
    row: &'a Row<'_>,
    scratch: &'a mut [u8],
) -> Outcome {
    match row.mark {
        Mark::Greatest => Err(RowError::NotARow(Reason::NoSize)),
        _ => check_owned::<T>(alloc, row, scratch),
    }
}

/// Checks a row of this type, which borrows nothing and needs no scratch.
pub fn owned<'a, T: Serialize + Deserialize<'a> + DeserializeOwned + Debug>(
    alloc: Global,
    row: &'a Row<'_>,
) -> Outcome {
    owned_with::<T>(alloc, row, &mut [])
}

/// Checks a row of this type, which borrows nothing and has a greatest size, with this scratch for
/// its bytes.
pub fn sized_with<'a, T: Serialize + Deserialize<'a> + DeserializeOwned + MaxSize + Debug>(
    alloc: Global,
    row: &'a Row<'_>,
    scratch: &'a mut [u8],
) -> Outcome {
    check_owned::<T>(alloc, row, scratch)?;
    match row.mark {
        Mark::Greatest => greatest::<T>(alloc, row),
        _ => Ok(()),
    }
}

/// Checks a row of this type, which borrows nothing, has a greatest size and needs no scratch.
pub fn sized<'a, T: Serialize + Deserialize<'a> + DeserializeOwned + MaxSize + Debug>(
    alloc: Global,
    row: &'a Row<'_>,
) -> Outcome {
    sized_with::<T>(alloc, row, &mut [])
}

//! A message of the old type, and what the new type makes of it: [`example_of`].

ghost use Rattle.std.specs.Prelude.{◌≡◌, IfOk, IfSome, MatchOption};
ghost use Rattle.postcard_compat.specs.{HasNoFront, IsExample, IsMessage, IsNoMessage, IsPlaced};
ghost use Rattle.postcard_compat.specs.{IsReading, ShowsPlace, canonical, tree, type_of};

use postcard_schema::Schema;
use postcard_ser_flavors::AllocVec;
use postcard_value::{RefusedPart, Value, refused_at, take_from_bytes, to_flavor};
use postcard_wire::Error;
use std::alloc::{AllocError, Global};

/// What a type makes of some bytes.
#[derive(Debug, Drop)]
pub enum Reading {
    /// No beginning of the bytes encodes a message of the type.
    Refused {
        /// The error of the part that can't be read.
        error: Error,
        /// The offset in bytes of that part.
        offset: usize,
        /// The path of that part, such as `samples[1].unit`. Empty for the whole.
        path: String,
    },
    /// The first bytes encode a message of the type.
    Read {
        /// The value of that message.
        value: Value,
        /// The number of bytes after it.
        left: usize,
    },
}

/// A message of the old type, and what the new type makes of it.
#[derive(Debug, Drop)]
pub struct Example {
    /// The value that the old type gives the message.
    pub value: Value,
    /// The canonical encoding of that value.
    pub bytes: Vec<u8>,
    /// What the new type makes of these bytes.
    pub reading: Reading,
}

/// Returns the message of the old type that some bytes encode, written canonically, and what the
/// new type makes of it. Returns `None` if the bytes aren't just one message of the old type.
///
/// # Errors
///
/// Fails if an allocation fails.
///
/// # Examples
///
/// ```rust
/// let old = parse(rt.alloc(), "u16").expect(&rt, "a type");
/// let new = parse(rt.alloc(), "u8").expect(&rt, "a type");
/// let found = example_of(rt.alloc(), &old, &new, &[0xAC, 0x02])?.expect(&rt, "a message");
/// assert!(rt; matches!(found.reading, Reading::Read { left: 1, .. }));
/// ```
pub fn example_of(
    alloc: Global,
    old: &Schema,
    new: &Schema,
    bytes: &[u8],
) -> Result<Option<Example>, AllocError>
    ensures example { IfOk result
        (λ found. IfSome found (IsExample (type_of old.now) (type_of new.now))) }
    ensures of_bytes { IfOk result
        (λ found. MatchOption found (IsNoMessage (type_of old.now) bytes.now)
        (λ example. IsMessage (type_of old.now) bytes.now example.value)) }
    ensures place { IfOk result (λ found. IfSome found (IsPlaced new.now)) }
{
    let Some(value) = read_whole(alloc, old, bytes)? else {
        return Ok(None);
    };
    let bytes = encoded(alloc, &value)?;
    let reading = reading_of(alloc, new, &bytes)?;
    Ok(Some(Example {
        value,
        bytes,
        reading,
    }))
}

/// Returns the value that all of the bytes encode, or `None` if they encode none.
fn read_whole(alloc: Global, schema: &Schema, bytes: &[u8]) -> Result<Option<Value>, AllocError>
    ensures { IfOk result
        (λ found. MatchOption found (IsNoMessage (type_of schema.now) bytes.now)
        (IsMessage (type_of schema.now) bytes.now)) }
{
    match take_from_bytes(alloc, schema, bytes) {
        Ok((value, after)) => {
            if after.is_empty() {
                Ok(Some(value))
            } else {
                Ok(None)
            }
        }
        Err(Error::OutOfMemory) => Err(AllocError),
        Err(_) => Ok(None),
    }
}

/// Returns the canonical encoding of a value.
pub(crate) fn encoded(alloc: Global, value: &Value) -> Result<Vec<u8>, AllocError>
    ensures { IfOk result (λ bytes. bytes.items ≡ canonical (tree value.now)) }
{
    match to_flavor(value, AllocVec::new(alloc)) {
        Ok(bytes) => Ok(bytes),
        Err(_) => Err(AllocError),
    }
}

/// Returns what a type makes of some bytes.
fn reading_of(alloc: Global, schema: &Schema, bytes: &[u8]) -> Result<Reading, AllocError>
    ensures reading { IfOk result (IsReading (type_of schema.now) bytes.now) }
    ensures place { IfOk result (ShowsPlace schema.now bytes.now) }
{
    match take_from_bytes(alloc, schema, bytes) {
        Ok((value, after)) => Ok(Reading::Read {
            value,
            left: after.len(),
        }),
        Err(Error::OutOfMemory) => Err(AllocError),
        Err(error) => refusal(alloc, schema, bytes, error),
    }
}

/// Returns the refusal of some bytes, for the error of reading them.
fn refusal(
    alloc: Global,
    schema: &Schema,
    bytes: &[u8],
    error: Error,
) -> Result<Reading, AllocError>
    requires { HasNoFront schema.now bytes.now }
    ensures reading { IfOk result (IsReading (type_of schema.now) bytes.now) }
    ensures place { IfOk result (ShowsPlace schema.now bytes.now) }
{
    let Ok(RefusedPart { offset, path }) = refused_at(alloc, schema, bytes) else {
        return Err(AllocError);
    };
    let path = format!(in alloc; "{path}")?;
    Ok(Reading::Refused {
        error,
        offset,
        path,
    })
}

//! The type of an expression, and a message of that type at the front of some bytes.

ghost use Rattle.std.specs.Prelude.{◌≡◌, ◌⊎◌, ◌+◌, ◌≤◌, length, drop, IfOk, IfErr};
ghost use Rattle.postcard_c_text.specs.{IsExpression, IsRefused, IsTree, ReadsFront, characters};
ghost use Rattle.postcard_c_text.specs.{reads, type_of};

use postcard_schema::Schema;
use postcard_schema_text::{Problem, parse};
use postcard_value::{Value, refused_at, take_from_bytes};
use postcard_wire::Error;
use postcard_wire::status::{BAD_TYPE, OUT_OF_MEMORY, status_of};
use std::alloc::Global;

/// Reads a type expression. Fails as `postcard_to_text` does, with `place` as there.
pub(crate) fn schema_of(alloc: Global, expression: &[u8], place: &mut usize) -> Result<Schema, u32>
    ensures spelled { IfOk result (λ schema. IsExpression schema expression.now) }
    ensures named { IfErr result (λ status. (status ≡ 16) ⊎ (status ≡ 17)) }
    ensures within { IfErr result (λ status. place.new ≤ characters expression.now + 1) }
{
    *place = 0;
    let Ok(expression) = str::from_utf8(expression) else {
        return Err(BAD_TYPE);
    };
    match parse(alloc, expression) {
        Ok(schema) => Ok(schema),
        Err(error) => {
            *place = error.character;
            match error.problem {
                Problem::OutOfMemory => Err(OUT_OF_MEMORY),
                _ => Err(BAD_TYPE),
            }
        }
    }
}

/// Reads the message of a type that some bytes begin with, and writes the number of its bytes into
/// `place`. Fails as `postcard_to_text` does, with `place` as there.
pub(crate) fn message_of(
    alloc: Global,
    schema: &Schema,
    bytes: &[u8],
    place: &mut usize,
) -> Result<Value, u32>
    ensures read { IfOk result (λ value. ReadsFront (reads (type_of schema.now)) IsTree bytes.now value
        (drop place.new bytes.now)) }
    ensures refused { IfErr result
        (λ status. (status ≡ 16) ⊎ IsRefused schema.now bytes.now place.new status) }
    ensures within { place.new ≤ length bytes.now }
{
    match take_from_bytes(alloc, schema, bytes) {
        Ok((value, rest)) => {
            *place = bytes.len().saturating_sub(rest.len());
            Ok(value)
        }
        Err(Error::OutOfMemory) => {
            *place = 0;
            Err(OUT_OF_MEMORY)
        }
        Err(error) => match refused_at(alloc, schema, bytes) {
            Ok(found) => {
                *place = found.offset;
                Err(status_of(&error))
            }
            Err(_) => {
                *place = 0;
                Err(OUT_OF_MEMORY)
            }
        },
    }
}

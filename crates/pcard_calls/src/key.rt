//! The key of a type, which a device and a host compare: the command `key`.

ghost use Rattle.std.specs.Prelude.{IfErr, OnOk};
ghost use Rattle.pcard_calls.specs.{IsKeyOf, KeyFails, PrintsKey};

use pcard_message::{Failure, schema_of};
use pcard_print::write_hex;
use postcard_key::{key, named_key};
use postcard_schema::Schema;
use std::alloc::Global;
use std::io::Write;

/// Prints the key of the type on a line, in 16 hexadecimal digits. If names count, it is
/// [`named_key`], and else [`key`].
///
/// # Errors
///
/// Fails as [`schema_of`] does, and with `Output`.
pub fn print<W: Write>(
    alloc: Global,
    expression: &str,
    names: bool,
    output: &mut W,
) -> Result<(), Failure<'static>>
    ensures printed { OnOk result (PrintsKey expression.now names (W.contents output.old)
        (W.contents output.new)) }
    ensures refused { IfErr result (KeyFails expression.now) }
{
    let schema = schema_of(alloc, expression)?;
    let number = key_of(&schema, names);
    write_hex(&number.to_be_bytes(), output)?;
    output.write_all(b"\n")?;
    Ok(())
}

fn key_of(schema: &Schema, names: bool) -> u64
    ensures { IsKeyOf names schema.now result }
{
    if names {
        named_key(schema)
    } else {
        key(schema)
    }
}

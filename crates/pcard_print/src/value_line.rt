//! The line of a value: [`print_value`], and [`print_first`] for `dec`.

ghost use Rattle.std.specs.Prelude.{◌≡◌, ◌⊎◌, ◌∷◌, [], IfErr, OnOk};
ghost use Rattle.pcard_print.specs.{Appends, NoJson, OutOfMemory, Output, Prints, PrintsFirst};
ghost use Rattle.pcard_print.specs.{PrintsJson, PrintsValue, ValueFails, bytes_member, layout_of};
ghost use Rattle.pcard_print.specs.{more_text, noun_of, text, tree, two_lines, value_text};

use crate::digits::{write_hex, write_member};
use crate::error::PrintError;
use crate::json_parts::json_of;
use crate::notation::Notation;
use arrayvec::ArrayString;
use postcard_schema::Schema;
use postcard_value::Value;
use postcard_value_text::Shown;
use std::alloc::Global;
use std::io::Write;
use std::{fmt, io};

/// The most bytes of a text that is gathered before it is written: more than most values have.
const LINE: usize = 512;

/// Prints the line of a value whose message begins at the offset `at`. The line also has the bytes
/// `rest`, those of the data after the value, if there are some.
///
/// # Errors
///
/// Fails with `Output` if the output can't be written. As JSON fails with `OutOfMemory` if an
/// allocation fails, and with `NoJson` if the value has no JSON. Nothing is printed then.
pub fn print_value<W: Write>(
    alloc: Global,
    notation: Notation,
    schema: &Schema,
    at: u64,
    value: &Value,
    rest: &[u8],
    output: &mut W,
) -> Result<(), PrintError>
    ensures printed { OnOk result (PrintsValue notation schema.now at value.now rest.now
        (W.contents output.old) (W.contents output.new)) }
    ensures refused { IfErr result (ValueFails notation
        (W.contents output.old) (W.contents output.new)) }
{
    match notation {
        Notation::Text => print_text(schema, value, rest, output)?,
        Notation::Json => print_json(alloc, schema, at, value, rest, &[], output)?,
    }
    Ok(())
}

/// Prints the only value of a call, the bytes `rest` of its data after it, and the bytes `after`
/// its message or frame. As text the latter two are a second line. As JSON they are the member
/// `after` if the message is framed, and else `rest`. Fails as [`print_value`] does.
pub fn print_first<W: Write>(
    alloc: Global,
    notation: Notation,
    framed: bool,
    schema: &Schema,
    value: &Value,
    rest: &[u8],
    after: &[u8],
    output: &mut W,
) -> Result<(), PrintError>
    ensures printed { OnOk result (PrintsFirst notation framed schema.now value.now rest.now
        after.now (W.contents output.old) (W.contents output.new)) }
    ensures refused { IfErr result (ValueFails notation
        (W.contents output.old) (W.contents output.new)) }
{
    match (notation, framed) {
        (Notation::Text, _) => print_two(schema, value, rest, after, output)?,
        (Notation::Json, true) => print_json(alloc, schema, 0, value, rest, after, output)?,
        (Notation::Json, false) => print_json(alloc, schema, 0, value, after, &[], output)?,
    }
    Ok(())
}

/// Prints the line of a value, and a second line of the bytes after its message or frame.
fn print_two<W: Write>(
    schema: &Schema,
    value: &Value,
    rest: &[u8],
    after: &[u8],
    output: &mut W,
) -> io::Result<()>
    ensures { OnOk result (Prints (two_lines schema.now value.now rest.now after.now)
        (W.contents output.old) (W.contents output.new)) }
{
    print_text(schema, value, rest, output)?;
    write_hex(after, output)?;
    output.write_all(b"\n")
}

fn print_text<W: Write>(
    schema: &Schema,
    value: &Value,
    rest: &[u8],
    output: &mut W,
) -> io::Result<()>
    ensures { OnOk result (Prints (value_text schema.now value.now rest.now)
        (W.contents output.old) (W.contents output.new)) }
{
    print_gathered(Shown { schema, value }, output)?;
    print_more(rest, output)?;
    output.write_all(b"\n")
}

/// Prints the text of a value. A text of at most [`LINE`] bytes is gathered first and written in
/// one piece, which is quicker than a write for each part. A longer text is printed from its
/// beginning, part by part.
fn print_gathered<W: Write>(shown: Shown<'_>, output: &mut W) -> io::Result<()>
    ensures { OnOk result (Prints (text (layout_of shown.entry.schema.now)
        (tree shown.entry.value.now)) (W.contents output.old) (W.contents output.new)) }
{
    let mut line = ArrayString::<LINE>::new();
    match fmt::Write::write_fmt(&mut line, shown) {
        Ok(()) => output.write_all(line.as_str().as_bytes()),
        Err(_) => write!(output, "{shown}"),
    }
}

/// Prints the bytes of the data after a value, if there are some.
fn print_more<W: Write>(rest: &[u8], output: &mut W) -> io::Result<()>
    ensures { OnOk result (Appends (W.contents output.old) (W.contents output.new)
        (more_text rest.now)) }
{
    if rest.is_empty() {
        return Ok(());
    }
    let count = rest.len();
    let noun = noun(count);
    write!(output, " and {count} {noun} more: ")?;
    write_hex(rest, output)
}

fn noun(count: usize) -> &'static str
    ensures { result.now ≡ noun_of count }
{
    if count == 1 { "byte" } else { "bytes" }
}

/// Prints the line of a value as JSON, with the members `rest` and `after` for bytes. Each is left
/// out if there are none.
fn print_json<W: Write>(
    alloc: Global,
    schema: &Schema,
    at: u64,
    value: &Value,
    rest: &[u8],
    after: &[u8],
    output: &mut W,
) -> Result<(), PrintError>
    ensures printed { OnOk result (PrintsJson schema.now at value.now rest.now after.now
        (W.contents output.old) (W.contents output.new)) }
    ensures refused { IfErr result (ValueFails Notation.Json
        (W.contents output.old) (W.contents output.new)) }
{
    let text = json_of(alloc, schema, value)?;
    write!(output, "{{\"at\":{at},\"value\":{text}")?;
    print_member("rest", rest, output)?;
    print_member("after", after, output)?;
    output.write_all(b"}\n")?;
    Ok(())
}

/// Prints a member with these bytes. Prints nothing if there are none.
fn print_member<W: Write>(name: &str, bytes: &[u8], output: &mut W) -> io::Result<()>
    ensures { OnOk result (Appends (W.contents output.old) (W.contents output.new)
        (bytes_member name.now bytes.now)) }
{
    if bytes.is_empty() {
        return Ok(());
    }
    write_member(name, bytes, output)
}

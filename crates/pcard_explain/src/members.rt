//! Rows of JSON: [`print_object`], and the members of a line.

ghost use Rattle.std.specs.Prelude.{◌≡◌, IfOk, OnOk, string_bytes};
ghost use Rattle.pcard_explain.specs.{Appends, IsMembers, object_text};

use crate::told::Awaited;
use pcard_print::{PrintError, json_of, quote, write_hex};
use postcard_explain::LineKind;
use std::alloc::Global;
use std::io;
use std::io::Write;

/// Prints an object of JSON on a line: the offset, whose name is `key`, the bytes, and other members.
/// `field` is the member of the part's path, or empty.
pub(crate) fn print_object<W: Write>(
    key: &str,
    at: u64,
    bytes: &[u8],
    field: &str,
    members: &str,
    output: &mut W,
) -> io::Result<()>
    ensures { OnOk result (Appends (W.contents output.old) (W.contents output.new)
        (object_text key.now at bytes.now field.now members.now)) }
{
    write!(output, "{{\"{key}\":{at},\"bytes\":\"")?;
    write_hex(bytes, output)?;
    write!(output, "\"{field}{members}}}\n")
}

/// Returns the members that say what the bytes of a line are. Fails with `NoJson` if a value has no
/// JSON, and with `OutOfMemory` if an allocation fails.
pub(crate) fn members_of(alloc: Global, kind: &LineKind<'_>) -> Result<String, PrintError>
    ensures { IfOk result (λ members. IsMembers kind.now (string_bytes members)) }
{
    match kind {
        LineKind::Value(schema, value) => {
            let text = json_of(alloc, schema, value)?;
            Ok(format!(in alloc; ",\"value\":{text}")?)
        }
        LineKind::Absent => Ok(String::from_str(alloc, ",\"option\":\"None\"")?),
        LineKind::Present => Ok(String::from_str(alloc, ",\"option\":\"Some\"")?),
        LineKind::Count(count) => Ok(format!(in alloc; ",\"count\":{count}")?),
        LineKind::Variant(index, name) => {
            let name = quote(alloc, name)?;
            Ok(format!(in alloc; ",\"variant\":{name},\"index\":{index}")?)
        }
        LineKind::Parts => Ok(String::new(alloc)),
        LineKind::MoreElements(count) => Ok(format!(in alloc; ",\"more\":{count}")?),
        LineKind::Refused(expected) => {
            let what = Awaited(*expected);
            Ok(format!(in alloc; ",\"expected\":\"{what}\"")?)
        }
        LineKind::AfterValue => Ok(String::from_str(alloc, ",\"rest\":true")?),
    }
}

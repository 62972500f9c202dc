//! The line of a refusal: [`print_refusal`].

ghost use Rattle.std.specs.Prelude.{◌≡◌, ◌⊎◌, IfErr, OnOk};
ghost use Rattle.pcard_print.specs.{Appends, OutOfMemory, Output, RefusalFails, refusal_json};
ghost use Rattle.pcard_print.specs.{plain, refusal_line, refusal_text, shown_member, shown_text, why};

use crate::digits::{write_hex, write_member};
use crate::error::PrintError;
use crate::json_parts::field_of;
use crate::notation::Notation;
use crate::refusal::{Place, Reason, Refusal};
use std::alloc::Global;
use std::io;
use std::io::Write;

/// Prints the line of a refusal of bytes that begin at the offset `start`.
///
/// # Errors
///
/// Fails with `Output` if the output can't be written. As JSON fails with `OutOfMemory` if an
/// allocation fails, before anything is printed.
pub fn print_refusal<W: Write>(
    alloc: Global,
    notation: Notation,
    start: u64,
    refusal: &Refusal<'_>,
    output: &mut W,
) -> Result<(), PrintError>
    ensures printed { OnOk result (Appends (W.contents output.old) (W.contents output.new)
        (refusal_line notation start (why refusal.now))) }
    ensures refused { IfErr result (RefusalFails notation
        (W.contents output.old) (W.contents output.new)) }
{
    let at = start.saturating_add(refusal.offset as u64);
    match notation {
        Notation::Text => print_text(at, refusal, output)?,
        Notation::Json => print_json(alloc, at, refusal, output)?,
    }
    Ok(())
}

fn print_text<W: Write>(at: u64, refusal: &Refusal<'_>, output: &mut W) -> io::Result<()>
    ensures { OnOk result (Appends (W.contents output.old) (W.contents output.new)
        (refusal_text at (why refusal.now))) }
{
    let place = Place(&refusal.path);
    let why = refusal.reason.text();
    write!(output, "error at byte {at}: {place}{why}")?;
    print_shown(refusal.shown, output)?;
    output.write_all(b"\n")
}

fn print_shown<W: Write>(shown: Option<&[u8]>, output: &mut W) -> io::Result<()>
    ensures { OnOk result (Appends (W.contents output.old) (W.contents output.new)
        (shown_text (plain shown.entry))) }
{
    let Some(bytes) = shown else {
        return Ok(());
    };
    output.write_all(b": ")?;
    write_hex(bytes, output)
}

fn print_json<W: Write>(
    alloc: Global,
    at: u64,
    refusal: &Refusal<'_>,
    output: &mut W,
) -> Result<(), PrintError>
    ensures printed { OnOk result (Appends (W.contents output.old) (W.contents output.new)
        (refusal_json at (why refusal.now))) }
    ensures only_output_or_out_of_memory { IfErr result
        (λ e. (e ≡ Output) ⊎ ((e ≡ OutOfMemory) × (output.new ≡ output.old))) }
{
    let path = format!(in alloc; "{path}", path = &refusal.path)?;
    let field = field_of(alloc, &path)?;
    let why = refusal.reason.text();
    write!(output, "{{\"at\":{at},\"error\":\"{why}\"{field}")?;
    print_member(&refusal.reason, refusal.shown, output)?;
    output.write_all(b"}\n")?;
    Ok(())
}

fn print_member<W: Write>(reason: &Reason, shown: Option<&[u8]>, output: &mut W) -> io::Result<()>
    ensures { OnOk result (Appends (W.contents output.old) (W.contents output.new)
        (shown_member reason.now (plain shown.entry))) }
{
    match shown {
        Some(bytes) => write_member(reason.shown_name(), bytes, output),
        None => Ok(()),
    }
}

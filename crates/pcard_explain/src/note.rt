//! Rows of bytes that are no part of a value: [`Note`].

ghost use Rattle.std.specs.Prelude.{◌≡◌, ◌≢◌, OnOk, IfErr, IfOk, string_bytes};
ghost use Rattle.pcard_explain.specs.{NoJson, PrintsNote, code_text, key_text, note_members};
ghost use Rattle.pcard_explain.specs.{note_text, plain_note, zero_text};

use crate::layout::{Layout, print_row};
use crate::members::print_object;
use pcard_print::{Notation, PrintError, quote};
use std::alloc::{AllocError, Global};
use std::io::Write;

/// The meaning of bytes that are no part of a value.
#[derive(Clone, Copy)]
pub(crate) enum Note<'a> {
    /// The checksum with this name, of a message.
    Checksum(&'a str),
    /// The bytes after a message.
    After,
    /// The code byte of a group, and whether the data has a zero after the group.
    Code(u8, bool),
    /// The zero that ends a frame.
    End,
    /// The bytes after a frame.
    Beyond,
}

/// Prints the row of a note on the bytes at this offset. Fails with `Output`, or with `OutOfMemory`
/// before anything is printed.
pub(crate) fn print_note<W: Write>(
    alloc: Global,
    layout: Layout,
    at: u64,
    bytes: &[u8],
    note: Note<'_>,
    output: &mut W,
) -> Result<(), PrintError>
    ensures printed { OnOk result (PrintsNote layout at bytes.now (plain_note note.entry)
        (W.contents output.old) (W.contents output.new)) }
    ensures not_no_json { IfErr result (λ e. e ≢ NoJson) }
{
    match layout.notation {
        Notation::Text => {
            let text = text_of(alloc, note)?;
            print_row(layout, at, 0, bytes, &text, output)?;
        }
        Notation::Json => {
            let members = members_of(alloc, note)?;
            print_object(key_of(note), at, bytes, "", &members, output)?;
        }
    }
    Ok(())
}

/// Returns what a row of text says.
fn text_of(alloc: Global, note: Note<'_>) -> Result<String, AllocError>
    ensures { IfOk result (λ text. string_bytes text ≡ note_text (plain_note note.entry)) }
{
    match note {
        Note::Checksum(name) => Ok(format!(in alloc; "checksum: {name}")?),
        Note::After => String::from_str(alloc, "after the value"),
        Note::Code(code, zero) => code_text(alloc, code, zero),
        Note::End => String::from_str(alloc, "end of the frame"),
        Note::Beyond => String::from_str(alloc, "after the frame"),
    }
}

/// Returns the text of a code byte: its group, and the zero after it if there is one.
fn code_text(alloc: Global, code: u8, zero: bool) -> Result<String, AllocError>
    ensures { IfOk result (λ text. string_bytes text ≡ code_text code zero) }
{
    let end = zero_text(zero);
    match code.saturating_sub(1) {
        0 => Ok(format!(in alloc; "code: no bytes{end}")?),
        1 => Ok(format!(in alloc; "code: 1 byte{end}")?),
        count => Ok(format!(in alloc; "code: {count} bytes{end}")?),
    }
}

fn zero_text(zero: bool) -> &'static str
    ensures { result.now ≡ zero_text zero }
{
    if zero { ", then a zero" } else { "" }
}

/// Returns the members of a row of JSON.
fn members_of(alloc: Global, note: Note<'_>) -> Result<String, AllocError>
    ensures { IfOk result (λ members. string_bytes members
        ≡ note_members (plain_note note.entry)) }
{
    match note {
        Note::Checksum(name) => {
            let name = quote(alloc, name)?;
            Ok(format!(in alloc; ",\"checksum\":{name}")?)
        }
        Note::After => String::from_str(alloc, ",\"rest\":true"),
        Note::Code(code, zero) => Ok(format!(in alloc; ",\"code\":{code},\"zero\":{zero}")?),
        Note::End => String::from_str(alloc, ",\"end\":true"),
        Note::Beyond => String::from_str(alloc, ",\"after\":true"),
    }
}

/// Returns the name of the member with the offset.
fn key_of(note: Note<'_>) -> &'static str
    ensures { result.now ≡ key_text (plain_note note.entry) }
{
    match note {
        Note::Checksum(_) | Note::After => "at",
        Note::Code(_, _) | Note::End | Note::Beyond => "frame",
    }
}

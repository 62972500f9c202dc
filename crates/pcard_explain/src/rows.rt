//! The rows of an explanation: [`print_rows`].

ghost use Rattle.std.specs.Prelude.{◌≡◌, ◌≢◌, [], IfErr, IfOk, OnOk, length, option_map};
ghost use Rattle.pcard_explain.specs.{IsSplit, Json, NoJson, PrintsLine, PrintsLines, PrintsNotes};
ghost use Rattle.pcard_explain.specs.{PrintsRows, after_notes, bytes_of, offset, path_text};
ghost use Rattle.pcard_explain.specs.{plain_trailer, rest_notes};

use crate::layout::{Layout, layout_of, print_row};
use crate::members::{members_of, print_object};
use crate::note::{Note, print_note};
use crate::place::Place;
use crate::told::Told;
use pcard_print::{Notation, PrintError, field_of};
use postcard_explain::{Line, LineKind};
use postcard_schema::Path;
use std::alloc::Global;
use std::io::Write;

/// The most elements of a list that have rows of their own, in rows of text that may be cut.
pub const ELEMENTS: u64 = 16;

/// The checksum after a message.
#[derive(Clone, Copy, Debug)]
pub struct Trailer<'a> {
    /// The name of the checksum.
    pub name: &'a str,
    /// The number of its bytes.
    pub size: usize,
}

/// Prints the rows of an explanation, one for each line of the value. If there is a trailer, a row
/// for the checksum follows. It is shorter if the bytes end within the checksum. If bytes remain, a
/// row for them follows.
///
/// A row of text has at most 80 columns and at most 8 bytes. What is cut ends with `..`. With `all`
/// nothing is cut, and no row of JSON is cut.
///
/// # Errors
///
/// Fails with `Output` if the output can't be written, with `OutOfMemory` if an allocation fails,
/// and with `NoJson` if a value has no JSON. The rows before the one that fails are printed.
pub fn print_rows<W: Write>(
    alloc: Global,
    notation: Notation,
    all: bool,
    lines: &[Line<'_>],
    trailer: Option<Trailer<'_>>,
    output: &mut W,
) -> Result<(), PrintError>
    ensures printed { OnOk result (PrintsRows notation all (option_map plain_trailer trailer.entry)
        lines.now (W.contents output.old) (W.contents output.new)) }
    ensures no_json_only_as_json { IfErr result (λ e. e ≡ NoJson → notation ≡ Json) }
{
    let layout = layout_of(notation, all, lines);
    let (value, after) = split_after(lines);
    let at = print_lines(alloc, layout, value, output)?;
    print_rest(alloc, layout, at, trailer, after, output)
}

/// Returns the lines of the value, and the bytes after it. If there are such bytes, they have the
/// last line.
fn split_after<'a, 'b>(lines: &'a [Line<'b>]) -> (&'a [Line<'b>], &'b [u8])
    ensures { IsSplit lines.now result.0.now result.1.now }
{
    match lines.split_last() {
        Some((last, value)) if matches!(&last.kind, LineKind::AfterValue) => (value, last.bytes),
        _ => (lines, &[]),
    }
}

/// Prints the rows of the lines of a value. Returns the offset after them.
fn print_lines<W: Write>(
    alloc: Global,
    layout: Layout,
    lines: &[Line<'_>],
    output: &mut W,
) -> Result<u64, PrintError>
    ensures printed { OnOk result (PrintsLines layout 0 [] lines.now
        (W.contents output.old) (W.contents output.new)) }
    ensures counted { IfOk result (λ at. at ≡ offset (length (bytes_of lines.now))) }
    ensures no_json_only_as_json { IfErr result (λ e. e ≡ NoJson → layout.notation ≡ Json) }
{
    let mut place = Place::start(alloc);
    let mut at = 0u64;
    for line in lines {
        place.reach(line)?;
        print_line(alloc, layout, at, &place.path, line, output)?;
        place.enter(line)?;
        at = at.saturating_add(line.bytes.len() as u64);
    }
    Ok(at)
}

/// Prints the row of a line with this path, whose bytes begin at this offset. Allocations come
/// first: if one fails, nothing of the row is printed.
fn print_line<W: Write>(
    alloc: Global,
    layout: Layout,
    at: u64,
    path: &Path<'_>,
    line: &Line<'_>,
    output: &mut W,
) -> Result<(), PrintError>
    ensures printed { OnOk result (PrintsLine layout at (path_text path.now.steps.items) line.now
        (W.contents output.old) (W.contents output.new)) }
    ensures no_json_only_as_json { IfErr result (λ e. e ≡ NoJson → layout.notation ≡ Json) }
{
    match layout.notation {
        Notation::Text => {
            let told = Told(line);
            let text = format!(in alloc; "{told}")?;
            print_row(layout, at, line.depth, line.bytes, &text, output)?;
        }
        Notation::Json => {
            let path = format!(in alloc; "{path}")?;
            let field = field_of(alloc, &path)?;
            let members = members_of(alloc, &line.kind)?;
            print_object("at", at, line.bytes, &field, &members, output)?;
        }
    }
    Ok(())
}

/// Prints the row of the checksum, if there is a trailer, and that of the bytes after it.
fn print_rest<W: Write>(
    alloc: Global,
    layout: Layout,
    at: u64,
    trailer: Option<Trailer<'_>>,
    bytes: &[u8],
    output: &mut W,
) -> Result<(), PrintError>
    ensures printed { OnOk result (PrintsNotes layout
        (rest_notes (option_map plain_trailer trailer.entry) at bytes.now)
        (W.contents output.old) (W.contents output.new)) }
    ensures not_no_json { IfErr result (λ e. e ≢ NoJson) }
{
    let Some(trailer) = trailer else {
        return print_after(alloc, layout, at, bytes, output);
    };
    let (sum, rest) = bytes.split_at(trailer.size.min(bytes.len()));
    print_note(alloc, layout, at, sum, Note::Checksum(trailer.name), output)?;
    let after = at.saturating_add(sum.len() as u64);
    print_after(alloc, layout, after, rest, output)
}

/// Prints the row of the bytes after a message, if there are some.
fn print_after<W: Write>(
    alloc: Global,
    layout: Layout,
    at: u64,
    bytes: &[u8],
    output: &mut W,
) -> Result<(), PrintError>
    ensures printed { OnOk result (PrintsNotes layout (after_notes at bytes.now)
        (W.contents output.old) (W.contents output.new)) }
    ensures not_no_json { IfErr result (λ e. e ≢ NoJson) }
{
    if bytes.is_empty() {
        return Ok(());
    }
    print_note(alloc, layout, at, bytes, Note::After, output)
}

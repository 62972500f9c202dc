//! The command `explain`: [`explain`].

ghost use Rattle.std.specs.Prelude.{◌≡◌, IfErr, OnOk, option_map};
ghost use Rattle.pcard_calls.specs.{ExplainFails, Json, NoJson, PrintsExplained, PrintsFrameRows};
ghost use Rattle.pcard_calls.specs.{PrintsRowsOf, most_of, plain_trailer, trailer_after};

use pcard_bytes::Checksum;
use pcard_explain::{ELEMENTS, Trailer, print_after_frame, print_codes, print_rows};
use pcard_message::{Failure, Format, data_of, next};
use pcard_print::{Answer, Notation, PrintError, print_refusal};
use postcard_cobs::frame_len;
use postcard_explain::{Explanation, explain as explain_lines};
use postcard_wire::Error;
use std::alloc::Global;
use std::io::Write;

/// Prints which bytes of the first message or frame are which part, on a row each. For a frame, rows
/// of its code bytes and of the bytes after it come first.
///
/// # Errors
///
/// - `Refused` if there is no value, once a line that says so is printed after the rows.
/// - `Output` if the output can't be written.
/// - `Library(OutOfMemory)` if an allocation fails.
/// - `Library(WontImplement)` if a value has no JSON.
pub fn explain<W: Write>(
    alloc: Global,
    format: &Format,
    all: bool,
    bytes: &[u8],
    output: &mut W,
) -> Result<(), Failure<'static>>
    ensures printed { OnOk result (PrintsExplained format.now all bytes.now
        (W.contents output.old) (W.contents output.new)) }
    ensures refused { IfErr result (ExplainFails format.now all bytes.now
        (W.contents output.old) (W.contents output.new)) }
{
    let mut room = Vec::new(alloc);
    let (answer, _) = next(alloc, format, bytes, &mut room)?;
    if format.framed {
        print_frame(alloc, format, all, bytes, output)?;
    } else {
        print_data(alloc, format, all, bytes, output)?;
    }
    match answer {
        Answer::Value(_, _) => Ok(()),
        Answer::Refused(refusal) => {
            print_refusal(alloc, format.notation, 0, &refusal, output)?;
            Err(Failure::Refused)
        }
    }
}

/// Prints the rows of the first frame of some bytes: those of its code bytes, that of the bytes after
/// it, and those of its data. Prints none if no zero ends it, or if it is no COBS frame.
fn print_frame<W: Write>(
    alloc: Global,
    format: &Format,
    all: bool,
    bytes: &[u8],
    output: &mut W,
) -> Result<(), PrintError>
    ensures printed { OnOk result (PrintsFrameRows format.now all bytes.now
        (W.contents output.old) (W.contents output.new)) }
    ensures no_json_only_as_json { IfErr result (λ e. e ≡ NoJson → format.now.notation ≡ Json) }
{
    let end = frame_len(bytes);
    if end == bytes.len() {
        return Ok(());
    }
    let frame = &bytes[..end];
    let mut room = Vec::new(alloc);
    let Some(content) = data_of(frame, &mut room)? else {
        return Ok(());
    };
    print_codes(alloc, format.notation, frame, output)?;
    print_after_frame(alloc, format.notation, frame, &bytes[end + 1..], output)?;
    print_data(alloc, format, all, content, output)
}

/// Prints the rows of a message's data.
fn print_data<W: Write>(
    alloc: Global,
    format: &Format,
    all: bool,
    content: &[u8],
    output: &mut W,
) -> Result<(), PrintError>
    ensures printed { OnOk result (PrintsRowsOf format.now all content.now
        (W.contents output.old) (W.contents output.new)) }
    ensures no_json_only_as_json { IfErr result (λ e. e ≡ NoJson → format.now.notation ≡ Json) }
{
    let most = most_of(format.notation, all);
    let Ok(Explanation { lines, refused }) = explain_lines(alloc, &format.schema, most, content)
    else {
        return Err(PrintError::OutOfMemory);
    };
    let trailer = trailer_after(format.checksum, &refused);
    print_rows(alloc, format.notation, all, &lines, trailer, output)
}

/// Returns the most elements of a list that have rows of their own.
fn most_of(notation: Notation, all: bool) -> u64
    ensures { result ≡ most_of notation all }
{
    match notation {
        Notation::Text if !all => ELEMENTS,
        _ => u64::MAX,
    }
}

/// Returns the checksum that has a row after a value, if there is one and the value is read.
fn trailer_after(checksum: Option<Checksum>, refused: &Option<Error>) -> Option<Trailer<'static>>
    ensures { option_map plain_trailer result ≡ trailer_after checksum refused.now }
{
    match (checksum, refused) {
        (Some(checksum), None) => Some(Trailer {
            name: checksum.name(),
            size: checksum.trailer_size(),
        }),
        _ => None,
    }
}

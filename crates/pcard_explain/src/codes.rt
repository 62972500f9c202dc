//! The code bytes of a frame: [`print_codes`].

ghost use Rattle.std.specs.Prelude.{◌≡◌, ◌≢◌, ◌+◌, OnOk, IfErr, length};
ghost use Rattle.pcard_explain.specs.{NoJson, PrintsNotes, beyond_notes, frame_layout, frame_notes};
ghost use Rattle.pcard_explain.specs.{has_zero};

use crate::layout::{Layout, offset_size};
use crate::note::{Note, print_note};
use pcard_print::{Notation, PrintError};
use std::alloc::Global;
use std::io::Write;

/// Prints a row for each code byte of a frame, and for the zero that ends it. `frame` is the frame
/// without that zero. A row has its offset in the frame.
///
/// # Errors
///
/// Fails with `Output` if the output can't be written, and with `OutOfMemory` if an allocation
/// fails. The rows before the one that fails are printed.
pub fn print_codes<W: Write>(
    alloc: Global,
    notation: Notation,
    frame: &[u8],
    output: &mut W,
) -> Result<(), PrintError>
    ensures printed { OnOk result (PrintsNotes (frame_layout notation frame.now)
        (frame_notes 0 0 frame.now) (W.contents output.old) (W.contents output.new)) }
    ensures not_no_json { IfErr result (λ e. e ≢ NoJson) }
{
    let layout = layout_of(notation, frame);
    let mut left = 0usize;
    for (at, byte) in frame.iter().enumerate() {
        if left > 0 {
            left -= 1;
            continue;
        }
        left = usize::from(byte.saturating_sub(1));
        let zero = has_zero(*byte, frame.len() - at - 1);
        let note = Note::Code(*byte, zero);
        print_note(alloc, layout, at as u64, &[*byte], note, output)?;
    }
    print_note(alloc, layout, frame.len() as u64, &[0], Note::End, output)
}

/// Prints the row of the bytes after a frame, if there are some. `frame` is without its zero. Fails
/// as [`print_codes`] does.
pub fn print_after_frame<W: Write>(
    alloc: Global,
    notation: Notation,
    frame: &[u8],
    after: &[u8],
    output: &mut W,
) -> Result<(), PrintError>
    ensures printed { OnOk result (PrintsNotes (frame_layout notation frame.now)
        (beyond_notes (length frame.now + 1) after.now)
        (W.contents output.old) (W.contents output.new)) }
    ensures not_no_json { IfErr result (λ e. e ≢ NoJson) }
{
    if after.is_empty() {
        return Ok(());
    }
    let at = (frame.len() + 1) as u64;
    print_note(
        alloc,
        layout_of(notation, frame),
        at,
        after,
        Note::Beyond,
        output,
    )
}

/// Returns the layout of the rows of a frame.
fn layout_of(notation: Notation, frame: &[u8]) -> Layout
    ensures { result ≡ frame_layout notation frame.now }
{
    Layout {
        notation,
        offset: offset_size(frame.len()),
        longest: 1,
        all: true,
    }
}

/// Returns whether the data has a zero after the group of this code byte. That is so if another
/// group follows and this one isn't full. `after` is the number of the frame's bytes after the
/// group.
fn has_zero(code: u8, after: usize) -> bool
    ensures { result ≡ has_zero code after }
{
    code < 255 && usize::from(code.saturating_sub(1)) < after
}

//! Rows of text: [`print_row`].

ghost use Rattle.std.specs.Prelude.{◌≡◌, ◌≤◌, ◌++◌, ◌∷◌, [], List, ℕ, OnOk, IfOk, false};
ghost use Rattle.std.specs.Prelude.{length, min, replicate};
ghost use Rattle.pcard_explain.specs.{Appends, IsCut, Layout, PrintsRow, blanks_of, bytes_text};
ghost use Rattle.pcard_explain.specs.{head_text, offset_size, offset_text, rows_layout, spaced};

use pcard_print::{Notation, write_hex};
use postcard_explain::Line;
use std::io;
use std::io::Write;

/// The most columns of a row that is cut.
const COLUMNS: usize = 80;

/// The most bytes on a row that is cut.
const SHOWN: usize = 8;

/// The greatest depth to which a row is indented.
const DEEPEST: usize = 12;

/// How the rows of one call are written.
#[derive(Clone, Copy)]
pub(crate) struct Layout {
    /// Whether rows are text or JSON.
    pub notation: Notation,
    /// The number of bytes of an offset.
    pub offset: usize,
    /// The number of bytes of the longest row.
    pub longest: usize,
    /// Whether nothing is cut.
    pub all: bool,
}

/// Returns the layout of the rows of lines. All offsets have the number of digits of the greatest
/// one, that after the last line.
pub(crate) fn layout_of(notation: Notation, all: bool, lines: &[Line<'_>]) -> Layout
    ensures { result ≡ rows_layout notation all lines.now }
{
    let mut count = 0usize;
    let mut longest = 0usize;
    for line in lines {
        count = count.saturating_add(line.bytes.len());
        longest = longest.max(line.bytes.len());
    }
    Layout {
        notation,
        offset: offset_size(count),
        longest,
        all,
    }
}

/// Returns the number of bytes of the offsets up to this one: 1, 2, 4 or 8.
pub(crate) fn offset_size(last: usize) -> usize
    ensures { result ≡ offset_size last }
{
    if last < 0x100 {
        1
    } else if last < 0x1_0000 {
        2
    } else if last < 0x1_0000_0000 {
        4
    } else {
        8
    }
}

/// Prints a row: the offset, the bytes, and a text that is indented by the depth. A row that may be
/// cut has at most 80 columns.
pub(crate) fn print_row<W: Write>(
    layout: Layout,
    at: u64,
    depth: usize,
    bytes: &[u8],
    text: &str,
    output: &mut W,
) -> io::Result<()>
    ensures { OnOk result (PrintsRow layout at depth bytes.now text.now
        (W.contents output.old) (W.contents output.new)) }
{
    let head = print_head(layout, at, depth, bytes, output)?;
    print_cut(layout, text, COLUMNS - head, output)
}

/// Prints the offset and the bytes of a row, and blanks up to its text. Returns the number of
/// columns, at most 70. If nothing is cut, there may be more.
fn print_head<W: Write>(
    layout: Layout,
    at: u64,
    depth: usize,
    bytes: &[u8],
    output: &mut W,
) -> io::Result<usize>
    ensures printed { OnOk result (Appends (W.contents output.old) (W.contents output.new)
        (head_text layout at depth bytes.now)) }
    ensures counted { IfOk result (λ columns. layout.all ≡ false
        → length (head_text layout at depth bytes.now) ≡ columns) }
    ensures bounded { IfOk result (λ columns. columns ≤ 70) }
{
    let digits = at.to_be_bytes();
    let (_, shown) = digits.split_at(8usize.saturating_sub(layout.offset));
    write_hex(shown, output)?;
    output.write_all(b"  ")?;
    print_bytes(layout, bytes, output)?;
    let blanks = blanks_of(layout, depth, bytes.len());
    print_blanks(blanks, output)?;
    Ok(2 * shown.len() + 2 + 3 * bytes.len().min(SHOWN + 1) + blanks)
}

/// Returns the number of blanks between `count` bytes of a row and its text.
fn blanks_of(layout: Layout, depth: usize, count: usize) -> usize
    ensures blanks { result ≡ blanks_of layout depth count }
    ensures bounded { result ≤ 52 }
{
    let column = 3 * layout.longest.min(SHOWN + 1);
    let width = 3 * count.min(SHOWN + 1);
    column.saturating_sub(width) + 1 + 2 * depth.min(DEEPEST)
}

/// Prints the bytes of a row, each with a blank after it.
fn print_bytes<W: Write>(layout: Layout, bytes: &[u8], output: &mut W) -> io::Result<()>
    ensures { OnOk result (Appends (W.contents output.old) (W.contents output.new)
        (bytes_text layout bytes.now)) }
{
    if layout.all || bytes.len() <= SHOWN {
        return print_spaced(bytes, output);
    }
    let (first, _) = bytes.split_at(SHOWN);
    print_spaced(first, output)?;
    output.write_all(b".. ")
}

fn print_spaced<W: Write>(bytes: &[u8], output: &mut W) -> io::Result<()>
    ensures { OnOk result (Appends (W.contents output.old) (W.contents output.new)
        (spaced bytes.now)) }
{
    for byte in bytes {
        write_hex(&[*byte], output)?;
        output.write_all(b" ")?;
    }
    Ok(())
}

/// Prints blanks, at most 64.
fn print_blanks<W: Write>(count: usize, output: &mut W) -> io::Result<()>
    ensures { OnOk result (Appends (W.contents output.old) (W.contents output.new)
        (replicate (min count 64) 32)) }
{
    let blanks = [b' '; 64];
    let (shown, _) = blanks.split_at(count.min(64));
    output.write_all(shown)
}

/// Prints the text of a row and ends the row. If rows may be cut, a text of more bytes than `room`
/// is cut, and ends with `..`.
fn print_cut<W: Write>(layout: Layout, text: &str, room: usize, output: &mut W) -> io::Result<()>
    ensures { OnOk result ((shown : List ℕ) × IsCut layout text.now shown
        × (layout.all ≡ false → 2 ≤ room → length shown ≤ room)
        × Appends (W.contents output.old) (W.contents output.new) (shown ++ 10 ∷ [])) }
{
    if layout.all || text.len() <= room {
        output.write_all(text.as_bytes())?;
        return output.write_all(b"\n");
    }
    let (first, _) = text.split_at(text.floor_char_boundary(room.saturating_sub(2)));
    output.write_all(first.as_bytes())?;
    output.write_all(b"..\n")
}

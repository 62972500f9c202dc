//! Bytes as hexadecimal digits: [`write_hex`].

ghost use Rattle.std.specs.Prelude.{◌≤◌, length, OnOk};
ghost use Rattle.pcard_print.specs.{Appends, encode_lower, hex_member};

use std::io;
use std::io::Write;

/// The most bytes that are written at once.
const PIECE: usize = 64;

/// Writes the bytes as lower-case digits, two a byte, the high one first. Nothing is allocated.
///
/// # Errors
///
/// Fails if the output can't be written.
pub fn write_hex<W: Write>(bytes: &[u8], output: &mut W) -> io::Result<()>
    ensures { OnOk result (Appends (W.contents output.old) (W.contents output.new)
        (encode_lower bytes.now)) }
{
    let mut rest = bytes;
    'pieces: while !rest.is_empty() {
        let (piece, after) = rest.split_at(rest.len().min(PIECE));
        write_piece(piece, output)?;
        rest = after;
    }
    Ok(())
}

/// Writes the digits of at most [`PIECE`] bytes at once.
fn write_piece<W: Write>(piece: &[u8], output: &mut W) -> io::Result<()>
    requires { length piece.now ≤ PIECE }
    ensures { OnOk result (Appends (W.contents output.old) (W.contents output.new)
        (encode_lower piece.now)) }
{
    let mut room = [0; 2 * PIECE];
    let digits = &mut room[..2 * piece.len()];
    hex::encode_to_slice(piece, digits).unwrap();
    output.write_all(digits)
}

/// Writes a member of an object of JSON, after the comma before it: its name, and bytes as
/// hexadecimal digits.
pub(crate) fn write_member<W: Write>(name: &str, bytes: &[u8], output: &mut W) -> io::Result<()>
    ensures { OnOk result (Appends (W.contents output.old) (W.contents output.new)
        (hex_member name.now bytes.now)) }
{
    write!(output, ",\"{name}\":\"")?;
    write_hex(bytes, output)?;
    output.write_all(b"\"")
}

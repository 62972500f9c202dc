//! Encoding a value: [`encode`].

ghost use Rattle.std.specs.Prelude.{◌≡◌, ◌<◌, IfErr, IfOk, OnOk, length};
ghost use Rattle.pcard_message.specs.{Appends, EncodeFails, HasDistinctNames, IsBody, IsMade};
ghost use Rattle.pcard_message.specs.{IsValueOf, PrintsEncoded, ValueFails, canonical, layout_of};
ghost use Rattle.pcard_message.specs.{tree, written};

use crate::failure::Failure;
use crate::format::Format;
use arrayvec::ArrayVec;
use pcard_bytes::Checksum;
use pcard_print::{Notation, write_hex};
use postcard_ser_cobs::Cobs;
use postcard_ser_flavors::{Flavor, HVec};
use postcard_value::{Value, to_flavor};
use postcard_value_json_read::{JsonTextError, read_json};
use postcard_value_text::{TextError, read_text};
use postcard_wire::{Error, Result as WireResult};
use std::alloc::Global;
use std::io;
use std::io::Write;

/// The greatest size in bytes of an encoding.
const ENCODING: usize = 4096;

/// The greatest size in bytes of an encoding and its checksum.
const BODY: usize = ENCODING + 16;

/// The greatest size in bytes of a frame, its zero included.
const FRAME: usize = BODY + BODY / 254 + 2;

/// Encodes the value of a text, and prints its message. The format says whether a checksum follows
/// the encoding, and whether both are in a frame. It is printed as a line of hexadecimal digits.
/// With `raw` it is printed as bytes alone.
///
/// # Errors
///
/// Fails as [`value_of`] does. Fails with `Library(SerializeBufferFull)` if the encoding has more
/// than 4,096 bytes, and with `Output` if the output can't be written.
pub fn encode<'a, W: Write>(
    alloc: Global,
    format: &'a Format,
    raw: bool,
    text: &str,
    output: &mut W,
) -> Result<(), Failure<'a>>
    requires { HasDistinctNames (layout_of format.now.schema) }
    ensures printed { OnOk result (PrintsEncoded format.now raw text.now
        (W.contents output.old) (W.contents output.new)) }
    ensures refused { IfErr result (EncodeFails format.now text.now) }
{
    let value = value_of(alloc, format, text)?;
    let body = body_of(format.checksum, &value)?;
    if format.framed {
        print_bytes(raw, &frame_of(&body), output)?;
    } else {
        print_bytes(raw, &body, output)?;
    }
    Ok(())
}

/// Returns the value of a text. The text is JSON if that is the format's notation.
///
/// # Errors
///
/// Fails with `BadText` or `BadJson` if the text is no value of the format's type, and with
/// `Library(OutOfMemory)`.
pub fn value_of<'a>(alloc: Global, format: &'a Format, text: &str) -> Result<Value, Failure<'a>>
    requires { HasDistinctNames (layout_of format.now.schema) }
    ensures value { IfOk result (IsValueOf format.now text.now) }
    ensures refused { IfErr result (ValueFails format.now text.now) }
{
    match format.notation {
        Notation::Text => match read_text(alloc, &format.schema, text) {
            Ok(value) => Ok(value),
            Err(
                TextError::NotAValue {
                    character,
                    expected,
                },
            ) => Err(Failure::BadText {
                character,
                expected,
            }),
            Err(TextError::OutOfMemory) => Err(Failure::Library(Error::OutOfMemory)),
        },
        Notation::Json => match read_json(alloc, &format.schema, text) {
            Ok(value) => Ok(value),
            Err(
                JsonTextError::NotAValue {
                    character,
                    path,
                    expected,
                },
            ) => Err(Failure::BadJson {
                character,
                path,
                expected,
            }),
            Err(JsonTextError::OutOfMemory) => Err(Failure::Library(Error::OutOfMemory)),
        },
    }
}

/// Returns the encoding of a value, followed by its checksum.
fn body_of(checksum: Option<Checksum>, value: &Value) -> WireResult<ArrayVec<u8, BODY>>
    ensures body { IfOk result
        (λ body. IsBody checksum (canonical (tree value.now)) body.items) }
    ensures refused { IfErr result (λ e. (e ≡ Error.SerializeBufferFull)
        × (ENCODING < length (canonical (tree value.now)))) }
{
    let mut body = to_flavor(value, HVec::<BODY>::new())?;
    if body.len() > ENCODING {
        return Err(Error::SerializeBufferFull);
    }
    if let Some(checksum) = checksum {
        let trailer = checksum.trailer(&body);
        body.try_extend_from_slice(&trailer).unwrap();
    }
    Ok(body)
}

/// Returns the frame of some bytes, its zero included.
fn frame_of(body: &ArrayVec<u8, BODY>) -> ArrayVec<u8, FRAME>
    ensures { IsMade body.now.items result.items }
{
    let mut frame = Cobs::try_new(HVec::<FRAME>::new()).unwrap();
    frame.try_extend(body).unwrap();
    frame.finalize().unwrap()
}

/// Prints bytes as a line of hexadecimal digits, or with `raw` as bytes alone.
fn print_bytes<W: Write>(raw: bool, bytes: &[u8], output: &mut W) -> io::Result<()>
    ensures { OnOk result (Appends (W.contents output.old) (W.contents output.new)
        (written raw bytes.now)) }
{
    if raw {
        return output.write_all(bytes);
    }
    write_hex(bytes, output)?;
    output.write_all(b"\n")
}

//! The numbers by which C knows the errors: a status is 0 for success, or the number of an error
//! (`specs/Status.antt`). Both static libraries, `postcard_c` and `postcard_c_text`, return them;
//! `c/postcard.h` has their names. The last two stand for no [`Error`].

ghost use Rattle.std.specs.Prelude.{◌≡◌, ◌<◌};
ghost use Rattle.postcard_wire.specs.{number_of};

use crate::error::Error;

/// There is no room for what was to be written.
pub const BUFFER_FULL: u32 = 2;
/// The bytes end before the value does.
pub const UNEXPECTED_END: u32 = 4;
/// A number is no Unicode scalar value.
pub const BAD_CHAR: u32 = 7;
/// The bytes of a text are not UTF-8.
pub const BAD_UTF8: u32 = 8;
/// The first byte of an option is neither 0 nor 1.
pub const BAD_OPTION: u32 = 9;
/// The bytes are no COBS frame.
pub const BAD_FRAME: u32 = 11;
/// The bytes after a message are not its checksum.
pub const BAD_CRC: u32 = 12;
/// An allocation failed.
pub const OUT_OF_MEMORY: u32 = 16;
/// A text is no type expression.
pub const BAD_TYPE: u32 = 17;
/// A text is no value of a type.
pub const BAD_TEXT: u32 = 18;

/// Returns the number by which C knows an error: its place in the list of errors, counted from 0.
/// The first error, which no call for C returns, has the number of the second, since 0 is
/// success.
pub fn status_of(error: &Error) -> u32
    ensures number { result ≡ number_of error.now }
    ensures is_failure { 0 < result }
{
    match error {
        Error::WontImplement | Error::NotYetImplemented => 1,
        Error::SerializeBufferFull => BUFFER_FULL,
        Error::SerializeSeqLengthUnknown => 3,
        Error::DeserializeUnexpectedEnd => UNEXPECTED_END,
        Error::DeserializeBadVarint => 5,
        Error::DeserializeBadBool => 6,
        Error::DeserializeBadChar => BAD_CHAR,
        Error::DeserializeBadUtf8 => BAD_UTF8,
        Error::DeserializeBadOption => BAD_OPTION,
        Error::DeserializeBadEnum => 10,
        Error::DeserializeBadEncoding => BAD_FRAME,
        Error::DeserializeBadCrc => BAD_CRC,
        Error::SerdeSerCustom => 13,
        Error::SerdeDeCustom => 14,
        Error::CollectStrError => 15,
        Error::OutOfMemory => OUT_OF_MEMORY,
    }
}

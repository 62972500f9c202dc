//! The errors of both directions.

ghost use Rattle.std.specs.Prelude.{◌≡◌, Some};
ghost use Rattle.postcard_wire.specs.{OutOfMemory, error_text};

use std::alloc::{AllocError, AllocFailed};
use std::fmt::Display;
use std::{error, fmt};

/// Why a value was not written or not read: the errors of postcard 1.1.3, and then
/// [`Error::OutOfMemory`], which is this port's own.
///
/// An error doesn't say where in the bytes or in which part of a value it arose. `Display` prints
/// the texts of postcard 1.1.3.
#[derive(Clone, Debug, Drop, PartialEq, Eq)]
pub enum Error {
    /// A call that the format can't serve, since a message doesn't say of which type it is: reading
    /// a value of any type, an identifier, or a value to be ignored. Nothing was read.
    WontImplement,
    /// Never returned; it is there so that a `match` can name it.
    NotYetImplemented,
    /// A writing flavor refused bytes: it has no room left, an allocation or its writer failed, or
    /// its count of bytes would exceed `usize::MAX`.
    SerializeBufferFull,
    /// A list or a map was begun without a length. Nothing was written.
    SerializeSeqLengthUnknown,
    /// The bytes end before the value does. Over a reader also: the reader failed, or the scratch
    /// buffer is too short for the bytes to be borrowed from it.
    DeserializeUnexpectedEnd,
    /// A varint has its full length, 3, 5, 10 or 19 bytes for 16, 32, 64 or 128 bits, and its last
    /// byte says that another follows or exceeds the width. Also for a variant's index above 32
    /// bits.
    DeserializeBadVarint,
    /// The byte of a `bool` is neither 0 nor 1.
    DeserializeBadBool,
    /// The text of a `char` has a length of more than four bytes, is not UTF-8, or is empty.
    DeserializeBadChar,
    /// The bytes of a text are not UTF-8.
    DeserializeBadUtf8,
    /// The first byte of an option is neither 0 nor 1.
    DeserializeBadOption,
    /// Never returned: see [`Error::DeserializeBadVarint`].
    DeserializeBadEnum,
    /// A frame is empty, or one of its groups runs past its end. Also: a call with a checksum that
    /// reads a whole message finds bytes after the checksum.
    DeserializeBadEncoding,
    /// The checksum after a message is not that of the message.
    DeserializeBadCrc,
    /// A value refuses itself when it is written, as one of your own types may (see
    /// [`Error::ser_custom`]).
    SerdeSerCustom,
    /// The bytes encode no value of the type: an unknown variant, a zero for a type without one, a
    /// duration that is too long, more elements than the capacity. Types of your own may return it,
    /// too (see [`Error::de_custom`]).
    SerdeDeCustom,
    /// A value that is written as its `Display` text can't be written. Formatting it fails, the
    /// text has more than `usize::MAX` bytes, or the flavor refuses the text after its length.
    CollectStrError,
    /// An allocation failed while a value was read. Types that don't allocate never return it.
    OutOfMemory,
}

/// A result that fails with an [`Error`].
pub type Result<T> = std::result::Result<T, Error>;

impl Error {
    /// For a value that refuses to be written. The message is not kept.
    pub fn ser_custom<M: Display + Drop>(_msg: M) -> Error
        ensures { result ≡ Error.SerdeSerCustom }
    {
        Self::SerdeSerCustom
    }

    /// For bytes that encode no value. The message is not kept.
    pub fn de_custom<M: Display + Drop>(_msg: M) -> Error
        ensures { result ≡ Error.SerdeDeCustom }
    {
        Self::SerdeDeCustom
    }
}

impl fmt::Display for Error {
    ghost output = { λ e. Some (error_text e) };

    fn fmt<W: fmt::Write>(&self, f: &mut fmt::Formatter<W>) -> fmt::Result {
        let text = match self {
            Error::WontImplement => "This is a feature that PostCard will never implement",
            Error::NotYetImplemented =>
                "This is a feature that Postcard intends to support, but does not yet",
            Error::SerializeBufferFull => "The serialize buffer is full",
            Error::SerializeSeqLengthUnknown => "The length of a sequence must be known",
            Error::DeserializeUnexpectedEnd => "Hit the end of buffer, expected more data",
            Error::DeserializeBadVarint =>
                "Found a varint that didn't terminate. Is the usize too big for this platform?",
            Error::DeserializeBadBool => "Found a bool that wasn't 0 or 1",
            Error::DeserializeBadChar => "Found an invalid unicode char",
            Error::DeserializeBadUtf8 => "Tried to parse invalid utf-8",
            Error::DeserializeBadOption => "Found an Option discriminant that wasn't 0 or 1",
            Error::DeserializeBadEnum => "Found an enum discriminant that was > u32::max_value()",
            Error::DeserializeBadEncoding => "The original data was not well encoded",
            Error::DeserializeBadCrc => "Bad CRC while deserializing",
            Error::SerdeSerCustom => "Serde Serialization Error",
            Error::SerdeDeCustom => "Serde Deserialization Error",
            Error::CollectStrError => "Error while processing `collect_str` during serialization",
            Error::OutOfMemory => "Out of memory",
        };
        f.write_str(text)
    }
}

impl error::Error for Error {}

/// For `?` after a call that allocates, as in `String::from_str(alloc, text)?`.
impl From<AllocError> for Error {
    ghost from_gives = { λ _ e. e ≡ OutOfMemory };

    fn from(_error: AllocError) -> Error {
        Error::OutOfMemory
    }
}

/// The same where the value that was to be stored is handed back, which is dropped, as in
/// `items.push(item)?`.
impl<T: Drop> From<AllocFailed<T>> for Error {
    ghost from_gives = { λ _ e. e ≡ OutOfMemory };

    fn from(_error: AllocFailed<T>) -> Error {
        Error::OutOfMemory
    }
}

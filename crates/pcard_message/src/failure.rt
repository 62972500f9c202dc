//! Why a call fails: [`Failure`].

ghost use Rattle.std.specs.Prelude.{◌≡◌, Some};
ghost use Rattle.pcard_message.specs.{Library, Output};
ghost use Rattle.pcard_message.specs.{MemoryLacks, failure_of_input, failure_of_print};
ghost use Rattle.pcard_message.specs.{failure_status, failure_text, hint_text};

use pcard_bytes::InputError;
use pcard_print::PrintError;
use postcard_schema_text::{ExpressionError, Problem};
use postcard_value_json_read::Expected as JsonExpected;
use postcard_value_text::Expected;
use postcard_wire::Error;
use std::alloc::{AllocError, AllocFailed};
use std::{fmt, io};

/// Why a call fails. It is printed as the last line of the call.
#[derive(Debug, Drop)]
pub enum Failure<'a> {
    /// The arguments are invalid.
    Usage,
    /// TYPE is a misspelled expression.
    BadType(ExpressionError),
    /// Messages of TYPE have no bytes, so that `decs` can't count them.
    NoBytes,
    /// VALUE is no value of a type that has a name.
    BadValue,
    /// VALUE is no value of the type that an expression describes.
    BadText {
        /// The place, counted from 1, where it stops being one.
        character: usize,
        /// What is expected there.
        expected: Expected<'a>,
    },
    /// VALUE is no JSON of a value of the type that an expression describes.
    BadJson {
        /// The place, counted from 1, where it stops being JSON, or else where the first part
        /// begins that is no value.
        character: usize,
        /// The path to that part. Empty for the whole.
        path: String,
        /// What is expected there.
        expected: JsonExpected,
    },
    /// HEX is not an even number of hexadecimal digits, for a type that has a name.
    BadHex,
    /// HEX is no text of hexadecimal digits, since the character with this number, counted from 1,
    /// is wrong.
    BadHexAt(usize),
    /// No checksum has this name.
    UnknownChecksum(&'a str),
    /// The library fails to encode or decode a value, or an allocation fails. Allocations of
    /// `frames` have [`OutOfMemory`](Failure::OutOfMemory) instead.
    Library(Error),
    /// The bytes are refused, and a line that says so is printed.
    Refused,
    /// The output can't be written.
    Output,
    /// The input doesn't end within the greatest number of reads.
    Limit,
    /// A read of the input fails.
    ReadFailed,
    /// An allocation fails while `frames` reads its frames.
    OutOfMemory,
}

impl Failure<'_> {
    /// Returns the exit status of this failure, 1 to 3.
    pub fn status(&self) -> u8
        ensures { result ≡ failure_status self.now }
    {
        match self {
            Failure::Library(_) | Failure::Refused => 1,
            Failure::Usage | Failure::BadType(_) | Failure::NoBytes | Failure::BadValue => 2,
            Failure::BadText { .. } | Failure::BadJson { .. } | Failure::BadHex => 2,
            Failure::BadHexAt(_) | Failure::UnknownChecksum(_) => 2,
            Failure::Output | Failure::Limit | Failure::ReadFailed | Failure::OutOfMemory => 3,
        }
    }
}

impl fmt::Display for Failure<'_> {
    ghost output = { λ failure. Some (failure_text failure) };

    fn fmt<W: fmt::Write>(&self, f: &mut fmt::Formatter<W>) -> fmt::Result {
        match self {
            Failure::Usage => f.write_str("usage: pcard enc TYPE VALUE, dec TYPE HEX, frames"),
            Failure::BadType(error) => {
                let hint = hint_of(error.problem);
                write!(f, "{error}{hint}: bad type")
            }
            Failure::NoBytes => f.write_str("messages of this type have no bytes: bad type"),
            Failure::BadValue => f.write_str("bad value"),
            Failure::BadText {
                character,
                expected,
            } => write!(
                f,
                "at character {character}: expected {expected}: bad value"
            ),
            Failure::BadJson {
                character,
                path,
                expected,
            } if path.is_empty() => write!(f, "at character {character}: {expected}: bad value"),
            Failure::BadJson {
                character,
                path,
                expected,
            } => write!(f, "at character {character}: {path}: {expected}: bad value"),
            Failure::BadHex => f.write_str("bad hex"),
            Failure::BadHexAt(character) => {
                write!(
                    f,
                    "at character {character}: expected two hex digits: bad hex"
                )
            }
            Failure::UnknownChecksum(name) => {
                write!(f, "{name}: unknown checksum, pcard crc lists them")
            }
            Failure::Library(error) => error.fmt(f),
            Failure::Refused => Ok(()),
            Failure::Output => f.write_str("the output could not be written"),
            Failure::Limit => f.write_str("limit"),
            Failure::ReadFailed => f.write_str("read failed"),
            Failure::OutOfMemory => f.write_str("out of memory"),
        }
    }
}

/// Returns a hint to print after a problem of a type expression, or nothing if the problem already
/// says what is expected.
fn hint_of(problem: Problem) -> &'static str
    ensures { result.now ≡ hint_text problem }
{
    match problem {
        Problem::UnknownType => {
            ", pcard types lists them, and a variant alone has a `|` before it"
        }
        _ => "",
    }
}

impl From<Error> for Failure<'_> {
    ghost from_gives = { λ error failure. failure ≡ Library error };

    fn from(error: Error) -> Self {
        Failure::Library(error)
    }
}

impl From<AllocError> for Failure<'_> {
    ghost from_gives = { λ _ failure. failure ≡ Library MemoryLacks };

    fn from(_error: AllocError) -> Self {
        Failure::Library(Error::OutOfMemory)
    }
}

impl<T: Drop> From<AllocFailed<T>> for Failure<'_> {
    ghost from_gives = { λ _ failure. failure ≡ Library MemoryLacks };

    fn from(_error: AllocFailed<T>) -> Self {
        Failure::Library(Error::OutOfMemory)
    }
}

impl From<io::Error> for Failure<'_> {
    ghost from_gives = { λ _ failure. failure ≡ Output };

    fn from(_error: io::Error) -> Self {
        Failure::Output
    }
}

impl From<InputError> for Failure<'_> {
    ghost from_gives = { λ error failure. failure ≡ failure_of_input error };

    fn from(error: InputError) -> Self {
        match error {
            InputError::BadHex(character) => Failure::BadHexAt(character),
            InputError::ReadFailed => Failure::ReadFailed,
            InputError::Limit => Failure::Limit,
            InputError::OutOfMemory => Failure::Library(Error::OutOfMemory),
        }
    }
}

impl From<PrintError> for Failure<'_> {
    ghost from_gives = { λ error failure. failure ≡ failure_of_print error };

    fn from(error: PrintError) -> Self {
        match error {
            PrintError::Output => Failure::Output,
            PrintError::OutOfMemory => Failure::Library(Error::OutOfMemory),
            PrintError::NoJson => Failure::Library(Error::WontImplement),
        }
    }
}

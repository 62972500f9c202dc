//! Errors of reading a value from its text, and the place of an error.

ghost use Rattle.std.specs.Prelude.{◌≡◌, length, Some};
ghost use Rattle.postcard_value_text.specs.{IsPlaceIn, value_error_text};

use crate::expected::Expected;
use postcard_schema_text::scan::character_of;
use std::fmt;

/// The error of reading a value from a text. It is printed as ``bad value at character 5: expected
/// field `label` ``.
#[derive(Clone, Copy, Debug, PartialEq, Eq)]
pub enum TextError<'a> {
    /// The text is no value of the schema.
    NotAValue {
        /// The place, counted from 1, where it stops being one. At the end of the text it is the
        /// number of characters plus 1.
        character: usize,
        /// What is expected there.
        expected: Expected<'a>,
    },
    /// An allocation failed.
    OutOfMemory,
}

impl fmt::Display for TextError<'_> {
    ghost output = { λ e. Some (value_error_text e) };

    fn fmt<W: fmt::Write>(&self, f: &mut fmt::Formatter<W>) -> fmt::Result {
        match self {
            TextError::NotAValue {
                character,
                expected,
            } => write!(f, "bad value at character {character}: expected {expected}"),
            TextError::OutOfMemory => f.write_str("out of memory"),
        }
    }
}

/// The reason why reading stops.
#[derive(Clone, Copy)]
pub enum Stop<'a> {
    /// The text is no value. The number of bytes from the place of the error to the end of the
    /// text, and what is expected there.
    At(usize, Expected<'a>),
    /// An allocation failed.
    Memory,
}

impl<'a> Stop<'a> {
    /// Returns `At` with the first byte of `rest` as the place, and this as what is expected there.
    pub fn here(rest: &[u8], expected: Expected<'a>) -> Stop<'a>
        ensures { result ≡ Stop.At (length rest.now) expected.entry }
    {
        Stop::At(rest.len(), expected)
    }

    /// Returns the error of reading `text`, in which this is the place of the stop.
    pub fn error_in(self, text: &str) -> TextError<'a>
        ensures place { IsPlaceIn text.now result }
        ensures memory { self.entry ≡ Stop.Memory → result ≡ TextError.OutOfMemory }
    {
        match self {
            Stop::At(left, expected) => TextError::NotAValue {
                character: character_of(text.as_bytes(), left),
                expected,
            },
            Stop::Memory => TextError::OutOfMemory,
        }
    }
}

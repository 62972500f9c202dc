//! The errors of the table's rows, which `main` prints.

use std::alloc::{AllocError, AllocFailed};
use std::fmt;

/// The reason for which a line is not a row.
#[derive(Clone, Copy)]
pub enum Reason {
    /// It is not `TYPE: BYTES MARK TEXT`.
    Form,
    /// The bytes are not hexadecimal digits, two for each byte.
    Bytes,
    /// There is another word where the mark should be.
    Mark,
    /// The type is unknown.
    Type,
    /// A type that borrows from its bytes has only rows with `=` and `error`.
    Borrows,
    /// The type has no greatest size.
    NoSize,
}

impl fmt::Display for Reason {
    fn fmt<W: fmt::Write>(&self, f: &mut fmt::Formatter<W>) -> fmt::Result {
        f.write_str(match self {
            Reason::Form => "it has not the form TYPE: BYTES MARK TEXT",
            Reason::Bytes => "its bytes are not hexadecimal digits, two for each byte",
            Reason::Mark => "its mark is none of =, reads, greatest and error",
            Reason::Type => "its type is unknown",
            Reason::Borrows => "a type that borrows has only rows with = and error",
            Reason::NoSize => "its type has no greatest size",
        })
    }
}

/// An error of a line of the table.
#[derive(Drop)]
pub enum RowError {
    /// The line is not a row.
    NotARow(Reason),
    /// A call has another result than the row says.
    Other {
        /// What was called.
        call: String,
        /// The result that the row says.
        want: String,
        /// The result.
        got: String,
    },
    /// The row must fail, and it passes.
    Passes,
    /// An allocation failed.
    OutOfMemory,
}

impl fmt::Display for RowError {
    fn fmt<W: fmt::Write>(&self, f: &mut fmt::Formatter<W>) -> fmt::Result {
        match self {
            RowError::NotARow(reason) => write!(f, "not a row: {reason}"),
            RowError::Other { call, want, got } => write!(f, "{call}: wanted {want}, got {got}"),
            RowError::Passes => f.write_str("the row must fail, and passes"),
            RowError::OutOfMemory => f.write_str("out of memory"),
        }
    }
}

impl From<AllocError> for RowError {
    fn from(_: AllocError) -> RowError {
        RowError::OutOfMemory
    }
}

impl<T: Drop> From<AllocFailed<T>> for RowError {
    fn from(_: AllocFailed<T>) -> RowError {
        RowError::OutOfMemory
    }
}

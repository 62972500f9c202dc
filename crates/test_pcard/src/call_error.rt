//! The errors of a session's calls, which `main` prints.

use std::alloc::{AllocError, AllocFailed};
use std::fmt;

/// What is wrong with a call of a session.
#[derive(Drop)]
pub enum CallError {
    /// A quote has no end.
    Quote,
    /// The bytes after `<` are not hexadecimal digits, two for each byte.
    Input,
    /// What the call prints is no text.
    NoText,
    /// The call prints something else than what is written below it, or just that if it begins with
    /// `not`.
    Other {
        /// What is written below it.
        written: String,
        /// What it prints.
        found: String,
    },
    /// An allocation failed.
    OutOfMemory,
}

impl fmt::Display for CallError {
    fn fmt<W: fmt::Write>(&self, f: &mut fmt::Formatter<W>) -> fmt::Result {
        match self {
            CallError::Quote => f.write_str("    a quote has no end"),
            CallError::Input => f.write_str(
                "    its input is not hexadecimal digits, two for each byte",
            ),
            CallError::NoText => f.write_str("    it prints what is no text"),
            CallError::Other { written, found } => {
                write!(f, "    written:\n{written}    answered:\n{found}")
            }
            CallError::OutOfMemory => f.write_str("    out of memory"),
        }
    }
}

impl From<AllocError> for CallError {
    fn from(_: AllocError) -> CallError {
        CallError::OutOfMemory
    }
}

impl<T: Drop> From<AllocFailed<T>> for CallError {
    fn from(_: AllocFailed<T>) -> CallError {
        CallError::OutOfMemory
    }
}

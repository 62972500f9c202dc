//! Why a line isn't printed: [`PrintError`].

ghost use Rattle.std.specs.Prelude.{◌≡◌};
ghost use Rattle.pcard_print.specs.declared.error.PrintError.TheVariants.{Output, OutOfMemory};

use std::alloc::{AllocError, AllocFailed};
use std::io;

/// Why a line isn't printed. With the last two nothing of it is printed.
#[derive(Clone, Copy, Debug, PartialEq, Eq)]
pub enum PrintError {
    /// The output can't be written.
    Output,
    /// An allocation failed. Lines of text need no allocation.
    OutOfMemory,
    /// The value has no JSON.
    NoJson,
}

impl From<io::Error> for PrintError {
    ghost from_gives = { λ _ error. error ≡ Output };

    fn from(_error: io::Error) -> PrintError {
        PrintError::Output
    }
}

impl From<AllocError> for PrintError {
    ghost from_gives = { λ _ error. error ≡ OutOfMemory };

    fn from(_error: AllocError) -> PrintError {
        PrintError::OutOfMemory
    }
}

impl<T: Drop> From<AllocFailed<T>> for PrintError {
    ghost from_gives = { λ _ error. error ≡ OutOfMemory };

    fn from(_error: AllocFailed<T>) -> PrintError {
        PrintError::OutOfMemory
    }
}

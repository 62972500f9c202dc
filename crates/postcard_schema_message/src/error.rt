//! The errors of building a schema.

ghost use Rattle.std.specs.Prelude.{Some};
ghost use Rattle.postcard_schema_message.specs.{problem_text};

use std::{error, fmt};

/// Why a list of nodes gives no schema.
#[derive(Clone, Copy, Debug, PartialEq, Eq)]
pub enum Problem {
    /// No schema has these nodes: some are missing, or some are left over.
    Malformed,
    /// Types are nested more than [`MAX_DEPTH`](crate::MAX_DEPTH) levels deep.
    TooDeep,
    /// The elements of a list or an array, or the entries of a map, have no bytes. A short message
    /// could then hold any number of them.
    ElementWithoutBytes,
    /// An allocation failed.
    OutOfMemory,
}

impl fmt::Display for Problem {
    ghost output = { λ problem. Some (problem_text problem) };

    fn fmt<W: fmt::Write>(&self, f: &mut fmt::Formatter<W>) -> fmt::Result {
        f.write_str(match self {
            Problem::Malformed => "these nodes are no type",
            Problem::TooDeep => "nested too deeply",
            Problem::ElementWithoutBytes => "elements of this type have no bytes",
            Problem::OutOfMemory => "out of memory",
        })
    }
}

impl error::Error for Problem {}

//! The errors of writing the impls of a file's types.

ghost use Rattle.std.specs.Prelude.{◌≡◌, Some};
ghost use Rattle.pcard_impl.specs.{Expression, File, OutOfMemory, impl_error_text};
ghost use Rattle.pcard_impl.specs.{impl_problem_text};

use postcard_schema_text::Problem;
use postcard_source::FileProblem;
use postcard_source::error::ProblemAt;
use std::alloc::{AllocError, AllocFailed};
use std::fmt;

/// Why no impls are written. The marks are the two comment lines between which `pcard impl` writes.
#[derive(Clone, Copy, Debug, PartialEq, Eq)]
pub enum ImplProblem {
    /// The first mark is in the file, and no second one after it.
    MarkOpen,
    /// The second mark is in the file, and no first one before it.
    MarkAlone,
    /// The marks wouldn't be found again where they would be written.
    MarkLost,
    /// A declaration isn't one, or an allocation failed.
    File(FileProblem),
    /// After the name of a field, no `:` follows.
    ColonExpected,
    /// An enum has no variant, so it has no values.
    NoVariant,
    /// A struct or a variant has more than 60 fields.
    TooManyFields,
    /// A `where` follows the parameters.
    Where,
    /// A parameter is a number, `const N: usize`.
    ConstParameter,
    /// A parameter has a default.
    DefaultParameter,
    /// A bound has a lifetime.
    LifetimeBound,
    /// After a field or a variant, no comma follows.
    CommaExpected,
    /// The type is neither `Drop` nor `Copy`.
    NotDrop,
    /// `Serialize` or `Deserialize` is derived.
    SerdeDerive,
    /// An attribute of serde may change what is written.
    SerdeAttribute,
    /// A field is one of proofs alone, so the type has a rule of its own.
    GhostField,
    /// A comment is inside the type of a field.
    Comment,
    /// A field has the type that it is a part of, maybe through others.
    Recursive,
    /// A field has a type whose values aren't written and read.
    NotServed,
    /// A field borrows for no lifetime of its type, so it can't be read.
    NotRead,
    /// A field is a reference to another type than `str` and `[u8]`, so it can't be read.
    NoReference,
    /// A field has a type with a parameter and a lifetime, and holds memory.
    HoldsMemory,
}

impl fmt::Display for ImplProblem {
    ghost output = { λ problem. Some (impl_problem_text problem) };

    fn fmt<W: fmt::Write>(&self, f: &mut fmt::Formatter<W>) -> fmt::Result {
        match self {
            ImplProblem::MarkOpen => f.write_str("the second mark doesn't follow"),
            ImplProblem::MarkAlone => f.write_str("the first mark isn't before this one"),
            ImplProblem::MarkLost => f.write_str("the marks wouldn't be found again"),
            ImplProblem::File(problem) => write!(f, "{problem}"),
            ImplProblem::ColonExpected => f.write_str("expected `:`"),
            ImplProblem::NoVariant => f.write_str("an enum without variants has no values"),
            ImplProblem::TooManyFields => f.write_str("more than 60 fields"),
            ImplProblem::Where => f.write_str("write each bound at its parameter, without `where`"),
            ImplProblem::ConstParameter => f.write_str("a parameter can't be a number"),
            ImplProblem::DefaultParameter => f.write_str("a parameter can't have a default"),
            ImplProblem::LifetimeBound => f.write_str("a bound can't have a lifetime"),
            ImplProblem::CommaExpected => f.write_str("expected `,`"),
            ImplProblem::NotDrop => f.write_str("derive `Drop`, or `Copy`"),
            ImplProblem::SerdeDerive => {
                f.write_str("derive neither `Serialize` nor `Deserialize`")
            }
            ImplProblem::SerdeAttribute => {
                f.write_str("an attribute of serde may change what is written")
            }
            ImplProblem::GhostField => f.write_str("a type with a rule of its own"),
            ImplProblem::Comment => f.write_str("a comment inside a type"),
            ImplProblem::Recursive => f.write_str("this type has itself in it"),
            ImplProblem::NotServed => f.write_str("values of this type aren't written and read"),
            ImplProblem::NotRead => f.write_str("it borrows for no lifetime of its type"),
            ImplProblem::NoReference => f.write_str("only `&str` and `&[u8]` are read"),
            ImplProblem::HoldsMemory => {
                f.write_str("a type with a parameter and a lifetime holds memory here")
            }
        }
    }
}

/// Why no impls are written, and where.
///
/// It is printed as ``line 3, column 9: `cell`: values of this type aren't written and read``.
#[derive(Clone, Copy, Debug, PartialEq, Eq)]
pub struct ImplError<'a> {
    /// What is wrong.
    pub problem: ImplProblem,
    /// The line of the problem, counted from 1.
    pub line: usize,
    /// Its place in the line in characters, counted from 1.
    pub column: usize,
    /// What is wrong, as it is in the file: a field, for instance. It may be empty.
    pub what: &'a str,
}

impl fmt::Display for ImplError<'_> {
    ghost output = { λ e. Some (impl_error_text e) };

    fn fmt<W: fmt::Write>(&self, f: &mut fmt::Formatter<W>) -> fmt::Result {
        write!(f, "line {}, column {}: ", self.line, self.column)?;
        if !self.what.is_empty() {
            write!(f, "`{}`: ", self.what)?;
        }
        write!(f, "{}", self.problem)
    }
}

/// What is wrong, and where.
#[derive(Clone, Copy)]
pub struct ImplProblemAt {
    /// What is wrong.
    pub problem: ImplProblem,
    /// The number of bytes from there to the end of the file.
    pub left: usize,
    /// How many of these bytes are the text that is wrong, or 0.
    pub length: usize,
}

impl From<ProblemAt> for ImplProblemAt {
    ghost from_gives = { λ problem_at e.
        (e.problem ≡ File problem_at.problem) × (e.left ≡ problem_at.left) };

    fn from(problem_at: ProblemAt) -> ImplProblemAt {
        ImplProblemAt {
            problem: ImplProblem::File(problem_at.problem),
            left: problem_at.left,
            length: 0,
        }
    }
}

const OUT_OF_MEMORY: ImplProblemAt = ImplProblemAt {
    problem: ImplProblem::File(FileProblem::Expression(Problem::OutOfMemory)),
    left: 0,
    length: 0,
};

impl From<AllocError> for ImplProblemAt {
    ghost from_gives = { λ _ e. e.problem ≡ File (Expression OutOfMemory) };

    fn from(_error: AllocError) -> ImplProblemAt {
        OUT_OF_MEMORY
    }
}

impl<T: Drop> From<AllocFailed<T>> for ImplProblemAt {
    ghost from_gives = { λ _ e. e.problem ≡ File (Expression OutOfMemory) };

    fn from(_error: AllocFailed<T>) -> ImplProblemAt {
        OUT_OF_MEMORY
    }
}

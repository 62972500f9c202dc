//! The errors of reading a file of declarations.

ghost use Rattle.std.specs.Prelude.{◌≡◌, Some, false};
ghost use Rattle.postcard_source.specs.{file_error_text, file_problem_text, is_of_type};

use postcard_schema_text::Problem;
use std::fmt;

/// What is wrong with a file of declarations.
#[derive(Clone, Copy, Debug, PartialEq, Eq)]
pub enum FileProblem {
    /// A comment that begins with `/*` isn't closed.
    CommentOpen,
    /// A literal in quotes isn't closed.
    LiteralOpen,
    /// A character beyond ASCII is outside of comments and literals.
    AsciiExpected,
    /// A bracket isn't closed.
    BracketOpen,
    /// A bracket is closed that isn't open.
    NotOpen,
    /// The file ends inside of a declaration.
    ItemOpen,
    /// After `struct`, `enum` or `type`, no name follows.
    NameExpected,
    /// Two declarations have the same name.
    DeclaredTwice,
    /// The file has no declaration with the name that is asked for.
    NotDeclared,
    /// The declaration is generic: types in `<` and `>` follow its name.
    Generic,
    /// The type has itself in it.
    Recursive,
    /// After the name of a struct, neither `{`, `(` nor `;` follows.
    BodyExpected,
    /// After the name of an enum, no `{` follows.
    BraceExpected,
    /// After the name of a type alias, no `=` follows.
    EqualsExpected,
    /// After the type of an alias, no `;` follows.
    SemicolonExpected,
    /// With its names replaced, the type has more than 65,536 words and signs.
    TooLong,
    /// A type has a parameter that isn't supported, such as the capacity in `heapless::Vec<u8, 4>`.
    Parameter,
    /// What is wrong is found as the type is read, with its names replaced.
    Expression(Problem),
}

impl fmt::Display for FileProblem {
    ghost output = { λ problem. Some (file_problem_text problem) };

    fn fmt<W: fmt::Write>(&self, f: &mut fmt::Formatter<W>) -> fmt::Result {
        match self {
            FileProblem::CommentOpen => f.write_str("this comment isn't closed"),
            FileProblem::LiteralOpen => f.write_str("this literal isn't closed"),
            FileProblem::AsciiExpected => f.write_str("expected a character of ASCII"),
            FileProblem::BracketOpen => f.write_str("this bracket isn't closed"),
            FileProblem::NotOpen => f.write_str("no bracket is open here"),
            FileProblem::ItemOpen => f.write_str("this declaration doesn't end"),
            FileProblem::NameExpected => f.write_str("expected a name"),
            FileProblem::DeclaredTwice => f.write_str("this name was declared before"),
            FileProblem::NotDeclared => f.write_str("no declaration has the name"),
            FileProblem::Generic => f.write_str("types with parameters aren't supported"),
            FileProblem::Recursive => f.write_str("this type has itself in it"),
            FileProblem::BodyExpected => f.write_str("expected `{`, `(` or `;`"),
            FileProblem::BraceExpected => f.write_str("expected `{`"),
            FileProblem::EqualsExpected => f.write_str("expected `=`"),
            FileProblem::SemicolonExpected => f.write_str("expected `;`"),
            FileProblem::TooLong => f.write_str("this type is too long"),
            FileProblem::Parameter => {
                f.write_str("a parameter such as a capacity isn't supported")
            }
            FileProblem::Expression(problem) => write!(f, "{problem}"),
        }
    }
}

/// The error of reading a file: what is wrong, and where.
///
/// It is printed as `line 3, column 9: expected a type`.
#[derive(Clone, Copy, Debug, PartialEq, Eq)]
pub struct FileError {
    /// What is wrong.
    pub problem: FileProblem,
    /// The line of the problem, counted from 1.
    pub line: usize,
    /// Its place in the line in characters, counted from 1.
    pub column: usize,
}

impl fmt::Display for FileError {
    ghost output = { λ e. Some (file_error_text e) };

    fn fmt<W: fmt::Write>(&self, f: &mut fmt::Formatter<W>) -> fmt::Result {
        write!(
            f,
            "line {}, column {}: {}",
            self.line, self.column, self.problem
        )
    }
}

/// What is wrong, and where.
#[derive(Clone, Copy)]
pub struct ProblemAt {
    /// What is wrong.
    pub problem: FileProblem,
    /// The number of bytes from there to the end of the file.
    pub left: usize,
}

/// Returns that an allocation failed.
pub fn out_of_memory(left: usize) -> ProblemAt
    ensures { is_of_type result.problem ≡ false }
{
    ProblemAt {
        problem: FileProblem::Expression(Problem::OutOfMemory),
        left,
    }
}

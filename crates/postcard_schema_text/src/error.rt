//! The errors of reading a type expression, and of writing one.

ghost use Rattle.std.specs.Prelude.{Some};
ghost use Rattle.postcard_schema_text.specs.{expression_error_text, problem_text, text_error_text};

use std::fmt;

/// What is wrong with a type expression.
#[derive(Clone, Copy, Debug, PartialEq, Eq)]
pub enum Problem {
    /// A type is expected, and the text ends here or goes on with something else.
    TypeExpected,
    /// The word names no type, or no type that has types in `<` and `>`. Or it is the only variant of
    /// an enum, and has no `|` before it.
    UnknownType,
    /// The name of a variant is expected, which begins with a capital letter.
    VariantExpected,
    /// The name of a field is expected, which doesn't begin with a digit.
    FieldExpected,
    /// After the `'` of a lifetime its name is expected, which doesn't begin with a digit.
    LifetimeExpected,
    /// A name goes on, or begins, with a letter beyond ASCII.
    AsciiExpected,
    /// Two fields of a struct, or two variants of an enum, have the same name.
    NameTwice,
    /// After a type in a tuple, neither `,` nor `)` follows.
    CommaOrParenthesis,
    /// After a field of a struct, neither `,` nor `}` follows.
    CommaOrBrace,
    /// After the element type of a list or an array, neither `;` nor `]` follows.
    SemicolonOrBracket,
    /// After the count of an array, no `]` follows.
    BracketExpected,
    /// After the first type in the `<` of a map or a result, no `,` follows.
    CommaExpected,
    /// After the last type in a `<`, no `>` follows.
    GreaterExpected,
    /// After the name of a field, no `:` follows.
    ColonExpected,
    /// After the key type of a map, no `=>` follows.
    ArrowExpected,
    /// After the value type of a map, no `}` follows.
    BraceExpected,
    /// The count of an array is expected, as `16`, `0x10` or `1_024`.
    CountExpected,
    /// The count of an array is 2^64 or more.
    CountTooLarge,
    /// The elements of a list or an array, or the entries of a map, have no bytes.
    NoBytes,
    /// The type in the `<` of `LE` or `BE` is no number of 16 to 128 bits.
    NumberExpected,
    /// Types are nested more than 64 deep in brackets, or more than 4 `?` follow a type.
    TooDeep,
    /// The type expression is complete, and more text follows it.
    EndExpected,
    /// An allocation failed.
    OutOfMemory,
}

impl fmt::Display for Problem {
    ghost output = { λ problem. Some (problem_text problem) };

    fn fmt<W: fmt::Write>(&self, f: &mut fmt::Formatter<W>) -> fmt::Result {
        f.write_str(match self {
            Problem::TypeExpected => "expected a type",
            Problem::UnknownType => "unknown type",
            Problem::VariantExpected => "expected the name of a variant",
            Problem::FieldExpected => "expected the name of a field",
            Problem::LifetimeExpected => "expected the name of a lifetime",
            Problem::AsciiExpected => "expected a letter of ASCII, a digit or `_`",
            Problem::NameTwice => "this name was used before",
            Problem::CommaOrParenthesis => "expected `,` or `)`",
            Problem::CommaOrBrace => "expected `,` or `}`",
            Problem::SemicolonOrBracket => "expected `;` or `]`",
            Problem::BracketExpected => "expected `]`",
            Problem::CommaExpected => "expected `,`",
            Problem::GreaterExpected => "expected `>`",
            Problem::ColonExpected => "expected `:`",
            Problem::ArrowExpected => "expected `=>`",
            Problem::BraceExpected => "expected `}`",
            Problem::CountExpected => "expected the count of an array",
            Problem::CountTooLarge => "this count is too large",
            Problem::NoBytes => "elements of this type have no bytes",
            Problem::NumberExpected => "LE and BE hold u16 to u128 or i16 to i128",
            Problem::TooDeep => "nested too deeply",
            Problem::EndExpected => "expected the end of the type",
            Problem::OutOfMemory => "out of memory",
        })
    }
}

/// The error of reading a type expression: what is wrong, and where.
///
/// It is printed as `unknown type at character 5`.
#[derive(Clone, Copy, Debug, PartialEq, Eq)]
pub struct ExpressionError {
    /// What is wrong.
    pub problem: Problem,
    /// The place of the problem in characters, counted from 1. At the end of the text it is the
    /// number of characters plus 1.
    pub character: usize,
}

impl fmt::Display for ExpressionError {
    ghost output = { λ e. Some (expression_error_text e) };

    fn fmt<W: fmt::Write>(&self, f: &mut fmt::Formatter<W>) -> fmt::Result {
        write!(f, "{} at character {}", self.problem, self.character)
    }
}

/// Why [`crate::schema_text`] has no type expression of a schema.
#[derive(Clone, Copy, Debug, PartialEq, Eq)]
pub enum TextError {
    /// The name of a field or a variant is none of the grammar. Such a name has only letters and
    /// digits of ASCII and `_`. A field's name isn't empty and begins with no digit. A variant's
    /// name begins with a capital letter.
    Name,
    /// Two fields of a struct, or two variants of an enum, have the same name.
    NameTwice,
    /// A struct has no fields, or an enum has no variants.
    Empty,
    /// The elements of a list or an array, or the entries of a map, have no bytes.
    NoBytes,
    /// A number of 8 bits has a byte order, as in `LE<u8>`.
    NarrowNumber,
    /// The expression would be nested more than 64 deep in brackets. An option is a level of its
    /// own, and an enum is two.
    TooDeep,
    /// An allocation failed.
    OutOfMemory,
}

impl fmt::Display for TextError {
    ghost output = { λ e. Some (text_error_text e) };

    fn fmt<W: fmt::Write>(&self, f: &mut fmt::Formatter<W>) -> fmt::Result {
        let text = match self {
            TextError::Name => "a type expression can't have this name",
            TextError::NameTwice => "two fields or variants have one name",
            TextError::Empty => "a struct without fields or an enum without variants",
            TextError::NoBytes => "elements of this type have no bytes",
            TextError::NarrowNumber => "LE and BE hold u16 to u128 or i16 to i128",
            TextError::TooDeep => "nested too deeply",
            TextError::OutOfMemory => "out of memory",
        };
        f.write_str(text)
    }
}

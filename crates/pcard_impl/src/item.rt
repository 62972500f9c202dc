//! The declarations of a file: the types whose impls are written.

use crate::found::Found;
use postcard_source::declaration::Kind;

/// Some of the tokens of the file: from the index `start` to the one before `end`.
#[derive(Clone, Copy)]
pub(crate) struct Span {
    pub start: usize,
    pub end: usize,
}

/// How the fields of a struct or a variant are written.
#[derive(Clone, Copy, PartialEq, Eq)]
pub(crate) enum Style {
    /// There are none, and no brackets.
    Unit,
    /// `(A, B)`
    Tuple,
    /// `{ a: A, b: B }`
    Named,
}

/// A field.
#[derive(Drop)]
pub(crate) struct Field<'a> {
    /// Its number in its struct or variant, counted from 0.
    pub number: usize,
    /// Its name, or its number in a tuple.
    pub name: String,
    /// The name of a variable for its value.
    pub variable: String,
    /// Its type, as it stands in the file.
    pub text: &'a str,
    /// The tokens of its type.
    pub words: Span,
    /// How many bytes of the file there are from the field on.
    pub left: usize,
    /// How many bytes its name has, or its type if it has none.
    pub length: usize,
}

/// A struct or a variant: its name and its fields.
#[derive(Drop)]
pub(crate) struct Member<'a> {
    pub name: &'a str,
    pub style: Style,
    pub fields: Vec<Field<'a>>,
}

/// The parameters of a type, as they stand in the file.
#[derive(Drop)]
pub(crate) struct Parameters<'a> {
    /// Its lifetimes, as `'a`, with their bounds.
    pub lifetimes: Vec<&'a str>,
    /// Its parameters that are types, with their bounds.
    pub types: Vec<&'a str>,
}

/// A declaration.
#[derive(Drop)]
pub(crate) struct Item<'a> {
    pub kind: Kind,
    pub name: &'a str,
    pub parameters: Parameters<'a>,
    /// Of a struct itself, of an enum its variants, and of an alias nothing.
    pub members: Vec<Member<'a>>,
    /// All its tokens after its name.
    pub words: Span,
    /// How many bytes of the file there are from its name on.
    pub left: usize,
    /// What its types are found to be. As it is read, nothing is.
    pub found: Found,
}

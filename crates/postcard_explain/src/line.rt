//! The lines of an explanation: [`Line`].

use postcard_schema::{Leaf, Schema};
use postcard_value::Value;

/// The name of a part in the value around it.
#[derive(Clone, Copy, Debug)]
pub enum Label<'a> {
    /// The value as a whole, or the content of an option or a variant.
    Whole,
    /// A field of a struct, by its name.
    Field(&'a str),
    /// A part of a tuple, by its number, counted from 0. The key of an entry is part 0, and its
    /// value part 1.
    Part(usize),
    /// An element of a list or an array, or an entry of a map, by its number, counted from 0.
    Element(u64),
}

/// What is expected where a part can't be read.
#[derive(Clone, Copy, Debug)]
pub enum Expected {
    /// A value of a type without parts.
    Leaf(Leaf),
    /// The first byte of an option.
    Option,
    /// The number of elements of a list, or of entries of a map.
    Count,
    /// The index of a variant.
    Variant,
}

/// The meaning of a line's bytes.
#[derive(Debug, Drop)]
pub enum LineKind<'a> {
    /// A value without parts, and its type.
    Value(&'a Schema, Value),
    /// The byte 0 of an option without a value.
    Absent,
    /// The byte 1 of an option, whose value is on the lines after it.
    Present,
    /// The number of elements of a list, or of entries of a map.
    Count(u64),
    /// The index of a variant, counted from 0, and the variant's name.
    Variant(u32, &'a str),
    /// No bytes: a tuple, a struct, an array or an entry, whose parts are on the lines after it.
    Parts,
    /// This many elements or entries, one after another. The line's label is that of the first.
    MoreElements(u64),
    /// A part that can't be read, with all bytes after it, and what was expected.
    Refused(Expected),
    /// The bytes after the value.
    AfterValue,
}

/// Some bytes of a message, and their meaning.
#[derive(Debug, Drop)]
pub struct Line<'a> {
    /// How many values around this part have a line of their own.
    pub depth: usize,
    /// The name of the part.
    pub label: Label<'a>,
    /// The meaning of the bytes.
    pub kind: LineKind<'a>,
    /// The bytes.
    pub bytes: &'a [u8],
}

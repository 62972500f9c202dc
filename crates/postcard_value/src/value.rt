//! Values of a type that is known only at run time.

use postcard_schema::{ByteOrder, Float, Integer};

/// A value of some `Schema`, which has the names of fields and variants.
///
/// A number is given by its bits: the number itself, or the two's complement of a negative one.
/// Bits above the width of its type are ignored, and aren't written.
#[derive(Debug, Drop)]
pub enum Value {
    Bool(bool),
    /// A number of this type, by its bits.
    Integer(Integer, u128),
    /// A float of this type, by its bits, since there are many NaN.
    Float(Float, u64),
    Char(char),
    Str(String),
    Bytes(Vec<u8>),
    /// A number of `LE<T>` or `BE<T>`: the order of its bytes, the type `T`, and its bits.
    Fixed(ByteOrder, Integer, u128),
    /// An option without a value.
    Absent,
    /// An option with a value.
    Present(Box<Value>),
    /// The elements of a list, or the entries of a map. An entry is a [`Value::Group`] of its key
    /// and its value.
    Seq(Vec<Value>),
    /// The parts of a tuple, a struct or an array.
    Group(Vec<Value>),
    /// The index of an enum's variant, counted from 0, and its content.
    Variant(u32, Box<Value>),
}

//! Types without parts.

ghost use Rattle.std.specs.Prelude.{◌≡◌, Some};
ghost use Rattle.postcard_schema.specs.{float_name, float_size, integer_name, is_signed, leaf_name};
ghost use Rattle.postcard_schema.specs.{order_name, size_of};

use std::fmt;

/// A type of integers. `usize` is `U64`, and `isize` is `I64`, since the format writes them as
/// numbers of 64 bits.
#[derive(Clone, Copy, Debug, PartialEq, Eq)]
pub enum Integer {
    U8,
    U16,
    U32,
    U64,
    U128,
    I8,
    I16,
    I32,
    I64,
    I128,
}

impl Integer {
    /// Returns the number of bytes of a number at its full width.
    pub fn size(self) -> usize
        ensures { result ≡ size_of self }
    {
        match self {
            Integer::U8 | Integer::I8 => 1,
            Integer::U16 | Integer::I16 => 2,
            Integer::U32 | Integer::I32 => 4,
            Integer::U64 | Integer::I64 => 8,
            Integer::U128 | Integer::I128 => 16,
        }
    }

    /// Returns whether the numbers may be negative.
    pub fn is_signed(self) -> bool
        ensures { result ≡ is_signed self }
    {
        matches!(
            self,
            Integer::I8 | Integer::I16 | Integer::I32 | Integer::I64 | Integer::I128
        )
    }

    /// Returns the name of the type, such as `u16`.
    pub fn name(self) -> &'static str
        ensures { result.now ≡ integer_name self }
    {
        match self {
            Integer::U8 => "u8",
            Integer::U16 => "u16",
            Integer::U32 => "u32",
            Integer::U64 => "u64",
            Integer::U128 => "u128",
            Integer::I8 => "i8",
            Integer::I16 => "i16",
            Integer::I32 => "i32",
            Integer::I64 => "i64",
            Integer::I128 => "i128",
        }
    }
}

/// A type of floats.
#[derive(Clone, Copy, Debug, PartialEq, Eq)]
pub enum Float {
    F32,
    F64,
}

impl Float {
    /// Returns the number of bytes of a float.
    pub fn size(self) -> usize
        ensures { result ≡ float_size self }
    {
        match self {
            Float::F32 => 4,
            Float::F64 => 8,
        }
    }

    /// Returns the name of the type, such as `f32`.
    pub fn name(self) -> &'static str
        ensures { result.now ≡ float_name self }
    {
        match self {
            Float::F32 => "f32",
            Float::F64 => "f64",
        }
    }
}

/// The order in which the bytes of a number at its full width are written.
#[derive(Clone, Copy, Debug, PartialEq, Eq)]
pub enum ByteOrder {
    /// `LE<T>`: the lowest byte first.
    Little,
    /// `BE<T>`: the highest byte first.
    Big,
}

impl ByteOrder {
    /// Returns the name of the wrapper: `LE` or `BE`.
    pub fn name(self) -> &'static str
        ensures { result.now ≡ order_name self }
    {
        match self {
            ByteOrder::Little => "LE",
            ByteOrder::Big => "BE",
        }
    }
}

/// A type without parts. It is printed as its name, such as `u16` or `LE<u16>`.
#[derive(Clone, Copy, Debug, PartialEq, Eq)]
pub enum Leaf {
    Bool,
    /// A number: a byte if it has 8 bits, and else a varint. A signed number's varint is that of
    /// its zigzag encoding.
    Integer(Integer),
    /// A float, as the bytes of its bits, the lowest first.
    Float(Float),
    Char,
    Str,
    Bytes,
    /// `LE<T>` or `BE<T>`: a number at its full width, as the array of its bytes.
    Fixed(ByteOrder, Integer),
}

impl fmt::Display for Leaf {
    ghost output = { λ leaf. Some (leaf_name leaf) };

    fn fmt<W: fmt::Write>(&self, f: &mut fmt::Formatter<W>) -> fmt::Result {
        match self {
            Leaf::Bool => f.write_str("bool"),
            Leaf::Integer(integer) => f.write_str(integer.name()),
            Leaf::Float(float) => f.write_str(float.name()),
            Leaf::Char => f.write_str("char"),
            Leaf::Str => f.write_str("str"),
            Leaf::Bytes => f.write_str("bytes"),
            Leaf::Fixed(order, integer) => {
                f.write_str(order.name())?;
                f.write_str("<")?;
                f.write_str(integer.name())?;
                f.write_str(">")
            }
        }
    }
}

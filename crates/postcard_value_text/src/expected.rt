//! What is expected where a text is no value: [`Expected`].

ghost use Rattle.std.specs.Prelude.{◌≡◌, Some};
ghost use Rattle.postcard_value_text.specs.{elements_text, expected_text, float_phrase, leaf_phrase};
ghost use Rattle.postcard_value_text.specs.{number_phrase};

use postcard_schema::{Float, Integer, Leaf};
use std::fmt;

/// What is expected at the place where a text stops being a value. It is printed as a short phrase,
/// such as ``field `label` ``.
#[derive(Clone, Copy, Debug, PartialEq, Eq)]
pub enum Expected<'a> {
    /// A value of this type, within its range.
    Leaf(Leaf),
    /// The bits of a NaN, from their `0x` to `)`.
    Bits,
    /// A letter or sign that may follow the `\` of an escape.
    Escape,
    /// The code of a character, from its `{` to `}`.
    Code,
    /// `None` or `Some`.
    NoneOrSome,
    /// The name of a variant of the enum.
    Variant,
    /// The field with this name.
    Field(&'a str),
    /// `,` and then the field with this name.
    NextField(&'a str),
    /// The sign with this code of ASCII.
    Sign(u8),
    /// `,`, or the closing bracket with this code of ASCII.
    CommaOr(u8),
    /// `=>`, between the key and the value of an entry of a map.
    Arrow,
    /// The number of elements that the array has.
    Elements(usize),
    /// The end of the text.
    End,
}

impl fmt::Display for Expected<'_> {
    ghost output = { λ expected. Some (expected_text expected) };

    fn fmt<W: fmt::Write>(&self, f: &mut fmt::Formatter<W>) -> fmt::Result {
        match self {
            Expected::Leaf(leaf) => f.write_str(phrase_of(*leaf)),
            Expected::Bits => f.write_str("the bits of a NaN, as 0x7fc00001, and `)`"),
            Expected::Escape => f.write_str("an escape, as `n` or `u{e9}`"),
            Expected::Code => f.write_str("the code of a character, as `{e9}`"),
            Expected::NoneOrSome => f.write_str("`None` or `Some`"),
            Expected::Variant => f.write_str("a variant of the enum"),
            Expected::Field(name) => write!(f, "field `{name}`"),
            Expected::NextField(name) => write!(f, "`,` and field `{name}`"),
            Expected::Sign(sign) => write!(f, "`{}`", char::from(*sign)),
            Expected::CommaOr(sign) => write!(f, "`,` or `{}`", char::from(*sign)),
            Expected::Arrow => f.write_str("`=>`"),
            Expected::Elements(count) => {
                let noun = noun(*count);
                write!(f, "{count} {noun}")
            }
            Expected::End => f.write_str("the end"),
        }
    }
}

fn noun(count: usize) -> &'static str
    ensures { result.now ≡ elements_text count }
{
    if count == 1 { "element" } else { "elements" }
}

fn phrase_of(leaf: Leaf) -> &'static str
    ensures { result.now ≡ leaf_phrase leaf }
{
    match leaf {
        Leaf::Bool => "`true` or `false`",
        Leaf::Integer(integer) => number_phrase(integer),
        Leaf::Float(float) => float_phrase(float),
        Leaf::Char => "a character in single quotes",
        Leaf::Str => "a text in double quotes",
        Leaf::Bytes => "bytes, as 0x00ff",
        Leaf::Fixed(_, integer) => number_phrase(integer),
    }
}

fn float_phrase(float: Float) -> &'static str
    ensures { result.now ≡ float_phrase float }
{
    match float {
        Float::F32 => "a number of f32, as 1.5, inf or nan",
        Float::F64 => "a number of f64, as 1.5, inf or nan",
    }
}

fn number_phrase(integer: Integer) -> &'static str
    ensures { result.now ≡ number_phrase integer }
{
    match integer {
        Integer::U8 => "a number of u8, 0 to 255",
        Integer::U16 => "a number of u16, 0 to 65535",
        Integer::U32 => "a number of u32, 0 to 4294967295",
        Integer::U64 => "a number of u64, 0 to 2^64 - 1",
        Integer::U128 => "a number of u128, 0 to 2^128 - 1",
        Integer::I8 => "a number of i8, -128 to 127",
        Integer::I16 => "a number of i16, -32768 to 32767",
        Integer::I32 => "a number of i32, -2147483648 to 2147483647",
        Integer::I64 => "a number of i64, -2^63 to 2^63 - 1",
        Integer::I128 => "a number of i128, -2^127 to 2^127 - 1",
    }
}

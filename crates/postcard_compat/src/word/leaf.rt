//! What a message of a type without parts says.

ghost use Rattle.std.specs.Prelude.{◌≡◌, ◌+◌, ◌%◌, ◌^◌, ◌∷◌, [], IfOk, OnOk, length, map, true};
ghost use Rattle.postcard_compat.specs.{Appends, Count, Number, each_said, fixed_number};
ghost use Rattle.postcard_compat.specs.{float_size, integer_said, is_signed, leaf_said, size_of};
ghost use Rattle.postcard_compat.specs.{tree, trees, word_of};
ghost use Rattle.postcard_wire.specs.Tree.{Byte};

use crate::word::Word;
use postcard_schema::{Float, Integer, Leaf};
use postcard_value::Value;
use postcard_value::numbers::low_bits;
use std::alloc::{AllocError, Global};

/// Appends what a message of a type without parts says. Fails as [`words`](crate::words) does.
pub(crate) fn say_leaf(
    alloc: Global,
    leaf: Leaf,
    value: &Value,
    words: &mut Vec<Word>,
) -> Result<(), AllocError>
    ensures { OnOk result (Appends words.old.items words.new.items
        (leaf_said leaf (tree value.now))) }
{
    if let Value::Bytes(bytes) = value {
        if leaf == Leaf::Bytes {
            return say_bytes(bytes, words);
        }
        return Err(AllocError);
    }
    let found = leaf_word(alloc, value)?;
    if !same_leaf(found.0, leaf) {
        return Err(AllocError);
    }
    words.push(found.1)?;
    Ok(())
}

/// Returns `true` if the two types are the same.
fn same_leaf(leaf: Leaf, other: Leaf) -> bool
    ensures { result ≡ true → leaf ≡ other }
{
    leaf == other
}

/// Appends what a byte string says: a list of bytes.
fn say_bytes(bytes: &Vec<u8>, words: &mut Vec<Word>) -> Result<(), AllocError>
    ensures { OnOk result (Appends words.old.items words.new.items
        (Count (length bytes.now.items) ∷ each_said (integer_said Integer.U8) (trees (map Byte bytes.now.items)))) }
{
    words.push(Word::Count(bytes.len()))?;
    for byte in bytes {
        words.push(Word::Natural(u128::from(*byte)))?;
        words.push(Word::End)?;
    }
    Ok(())
}

/// Returns the type of a value without parts, and what the value says. Fails for other values, and
/// for byte strings.
fn leaf_word(alloc: Global, value: &Value) -> Result<(Leaf, Word), AllocError>
    ensures { IfOk result (λ found. leaf_said found.0 (tree value.now) ≡ word_of found.1 ∷ []) }
{
    match value {
        Value::Bool(x) => Ok((Leaf::Bool, Word::Truth(*x))),
        Value::Integer(integer, bits) => Ok((Leaf::Integer(*integer), number(*integer, *bits))),
        Value::Float(float, bits) => {
            let word = Word::Float(*float, float_bits(*float, *bits));
            Ok((Leaf::Float(*float), word))
        }
        Value::Char(c) => Ok((Leaf::Char, Word::Letter(*c))),
        Value::Str(text) => {
            let text = String::from_str(alloc, text)?;
            Ok((Leaf::Str, Word::Phrase(text)))
        }
        Value::Fixed(order, integer, bits) => {
            Ok((Leaf::Fixed(*order, *integer), number(*integer, *bits)))
        }
        _ => Err(AllocError),
    }
}

/// Returns the word of the integer of the type with these bits. Bits above the type's width are
/// ignored.
fn number(integer: Integer, bits: u128) -> Word
    ensures { word_of result ≡ Number (fixed_number (is_signed integer) (size_of integer)
        (bits % 256 ^ size_of integer)) }
{
    let low = low_bits(integer, bits);
    let beyond = greatest_bits(integer) - low;
    if integer.is_signed() && low > beyond {
        Word::Negative(beyond)
    } else {
        Word::Natural(low)
    }
}

/// Returns the bits of the type, all set.
pub(crate) fn greatest_bits(integer: Integer) -> u128
    ensures { result + 1 ≡ 256 ^ size_of integer }
{
    match integer {
        Integer::U8 | Integer::I8 => (1 << 8) - 1,
        Integer::U16 | Integer::I16 => (1 << 16) - 1,
        Integer::U32 | Integer::I32 => (1 << 32) - 1,
        Integer::U64 | Integer::I64 => (1 << 64) - 1,
        Integer::U128 | Integer::I128 => u128::MAX,
    }
}

/// Returns the bits within the width of the type, without those above them.
fn float_bits(float: Float, bits: u64) -> u64
    ensures { result ≡ bits % 256 ^ float_size float }
{
    match float {
        Float::F32 => bits % (1 << 32),
        Float::F64 => bits,
    }
}

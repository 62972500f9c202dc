//! The JSON of a value without parts: [`write_leaf`]. The functions below it fail as it does.

ghost use Rattle.std.specs.Prelude.{◌≡◌, ◌%◌, ◌^◌, IfOk, IfSome, Some, from_bits};
ghost use Rattle.std.specs.Prelude.{option_map};
ghost use Rattle.postcard_value_json.specs.{bits_json, encode_lower, encode_utf8, float_json};
ghost use Rattle.postcard_value_json.specs.{float_size, format_of, is_signed, leaf_json};
ghost use Rattle.postcard_value_json.specs.{number_view, of_float, signed_json, size_of};
ghost use Rattle.postcard_value_json.specs.{special_text, string, tree, unsigned_json, view};

use postcard_schema::{Float, Integer, Leaf};
use postcard_value::numbers::{low_bits, signed_of};
use postcard_value::value::Value;
use serde_json::{Number, Value as Json};
use std::alloc::{AllocError, Global};
use std::num::{f32_from_bits_with_nan, f64_from_bits_with_nan};

/// Returns the JSON of a value without parts, or `None` if the value isn't of the type. Fails if an
/// allocation fails.
pub(crate) fn write_leaf(
    alloc: Global,
    leaf: Leaf,
    value: &Value,
) -> Result<Option<Json>, AllocError>
    ensures { IfOk result (λ o. IfSome o (λ j. Some (view j)
        ≡ leaf_json leaf (tree value.now))) }
{
    match (leaf, value) {
        (Leaf::Bool, Value::Bool(x)) => Ok(Some(Json::Bool(*x))),
        (Leaf::Integer(integer), Value::Integer(own, bits)) => {
            if integer != *own {
                return Ok(None);
            }
            Ok(Some(write_bits(alloc, integer, *bits)?))
        }
        (Leaf::Float(float), Value::Float(own, bits)) => {
            if float != *own {
                return Ok(None);
            }
            Ok(Some(write_float(alloc, float, *bits)?))
        }
        (Leaf::Char, Value::Char(c)) => Ok(Some(write_char(alloc, *c)?)),
        (Leaf::Str, Value::Str(text)) => Ok(Some(Json::try_from_str(alloc, text)?)),
        (Leaf::Bytes, Value::Bytes(held)) => Ok(Some(write_bytes(alloc, held)?)),
        (Leaf::Fixed(order, integer), Value::Fixed(own_order, own_integer, bits)) => {
            if order != *own_order || integer != *own_integer {
                return Ok(None);
            }
            Ok(Some(write_bits(alloc, integer, *bits)?))
        }
        _ => Ok(None),
    }
}

/// Returns the JSON of the number with these bits. Bits above the type's width are ignored.
fn write_bits(alloc: Global, integer: Integer, bits: u128) -> Result<Json, AllocError>
    ensures { IfOk result (λ j. view j
        ≡ bits_json (is_signed integer) (size_of integer) (bits % 256 ^ size_of integer)) }
{
    let low = low_bits(integer, bits);
    if !integer.is_signed() {
        return write_unsigned(alloc, low);
    }
    write_signed(alloc, signed_of(integer, low).unwrap_or(0))
}

fn write_unsigned(alloc: Global, n: u128) -> Result<Json, AllocError>
    ensures { IfOk result (λ j. view j ≡ unsigned_json n) }
{
    if n < 9_007_199_254_740_992 {
        return Ok(Json::from(n as u64));
    }
    let digits = format!(in alloc; "{n}")?;
    Ok(Json::String(digits))
}

fn write_signed(alloc: Global, n: i128) -> Result<Json, AllocError>
    ensures { IfOk result (λ j. view j ≡ signed_json n) }
{
    if -9_007_199_254_740_992 < n && n < 9_007_199_254_740_992 {
        return Ok(Json::from(n as i64));
    }
    let digits = format!(in alloc; "{n}")?;
    Ok(Json::String(digits))
}

/// Returns the JSON of the float with these bits. Bits above the type's width are ignored.
fn write_float(alloc: Global, float: Float, bits: u64) -> Result<Json, AllocError>
    ensures { IfOk result (λ j. view j ≡ float_json float (bits % 256 ^ float_size float)) }
{
    if let Some(number) = number_of(float, bits) {
        return Ok(Json::Number(number));
    }
    match float {
        Float::F32 => write_special(alloc, float, bits % (1 << 32)),
        Float::F64 => write_special(alloc, float, bits),
    }
}

/// Returns the number of the float with these bits, or `None` if it isn't finite.
fn number_of(float: Float, bits: u64) -> Option<Number>
    ensures { option_map number_view result
        ≡ of_float (from_bits (format_of float) (bits % 256 ^ float_size float)) }
{
    match float {
        Float::F32 => {
            let x = f32_from_bits_with_nan((bits % (1 << 32)) as u32);
            Number::from_f64(f64::from(x))
        }
        Float::F64 => Number::from_f64(f64_from_bits_with_nan(bits)),
    }
}

/// Returns the string of the bits of a float that isn't finite.
fn write_special(alloc: Global, float: Float, bits: u64) -> Result<Json, AllocError>
    ensures { IfOk result (λ j. view j ≡ string (special_text float bits)) }
{
    match (float, bits) {
        (Float::F32, 0x7f80_0000) | (Float::F64, 0x7ff0_0000_0000_0000) => {
            Json::try_from_str(alloc, "inf")
        }
        (Float::F32, 0xff80_0000) | (Float::F64, 0xfff0_0000_0000_0000) => {
            Json::try_from_str(alloc, "-inf")
        }
        (Float::F32, 0x7fc0_0000) | (Float::F64, 0x7ff8_0000_0000_0000) => {
            Json::try_from_str(alloc, "nan")
        }
        _ => {
            let text = format!(in alloc; "nan(0x{bits:x})")?;
            Ok(Json::String(text))
        }
    }
}

fn write_char(alloc: Global, c: char) -> Result<Json, AllocError>
    ensures { IfOk result (λ j. view j ≡ string (encode_utf8 c)) }
{
    let mut text = String::new(alloc);
    text.push(c)?;
    Ok(Json::String(text))
}

/// Returns the string of two lower-case hexadecimal digits a byte.
fn write_bytes(alloc: Global, held: &Vec<u8>) -> Result<Json, AllocError>
    ensures { IfOk result (λ j. view j ≡ string (encode_lower held.now.items)) }
{
    let digits = hex::encode(alloc, held.as_slice())?;
    Ok(Json::String(digits))
}

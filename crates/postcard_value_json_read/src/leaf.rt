//! Reading a value without parts from JSON.
//!
//! A function `find_..` returns `None` if the JSON is no value of its type, and fails only if an
//! allocation fails.

ghost use Rattle.std.specs.Prelude.{ℕ, ℤ, ◌<◌, ◌^◌, ◌≡◌, IfOk, IfSome, MatchOption, FitsSigned};
ghost use Rattle.postcard_value_json_read.specs.{Finds, IsBitsJson, IsFloatJson, IsReading};
ghost use Rattle.postcard_value_json_read.specs.{IsSignedJson, IsUnsignedJson, Reads, bits_near};
ghost use Rattle.postcard_value_json_read.specs.{is_signed, leaf_layout, leaf_type, tree, view};
ghost use Rattle.postcard_value_json_read.specs.{w128};
ghost use Rattle.postcard_schema.specs.declared.leaf.Leaf.TheVariants as leaves;

use crate::error::{Expected, JsonError};
use postcard_schema::{ByteOrder, Float, Integer, Leaf};
use postcard_value::numbers::{are_bits, bits_of};
use postcard_value::value::Value;
use postcard_value_text::float::read_float;
use postcard_wire::laws::in_range;
use serde_json::Value as Json;
use std::alloc::{AllocError, Global};
use std::num::{f32_to_bits_with_nan, f64_to_bits_with_nan, nearest_f64_to_f32_with_nan};

/// Reads a value without parts. Fails with `NotAValue` if the JSON is no value of the type, and
/// with `OutOfMemory` if an allocation fails.
pub(crate) fn read_leaf<'a>(
    alloc: Global,
    leaf: Leaf,
    json: &'a Json,
) -> Result<Value, JsonError<'a>>
    ensures { Reads (leaf_type leaf) (leaf_layout leaf) (view json.now) result }
{
    match find_leaf(alloc, leaf, json) {
        Ok(Some(value)) => Ok(value),
        Ok(None) => Err(JsonError::here(alloc, Expected::Leaf(leaf))),
        Err(_) => Err(JsonError::OutOfMemory),
    }
}

fn find_leaf(alloc: Global, leaf: Leaf, json: &Json) -> Result<Option<Value>, AllocError>
    ensures { IfOk result (Finds tree (IsReading (leaf_type leaf) (leaf_layout leaf))
        (view json.now)) }
{
    match leaf {
        Leaf::Bool => Ok(find_bool(json)),
        Leaf::Integer(integer) => Ok(find_integer(integer, json)),
        Leaf::Float(float) => Ok(find_float(float, json)),
        Leaf::Char => Ok(find_char(json)),
        Leaf::Str => find_text(alloc, json),
        Leaf::Bytes => find_bytes(alloc, json),
        Leaf::Fixed(order, integer) => Ok(find_fixed(order, integer, json)),
    }
}

fn find_bool(json: &Json) -> Option<Value>
    ensures { Finds tree (IsReading (leaf_type leaves.Bool) (leaf_layout leaves.Bool))
        (view json.now) result }
{
    match json.as_bool() {
        Some(x) => Some(Value::Bool(x)),
        None => None,
    }
}

fn find_integer(integer: Integer, json: &Json) -> Option<Value>
    ensures { Finds tree (IsReading (leaf_type (leaves.Integer integer))
        (leaf_layout (leaves.Integer integer))) (view json.now) result }
{
    match find_bits(integer, json) {
        Some(bits) => Some(Value::Integer(integer, bits)),
        None => None,
    }
}

fn find_fixed(order: ByteOrder, integer: Integer, json: &Json) -> Option<Value>
    ensures { Finds tree (IsReading (leaf_type (leaves.Fixed order integer))
        (leaf_layout (leaves.Fixed order integer))) (view json.now) result }
{
    match find_bits(integer, json) {
        Some(bits) => Some(Value::Fixed(order, integer, bits)),
        None => None,
    }
}

/// Returns the bits of the number of the type that the JSON is: the number itself, or the two's
/// complement of a negative one.
fn find_bits(integer: Integer, json: &Json) -> Option<u128>
    ensures { MatchOption result
        ((n : ℕ) → IsBitsJson (is_signed integer) integer n (view json.now) → ⊥)
        (λ n. IsBitsJson (is_signed integer) integer n (view json.now)) }
{
    if integer.is_signed() {
        return match signed(json) {
            Some(z) => bits_of(integer, z),
            None => None,
        };
    }
    match unsigned(json) {
        Some(n) => { if are_bits(integer, n) { Some(n) } else { None } }
        None => None,
    }
}

/// Returns the number that the JSON is, as a number or as a string. Returns `None` if it is no
/// number that fits in 128 bits.
fn unsigned(json: &Json) -> Option<u128>
    ensures { MatchOption result ((n : ℕ) → n < 2 ^ 128 → IsUnsignedJson n (view json.now) → ⊥)
        (λ n. IsUnsignedJson n (view json.now)) }
{
    if let Some(number) = json.as_number() {
        return number.as_u128();
    }
    let Some(text) = json.as_str() else {
        return None;
    };
    match text.parse::<u128>() {
        Ok(n) => Some(n),
        Err(_) => None,
    }
}

/// Returns the signed number that the JSON is, as a number or as a string. Returns `None` if it is
/// no number that fits in 128 bits.
fn signed(json: &Json) -> Option<i128>
    ensures fits { IfSome result (FitsSigned w128) }
    ensures found { MatchOption result
        ((n : ℤ) → FitsSigned w128 n → IsSignedJson n (view json.now) → ⊥)
        (λ n. IsSignedJson n (view json.now)) }
{
    if let Some(number) = json.as_number() {
        return number.as_i128();
    }
    let Some(text) = json.as_str() else {
        return None;
    };
    match text.parse::<i128>() {
        Ok(n) => Some(n),
        Err(_) => None,
    }
}

fn find_float(float: Float, json: &Json) -> Option<Value>
    ensures { Finds tree (IsReading (leaf_type (leaves.Float float))
        (leaf_layout (leaves.Float float))) (view json.now) result }
{
    match float_bits(float, json) {
        Some(bits) => Some(Value::Float(float, bits)),
        None => None,
    }
}

/// Returns the bits of a float of the type: the nearest to a JSON number, or the one that a string
/// denotes. Returns `None` if the JSON is neither.
fn float_bits(float: Float, json: &Json) -> Option<u64>
    ensures { MatchOption result ((bits : ℕ) → IsFloatJson float bits (view json.now) → ⊥)
        (λ bits. IsFloatJson float bits (view json.now)
        × ((other : ℕ) → IsFloatJson float other (view json.now) → other ≡ bits)) }
{
    if let Some(x) = json.as_f64() {
        return Some(bits_near(float, x));
    }
    let Some(text) = json.as_str() else {
        return None;
    };
    let mut rest = text.as_bytes();
    let Ok(bits) = read_float(&mut rest, float) else {
        return None;
    };
    if rest.is_empty() {
        return Some(bits);
    }
    None
}

/// Returns the bits of the float of the type that is nearest to `x`.
fn bits_near(float: Float, x: f64) -> u64
    ensures { result ≡ bits_near float x }
{
    match float {
        Float::F32 => u64::from(f32_to_bits_with_nan(nearest_f64_to_f32_with_nan(x))),
        Float::F64 => f64_to_bits_with_nan(x),
    }
}

/// Returns the only character of a string.
fn find_char(json: &Json) -> Option<Value>
    ensures { Finds tree (IsReading (leaf_type leaves.Char) (leaf_layout leaves.Char))
        (view json.now) result }
{
    let Some(text) = json.as_str() else {
        return None;
    };
    match text.parse::<char>() {
        Ok(c) => Some(Value::Char(c)),
        Err(_) => None,
    }
}

fn find_text(alloc: Global, json: &Json) -> Result<Option<Value>, AllocError>
    ensures { IfOk result (Finds tree (IsReading (leaf_type leaves.Str) (leaf_layout leaves.Str))
        (view json.now)) }
{
    let Some(text) = json.as_str() else {
        return Ok(None);
    };
    let copy = String::from_str(alloc, text)?;
    Ok(Some(Value::Str(copy)))
}

/// Returns the bytes of a string of two hexadecimal digits a byte.
fn find_bytes(alloc: Global, json: &Json) -> Result<Option<Value>, AllocError>
    ensures { IfOk result (Finds tree
        (IsReading (leaf_type leaves.Bytes) (leaf_layout leaves.Bytes)) (view json.now)) }
{
    let Some(text) = json.as_str() else {
        return Ok(None);
    };
    match hex::decode(alloc, text.as_bytes()) {
        Ok(held) => {
            in_range(&held);
            Ok(Some(Value::Bytes(held)))
        }
        Err(hex::FromHexError::OutOfMemory) => Err(AllocError),
        Err(_) => Ok(None),
    }
}

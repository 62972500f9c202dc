//! Values without parts: reading one from its text, and printing one.

ghost use Rattle.std.specs.Prelude.{◌≡◌, ℕ, ◌<◌, ◌^◌, ◌++◌, ◌/◌, ◌%◌, Bool, List, codes, false};
ghost use Rattle.std.specs.Prelude.{map, slice_index, IfOk, IfSome, IfNone, MatchResult};
ghost use Rattle.postcard_value_text.specs.{Accepts, Byte, DisplaysOnOk, EndsNumber, EndsWord};
ghost use Rattle.postcard_value_text.specs.{IsByteString, IsQuoted, IsScalar, IsTruth, Led};
ghost use Rattle.postcard_value_text.specs.{ReadsAs, ReadsTree, ShowsFloat, SpellsLeaf};
ghost use Rattle.postcard_value_text.specs.{TakesPhrase, WritesOnOk, bits_text, debug_str, digits};
ghost use Rattle.postcard_value_text.specs.{encode_utf8, float_size, format_of, hexadecimal};
ghost use Rattle.postcard_value_text.specs.{is_signed, leaf_reads, leaf_text, list_all, size_of};
ghost use Rattle.postcard_value_text.specs.{stands_for_itself, tree, trees};
ghost use Rattle.postcard_schema.specs.declared.leaf.Leaf.TheVariants as leaves;
ghost use Rattle.postcard_value.specs.declared.value.Value.TheVariants as values;

use crate::error::Stop;
use crate::expected::Expected;
use crate::float::{read_float, show_float, take_number};
use crate::number::read_bits;
use crate::quoted::{bytes_of, take_quoted};
use postcard_schema::{Float, Integer, Leaf};
use postcard_schema_text::scan::{skip_blanks, take_word};
use postcard_value::numbers::{low_bits, signed_of};
use postcard_value::value::Value;
use postcard_wire::laws::in_range;
use std::alloc::Global;
use std::fmt;
use std::fmt::{Formatter, Write};

/// Takes blanks and then a value of this type. Stops where the text isn't one, and with `Memory` if
/// an allocation fails.
pub fn read_leaf(alloc: Global, leaf: Leaf, rest: &mut &[u8]) -> Result<Value, Stop<'static>>
    ensures value { IfOk result (λ v. leaf_reads leaf (tree v)) }
    ensures spelled { IfOk result (λ v. TakesPhrase (SpellsLeaf leaf (tree v))
        rest.old.now rest.new.now) }
    ensures accepted { Accepts (leaf_reads leaf) (SpellsLeaf leaf) rest.old.now result rest.new.now }
{
    read_value(alloc, leaf, rest)
}

/// Does what [`read_leaf`] does, by one clause.
fn read_value(alloc: Global, leaf: Leaf, rest: &mut &[u8]) -> Result<Value, Stop<'static>>
    ensures { ReadsTree (Unit {0}) (leaf_reads leaf) (SpellsLeaf leaf)
        rest.old.now result rest.new.now }
{
    skip_blanks(rest);
    match leaf {
        Leaf::Bool => Ok(Value::Bool(read_bool(rest)?)),
        Leaf::Integer(integer) => Ok(Value::Integer(integer, read_bits(rest, integer)?)),
        Leaf::Float(float) => Ok(Value::Float(float, read_float(rest, float)?)),
        Leaf::Char => Ok(Value::Char(read_char(alloc, rest)?)),
        Leaf::Str => Ok(Value::Str(take_quoted(alloc, rest, b'"', leaf)?)),
        Leaf::Bytes => Ok(Value::Bytes(read_bytes(alloc, rest)?)),
        Leaf::Fixed(order, integer) => {
            Ok(Value::Fixed(order, integer, read_bits(rest, integer)?))
        }
    }
}

fn read_bool(rest: &mut &[u8]) -> Result<bool, Stop<'static>>
    ensures spelled { IfOk result (λ x. TakesPhrase (Led (IsTruth x)) rest.old.now rest.new.now) }
    ensures accepted { (x : Bool) (after : List ℕ)
        → TakesPhrase (Led (IsTruth x)) rest.old.now after → EndsNumber after
        → MatchResult result (λ read. (read ≡ x) × (rest.new.now ≡ after)) (λ stop. ⊥) }
{
    let start = *rest;
    match truth_of(take_number(rest)) {
        Some(x) => Ok(x),
        None => Err(Stop::here(start, Expected::Leaf(Leaf::Bool))),
    }
}

/// Returns the `bool` that a word denotes, or `None` if it is neither `true` nor `false`.
fn truth_of(word: &[u8]) -> Option<bool>
    ensures found { IfSome result (λ x. IsTruth x word.now) }
    ensures none { IfNone result ((x : Bool) → IsTruth x word.now → ⊥) }
{
    match word {
        b"true" => Some(true),
        b"false" => Some(false),
        _ => None,
    }
}

fn read_char(alloc: Global, rest: &mut &[u8]) -> Result<char, Stop<'static>>
    ensures spelled { IfOk result (λ c.
        TakesPhrase (IsQuoted 39 (encode_utf8 c)) rest.old.now rest.new.now) }
    ensures accepted { (c : ℕ) (after : List ℕ) → IsScalar c
        → TakesPhrase (IsQuoted 39 (encode_utf8 c)) rest.old.now after
        → ReadsAs (λ read. read ≡ c) result rest.new.now after }
{
    let start = *rest;
    let text = take_quoted(alloc, rest, b'\'', Leaf::Char)?;
    match text.parse::<char>() {
        Ok(c) => Ok(c),
        Err(_) => Err(Stop::here(start, Expected::Leaf(Leaf::Char))),
    }
}

/// Reads `0x` and two hexadecimal digits for each byte.
fn read_bytes(alloc: Global, rest: &mut &[u8]) -> Result<Vec<u8>, Stop<'static>>
    ensures range { IfOk result (λ held. (k : ℕ) → slice_index held.items k < 256) }
    ensures spelled { IfOk result (λ held.
        TakesPhrase (IsByteString held.items) rest.old.now rest.new.now) }
    ensures accepted { (bytes : List ℕ) (after : List ℕ)
        → TakesPhrase (IsByteString bytes) rest.old.now after → EndsWord after
        → ReadsAs (λ held. held.items ≡ bytes) result rest.new.now after }
{
    let start = *rest;
    match take_word(rest).strip_prefix(b"0x") {
        Some(digits) => {
            let held = bytes_of(alloc, digits, start)?;
            in_range(&held);
            Ok(held)
        }
        None => Err(Stop::here(start, Expected::Leaf(Leaf::Bytes))),
    }
}

/// Prints a value without parts. Fails if the value isn't of this type, or if the writer fails.
pub fn show_leaf<W: Write>(leaf: Leaf, value: &Value, f: &mut Formatter<W>) -> fmt::Result
    ensures shown { DisplaysOnOk W.write_str_gives f.old result
        (leaf_text leaf (tree value.now)) f.new }
    ensures float_shown { (float : Float) → leaf ≡ leaves.Float float → (bits : ℕ)
        → value.now ≡ values.Float float bits
        → ShowsFloat (format_of float) (bits % 256 ^ float_size float)
        W.write_str_gives f.old result f.new }
{
    match (leaf, value) {
        (Leaf::Bool, Value::Bool(x)) => write!(f, "{x}"),
        (Leaf::Integer(integer), Value::Integer(own, bits)) => {
            if integer != *own {
                return Err(fmt::Error);
            }
            show_bits(integer, *bits, f)
        }
        (Leaf::Float(float), Value::Float(own, bits)) => {
            if float != *own {
                return Err(fmt::Error);
            }
            show_float(float, *bits, f)
        }
        (Leaf::Char, Value::Char(c)) => write!(f, "{c:?}"),
        (Leaf::Str, Value::Str(text)) => show_text(text, f),
        (Leaf::Bytes, Value::Bytes(held)) => show_bytes(held, f),
        (Leaf::Fixed(order, integer), Value::Fixed(own_order, own_integer, bits)) => {
            if order != *own_order || integer != *own_integer {
                return Err(fmt::Error);
            }
            show_bits(integer, *bits, f)
        }
        _ => Err(fmt::Error),
    }
}

/// Prints the number of the type with these bits. Bits above the type's width are ignored.
fn show_bits<W: Write>(integer: Integer, bits: u128, f: &mut Formatter<W>) -> fmt::Result
    ensures { WritesOnOk W.write_str_gives f.old result
        (bits_text (is_signed integer) (size_of integer) (bits % 256 ^ size_of integer)) f.new }
{
    let low = low_bits(integer, bits);
    if !integer.is_signed() {
        return write!(f, "{low}");
    }
    match signed_of(integer, low) {
        Some(number) => write!(f, "{number}"),
        None => Err(fmt::Error),
    }
}

/// Prints a string between double quotes, with escapes. A string that needs no escapes is written
/// in one piece.
#[tactic(auto, using(crate::proofs::Joined::displays_failed))]
fn show_text<W: Write>(text: &str, f: &mut Formatter<W>) -> fmt::Result
    ensures { DisplaysOnOk W.write_str_gives f.old result (debug_str text.now) f.new }
{
    if !is_plain(text.as_bytes()) {
        return write!(f, "{text:?}");
    }
    f.write_str("\"")?;
    f.write_str(text)?;
    f.write_str("\"")
}

/// Returns whether a string needs no escapes between double quotes.
fn is_plain(text: &[u8]) -> bool
    ensures { result ≡ list_all stands_for_itself text.now }
{
    text.iter().all(|byte| is_plain_byte(*byte))
}

/// Returns whether a byte is a printable ASCII character without an escape.
fn is_plain_byte(byte: u8) -> bool
    ensures { result ≡ stands_for_itself byte }
{
    31 < byte && byte < 127 && byte != b'"' && byte != b'\\'
}

/// Prints a byte string as `0x` and two lower-case hexadecimal digits for each byte.
fn show_bytes<W: Write>(held: &Vec<u8>, f: &mut Formatter<W>) -> fmt::Result
    ensures { WritesOnOk W.write_str_gives f.old result
        (codes "0x" ++ hexadecimal (trees (map Byte held.now.items))) f.new }
{
    f.write_str("0x")?;
    for byte in held {
        show_byte(*byte, f)?;
    }
    Ok(())
}

/// Prints a byte as two lower-case hexadecimal digits.
fn show_byte<W: Write>(byte: u8, f: &mut Formatter<W>) -> fmt::Result
    ensures { WritesOnOk W.write_str_gives f.old result
        (digits 16 false (byte / 16) ++ digits 16 false (byte % 16)) f.new }
{
    let high = byte / 16;
    let low = byte % 16;
    write!(f, "{high:x}{low:x}")
}

//! Texts of floats, by their bits: printing and reading.
//!
//! A float is printed as the shortest number that is read as the same float, with a point or an
//! exponent: `1.5`, `-0.0`, `1e30`. The others are `inf`, `-inf` and `nan`. A NaN with other bits
//! than `f32::NAN` or `f64::NAN` has its bits in parentheses: `nan(0x7fc00001)`.

ghost use Rattle.std.specs.Prelude.{◌≡◌, ℕ, ◌^◌, ◌%◌, ◌<◌, ◌++◌, List, IfOk, IfSome, IfNone};
ghost use Rattle.std.specs.Prelude.{MatchResult, true, false};
ghost use Rattle.postcard_value_text.specs.{AllPass, AreNan, EndsFloat, EndsNumber, IsFloatWord};
ghost use Rattle.postcard_value_text.specs.{IsHexadecimal, IsSign, IsTrimAsciiStart, Led};
ghost use Rattle.postcard_value_text.specs.{ShowsFloat, SpellsFloat, TakesPhrase, Then, binary32};
ghost use Rattle.postcard_value_text.specs.{binary64, float_size, format_of, is_of_number};

use crate::error::Stop;
use crate::expected::Expected;
use postcard_schema::{Float, Leaf};
use postcard_schema_text::scan::{skip_blanks, take, take_word};
use ryu::Buffer;
use std::fmt;
use std::fmt::{Formatter, Write};
use std::num::{
    f32_from_bits_with_nan, f32_to_bits_with_nan, f64_from_bits_with_nan, f64_to_bits_with_nan,
};

/// Prints the float of the type with these bits as a text that [`read_float`] reads as the same
/// bits. Bits above the type's width are ignored.
pub fn show_float<W: Write>(float: Float, bits: u64, f: &mut Formatter<W>) -> fmt::Result
    ensures { ShowsFloat (format_of float) (bits % 256 ^ float_size float)
        W.write_str_gives f.old result f.new }
{
    match float {
        Float::F32 => show_f32((bits % (1 << 32)) as u32, f),
        Float::F64 => show_f64(bits, f),
    }
}

fn show_f32<W: Write>(bits: u32, f: &mut Formatter<W>) -> fmt::Result
    ensures { ShowsFloat binary32 bits W.write_str_gives f.old result f.new }
{
    let x = f32_from_bits_with_nan(bits);
    if !x.is_nan() {
        return f.write_str(Buffer::new().format(x));
    }
    if bits == 0x7fc0_0000 {
        return f.write_str("nan");
    }
    write!(f, "nan(0x{bits:x})")
}

fn show_f64<W: Write>(bits: u64, f: &mut Formatter<W>) -> fmt::Result
    ensures { ShowsFloat binary64 bits W.write_str_gives f.old result f.new }
{
    let x = f64_from_bits_with_nan(bits);
    if !x.is_nan() {
        return f.write_str(Buffer::new().format(x));
    }
    if bits == 0x7ff8_0000_0000_0000 {
        return f.write_str("nan");
    }
    write!(f, "nan(0x{bits:x})")
}

/// Takes blanks and then the text of a float of the type, and returns its bits. A number gives the
/// nearest float, and `nan` may give its bits in parentheses.
///
/// # Errors
///
/// Stops at the first byte of `rest` if no float is next. Stops at the bits after `nan(` if these
/// aren't `0x`, hexadecimal digits and `)`.
pub fn read_float(rest: &mut &[u8], float: Float) -> Result<u64, Stop<'static>>
    ensures spelled { IfOk result (λ bits.
        TakesPhrase (SpellsFloat (format_of float) bits) rest.old.now rest.new.now) }
    ensures reads_back { (bits : ℕ) (after : List ℕ)
        → TakesPhrase (SpellsFloat (format_of float) bits) rest.old.now after → EndsFloat after
        → MatchResult result (λ read. (read ≡ bits) × (rest.new.now ≡ after)) (λ stop. ⊥) }
{
    let start = *rest;
    let word = take_number(rest);
    if word == b"nan".as_slice() && take(rest, b'(') {
        let bits = read_code(rest)?;
        if are_nan(float, bits) {
            return Ok(bits);
        }
        return Err(Stop::here(start, Expected::Leaf(Leaf::Float(float))));
    }
    match nearest(float, word) {
        Some(bits) => Ok(bits),
        None => Err(Stop::here(start, Expected::Leaf(Leaf::Float(float)))),
    }
}

/// Returns whether these are the bits of a NaN of the type.
fn are_nan(float: Float, bits: u64) -> bool
    ensures nan { result ≡ true → AreNan (format_of float) bits }
    ensures other { result ≡ false → AreNan (format_of float) bits → ⊥ }
{
    match float {
        Float::F32 => match u32::try_from(bits) {
            Ok(bits) => f32_from_bits_with_nan(bits).is_nan(),
            Err(_) => false,
        },
        Float::F64 => f64_from_bits_with_nan(bits).is_nan(),
    }
}

/// Returns the bits of the float of the type that is nearest to a word's number, or `None` if the
/// word denotes no number.
fn nearest(float: Float, word: &[u8]) -> Option<u64>
    ensures found { IfSome result (λ bits. IsFloatWord (format_of float) bits word.now) }
    ensures none { IfNone result ((bits : ℕ)
        → IsFloatWord (format_of float) bits word.now → ⊥) }
{
    let Ok(text) = str::from_utf8(word) else {
        return None;
    };
    match float {
        Float::F32 => match text.parse::<f32>() {
            Ok(x) => Some(u64::from(f32_to_bits_with_nan(x))),
            Err(_) => None,
        },
        Float::F64 => match text.parse::<f64>() {
            Ok(x) => Some(f64_to_bits_with_nan(x)),
            Err(_) => None,
        },
    }
}

/// Takes `0x`, hexadecimal digits and `)`, and returns the number that the digits denote. Stops at
/// the first byte of `rest` if these aren't next, or if the number does not fit `u64`.
fn read_code(rest: &mut &[u8]) -> Result<u64, Stop<'static>>
    ensures spelled { IfOk result (λ n.
        TakesPhrase (Then (IsHexadecimal n) (IsSign 41)) rest.old.now rest.new.now) }
    ensures below { IfOk result (λ n. n < 2 ^ 64) }
    ensures reads_back { (n : ℕ) (after : List ℕ) → n < 2 ^ 64
        → TakesPhrase (Then (IsHexadecimal n) (IsSign 41)) rest.old.now after
        → MatchResult result (λ read. (read ≡ n) × (rest.new.now ≡ after)) (λ stop. ⊥) }
{
    let start = *rest;
    let Some(digits) = take_word(rest).strip_prefix(b"0x") else {
        return Err(Stop::here(start, Expected::Bits));
    };
    let Ok(text) = str::from_utf8(digits) else {
        return Err(Stop::here(start, Expected::Bits));
    };
    let Ok(code) = u64::from_str_radix(text, 16) else {
        return Err(Stop::here(start, Expected::Bits));
    };
    if take(rest, b')') {
        return Ok(code);
    }
    Err(Stop::here(start, Expected::Bits))
}

/// Takes blanks and then the bytes that may be part of a number, and returns these bytes.
pub(crate) fn take_number<'a>(rest: &mut &'a [u8]) -> &'a [u8]
    ensures bytes { AllPass is_of_number result.now }
    ensures taken { TakesPhrase (Led (λ word. word ≡ result.now)) rest.old.now rest.new.now }
    ensures first { (text : List ℕ) × IsTrimAsciiStart rest.old.now text
        × (text ≡ result.now ++ rest.new.now) }
    ensures whole { EndsNumber rest.new.now }
{
    skip_blanks(rest);
    let all = *rest;
    let mut count = 0;
    'bytes: while count < all.len() && is_of_float(all[count]) {
        count += 1;
    }
    let (word, after) = all.split_at(count);
    *rest = after;
    word
}

/// Returns whether a byte may be part of a number: a letter or a digit of ASCII, `_`, `+`, `-` or
/// `.`.
fn is_of_float(byte: u8) -> bool
    ensures { result ≡ is_of_number byte }
{
    byte.is_ascii_alphanumeric() || matches!(byte, b'_' | b'+' | b'-' | b'.')
}

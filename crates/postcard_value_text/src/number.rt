//! Numbers of the integer types, as texts: integer literals of Rust ([`number_of`]). A `+` may
//! stand before them, and a `-` if the type is signed. So `42`, `+42`, `1_000`, `0x2a`, `-0x2A`,
//! `0b10_1010` and `0o52` are numbers.

ghost use Rattle.std.specs.Prelude.{◌≡◌, ℕ, ℤ, ◌^◌, ◌<◌, List, length, FitsSigned, IfOk, IfErr};
ghost use Rattle.std.specs.Prelude.{IfSome, IfNone, MatchResult, true, false};
ghost use Rattle.postcard_value_text.specs.{EndsNumber, HasBits, IsLiteral, IsSigned, IsUnsigned};
ghost use Rattle.postcard_value_text.specs.{SpellsBits, TakesPhrase, is_signed, w128};
ghost use Rattle.postcard_value_text.specs.{without_leading_plus};

use crate::error::Stop;
use crate::expected::Expected;
use crate::float::take_number;
use postcard_schema::{Integer, Leaf};
use postcard_schema_text::literal::number_of;
use postcard_value::numbers::{are_bits, bits_of};

/// Takes blanks and then a number of the type, and returns its bits. Stops at the first byte of
/// `rest` if no number of the type is next.
pub fn read_bits(rest: &mut &[u8], integer: Integer) -> Result<u128, Stop<'static>>
    ensures spelled { IfOk result (λ n. TakesPhrase (SpellsBits (is_signed integer) integer n)
        rest.old.now rest.new.now) }
    ensures accepted { (n : ℕ) (after : List ℕ)
        → TakesPhrase (SpellsBits (is_signed integer) integer n) rest.old.now after
        → EndsNumber after → MatchResult result (λ bits. (bits ≡ n) × (rest.new.now ≡ after))
        (λ stop. ⊥) }
    ensures stops { IfErr result (λ stop.
        stop ≡ Stop.At (length rest.old.now) (Expected.Leaf (Leaf.Integer integer))) }
{
    let start = *rest;
    match bits_in(take_number(rest), integer) {
        Some(bits) => Ok(bits),
        None => Err(Stop::here(start, Expected::Leaf(Leaf::Integer(integer)))),
    }
}

/// Returns the bits of the number of the type that a word denotes, or `None` if it denotes none.
fn bits_in(word: &[u8], integer: Integer) -> Option<u128>
    ensures found { IfSome result (λ n. HasBits (is_signed integer) integer n word.now) }
    ensures none { IfNone result ((n : ℕ)
        → HasBits (is_signed integer) integer n word.now → ⊥) }
{
    if integer.is_signed() {
        signed_bits(word, integer)
    } else {
        unsigned_bits(word, integer)
    }
}

fn signed_bits(word: &[u8], integer: Integer) -> Option<u128>
    ensures found { IfSome result (λ n. HasBits true integer n word.now) }
    ensures none { IfNone result ((n : ℕ) → HasBits true integer n word.now → ⊥) }
{
    match signed(word) {
        Some(z) => bits_of(integer, z),
        None => None,
    }
}

fn unsigned_bits(word: &[u8], integer: Integer) -> Option<u128>
    ensures found { IfSome result (λ n. HasBits false integer n word.now) }
    ensures none { IfNone result ((n : ℕ) → HasBits false integer n word.now → ⊥) }
{
    match magnitude(after_plus(word)) {
        Some(n) => { if are_bits(integer, n) { Some(n) } else { None } }
        None => None,
    }
}

/// Returns the number that a word denotes, or `None` if it denotes none that fits `i128`. The word
/// may begin with `-` or `+`.
fn signed(word: &[u8]) -> Option<i128>
    ensures found { IfSome result (λ z. IsSigned z word.now) }
    ensures none { IfNone result ((z : ℤ) → FitsSigned w128 z → IsSigned z word.now → ⊥) }
{
    match word.strip_prefix(b"-") {
        Some(digits) => match magnitude(digits) {
            Some(n) => 0i128.checked_sub_unsigned(n),
            None => None,
        },
        None => match magnitude(after_plus(word)) {
            Some(n) => 0i128.checked_add_unsigned(n),
            None => None,
        },
    }
}

/// Returns a word without its leading `+`, if it has one.
fn after_plus(word: &[u8]) -> &[u8]
    ensures { result.now ≡ without_leading_plus word.now }
{
    match word.strip_prefix(b"+") {
        Some(digits) => digits,
        None => word,
    }
}

/// Returns the number that a word without a sign denotes, or `None` if it denotes none that fits
/// `u128`.
fn magnitude(word: &[u8]) -> Option<u128>
    ensures found { IfSome result (λ n. IsLiteral n word.now) }
    ensures none { IfNone result ((n : ℕ) → n < 2 ^ 128 → IsLiteral n word.now → ⊥) }
{
    match number_of(word) {
        Ok(n) => Some(n),
        Err(_) => None,
    }
}

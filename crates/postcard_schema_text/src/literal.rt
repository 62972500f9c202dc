//! Numbers as Rust writes them: the integer literals without the name of a type at their end.
//!
//! The digits are decimal, after `0b` binary, after `0o` octal, and after `0x` hexadecimal, in
//! either case. A `_` may stand after any digit, and before the first one after `0b`, `0o` or `0x`:
//! `1_024`, `0b1010`, `0o17`, `0xdead_beef`, `0x_ff`.

ghost use Rattle.std.specs.Prelude.{◌≡◌, ◌⊎◌, ℕ, ◌^◌, ◌<◌, ◌≤◌, List, ◌∷◌, Decides, IfOk, IfErr};
ghost use Rattle.std.specs.Prelude.{IfSome, IfNone, SomeIff, slice_index};
ghost use Rattle.postcard_schema_text.specs.{AllPass, AreDigits, IsLiteral, IsNoNumber, IsNumeral};
ghost use Rattle.postcard_schema_text.specs.{digit_value, is_of_digits, is_underscore, radix_of};
ghost use Rattle.postcard_schema_text.specs.{with_byte, without_underscores};

/// Why a word denotes no number that fits.
#[derive(Clone, Copy, Debug, PartialEq, Eq)]
pub enum LiteralError {
    /// The word is no integer literal.
    Malformed,
    /// The number is 2^128 or more.
    TooLarge,
}

/// Returns the number that a word denotes. Fails with `Malformed` if the word is no integer
/// literal, and with `TooLarge` if it is one of a number that `u128` doesn't hold.
pub fn number_of(word: &[u8]) -> Result<u128, LiteralError>
    ensures spelled { IfOk result (λ n. IsLiteral n word.now) }
    ensures refused { IfErr result (λ e. IsNoNumber (λ n. IsLiteral n word.now) e) }
{
    match marked(word) {
        Some((radix, digits)) => digits_of(digits, radix),
        None if word.starts_with(b"_") => Err(LiteralError::Malformed),
        None => digits_of(word, 10),
    }
}

/// Returns the radix that `0` and a letter at the start of a word stand for, and the bytes after
/// them. Returns `None` if they stand for no radix.
fn marked(word: &[u8]) -> Option<(u32, &[u8])>
    ensures found { IfSome result (λ found. (found.0 ≡ radix_of (slice_index word.now 1))
        × (word.now ≡ 48 ∷ slice_index word.now 1 ∷ found.1.now)) }
    ensures low { IfSome result (λ found. 2 ≤ found.0) }
    ensures high { IfSome result (λ found. found.0 ≤ 16) }
    ensures none { IfNone result ((letter : ℕ) (digits : List ℕ)
        → word.now ≡ 48 ∷ letter ∷ digits → radix_of letter ≡ 0) }
{
    match word {
        [b'0', b'b', digits @ ..] => Some((2, digits)),
        [b'0', b'o', digits @ ..] => Some((8, digits)),
        [b'0', b'x', digits @ ..] => Some((16, digits)),
        _ => None,
    }
}

/// Returns the number that digits of a radix denote. Fails as [`number_of`] does.
fn digits_of(digits: &[u8], radix: u32) -> Result<u128, LiteralError>
    requires low { 2 ≤ radix }
    requires high { radix ≤ 16 }
    ensures spelled { IfOk result (λ n. AreDigits radix n digits.now) }
    ensures refused { IfErr result (λ e. IsNoNumber (λ n. AreDigits radix n digits.now) e) }
{
    if !are_digits(digits, radix) {
        return Err(LiteralError::Malformed);
    }
    let mut number: u128 = 0;
    for byte in digits {
        number = match with_digit(number, *byte, radix) {
            Some(number) => number,
            None => return Err(LiteralError::TooLarge),
        };
    }
    Ok(number)
}

/// Returns the number with one more digit of the radix appended. A `_` leaves it unchanged. Returns
/// `None` if it is then 2^128 or more.
fn with_digit(number: u128, byte: u8, radix: u32) -> Option<u128>
    requires low { 2 ≤ radix }
    requires high { radix ≤ 16 }
    requires digit { (byte ≡ 95) ⊎ (digit_value byte < radix) }
    ensures { SomeIff result (with_byte radix number byte < 2 ^ 128) (with_byte radix number byte) }
{
    if byte == b'_' {
        return Some(number);
    }
    let digit = char::from(byte).to_digit(radix)?;
    number
        .checked_mul(u128::from(radix))?
        .checked_add(u128::from(digit))
}

/// Returns whether the bytes are digits of the radix and `_`, of which at least one is a digit.
fn are_digits(bytes: &[u8], radix: u32) -> bool
    requires low { 2 ≤ radix }
    requires high { radix ≤ 16 }
    ensures { Decides result (IsNumeral radix (without_underscores bytes.now)) }
{
    !are_underscores(bytes) && are_of_digits(bytes, radix)
}

fn are_underscores(bytes: &[u8]) -> bool
    ensures { Decides result (AllPass is_underscore bytes.now) }
{
    bytes.iter().all(|byte| *byte == b'_')
}

fn are_of_digits(bytes: &[u8], radix: u32) -> bool
    requires low { 2 ≤ radix }
    requires high { radix ≤ 16 }
    ensures { Decides result (AllPass (is_of_digits radix) bytes.now) }
{
    bytes
        .iter()
        .all(|byte| *byte == b'_' || char::from(*byte).is_digit(radix))
}

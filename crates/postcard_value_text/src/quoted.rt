//! Reading quoted texts and characters, and the digits of byte strings.

ghost use Rattle.std.specs.Prelude.{◌≡◌, ◌≢◌, ◌+◌, ◌*◌, ◌<◌, ◌⊎◌, ℕ, List, [], ◌∷◌, ◌++◌, length};
ghost use Rattle.std.specs.Prelude.{IfOk, IfErr, IfSome, IfNone, OnOk, OnErr, MatchResult, false};
ghost use Rattle.std.specs.Prelude.{IsUtf8, string_bytes};
ghost use Rattle.postcard_value_text.specs.{AreDigitsOf, IsCode, IsEscape, IsQuoted, IsScalar};
ghost use Rattle.postcard_value_text.specs.{ReadsAs, StandsFor, TakesPhrase, digit_value};
ghost use Rattle.postcard_value_text.specs.{encode_utf8, is_ascii_whitespace};

use crate::error::Stop;
use crate::expected::Expected;
use postcard_schema::Leaf;
use postcard_schema_text::scan::take;
use std::alloc::Global;

/// Takes blanks, and then a text between two bytes `quote`, which may have the escapes `\n`, `\r`,
/// `\t`, `\0`, `\\`, `\'`, `\"` and `\u{..}`. Returns the text with the escapes replaced. If the
/// first `quote` is missing, the stop says that a value of `leaf` is expected. Stops where the text
/// stops being one, and with `Memory` if an allocation fails.
pub fn take_quoted(
    alloc: Global,
    rest: &mut &[u8],
    quote: u8,
    leaf: Leaf,
) -> Result<String, Stop<'static>>
    ensures spelled { IfOk result (λ text.
        TakesPhrase (IsQuoted quote (string_bytes text)) rest.old.now rest.new.now) }
    ensures accepted { is_ascii_whitespace quote ≡ false → quote ≢ 92
        → (held : List ℕ) (after : List ℕ) → IsUtf8 held
        → TakesPhrase (IsQuoted quote held) rest.old.now after
        → ReadsAs (λ text. string_bytes text ≡ held) result rest.new.now after }
{
    if !take(rest, quote) {
        return Err(Stop::here(rest, Expected::Leaf(leaf)));
    }
    let mut bytes = Vec::new(alloc);
    for _ in 0..rest.len() {
        let first = take_byte(rest, Expected::Sign(quote))?;
        if first == quote {
            return match String::from_utf8(bytes) {
                Ok(text) => Ok(text),
                Err(_) => Err(Stop::here(rest, Expected::Leaf(leaf))),
            };
        }
        if first == b'\\' {
            take_escape(rest, &mut bytes)?;
        } else {
            push(&mut bytes, first)?;
        }
    }
    Err(Stop::here(rest, Expected::Sign(quote)))
}

/// Takes the next byte, or stops at the end of the text, where this is expected.
fn take_byte(rest: &mut &[u8], expected: Expected<'static>) -> Result<u8, Stop<'static>>
    ensures taken { IfOk result (λ byte. rest.old.now ≡ byte ∷ rest.new.now) }
    ensures ended { IfErr result (λ stop. (stop ≡ Stop.At 0 expected.entry)
        × (rest.old.now ≡ []) × (rest.new.now ≡ [])) }
{
    match rest.split_first() {
        Some((first, after)) => {
            let byte = *first;
            *rest = after;
            Ok(byte)
        }
        None => Err(Stop::here(rest, expected)),
    }
}

/// Takes an escape after its `\`, and appends the character that it stands for to `bytes`. Stops as
/// [`take_quoted`] does.
fn take_escape(rest: &mut &[u8], bytes: &mut Vec<u8>) -> Result<(), Stop<'static>>
    ensures taken { OnOk result ((held : List ℕ) × (bytes.new.items ≡ bytes.old.items ++ held)
        × TakesPhrase (IsEscape held) rest.old.now rest.new.now) }
    ensures accepted { (held : List ℕ) (after : List ℕ)
        → TakesPhrase (IsEscape held) rest.old.now after
        → ReadsAs (λ done. bytes.new.items ≡ bytes.old.items ++ held) result rest.new.now after }
{
    let start = *rest;
    let letter = take_byte(rest, Expected::Escape)?;
    if letter == b'u' {
        let c = take_code(rest)?;
        return push_character(bytes, c);
    }
    match short_escape(letter) {
        Some(byte) => push(bytes, byte),
        None => Err(Stop::here(start, Expected::Escape)),
    }
}

/// Returns the byte that a letter after `\` stands for, or `None` if it stands for none.
fn short_escape(letter: u8) -> Option<u8>
    ensures found { IfSome result (StandsFor letter) }
    ensures none { IfNone result ((byte : ℕ) → StandsFor letter byte → ⊥) }
{
    match letter {
        b'n' => Some(b'\n'),
        b'r' => Some(b'\r'),
        b't' => Some(b'\t'),
        b'0' => Some(0),
        b'\\' => Some(b'\\'),
        b'\'' => Some(b'\''),
        b'"' => Some(b'"'),
        _ => None,
    }
}

/// Takes `{`, one to six hexadecimal digits and `}`, and returns the character with this code.
/// Stops at the first byte of `rest` if something else is next, and at the end of the text if it
/// ends before the `}`.
fn take_code(rest: &mut &[u8]) -> Result<char, Stop<'static>>
    ensures code { IfOk result (λ c. TakesPhrase (IsCode c) rest.old.now rest.new.now) }
    ensures accepted { (c : ℕ) (after : List ℕ) → TakesPhrase (IsCode c) rest.old.now after
        → MatchResult result (λ read. (read ≡ c) × (rest.new.now ≡ after)) (λ stop. ⊥) }
    ensures place { IfErr result (λ stop. (stop ≡ Stop.At (length rest.old.now) Expected.Code)
        ⊎ ((stop ≡ Stop.At 0 Expected.Code) × (rest.new.now ≡ []))) }
{
    let start = *rest;
    if take_byte(rest, Expected::Code)? != b'{' {
        return Err(Stop::here(start, Expected::Code));
    }
    let mut code: u32 = 0;
    for count in 0..7usize {
        let byte = take_byte(rest, Expected::Code)?;
        if byte == b'}' {
            return character(code, count, start);
        }
        let digit = digit_of(byte, start, Expected::Code)?;
        code = code * 16 + u32::from(digit);
    }
    Err(Stop::here(start, Expected::Code))
}

/// Returns the character of a code of `count` digits. Stops at the first byte of `start` if `count`
/// is 0 or no character has the code.
fn character(code: u32, count: usize, start: &[u8]) -> Result<char, Stop<'static>>
    ensures found { IfOk result (λ c. (0 < count) × IsScalar code × (c ≡ code)) }
    ensures refused { IfErr result (λ stop. stop ≡ Stop.At (length start.now) Expected.Code) }
    ensures none { OnErr result (0 < count → IsScalar code → ⊥) }
{
    if count == 0 {
        return Err(Stop::here(start, Expected::Code));
    }
    match char::from_u32(code) {
        Some(c) => Ok(c),
        None => Err(Stop::here(start, Expected::Code)),
    }
}

/// Returns the bytes of hexadecimal digits of either case, two for each byte. Stops at the first
/// byte of `start` if a digit is missing or isn't hexadecimal, and with `Memory` if an allocation
/// fails.
pub fn bytes_of(alloc: Global, digits: &[u8], start: &[u8]) -> Result<Vec<u8>, Stop<'static>>
    ensures held { IfOk result (λ held. AreDigitsOf held.items digits.now) }
    ensures refused { IfErr result (λ stop. (stop ≡ Stop.Memory)
        ⊎ ((stop ≡ Stop.At (length start.now) (Expected.Leaf Leaf.Bytes))
        × ((held : List ℕ) → AreDigitsOf held digits.now → ⊥))) }
{
    if digits.len() % 2 != 0 {
        return Err(Stop::here(start, Expected::Leaf(Leaf::Bytes)));
    }
    let mut bytes = Vec::new(alloc);
    let mut rest = digits;
    for _ in 0..digits.len() / 2 {
        let high = take_digit(&mut rest, start)?;
        let low = take_digit(&mut rest, start)?;
        push(&mut bytes, high * 16 + low)?;
    }
    Ok(bytes)
}

/// Takes the next hexadecimal digit and returns its value, which is below 16. Stops at the first
/// byte of `start` if there is none.
fn take_digit(rest: &mut &[u8], start: &[u8]) -> Result<u8, Stop<'static>>
    ensures taken { IfOk result (λ digit. (byte : ℕ) × (rest.old.now ≡ byte ∷ rest.new.now)
        × (digit_value byte < 16) × (digit ≡ digit_value byte)) }
    ensures refused { IfErr result (λ stop. (stop ≡ Stop.At (length start.now) (Expected.Leaf Leaf.Bytes))
        × ((byte : ℕ) (after : List ℕ) → rest.old.now ≡ byte ∷ after → digit_value byte < 16 → ⊥)) }
{
    match rest.split_first() {
        Some((first, after)) => {
            let digit = digit_of(*first, start, Expected::Leaf(Leaf::Bytes))?;
            *rest = after;
            Ok(digit)
        }
        None => Err(Stop::here(start, Expected::Leaf(Leaf::Bytes))),
    }
}

/// Returns the value of a hexadecimal digit, which is below 16. Stops at the first byte of `start`
/// if the byte is no such digit.
fn digit_of(byte: u8, start: &[u8], expected: Expected<'static>) -> Result<u8, Stop<'static>>
    ensures digit { IfOk result (λ digit. (digit < 16) × (digit ≡ digit_value byte)) }
    ensures refused { IfErr result (λ stop. (stop ≡ Stop.At (length start.now) expected.entry)
        × (digit_value byte < 16 → ⊥)) }
{
    match char::from(byte).to_digit(16) {
        Some(digit) => Ok((digit % 16) as u8),
        None => Err(Stop::here(start, expected)),
    }
}

fn push(bytes: &mut Vec<u8>, byte: u8) -> Result<(), Stop<'static>>
    ensures added { OnOk result (bytes.new.items ≡ bytes.old.items ++ byte ∷ []) }
    ensures only_out_of_memory { IfErr result (λ stop. stop ≡ Stop.Memory) }
{
    match bytes.push(byte) {
        Ok(()) => Ok(()),
        Err(_) => Err(Stop::Memory),
    }
}

/// Appends a character's UTF-8, or stops with `Memory`.
fn push_character(bytes: &mut Vec<u8>, c: char) -> Result<(), Stop<'static>>
    ensures added { OnOk result (bytes.new.items ≡ bytes.old.items ++ encode_utf8 c) }
    ensures only_out_of_memory { IfErr result (λ stop. stop ≡ Stop.Memory) }
{
    let mut room = [0; 4];
    match bytes.extend_from_slice(c.encode_utf8(&mut room).as_bytes()) {
        Ok(()) => Ok(()),
        Err(_) => Err(Stop::Memory),
    }
}

//! Taking the signs and names around values from the start of a text.

ghost use Rattle.std.specs.Prelude.{◌≡◌, ◌≢◌, ℕ, ◌<◌, ◌++◌, ◌∷◌, true, false, List, length};
ghost use Rattle.std.specs.Prelude.{IfSome, IfNone, MatchResult, OnOk};
ghost use Rattle.postcard_value_text.specs.{EndsWord, IsFieldName, IsMaybe, IsQuotedName, IsSign};
ghost use Rattle.postcard_value_text.specs.{IsWord, TakesPhrase, Then, Unless};
ghost use Rattle.postcard_value_text.specs.{is_ascii_whitespace};

use crate::error::Stop;
use crate::expected::Expected;
use postcard_schema_text::scan::{skip_blanks, take, take_word};

/// Takes blanks and then this byte. If another byte follows the blanks, stops there with
/// `expected`.
pub fn expect<'a>(rest: &mut &[u8], byte: u8, expected: Expected<'a>) -> Result<(), Stop<'a>>
    ensures taken { OnOk result (TakesPhrase (IsSign byte) rest.old.now rest.new.now) }
    ensures accepted { (after : List ℕ) → is_ascii_whitespace byte ≡ false
        → TakesPhrase (IsSign byte) rest.old.now after
        → MatchResult result (λ done. rest.new.now ≡ after) (λ stop. ⊥) }
{
    if take(rest, byte) {
        return Ok(());
    }
    skip_blanks(rest);
    Err(Stop::here(rest, expected))
}

/// Takes the next word if it is `name`, and returns whether it is. Else it takes nothing.
pub fn take_name(rest: &mut &[u8], name: &[u8]) -> bool
    ensures taken { result ≡ true → TakesPhrase (IsWord name.now) rest.old.now rest.new.now }
    ensures one { result ≡ true → 0 < length name.now → (after : List ℕ)
        → TakesPhrase (IsWord name.now) rest.old.now after → EndsWord after → rest.new.now ≡ after }
    ensures left { result ≡ false → rest.new.now ≡ rest.old.now }
    ensures none { result ≡ false → 0 < length name.now → (after : List ℕ)
        → TakesPhrase (IsWord name.now) rest.old.now after → EndsWord after → ⊥ }
{
    let start = *rest;
    if take_word(rest) == name {
        return true;
    }
    *rest = start;
    false
}

/// Takes the name of a field if it is next, alone or between double quotes, and returns whether it
/// is. Else it takes nothing.
pub fn take_field(rest: &mut &[u8], name: &[u8]) -> bool
    ensures taken { result ≡ true → TakesPhrase (IsFieldName name.now) rest.old.now rest.new.now }
    ensures one { result ≡ true → 0 < length name.now → (after : List ℕ)
        → TakesPhrase (IsFieldName name.now) rest.old.now after → EndsWord after
        → rest.new.now ≡ after }
    ensures left { result ≡ false → rest.new.now ≡ rest.old.now }
    ensures none { result ≡ false → 0 < length name.now → (after : List ℕ)
        → TakesPhrase (IsFieldName name.now) rest.old.now after → EndsWord after → ⊥ }
{
    if take_name(rest, name) {
        return true;
    }
    take_quoted_name(rest, name)
}

/// Takes blanks and then `name` between double quotes, if these are next, and returns whether they
/// are. Else it takes nothing.
fn take_quoted_name(rest: &mut &[u8], name: &[u8]) -> bool
    ensures taken { result ≡ true → TakesPhrase (IsQuotedName name.now) rest.old.now rest.new.now }
    ensures one { result ≡ true → (after : List ℕ)
        → TakesPhrase (IsQuotedName name.now) rest.old.now after → rest.new.now ≡ after }
    ensures left { result ≡ false → rest.new.now ≡ rest.old.now }
    ensures none { result ≡ false → (after : List ℕ)
        → TakesPhrase (IsQuotedName name.now) rest.old.now after → ⊥ }
{
    let start = *rest;
    if !take(rest, b'"') {
        return false;
    }
    match after_name(rest, name) {
        Some(after) => {
            *rest = after;
            true
        }
        None => {
            *rest = start;
            false
        }
    }
}

/// Returns the text after `name` and a double quote, or `None` if the text doesn't begin with
/// these.
fn after_name<'a>(text: &'a [u8], name: &[u8]) -> Option<&'a [u8]>
    ensures found { IfSome result (λ after. text.now ≡ name.now ++ 34 ∷ after.now) }
    ensures none { IfNone result ((after : List ℕ) → text.now ≡ name.now ++ 34 ∷ after → ⊥) }
{
    match text.strip_prefix(name) {
        Some(after) => after.strip_prefix(b"\""),
        None => None,
    }
}

/// Takes the `,` that may follow the last part, if there is a part, and the closing bracket.
pub fn close_parts(rest: &mut &[u8], are_none: bool, closing: u8) -> Result<(), Stop<'static>>
    ensures taken { OnOk result (TakesPhrase (Then (Unless are_none (IsMaybe 44)) (IsSign closing))
        rest.old.now rest.new.now) }
    ensures accepted { (after : List ℕ) → is_ascii_whitespace closing ≡ false → closing ≢ 44
        → TakesPhrase (Then (Unless are_none (IsMaybe 44)) (IsSign closing)) rest.old.now after
        → MatchResult result (λ done. rest.new.now ≡ after) (λ stop. ⊥) }
{
    if !are_none {
        let _ = take(rest, b',');
    }
    expect(rest, closing, Expected::Sign(closing))
}

/// Takes the `,` before a part, or nothing before the first one. If the `,` is missing, stops there
/// with `expected`.
pub fn separate<'a>(
    rest: &mut &[u8],
    is_first: bool,
    expected: Expected<'a>,
) -> Result<(), Stop<'a>>
    ensures taken { OnOk result (TakesPhrase (Unless is_first (IsSign 44))
        rest.old.now rest.new.now) }
    ensures accepted { (after : List ℕ)
        → TakesPhrase (Unless is_first (IsSign 44)) rest.old.now after
        → MatchResult result (λ done. rest.new.now ≡ after) (λ stop. ⊥) }
{
    if is_first {
        return Ok(());
    }
    expect(rest, b',', expected)
}

/// Takes the `=>` between a key and its value.
pub fn take_arrow(rest: &mut &[u8]) -> Result<(), Stop<'static>>
    ensures taken { OnOk result (TakesPhrase (Then (IsSign 61) (IsSign 62))
        rest.old.now rest.new.now) }
    ensures accepted { (after : List ℕ)
        → TakesPhrase (Then (IsSign 61) (IsSign 62)) rest.old.now after
        → MatchResult result (λ done. rest.new.now ≡ after) (λ stop. ⊥) }
{
    expect(rest, b'=', Expected::Arrow)?;
    expect(rest, b'>', Expected::Arrow)
}

/// Takes the name of a field and `:`.
pub fn take_label<'a>(rest: &mut &[u8], name: &'a str) -> Result<(), Stop<'a>>
    ensures taken { OnOk result (TakesPhrase (Then (IsFieldName name.now) (IsSign 58))
        rest.old.now rest.new.now) }
    ensures accepted { 0 < length name.now → (after : List ℕ)
        → TakesPhrase (Then (IsFieldName name.now) (IsSign 58)) rest.old.now after
        → MatchResult result (λ done. rest.new.now ≡ after) (λ stop. ⊥) }
{
    skip_blanks(rest);
    if !take_field(rest, name.as_bytes()) {
        return Err(Stop::here(rest, Expected::Field(name)));
    }
    expect(rest, b':', Expected::Sign(b':'))
}

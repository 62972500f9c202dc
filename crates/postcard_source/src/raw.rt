//! Raw literals: `r"a"`, and with any number of `#`, as `r#"a " b"#`. In them a `\` is a letter.

ghost use Rattle.std.specs.Prelude.{◌≡◌, ℕ, List, ◌∷◌, ◌++◌, false, Decides, IfOk, IfErr, IfSome};
ghost use Rattle.std.specs.Prelude.{IfNone};
ghost use Rattle.postcard_source.specs.{IsHashFront, IsRaw, IsRawOpening, IsRawPrefix};
ghost use Rattle.postcard_source.specs.{IsRawQuoted, is_of_type};

use crate::error::{FileProblem, ProblemAt};
use crate::lex::{after_byte, word_front};

/// Returns the raw literal that the text begins with, and the text after it, or `None` if none
/// begins it. Fails with `LiteralOpen` if it isn't closed.
pub fn raw_front(text: &[u8]) -> Result<Option<(&[u8], &[u8])>, ProblemAt>
    ensures read { IfOk result (λ found. IfSome found (λ f. IsRaw f.0.now text.now f.1.now)) }
    ensures none { IfOk result (λ found. IfNone found ((hashes inner : List ℕ)
        → IsRawOpening hashes text.now inner → ⊥)) }
    ensures other { IfErr result (λ e. is_of_type e.problem ≡ false) }
{
    let left = text.len();
    let Some((hashes, inner)) = raw_opening(text) else {
        return Ok(None);
    };
    let Some(rest) = after_raw(inner, hashes) else {
        return Err(ProblemAt {
            problem: FileProblem::LiteralOpen,
            left,
        });
    };
    let (literal, _) = text.split_at(left.saturating_sub(rest.len()));
    Ok(Some((literal, rest)))
}

/// Returns the `#` that the raw literal has that the text begins with, and the text after its first
/// quote, or `None` if no raw literal begins it.
fn raw_opening(text: &[u8]) -> Option<(&[u8], &[u8])>
    ensures found { IfSome result (λ f. IsRawOpening f.0.now text.now f.1.now) }
    ensures none { IfNone result ((hashes inner : List ℕ)
        → IsRawOpening hashes text.now inner → ⊥) }
{
    let (word, after) = word_front(text);
    if !is_raw_prefix(word) {
        return None;
    }
    let (hashes, quoted) = hashes_front(after);
    match after_byte(quoted, b'"') {
        Some(inner) => Some((hashes, inner)),
        None => None,
    }
}

fn is_raw_prefix(word: &[u8]) -> bool
    ensures { Decides result (IsRawPrefix word.now) }
{
    matches!(word, b"r" | b"br" | b"cr")
}

/// Returns the `#` that the text begins with, and the text after them.
fn hashes_front(text: &[u8]) -> (&[u8], &[u8])
    ensures { IsHashFront result.0.now text.now result.1.now }
{
    let mut count = 0;
    'hashes: while count < text.len() && text[count] == b'#' {
        count += 1;
    }
    text.split_at(count)
}

/// Returns the text after the letters of a raw literal, and its last quote and `#`.
fn after_raw<'a>(text: &'a [u8], hashes: &[u8]) -> Option<&'a [u8]>
    ensures { IfSome result (λ rest. IsRawQuoted hashes.now text.now rest.now) }
{
    let mut rest = text;
    for _ in 0..text.len() {
        if let Some(after) = after_end(rest, hashes) {
            return Some(after);
        }
        let Some((_, next)) = rest.split_first() else {
            return None;
        };
        rest = next;
    }
    None
}

/// Returns the text after a quote and these `#`.
fn after_end<'a>(text: &'a [u8], hashes: &[u8]) -> Option<&'a [u8]>
    ensures found { IfSome result (λ rest. text.now ≡ 34 ∷ hashes.now ++ rest.now) }
    ensures none { IfNone result ((rest : List ℕ) → text.now ≡ 34 ∷ hashes.now ++ rest → ⊥) }
{
    match after_byte(text, b'"') {
        Some(rest) => after_bytes(rest, hashes),
        None => None,
    }
}

/// Returns the text after these bytes, or `None` if it doesn't begin with them.
fn after_bytes<'a>(text: &'a [u8], bytes: &[u8]) -> Option<&'a [u8]>
    ensures found { IfSome result (λ rest. text.now ≡ bytes.now ++ rest.now) }
    ensures none { IfNone result ((rest : List ℕ) → text.now ≡ bytes.now ++ rest → ⊥) }
{
    if bytes.len() > text.len() {
        return None;
    }
    let (front, rest) = text.split_at(bytes.len());
    if front == bytes {
        return Some(rest);
    }
    None
}

//! The tokens of a file: its words, signs and literals, without blanks, comments and lifetimes.
//!
//! A function `after_..` returns the text after what its name says, or `None` if the text doesn't
//! begin with that.

ghost use Rattle.std.specs.Prelude.{◌≡◌, ℕ, ◌<◌, List, ◌∷◌, length, false, IfOk, IfErr, IfSome};
ghost use Rattle.std.specs.Prelude.{IfNone, ◌⊎◌, []};
ghost use Rattle.postcard_source.specs.{Begins, CommentStep, HasDepth, IsBlank, IsBlockComment};
ghost use Rattle.postcard_source.specs.{IsGap, IsLetter, IsLifetime, IsLineComment, IsLiteral};
ghost use Rattle.postcard_source.specs.{IsOtherAt, IsPlainAt, IsQuoted, IsRead, IsSignAt};
ghost use Rattle.postcard_source.specs.{IsTokenAt, IsWordFront, ReadStep, is_of_type};
ghost use Rattle.postcard_source.specs.{is_of_word_byte};

use crate::error::{FileProblem, ProblemAt, out_of_memory};
use crate::raw::raw_front;
use crate::token::Token;
use std::alloc::Global;

/// Returns the tokens of a file, in order. Fails with `CommentOpen` or `LiteralOpen` where one
/// begins that isn't closed, with `NotOpen` at a bracket that is closed and isn't open, with
/// `BracketOpen` at one that isn't closed, and with `OutOfMemory`.
pub fn tokens<'a>(alloc: Global, file: &'a [u8]) -> Result<Vec<Token<'a>>, ProblemAt>
    ensures read { IfOk result (λ tokens. IsRead file.now tokens.items) }
    ensures other { IfErr result (λ e. is_of_type e.problem ≡ false) }
{
    let mut tokens = Vec::new(alloc);
    let mut rest = file;
    let mut depth = 0;
    'steps: while !rest.is_empty() {
        let (after, around) = read_next(rest, depth, &mut tokens)?;
        rest = after;
        depth = around;
    }
    closed(tokens, depth)
}

/// Returns the tokens of the whole file, or fails with `BracketOpen` if brackets are open at its
/// end.
fn closed(tokens: Vec<Token>, depth: usize) -> Result<Vec<Token>, ProblemAt>
    ensures closed { IfOk result (λ all. (all.items ≡ tokens.entry.items) × (depth ≡ 0)) }
    ensures other { IfErr result (λ e. is_of_type e.problem ≡ false) }
{
    if depth > 0 {
        return Err(ProblemAt {
            problem: FileProblem::BracketOpen,
            left: last_within(tokens.as_slice(), depth),
        });
    }
    Ok(tokens)
}

/// Returns the place of the last token with fewer brackets around it than these, or 0 if there is
/// none.
fn last_within(tokens: &[Token], depth: usize) -> usize {
    let mut left = 0;
    for token in tokens {
        if token.depth < depth {
            left = token.left;
        }
    }
    left
}

/// Reads a gap, or else a token, which it adds to the end of the list, where `depth` brackets are
/// open. Returns the text after it, and how many are open there. Fails as [`tokens`] does.
fn read_next<'a>(
    text: &'a [u8],
    depth: usize,
    tokens: &mut Vec<Token<'a>>,
) -> Result<(&'a [u8], usize), ProblemAt>
    ensures read { IfOk result (λ found. ReadStep (text.now, depth, tokens.old.items)
        (found.0.now, found.1, tokens.new.items)) }
    ensures shorter { IfOk result (λ found. length found.0.now < length text.now) }
    ensures other { IfErr result (λ e. is_of_type e.problem ≡ false) }
{
    let left = text.len();
    if let Some(rest) = after_gap(text)? {
        return Ok((rest, depth));
    }
    let (word, rest) = token_front(text)?;
    let Some((around, after)) = depths(word, depth) else {
        return Err(ProblemAt {
            problem: FileProblem::NotOpen,
            left,
        });
    };
    match tokens.push(Token {
        text: word,
        depth: around,
        left,
    }) {
        Ok(()) => Ok((rest, after)),
        Err(_) => Err(out_of_memory(left)),
    }
}

/// Returns how many brackets are open around the word or sign, and after it, where `depth` are open
/// before. Returns `None` if the number would leave `usize`, as when one is closed and none is
/// open.
#[tactic(auto, unfolding(crate::specs::Lexical::HasDepth))]
fn depths(word: &[u8], depth: usize) -> Option<(usize, usize)>
    ensures { IfSome result (λ found. HasDepth word.now depth found.0 found.1) }
{
    match word {
        b"(" | b"[" | b"{" => match depth.checked_add(1) {
            Some(after) => Some((depth, after)),
            None => None,
        },
        b")" | b"]" | b"}" => match depth.checked_sub(1) {
            Some(after) => Some((after, after)),
            None => None,
        },
        _ => Some((depth, depth)),
    }
}

/// A gap is a blank, a comment of either kind, or a lifetime and the comma after it, if there is
/// one. Fails with `CommentOpen` at a block comment that isn't closed.
#[tactic(auto, unfolding(crate::specs::Lexical::IsGap))]
fn after_gap(text: &[u8]) -> Result<Option<&[u8]>, ProblemAt>
    ensures found { IfOk result (λ found. IfSome found (λ rest. IsGap text.now rest.now)) }
    ensures none { IfOk result (λ found. IfNone found ((rest : List ℕ) → IsGap text.now rest → ⊥)) }
    ensures other { IfErr result (λ e. is_of_type e.problem ≡ false) }
{
    if let Some(rest) = after_blank(text) {
        return Ok(Some(rest));
    }
    if let Some(rest) = after_line_comment(text) {
        return Ok(Some(rest));
    }
    if let Some(rest) = after_lifetime(text) {
        return Ok(Some(rest));
    }
    after_block_comment(text)
}

fn after_blank(text: &[u8]) -> Option<&[u8]>
    ensures found { IfSome result (λ rest. IsBlank text.now rest.now) }
    ensures none { IfNone result ((rest : List ℕ) → IsBlank text.now rest → ⊥) }
{
    match text.split_first() {
        Some((first, rest)) if first.is_ascii_whitespace() => Some(rest),
        _ => None,
    }
}

pub(crate) fn after_byte(text: &[u8], byte: u8) -> Option<&[u8]>
    ensures found { IfSome result (λ rest. text.now ≡ byte ∷ rest.now) }
    ensures none { IfNone result ((rest : List ℕ) → text.now ≡ byte ∷ rest → ⊥) }
{
    match text.split_first() {
        Some((first, rest)) if *first == byte => Some(rest),
        _ => None,
    }
}

fn after_two(text: &[u8], first: u8, second: u8) -> Option<&[u8]>
    ensures found { IfSome result (λ rest. text.now ≡ first ∷ second ∷ rest.now) }
    ensures none { IfNone result (Begins first second text.now → ⊥) }
{
    match after_byte(text, first) {
        Some(rest) => after_byte(rest, second),
        None => None,
    }
}

/// The text after a comment that begins with `//` is nothing, or begins with the end of its line.
fn after_line_comment(text: &[u8]) -> Option<&[u8]>
    ensures found { IfSome result (λ rest. IsLineComment text.now rest.now) }
    ensures none { IfNone result (Begins 47 47 text.now → ⊥) }
{
    let Some(line) = after_two(text, b'/', b'/') else {
        return None;
    };
    let mut count = 0;
    'letters: while count < line.len() && line[count] != b'\n' {
        count += 1;
    }
    let (_, rest) = line.split_at(count);
    Some(rest)
}

/// A comment in `/*` and `*/` may have others in it, to any depth. Fails with `CommentOpen` if it isn't
/// closed, and only then.
fn after_block_comment(text: &[u8]) -> Result<Option<&[u8]>, ProblemAt>
    ensures found { IfOk result (λ found. IfSome found (λ rest. IsBlockComment text.now rest.now)) }
    ensures none { IfOk result (λ found. IfNone found (Begins 47 42 text.now → ⊥)) }
    ensures open { IfErr result (λ _. (rest : List ℕ) → IsBlockComment text.now rest → ⊥) }
    ensures other { IfErr result (λ e. is_of_type e.problem ≡ false) }
{
    let left = text.len();
    let Some(inner) = after_two(text, b'/', b'*') else {
        return Ok(None);
    };
    let mut rest = inner;
    let mut depth: usize = 1;
    'bytes: while let Some((next, after)) = in_comment(rest, depth) {
        if next == 0 {
            return Ok(Some(after));
        }
        rest = after;
        depth = next;
    }
    Err(ProblemAt {
        problem: FileProblem::CommentOpen,
        left,
    })
}

/// Returns how many comments are open after `*/`, `/*` or another byte, if `depth` are open before,
/// and the text after it. Returns `None` if no byte is left, or the number would leave `usize`.
fn in_comment(text: &[u8], depth: usize) -> Option<(usize, &[u8])>
    ensures step { IfSome result
        (λ found. CommentStep (depth, text.now) (found.0, found.1.now)) }
    ensures none { IfNone result
        ((text.now ≡ []) ⊎ ((depth ≡ 0) ⊎ (depth ≡ usize.MAX))) }
{
    if let Some(rest) = after_two(text, b'*', b'/') {
        return match depth.checked_sub(1) {
            Some(depth) => Some((depth, rest)),
            None => None,
        };
    }
    if let Some(rest) = after_two(text, b'/', b'*') {
        return match depth.checked_add(1) {
            Some(depth) => Some((depth, rest)),
            None => None,
        };
    }
    match text.split_first() {
        Some((_, rest)) => Some((depth, rest)),
        None => None,
    }
}

/// A lifetime is a word after `'`, as `'a`, and the comma after it if there is one.
#[tactic(auto, unfolding(crate::specs::Lexical::IsLifetime))]
fn after_lifetime(text: &[u8]) -> Option<&[u8]>
    ensures found { IfSome result (λ rest. IsLifetime text.now rest.now) }
    ensures none { IfNone result ((rest : List ℕ) → IsLifetime text.now rest → ⊥) }
{
    let Some(inner) = after_byte(text, b'\'') else {
        return None;
    };
    let (name, after) = word_front(inner);
    if name.is_empty() {
        return None;
    }
    if let Some(_) = after_byte(after, b'\'') {
        return None;
    }
    match after_byte(after, b',') {
        Some(rest) => Some(rest),
        None => Some(after),
    }
}

/// Returns the word that the text begins with, and the text after it.
pub(crate) fn word_front(text: &[u8]) -> (&[u8], &[u8])
    ensures { IsWordFront result.0.now text.now result.1.now }
{
    let mut count = 0;
    'letters: while count < text.len() && is_of_word(text[count]) {
        count += 1;
    }
    text.split_at(count)
}

/// Returns whether a byte may be part of a word: a letter, a digit, `_`, or a byte of a character
/// beyond ASCII.
fn is_of_word(byte: u8) -> bool
    ensures { result ≡ is_of_word_byte byte }
{
    byte.is_ascii_alphanumeric() || byte == b'_' || !byte.is_ascii()
}

/// Returns the token that the text begins with, and the text after it. Fails with `LiteralOpen` if
/// it is a literal that isn't closed, and with `AsciiExpected` if the text is empty.
fn token_front(text: &[u8]) -> Result<(&[u8], &[u8]), ProblemAt>
    ensures read { IfOk result (λ found. IsTokenAt found.0.now text.now found.1.now) }
    ensures other { IfErr result (λ e. is_of_type e.problem ≡ false) }
{
    match raw_front(text)? {
        Some(found) => Ok(found),
        None => plain_front(text),
    }
}

/// Returns the token that the text begins with, and the text after it. No raw literal begins the
/// text. Fails as [`token_front`] does.
fn plain_front(text: &[u8]) -> Result<(&[u8], &[u8]), ProblemAt>
    ensures read { IfOk result (λ found. IsPlainAt found.0.now text.now found.1.now) }
    ensures other { IfErr result (λ e. is_of_type e.problem ≡ false) }
{
    let (word, after) = word_front(text);
    if !word.is_empty() {
        return Ok((word, after));
    }
    other_front(text)
}

/// Returns the token that the text begins with, and the text after it. Neither a raw literal nor a
/// word begins the text. Fails as [`token_front`] does.
fn other_front(text: &[u8]) -> Result<(&[u8], &[u8]), ProblemAt>
    ensures read { IfOk result (λ found. IsOtherAt found.0.now text.now found.1.now) }
    ensures other { IfErr result (λ e. is_of_type e.problem ≡ false) }
{
    if let Some(rest) = after_two(text, b':', b':') {
        return Ok((b"::", rest));
    }
    if let Some(inner) = after_byte(text, b'"') {
        return literal_front(text, inner, b'"');
    }
    if let Some(inner) = after_byte(text, b'\'') {
        return literal_front(text, inner, b'\'');
    }
    sign_front(text)
}

/// Returns the first byte of the text, and the text after it, or fails with `AsciiExpected` as
/// [`token_front`].
fn sign_front(text: &[u8]) -> Result<(&[u8], &[u8]), ProblemAt>
    ensures read { IfOk result (λ found. IsSignAt found.0.now text.now found.1.now) }
    ensures other { IfErr result (λ e. is_of_type e.problem ≡ false) }
{
    if !text.is_empty() && text[0].is_ascii() {
        return Ok(text.split_at(1));
    }
    Err(ProblemAt {
        problem: FileProblem::AsciiExpected,
        left: text.len(),
    })
}

/// Returns the literal in these quotes that the text begins with, where `inner` follows the first
/// of them, and the text after it, or fails with `LiteralOpen` if it isn't closed.
fn literal_front<'a>(
    text: &'a [u8],
    inner: &'a [u8],
    quote: u8,
) -> Result<(&'a [u8], &'a [u8]), ProblemAt>
    requires { text.now ≡ quote ∷ inner.now }
    ensures read { IfOk result (λ found. IsLiteral quote found.0.now text.now found.1.now) }
    ensures other { IfErr result (λ e. is_of_type e.problem ≡ false) }
{
    let left = text.len();
    let Some(rest) = after_letters(inner, quote) else {
        return Err(ProblemAt {
            problem: FileProblem::LiteralOpen,
            left,
        });
    };
    let (literal, _) = text.split_at(left.saturating_sub(rest.len()));
    Ok((literal, rest))
}

/// Returns the text after the letters of a literal and the quote at their end.
fn after_letters(text: &[u8], quote: u8) -> Option<&[u8]>
    ensures { IfSome result (λ rest. IsQuoted quote text.now rest.now) }
{
    let mut rest = text;
    for _ in 0..text.len() {
        if let Some(after) = after_byte(rest, quote) {
            return Some(after);
        }
        rest = after_letter(rest)?;
    }
    None
}

/// A letter of a literal is a `\` and the byte after it, or one byte.
fn after_letter(text: &[u8]) -> Option<&[u8]>
    ensures { IfSome result (λ rest. IsLetter text.now rest.now) }
{
    let Some((first, rest)) = text.split_first() else {
        return None;
    };
    if *first != b'\\' {
        return Some(rest);
    }
    match rest.split_first() {
        Some((_, after)) => Some(after),
        None => None,
    }
}

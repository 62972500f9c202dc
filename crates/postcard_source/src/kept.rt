//! The tokens of a file that declarations are read from. Passed over are attributes, visibilities,
//! paths before a name, a comma before `>`, and `<` and `>` with nothing between them.

ghost use Rattle.std.specs.Prelude.{◌≡◌, ℕ, ◌+◌, ◌<◌, false, length, Decides, IfOk, IfErr, IfSome};
ghost use Rattle.std.specs.Prelude.{IfNone};
ghost use Rattle.postcard_source.specs.{AreKept, EndsBefore, HasBracket, IsAttribute};
ghost use Rattle.postcard_source.specs.{IsEmptyAngle, IsLimit, IsPassed, IsScope, KeepStep};
ghost use Rattle.postcard_source.specs.{is_of_type};

use crate::error::{FileProblem, ProblemAt, out_of_memory};
use crate::token::{Token, after_word, is_at, is_before, is_name_at, place_of};
use std::alloc::Global;

/// Returns the tokens that are kept. Fails with `OutOfMemory`, and with `BracketOpen` if the
/// bracket of an attribute or of a `pub` isn't closed, as each is in what `tokens` returns.
pub fn kept<'a>(alloc: Global, tokens: &[Token<'a>]) -> Result<Vec<Token<'a>>, ProblemAt>
    ensures kept { IfOk result (λ kept. AreKept tokens.now kept.items) }
    ensures other { IfErr result (λ e. is_of_type e.problem ≡ false) }
{
    let mut kept = Vec::new(alloc);
    let mut at = 0;
    'steps: while at < tokens.len() {
        at = keep_next(tokens, at, &mut kept)?;
    }
    Ok(kept)
}

/// Passes over what begins at the index, or adds the token there to the end of the list, and
/// returns the index that is read next. Fails as [`kept`] does.
fn keep_next<'a>(
    tokens: &[Token<'a>],
    at: usize,
    kept: &mut Vec<Token<'a>>,
) -> Result<usize, ProblemAt>
    requires { at < length tokens.now }
    ensures kept { IfOk result (λ after. KeepStep tokens.now (at, kept.old.items)
        (after, kept.new.items)) }
    ensures further { IfOk result (λ after. at < after) }
    ensures other { IfErr result (λ e. is_of_type e.problem ≡ false) }
{
    if let Some(bracket) = bracket_from(tokens, at) {
        return after_bracket(tokens, bracket);
    }
    if is_passed(tokens, at) {
        return Ok(at + 1);
    }
    match kept.push(tokens[at]) {
        Ok(()) => Ok(at + 1),
        Err(_) => Err(out_of_memory(place_of(tokens, at))),
    }
}

/// Returns the index of the bracket of the attribute or of the scope of a visibility that begins at
/// the index, or `None` if none does.
fn bracket_from(tokens: &[Token], at: usize) -> Option<usize>
    ensures found { IfSome result (λ bracket. HasBracket tokens.now at bracket) }
    ensures none { IfNone result ((b : ℕ) → HasBracket tokens.now at b → ⊥) }
{
    if let Some(after) = after_word(tokens, at, b"#") {
        return attribute_bracket(tokens, after);
    }
    match after_word(tokens, at, b"pub") {
        Some(after) if is_scope(tokens, after) => Some(after),
        _ => None,
    }
}

/// Returns the index of the `[` of the attribute whose `#` is before the index, with a `!` between
/// them if it is `#![..]`, or `None` if there is no such `[`.
fn attribute_bracket(tokens: &[Token], at: usize) -> Option<usize>
    ensures found { IfSome result (λ bracket. IsAttribute tokens.now at bracket) }
    ensures none { IfNone result ((b : ℕ) → IsAttribute tokens.now at b → ⊥) }
{
    if is_at(tokens, at, b"[") {
        return Some(at);
    }
    match after_word(tokens, at, b"!") {
        Some(after) if is_at(tokens, after, b"[") => Some(after),
        _ => None,
    }
}

/// Returns whether `(crate)`, `(self)`, `(super)` or `(in` is at the index.
fn is_scope(tokens: &[Token], at: usize) -> bool
    ensures { Decides result (IsScope tokens.now at) }
{
    let Some(inner) = after_word(tokens, at, b"(") else {
        return false;
    };
    if is_at(tokens, inner, b"in") {
        return true;
    }
    match after_limit(tokens, inner) {
        Some(after) => is_at(tokens, after, b")"),
        None => false,
    }
}

/// Returns the index after `crate`, `self` or `super`, or `None` if none of them is at the index.
fn after_limit(tokens: &[Token], at: usize) -> Option<usize>
    ensures found { IfSome result (λ after. IsLimit tokens.now at × (after ≡ at + 1)) }
    ensures none { IfNone result (IsLimit tokens.now at → ⊥) }
{
    if let Some(after) = after_word(tokens, at, b"crate") {
        return Some(after);
    }
    if let Some(after) = after_word(tokens, at, b"self") {
        return Some(after);
    }
    after_word(tokens, at, b"super")
}

/// Returns the index after the bracket that closes the one at the index, or fails with
/// `BracketOpen` if none does.
fn after_bracket(tokens: &[Token], at: usize) -> Result<usize, ProblemAt>
    ensures ends { IfOk result (λ after. EndsBefore tokens.now at after) }
    ensures other { IfErr result (λ e. is_of_type e.problem ≡ false) }
{
    if at < tokens.len() {
        for last in at + 1..tokens.len() {
            if tokens[last].depth <= tokens[at].depth {
                return Ok(last + 1);
            }
        }
    }
    Err(ProblemAt {
        problem: FileProblem::BracketOpen,
        left: place_of(tokens, at),
    })
}

/// Returns whether the token at the index is passed over alone: `pub`, `::`, a name before `::`, a
/// comma before `>`, or one of `<` and `>` with nothing between them.
fn is_passed(tokens: &[Token], at: usize) -> bool
    requires { at < length tokens.now }
    ensures { Decides result (IsPassed tokens.now at) }
{
    if is_at(tokens, at, b"pub") || is_at(tokens, at, b"::") {
        return true;
    }
    if is_name_at(tokens, at) && is_at(tokens, at + 1, b"::") {
        return true;
    }
    if is_at(tokens, at, b",") && is_at(tokens, at + 1, b">") {
        return true;
    }
    is_empty_angle(tokens, at)
}

/// Returns whether the token at the index is `<` before `>`, or `>` after `<`.
fn is_empty_angle(tokens: &[Token], at: usize) -> bool
    requires { at < length tokens.now }
    ensures { Decides result (IsEmptyAngle tokens.now at) }
{
    if is_at(tokens, at, b"<") {
        return is_at(tokens, at + 1, b">");
    }
    is_at(tokens, at, b">") && is_before(tokens, at, b"<")
}

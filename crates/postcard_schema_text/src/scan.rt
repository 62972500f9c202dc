//! Functions that take signs, words and counts from the start of a text.
//!
//! The parameter `rest` is the remaining text. A function advances it past what it takes. Blanks
//! are the white space of ASCII. If an allocation fails, a function fails with `OutOfMemory` at the
//! first byte of `rest`.

ghost use Rattle.std.specs.Prelude.{◌≡◌, ℕ, ◌+◌, ◌-◌, ◌++◌, ◌≤◌, List, [], ◌∷◌};
ghost use Rattle.std.specs.Prelude.{true, false, take, length, Decides, IfOk, IfErr, OnErr, OnOk};
ghost use Rattle.postcard_schema_text.specs.{AllPass, EndsWord, IsCalled, IsCount, IsIdentifier};
ghost use Rattle.postcard_schema_text.specs.{IsRefusal, IsSign, IsTrimAsciiStart, IsVariantName};
ghost use Rattle.postcard_schema_text.specs.{IsWord, TakesLifetime, TakesPhrase, characters};
ghost use Rattle.postcard_schema_text.specs.{is_ascii_whitespace, is_of_word_byte};

use crate::error::Problem;
use crate::literal::{LiteralError, number_of};
use postcard_schema::{Named, Schema};
use std::alloc::Global;

/// What is wrong, and where.
#[derive(Clone, Copy)]
pub struct ProblemAt {
    /// What is wrong.
    pub problem: Problem,
    /// The number of bytes from there to the end of the text.
    pub left: usize,
}

/// Returns this problem, with the first byte of `rest` as its place.
pub fn problem_at(problem: Problem, rest: &[u8]) -> ProblemAt
    ensures problem { result.problem ≡ problem }
    ensures left { result.left ≡ length rest.now }
{
    ProblemAt {
        problem,
        left: rest.len(),
    }
}

/// Returns the problem `found`, or `AsciiExpected` if its cause is a letter beyond ASCII. That is
/// so if such a letter follows the word at its place, or stands where a word is expected or goes
/// on.
pub fn or_letter(found: ProblemAt, text: &[u8]) -> ProblemAt
    ensures { found.problem ≡ Problem.OutOfMemory → result.problem ≡ Problem.OutOfMemory }
{
    let (before, mut rest) = text.split_at(text.len().saturating_sub(found.left));
    let has_word = !take_word(&mut rest).is_empty();
    let may_be_letter = match found.problem {
        Problem::OutOfMemory => false,
        Problem::TypeExpected
        | Problem::VariantExpected
        | Problem::FieldExpected
        | Problem::LifetimeExpected => true,
        _ => has_word || ends_by_word(before),
    };
    match rest.first() {
        Some(byte) if may_be_letter && !byte.is_ascii() => problem_at(Problem::AsciiExpected, rest),
        _ => found,
    }
}

/// Returns whether the last byte may be part of a word.
fn ends_by_word(text: &[u8]) -> bool {
    match text.last() {
        Some(byte) => is_of_word(*byte),
        None => false,
    }
}

/// Returns the number, counted from 1, of the character that begins `left` bytes before the end of
/// the text. At the end of the text, it is the number of characters plus 1.
pub fn character_of(text: &[u8], left: usize) -> usize
    ensures first { 1 ≤ result }
    ensures counted { result ≡ characters (take (length text.now - left) text.now) + 1 }
{
    let before = &text[..text.len().saturating_sub(left)];
    before.iter().filter(|byte| **byte & 0xC0 != 0x80).count() + 1
}

/// Takes all blanks at the start of `rest`.
pub fn skip_blanks(rest: &mut &[u8])
    ensures { IsTrimAsciiStart rest.old.now rest.new.now }
{
    *rest = rest.trim_ascii_start();
}

/// Takes blanks and then `byte`, and returns `true`. If something else follows the blanks, takes
/// nothing and returns `false`.
pub fn take(rest: &mut &[u8], byte: u8) -> bool
    ensures taken { result ≡ true → TakesPhrase (IsSign byte) rest.old.now rest.new.now }
    ensures left { result ≡ false → rest.new.now ≡ rest.old.now }
    ensures none { result ≡ false → is_ascii_whitespace byte ≡ false → (after : List ℕ)
        → TakesPhrase (IsSign byte) rest.old.now after → ⊥ }
{
    match rest.trim_ascii_start().split_first() {
        Some((first, after)) if *first == byte => {
            *rest = after;
            true
        }
        _ => false,
    }
}

/// Takes blanks and then `byte`. If something else follows the blanks, takes the blanks and fails
/// with `problem` at what follows them.
pub fn expect(rest: &mut &[u8], byte: u8, problem: Problem) -> Result<(), ProblemAt>
    ensures taken { OnOk result (TakesPhrase (IsSign byte) rest.old.now rest.new.now) }
    ensures refused { IfErr result (λ found. (found.problem ≡ problem)
        × (found.left ≡ length rest.new.now) × IsTrimAsciiStart rest.old.now rest.new.now) }
    ensures none { OnErr result (is_ascii_whitespace byte ≡ false → (after : List ℕ)
        → TakesPhrase (IsSign byte) rest.old.now after → ⊥) }
{
    if take(rest, byte) {
        return Ok(());
    }
    skip_blanks(rest);
    Err(problem_at(problem, rest))
}

/// Takes blanks and then a word, and returns the word. A word is all letters and digits of ASCII
/// and `_` up to another byte. It may be empty.
pub fn take_word<'a>(rest: &mut &'a [u8]) -> &'a [u8]
    ensures taken { TakesPhrase (IsWord result.now) rest.old.now rest.new.now }
    ensures first { (text : List ℕ) × IsTrimAsciiStart rest.old.now text
        × (text ≡ result.now ++ rest.new.now) }
    ensures whole { EndsWord rest.new.now }
{
    skip_blanks(rest);
    let all = *rest;
    let mut count = 0;
    'letters: while count < all.len() && is_of_word(all[count]) {
        count += 1;
    }
    let (word, after) = all.split_at(count);
    *rest = after;
    word
}

/// Returns whether a byte may be part of a word: a letter or a digit of ASCII, or `_`.
pub(crate) fn is_of_word(byte: u8) -> bool
    ensures { result ≡ is_of_word_byte byte }
{
    byte.is_ascii_alphanumeric() || byte == b'_'
}

/// Returns whether a word may name a field or a lifetime: it isn't empty and begins with no digit.
pub fn is_identifier(word: &[u8]) -> bool
    ensures { Decides result (IsIdentifier word.now) }
{
    !word.is_empty() && !word[0].is_ascii_digit()
}

/// Returns whether a word may name a variant: it begins with a capital letter.
pub fn is_variant_name(word: &[u8]) -> bool
    ensures { Decides result (IsVariantName word.now) }
{
    !word.is_empty() && word[0].is_ascii_uppercase()
}

/// Takes a lifetime, such as `'a`, if `'` comes next. Fails with `LifetimeExpected` if no name
/// follows the `'`, or one that begins with a digit.
pub fn skip_lifetime(rest: &mut &[u8]) -> Result<(), ProblemAt>
    ensures taken { OnOk result (TakesLifetime rest.old.now rest.new.now) }
    ensures none { OnErr result ((after : List ℕ) → TakesLifetime rest.old.now after → ⊥) }
{
    if !take(rest, b'\'') {
        return Ok(());
    }
    let start = rest.trim_ascii_start();
    let name = take_word(rest);
    if !is_identifier(name) {
        return Err(problem_at(Problem::LifetimeExpected, start));
    }
    Ok(())
}

/// Takes blanks and then the count of an array, and returns the count. A count is an integer
/// literal, as `16`, `0x10` or `1_024`. Fails with `CountExpected` if the next word isn't one, and
/// with `CountTooLarge` if the count doesn't fit in a `usize`.
pub fn take_count(rest: &mut &[u8]) -> Result<usize, ProblemAt>
    ensures taken { IfOk result (λ count. TakesPhrase (IsCount count) rest.old.now rest.new.now) }
    ensures one { IfOk result (λ count. (n : ℕ) (after : List ℕ)
        → TakesPhrase (IsCount n) rest.old.now after → EndsWord after
        → (n ≡ count) × (after ≡ rest.new.now)) }
    ensures none { OnErr result ((n : ℕ) (after : List ℕ)
        → TakesPhrase (IsCount n) rest.old.now after → EndsWord after → ⊥) }
{
    let start = rest.trim_ascii_start();
    let word = take_word(rest);
    let number = match number_of(word) {
        Ok(number) => number,
        Err(LiteralError::Malformed) => return Err(problem_at(Problem::CountExpected, start)),
        Err(LiteralError::TooLarge) => return Err(problem_at(Problem::CountTooLarge, start)),
    };
    match usize::try_from(number) {
        Ok(count) => Ok(count),
        Err(_) => Err(problem_at(Problem::CountTooLarge, start)),
    }
}

/// Puts a type into a `Box`.
pub fn boxed(alloc: Global, schema: Schema, rest: &[u8]) -> Result<Box<Schema>, ProblemAt>
    ensures held { IfOk result (λ held. held.value ≡ schema) }
    ensures only_out_of_memory { IfErr result (λ found. found.problem ≡ Problem.OutOfMemory) }
{
    match Box::new(alloc, schema) {
        Ok(held) => Ok(held),
        Err(_) => Err(problem_at(Problem::OutOfMemory, rest)),
    }
}

/// Returns a type with a name. Also fails with `FieldExpected` if the name is not UTF-8.
pub fn named(
    alloc: Global,
    name: &[u8],
    content: Schema,
    rest: &[u8],
) -> Result<Named<Schema>, ProblemAt>
    ensures held { IfOk result (λ whole. IsCalled name.now content whole) }
    ensures refused { IfErr result (λ found.
        IsRefusal found.problem (AllPass is_of_word_byte name.now)) }
{
    let Ok(text) = str::from_utf8(name) else {
        return Err(problem_at(Problem::FieldExpected, rest));
    };
    match String::from_str(alloc, text) {
        Ok(name) => Ok(Named { name, content }),
        Err(_) => Err(problem_at(Problem::OutOfMemory, rest)),
    }
}

/// Adds an item to the end of the list.
pub fn push<T: Drop>(items: &mut Vec<T>, item: T, rest: &[u8]) -> Result<(), ProblemAt>
    ensures added { OnOk result (items.new.items ≡ items.old.items ++ item ∷ []) }
    ensures only_out_of_memory { IfErr result (λ found. found.problem ≡ Problem.OutOfMemory) }
{
    match items.push(item) {
        Ok(()) => Ok(()),
        Err(_) => Err(problem_at(Problem::OutOfMemory, rest)),
    }
}

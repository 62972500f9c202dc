//! The text of the words of a type, and places in it and in the file.

ghost use Rattle.std.specs.Prelude.{◌≡◌, ◌+◌, ◌-◌, ◌≤◌, ◌==◌, [], ◌∷◌, ◌++◌, false, length, take};
ghost use Rattle.std.specs.Prelude.{count_by, IfOk, IfErr, OnOk, string_bytes};
ghost use Rattle.postcard_source.specs.{IsLineStart, IsPlace, IsProblemOf, is_of_type, spelling};

use crate::error::{FileError, FileProblem, ProblemAt, out_of_memory};
use crate::token::Token;
use postcard_schema_text::scan::character_of;
use postcard_schema_text::{ExpressionError, Problem};
use std::alloc::Global;

/// Returns the text of the words: each of them and a blank. Fails with `AsciiExpected` at a word
/// that is no UTF-8, as no token of a text is, and with `OutOfMemory`.
pub fn spelled(alloc: Global, words: &[Token]) -> Result<String, ProblemAt>
    ensures spelled { IfOk result (λ text. string_bytes text ≡ spelling words.now) }
    ensures other { IfErr result (λ e. is_of_type e.problem ≡ false) }
{
    let mut text = String::new(alloc);
    for word in words {
        let Ok(letters) = str::from_utf8(word.text) else {
            return Err(ProblemAt {
                problem: FileProblem::AsciiExpected,
                left: word.left,
            });
        };
        add(&mut text, letters, word.left)?;
    }
    Ok(text)
}

/// Adds a word and a blank to the text, or fails with `OutOfMemory`.
fn add(text: &mut String, word: &str, left: usize) -> Result<(), ProblemAt>
    ensures added { OnOk result (string_bytes text.new
        ≡ string_bytes text.old ++ (word.now ++ 32 ∷ [])) }
    ensures other { IfErr result (λ e. is_of_type e.problem ≡ false) }
{
    if text.push_str(word).is_err() {
        return Err(out_of_memory(left));
    }
    match text.push_str(" ") {
        Ok(()) => Ok(()),
        Err(_) => Err(out_of_memory(left)),
    }
}

/// Returns how many bytes of the file there are from the word on that has this character of the
/// words' text, counted from 1. Past the last word it is that of the last one.
pub fn left_of(words: &[Token], character: usize) -> usize {
    let mut left = 0;
    let mut characters = character;
    for word in words {
        left = word.left;
        if characters <= word.text.len() {
            return left;
        }
        characters = characters.saturating_sub(word.text.len()).saturating_sub(1);
    }
    left
}

/// Returns the problem of a file whose words are refused with this error.
pub fn problem_of(words: &[Token], error: &ExpressionError) -> FileProblem
    ensures { IsProblemOf error.now.problem result }
{
    let left = left_of(words, error.character);
    match error.problem {
        Problem::GreaterExpected if is_at_place(words, left, b",") => FileProblem::Parameter,
        Problem::GreaterExpected
        | Problem::CommaExpected
        | Problem::CommaOrParenthesis
        | Problem::CommaOrBrace
        | Problem::SemicolonOrBracket
            if is_at_place(words, left, b"<") => { FileProblem::Parameter }
        problem => FileProblem::Expression(problem),
    }
}

/// Returns whether the word with this number of bytes from it on is this sign.
fn is_at_place(words: &[Token], left: usize, sign: &[u8]) -> bool {
    words
        .iter()
        .any(|word| word.left == left && word.text == sign)
}

/// Returns the error of a problem, with its line and column.
pub fn error_at(file: &[u8], problem_at: ProblemAt) -> FileError
    ensures problem { result.problem ≡ problem_at.problem }
    ensures place { IsPlace file.now (length file.now - problem_at.left) result.line result.column }
{
    let (_, line) = file.split_at(line_start(file, file.len().saturating_sub(problem_at.left)));
    FileError {
        problem: problem_at.problem,
        line: line_of(file, problem_at.left),
        column: character_of(line, problem_at.left),
    }
}

/// Returns the number, counted from 1, of the line of what is `left` bytes before the end of the file.
fn line_of(file: &[u8], left: usize) -> usize
    ensures { result ≡ count_by (λ b. b == 10) (take (length file.now - left) file.now) + 1 }
{
    let before = &file[..file.len().saturating_sub(left)];
    before.iter().filter(|byte| **byte == b'\n').count() + 1
}

/// Returns the index at which the line begins that has the index `end`, or ends there.
fn line_start(file: &[u8], end: usize) -> usize
    requires { end ≤ length file.now }
    ensures { IsLineStart file.now result end }
{
    let mut start = end;
    'back: while start > 0 && file[start - 1] != b'\n' {
        start -= 1;
    }
    start
}

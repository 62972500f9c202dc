//! What comes next in a text, as far as it decides how the text is read. Each function looks at the
//! text, and takes nothing of it.

ghost use Rattle.std.specs.Prelude.{◌≡◌, Decides};
ghost use Rattle.postcard_schema_text.specs.{IsNamed, Starts, StartsEnum, is_after_first_name};

use crate::error::Problem;
use crate::scan::{ProblemAt, is_variant_name, problem_at, skip_blanks, take, take_word};

/// Returns whether an enum comes next: `|`, or a word that begins with a capital letter and is
/// followed by `|`, `(` or `{`.
pub fn begins_enum(text: &[u8]) -> bool
    ensures { Decides result (StartsEnum text.now) }
{
    let mut rest = text;
    if take(&mut rest, b'|') {
        return true;
    }
    let word = take_word(&mut rest);
    if !is_variant_name(word) {
        return false;
    }
    follows_name(rest)
}

/// Returns whether `|`, `(` or `{` comes next, as after the name of an enum's first variant.
fn follows_name(text: &[u8]) -> bool
    ensures { Decides result (Starts is_after_first_name text.now) }
{
    match text.trim_ascii_start().split_first() {
        Some((first, _)) => is_after_name(*first),
        None => false,
    }
}

/// Returns whether a byte is `|`, `(` or `{`, which may follow the name of an enum's first variant.
fn is_after_name(byte: u8) -> bool
    ensures { result ≡ is_after_first_name byte }
{
    byte == b'|' || byte == b'(' || byte == b'{'
}

/// Returns whether a field comes next: a word that isn't empty, and then `:`.
pub fn begins_field(text: &[u8]) -> bool
    ensures { Decides result (IsNamed text.now) }
{
    let mut rest = text;
    let word = take_word(&mut rest);
    !word.is_empty() && take(&mut rest, b':')
}

/// Returns what is wrong with the text after a `{`, which is refused as a map for what was found. It
/// is a field whose `:` is missing if its first word is no type and neither `=>` nor `<` follows.
pub fn or_colon(found: ProblemAt, text: &[u8]) -> ProblemAt
    ensures memory { found.problem ≡ Problem.OutOfMemory → result.problem ≡ Problem.OutOfMemory }
{
    let mut rest = text.trim_ascii_start();
    if found.problem != Problem::UnknownType || found.left != rest.len() {
        return found;
    }
    let _ = take_word(&mut rest);
    skip_blanks(&mut rest);
    let after = rest;
    if take(&mut rest, b'<') || take(&mut rest, b'=') && take(&mut rest, b'>') {
        return found;
    }
    problem_at(Problem::ColonExpected, after)
}

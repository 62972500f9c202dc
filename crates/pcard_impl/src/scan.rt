//! Steps over the tokens of a file, from index to index.

use crate::error::{ImplProblem, ImplProblemAt};
use crate::item::Span;
use postcard_source::token::{Token, after_word, is_at, is_before, token_at};
use std::alloc::Global;

/// Returns the text with this many bytes that begins `left` bytes before the end of the file, or
/// nothing if the file has no such text.
pub(crate) fn text_at(file: &str, left: usize, length: usize) -> &str {
    let start = file.len().saturating_sub(left);
    file.get(start..start.saturating_add(length)).unwrap_or("")
}

/// Returns the text of the file from the first of these tokens to the last.
pub(crate) fn text_of<'a>(file: &'a str, tokens: &[Token], words: Span) -> &'a str {
    let Some(last) = words.end.checked_sub(1) else {
        return "";
    };
    if last < words.start {
        return "";
    }
    match (token_at(tokens, words.start), token_at(tokens, last)) {
        (Some(first), Some(last)) => {
            let between = first.left.saturating_sub(last.left);
            text_at(file, first.left, between.saturating_add(last.text.len()))
        }
        _ => "",
    }
}

/// Returns the text between the signs at two indices.
pub(crate) fn raw_between<'a>(
    file: &'a str,
    tokens: &[Token],
    start: usize,
    end: usize,
) -> &'a str {
    match (token_at(tokens, start), token_at(tokens, end)) {
        (Some(first), Some(last)) => {
            let length = first.left.saturating_sub(last.left).saturating_sub(1);
            text_at(file, first.left.saturating_sub(1), length)
        }
        _ => "",
    }
}

pub(crate) fn problem_of(
    file: &str,
    tokens: &[Token],
    words: Span,
    problem: ImplProblem,
) -> ImplProblemAt {
    let left = match token_at(tokens, words.start) {
        Some(token) => token.left,
        None => 0,
    };
    ImplProblemAt {
        problem,
        left,
        length: text_of(file, tokens, words).len(),
    }
}

pub(crate) fn problem_at(tokens: &[Token], at: usize, problem: ImplProblem) -> ImplProblemAt {
    match token_at(tokens, at) {
        Some(token) => ImplProblemAt {
            problem,
            left: token.left,
            length: token.text.len(),
        },
        None => ImplProblemAt {
            problem,
            left: 0,
            length: 0,
        },
    }
}

/// Returns the index of the first of these tokens that is this word or sign, or `None` if none is.
pub(crate) fn find_word(tokens: &[Token], words: Span, word: &[u8]) -> Option<usize> {
    for at in words.start..words.end {
        if is_at(tokens, at, word) {
            return Some(at);
        }
    }
    None
}

/// Returns the index after the bracket that closes the one at the index, or the number of tokens if
/// none does.
pub(crate) fn after_bracket(tokens: &[Token], open: usize) -> usize {
    let Some(bracket) = token_at(tokens, open) else {
        return tokens.len();
    };
    for at in open + 1..tokens.len() {
        if tokens[at].depth <= bracket.depth {
            return at + 1;
        }
    }
    tokens.len()
}

/// Returns the tokens in the brackets that begin at the index.
pub(crate) fn inside(tokens: &[Token], open: usize) -> Span {
    Span {
        start: open.saturating_add(1),
        end: after_bracket(tokens, open).saturating_sub(1),
    }
}

/// Returns how many `<` are open after the token at the index, where `open` are before it.
fn angles_after(tokens: &[Token], at: usize, open: usize) -> usize {
    if is_at(tokens, at, b"<") {
        return open.saturating_add(1);
    }
    if is_at(tokens, at, b">") && !is_before(tokens, at, b"-") {
        return open.saturating_sub(1);
    }
    open
}

/// Returns the index of the `>` that closes the `<` at the index, or the number of tokens if none does.
pub(crate) fn closing_angle(tokens: &[Token], start: usize) -> usize {
    let mut open = 0;
    for at in start..tokens.len() {
        open = angles_after(tokens, at, open);
        if open == 0 {
            return at;
        }
    }
    tokens.len()
}

/// Returns the parts of these tokens that commas divide, outside of brackets, and with `angles`
/// outside of `<` and `>`, too. Fails with `OutOfMemory`.
pub(crate) fn parts(
    alloc: Global,
    tokens: &[Token],
    words: Span,
    angles: bool,
) -> Result<Vec<Span>, ImplProblemAt> {
    let mut parts = Vec::new(alloc);
    let mut start = words.start;
    let mut open = 0;
    let Some(first) = token_at(tokens, words.start) else {
        return Ok(parts);
    };
    for at in words.start..words.end {
        if is_divider(tokens, at, first.depth) && open == 0 {
            parts.push(Span { start, end: at })?;
            start = at + 1;
        }
        if angles {
            open = angles_after(tokens, at, open);
        }
    }
    if start < words.end {
        parts.push(Span {
            start,
            end: words.end,
        })?;
    }
    Ok(parts)
}

/// Returns whether the token at the index is a comma with `depth` brackets around it.
fn is_divider(tokens: &[Token], at: usize, depth: usize) -> bool {
    match token_at(tokens, at) {
        Some(token) => token.depth == depth && token.says(b","),
        None => false,
    }
}

/// Returns these tokens without the attributes and the visibility that they begin with.
pub(crate) fn bare(tokens: &[Token], words: Span) -> Span {
    let mut start = words.start;
    for _ in words.start..words.end {
        match after_modifier(tokens, start) {
            Some(after) => start = after,
            None => break,
        }
    }
    Span {
        start,
        end: words.end,
    }
}

/// Returns the index after the attribute or the visibility at the index, or `None` if there is none.
fn after_modifier(tokens: &[Token], at: usize) -> Option<usize> {
    if let Some(after) = after_word(tokens, at, b"#") {
        return Some(after_bracket(tokens, after));
    }
    let Some(after) = after_word(tokens, at, b"pub") else {
        return None;
    };
    match after_word(tokens, after, b"(") {
        Some(inner) if is_scope(tokens, inner) => Some(after_bracket(tokens, after)),
        _ => Some(after),
    }
}

fn is_scope(tokens: &[Token], at: usize) -> bool {
    is_at(tokens, at, b"crate")
        || is_at(tokens, at, b"self")
        || is_at(tokens, at, b"super")
        || is_at(tokens, at, b"in")
}

//! The parameters of a type: its lifetimes, and the types with their bounds.

use crate::error::{ImplProblem, ImplProblemAt};
use crate::item::{Parameters, Span};
use crate::scan::{closing_angle, find_word, parts, problem_at, problem_of, raw_between, text_of};
use postcard_source::FileProblem;
use postcard_source::token::{Token, after_word, is_at, is_name_at};
use std::alloc::Global;

/// Returns the parameters in the `<` and `>` that begin at the index, and the index after them. A type
/// without them has none. Fails with what is wrong with one, and with `OutOfMemory`.
pub(crate) fn parameters<'a>(
    alloc: Global,
    file: &'a str,
    tokens: &[Token],
    start: usize,
) -> Result<(Parameters<'a>, usize), ImplProblemAt> {
    let Some(inner) = after_word(tokens, start, b"<") else {
        let none = Parameters {
            lifetimes: Vec::new(alloc),
            types: Vec::new(alloc),
        };
        return Ok((none, start));
    };
    let end = closing_angle(tokens, start);
    let lifetimes = lifetimes(alloc, file, tokens, start, end)?;
    let types = types(alloc, file, tokens, Span { start: inner, end })?;
    Ok((Parameters { lifetimes, types }, end.saturating_add(1)))
}

/// Returns the lifetimes that parameters begin with, between the `<` and the `>` at these indices.
fn lifetimes<'a>(
    alloc: Global,
    file: &'a str,
    tokens: &[Token],
    start: usize,
    end: usize,
) -> Result<Vec<&'a str>, ImplProblemAt> {
    let mut lifetimes = Vec::new(alloc);
    for lifetime in raw_between(file, tokens, start, end).split(',') {
        let lifetime = lifetime.trim();
        if !lifetime.starts_with('\'') {
            break;
        }
        if lifetime.contains(':') {
            return Err(problem_at(tokens, start, ImplProblem::LifetimeBound));
        }
        lifetimes.push(lifetime)?;
    }
    Ok(lifetimes)
}

fn types<'a>(
    alloc: Global,
    file: &'a str,
    tokens: &[Token],
    words: Span,
) -> Result<Vec<&'a str>, ImplProblemAt> {
    let mut types = Vec::new(alloc);
    for part in parts(alloc, tokens, words, true)? {
        types.push(parameter(file, tokens, part)?)?;
    }
    Ok(types)
}

/// Returns the parameter that these tokens are, a type with its bounds.
fn parameter<'a>(file: &'a str, tokens: &[Token], words: Span) -> Result<&'a str, ImplProblemAt> {
    let text = text_of(file, tokens, words);
    let problem = if is_at(tokens, words.start, b"const") {
        ImplProblem::ConstParameter
    } else if find_word(tokens, words, b"=").is_some() {
        ImplProblem::DefaultParameter
    } else if text.contains('\'') || text.ends_with(':') {
        ImplProblem::LifetimeBound
    } else if !is_name_at(tokens, words.start) {
        ImplProblem::File(FileProblem::NameExpected)
    } else {
        return Ok(text);
    };
    Err(problem_of(file, tokens, words, problem))
}

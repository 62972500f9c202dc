//! The fields of a struct or a variant.

use crate::error::{ImplProblem, ImplProblemAt};
use crate::item::{Field, Member, Span, Style};
use crate::scan::{bare, find_word, inside, parts, problem_at, text_of};
use postcard_source::FileProblem;
use postcard_source::token::{Token, after_word, is_at, is_name_at, place_of, token_at};
use std::alloc::Global;

/// The most fields of a struct or a variant: twelve tuples of five.
const MAX_FIELDS: usize = 60;

/// The names of variables that the impls have themselves.
const TAKEN: [&str; 7] = [
    "alloc",
    "d",
    "serializer",
    "row",
    "parts",
    "result",
    "never",
];

/// Returns the struct or variant of this name, whose brackets begin at the index if it has some.
pub(crate) fn member<'a>(
    alloc: Global,
    file: &'a str,
    tokens: &[Token],
    name: &'a str,
    body: usize,
) -> Result<Member<'a>, ImplProblemAt> {
    let style = match token_at(tokens, body) {
        Some(token) if token.says(b"{") => Style::Named,
        Some(token) if token.says(b"(") => Style::Tuple,
        _ => Style::Unit,
    };
    let mut fields = Vec::new(alloc);
    if style != Style::Unit {
        for words in parts(alloc, tokens, inside(tokens, body), true)? {
            let number = fields.len();
            fields.push(field(alloc, file, tokens, words, style, number)?)?;
        }
    }
    Ok(Member {
        name,
        style,
        fields,
    })
}

/// Returns the field that these tokens are, which has this number in its struct or variant.
fn field<'a>(
    alloc: Global,
    file: &'a str,
    tokens: &[Token],
    words: Span,
    style: Style,
    number: usize,
) -> Result<Field<'a>, ImplProblemAt> {
    if number >= MAX_FIELDS {
        return Err(problem_at(tokens, words.start, ImplProblem::TooManyFields));
    }
    // The words without attributes and `pub`.
    let own = bare(tokens, words);
    check_serde(
        tokens,
        Span {
            start: words.start,
            end: own.start,
        },
    )?;
    match style {
        Style::Named => named_field(alloc, file, tokens, own, number),
        _ => tuple_field(alloc, file, tokens, own, number),
    }
}

fn tuple_field<'a>(
    alloc: Global,
    file: &'a str,
    tokens: &[Token],
    words: Span,
    number: usize,
) -> Result<Field<'a>, ImplProblemAt> {
    let text = text_of(file, tokens, words);
    Ok(Field {
        number,
        name: format!(in alloc; "{number}")?,
        variable: format!(in alloc; "x{number}")?,
        text,
        words,
        left: place_of(tokens, words.start),
        length: text.len(),
    })
}

fn named_field<'a>(
    alloc: Global,
    file: &'a str,
    tokens: &[Token],
    words: Span,
    number: usize,
) -> Result<Field<'a>, ImplProblemAt> {
    if is_at(tokens, words.start, b"ghost") {
        return Err(problem_at(tokens, words.start, ImplProblem::GhostField));
    }
    if !is_name_at(tokens, words.start) {
        let problem = ImplProblem::File(FileProblem::NameExpected);
        return Err(problem_at(tokens, words.start, problem));
    }
    let end = words.start.saturating_add(1);
    let Some(start) = after_word(tokens, end, b":") else {
        return Err(problem_at(tokens, end, ImplProblem::ColonExpected));
    };
    let name = text_of(
        file,
        tokens,
        Span {
            start: words.start,
            end,
        },
    );
    let words = Span {
        start,
        end: words.end,
    };
    let variable = if TAKEN.contains(&name) {
        format!(in alloc; "x{number}")?
    } else {
        String::from_str(alloc, name)?
    };
    Ok(Field {
        number,
        name: String::from_str(alloc, name)?,
        variable,
        text: text_of(file, tokens, words),
        words,
        left: place_of(tokens, end.saturating_sub(1)),
        length: name.len(),
    })
}

/// Fails at an attribute of serde among these tokens.
pub(crate) fn check_serde(tokens: &[Token], words: Span) -> Result<(), ImplProblemAt> {
    match find_word(tokens, words, b"serde") {
        Some(at) => Err(problem_at(tokens, at, ImplProblem::SerdeAttribute)),
        None => Ok(()),
    }
}

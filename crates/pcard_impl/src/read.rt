//! The items of a file, read from its tokens. The functions below [`items`] fail with what is wrong
//! with a declaration, and where, and with `OutOfMemory`.

use crate::error::{ImplProblem, ImplProblemAt};
use crate::fields::{check_serde, member};
use crate::found::Found;
use crate::item::{Item, Member, Span};
use crate::parameters::parameters;
use crate::scan::{after_bracket, bare, find_word, inside, parts, problem_at, text_at, text_of};
use postcard_source::FileProblem;
use postcard_source::declaration::{Declaration, Kind};
use postcard_source::token::{Token, is_at, is_name_at, token_at};
use std::alloc::Global;

/// Returns the items that these declarations of the file are.
pub(crate) fn items<'a>(
    alloc: Global,
    file: &'a str,
    tokens: &[Token],
    known: &[Declaration],
) -> Result<Vec<Item<'a>>, ImplProblemAt> {
    let mut items = Vec::new(alloc);
    for declaration in known {
        items.push(item(alloc, file, tokens, declaration)?)?;
    }
    Ok(items)
}

fn item<'a>(
    alloc: Global,
    file: &'a str,
    tokens: &[Token],
    declaration: &Declaration,
) -> Result<Item<'a>, ImplProblemAt> {
    let name = declaration.name;
    let at = index_of(tokens, name.left);
    if declaration.kind != Kind::Alias {
        check_attributes(tokens, at)?;
    }
    let after_name = at.saturating_add(1);
    let (parameters, body) = parameters(alloc, file, tokens, after_name)?;
    let name = text_at(file, name.left, name.text.len());
    if is_at(tokens, body, b"where") {
        return Err(problem_at(tokens, body, ImplProblem::Where));
    }
    let members = match declaration.kind {
        Kind::Struct => whole(alloc, file, tokens, name, body)?,
        Kind::Enum => variants(alloc, file, tokens, body)?,
        Kind::Alias => Vec::new(alloc),
    };
    Ok(Item {
        kind: declaration.kind,
        name,
        parameters,
        members,
        words: Span {
            start: after_name,
            end: item_end(tokens, after_name),
        },
        left: declaration.name.left,
        found: Found::nothing(),
    })
}

/// Returns the index of the token that begins this many bytes before the end of the file.
fn index_of(tokens: &[Token], left: usize) -> usize {
    let mut index = 0;
    for token in tokens {
        if token.left <= left {
            return index;
        }
        index = index.saturating_add(1);
    }
    index
}

/// Returns whether the token at the index ends an item: whether it is `;` or `}` outside of all brackets.
fn ends_item(tokens: &[Token], at: usize) -> bool {
    match token_at(tokens, at) {
        Some(token) => token.depth == 0 && (token.says(b";") || token.says(b"}")),
        None => false,
    }
}

/// Returns the index after the first token, from the index `start` on, that ends an item.
fn item_end(tokens: &[Token], start: usize) -> usize {
    for at in start..tokens.len() {
        if ends_item(tokens, at) {
            return at + 1;
        }
    }
    tokens.len()
}

/// Returns the index at which the item begins that has the token at this index.
fn item_start(tokens: &[Token], name: usize) -> usize {
    let mut start = 0;
    for at in 0..name {
        if ends_item(tokens, at) {
            start = at + 1;
        }
    }
    start
}

/// Fails where the attributes of the item whose name is at the index change its impls, or lack `Drop`.
fn check_attributes(tokens: &[Token], name: usize) -> Result<(), ImplProblemAt> {
    let words = Span {
        start: item_start(tokens, name),
        end: name,
    };
    for derived in [b"Serialize".as_slice(), b"Deserialize".as_slice()] {
        if let Some(at) = find_word(tokens, words, derived) {
            return Err(problem_at(tokens, at, ImplProblem::SerdeDerive));
        }
    }
    check_serde(tokens, words)?;
    let drops = find_word(tokens, words, b"Drop").is_some();
    if drops || find_word(tokens, words, b"Copy").is_some() {
        return Ok(());
    }
    Err(problem_at(tokens, name, ImplProblem::NotDrop))
}

/// Returns the struct of this name, whose body begins at the index, as the only member of its type.
fn whole<'a>(
    alloc: Global,
    file: &'a str,
    tokens: &[Token],
    name: &'a str,
    body: usize,
) -> Result<Vec<Member<'a>>, ImplProblemAt> {
    let mut members = Vec::new(alloc);
    if !is_at(tokens, body, b"{") && !is_at(tokens, body, b"(") && !is_at(tokens, body, b";") {
        let problem = ImplProblem::File(FileProblem::BodyExpected);
        return Err(problem_at(tokens, body, problem));
    }
    members.push(member(alloc, file, tokens, name, body)?)?;
    Ok(members)
}

fn variants<'a>(
    alloc: Global,
    file: &'a str,
    tokens: &[Token],
    body: usize,
) -> Result<Vec<Member<'a>>, ImplProblemAt> {
    if !is_at(tokens, body, b"{") {
        let problem = ImplProblem::File(FileProblem::BraceExpected);
        return Err(problem_at(tokens, body, problem));
    }
    let mut members = Vec::new(alloc);
    for words in parts(alloc, tokens, inside(tokens, body), false)? {
        members.push(variant(alloc, file, tokens, words)?)?;
    }
    if members.is_empty() {
        return Err(problem_at(tokens, body, ImplProblem::NoVariant));
    }
    Ok(members)
}

fn variant<'a>(
    alloc: Global,
    file: &'a str,
    tokens: &[Token],
    words: Span,
) -> Result<Member<'a>, ImplProblemAt> {
    let own = bare(tokens, words);
    check_serde(
        tokens,
        Span {
            start: words.start,
            end: own.start,
        },
    )?;
    if !is_name_at(tokens, own.start) {
        let problem = ImplProblem::File(FileProblem::NameExpected);
        return Err(problem_at(tokens, own.start, problem));
    }
    let end = own.start.saturating_add(1);
    let name = text_of(
        file,
        tokens,
        Span {
            start: own.start,
            end,
        },
    );
    check_end(tokens, end, own.end)?;
    member(alloc, file, tokens, name, end)
}

/// Fails where something else than its number follows the fields of the variant that begin at the index, if
/// it has some, and that ends before `end`.
fn check_end(tokens: &[Token], fields: usize, end: usize) -> Result<(), ImplProblemAt> {
    let after = if is_at(tokens, fields, b"{") || is_at(tokens, fields, b"(") {
        after_bracket(tokens, fields)
    } else {
        fields
    };
    if after < end && !is_at(tokens, after, b"=") {
        return Err(problem_at(tokens, after, ImplProblem::CommaExpected));
    }
    Ok(())
}

//! The fields whose types have no impls that would be proved.

use crate::error::{ImplProblem, ImplProblemAt};
use crate::form::is_seen;
use crate::item::{Field, Item};
use crate::memory::are_light;
use crate::scan::{inside, raw_between};
use postcard_schema_text::Problem;
use postcard_source::FileProblem;
use postcard_source::token::{Token, is_at, is_before, is_name_at, token_at};

/// Words and signs of types whose values aren't written and read.
const NOT_SERVED: [&[u8]; 27] = [
    b"*",
    b"?",
    b"!",
    b"dyn",
    b"impl",
    b"fn",
    b"mut",
    b"Cell",
    b"RefCell",
    b"UnsafeCell",
    b"OnceCell",
    b"LazyCell",
    b"Mutex",
    b"RwLock",
    b"OnceLock",
    b"LazyLock",
    b"Weak",
    b"NonNull",
    b"Instant",
    b"OsStr",
    b"OsString",
    b"CStr",
    b"Self",
    b"f16",
    b"f128",
    b"_",
    b"File",
];

/// Fails at the first field of the item whose type has no impls that would be proved.
pub(crate) fn check_fields(
    file: &str,
    tokens: &[Token],
    items: &[Item],
    item: &Item,
) -> Result<(), ImplProblemAt> {
    for member in &item.members {
        for field in &member.fields {
            if let Some(problem) = refusal_of(file, tokens, items, item, field) {
                return Err(ImplProblemAt {
                    problem,
                    left: field.left,
                    length: field.length,
                });
            }
        }
    }
    Ok(())
}

/// Returns what is wrong with a field, or `None` if nothing is.
fn refusal_of(
    file: &str,
    tokens: &[Token],
    items: &[Item],
    item: &Item,
    field: &Field,
) -> Option<ImplProblem> {
    if field.text.is_empty() {
        let problem = FileProblem::Expression(Problem::TypeExpected);
        return Some(ImplProblem::File(problem));
    }
    if field.text.contains("//") || field.text.contains("/*") {
        return Some(ImplProblem::Comment);
    }
    for at in field.words.start..field.words.end {
        if let Some(problem) = refusal_at(file, tokens, item, at, field.words.end) {
            return Some(problem);
        }
    }
    if names_seen(tokens, items, field) && !are_light(tokens, items, &[], field.words) {
        return Some(ImplProblem::HoldsMemory);
    }
    None
}

/// Returns whether a word of the field's type names an item with a parameter and a lifetime.
fn names_seen(tokens: &[Token], items: &[Item], field: &Field) -> bool {
    for at in field.words.start..field.words.end {
        if let Some(token) = token_at(tokens, at) {
            if items
                .iter()
                .any(|item| token.says(item.name.as_bytes()) && is_seen(item))
            {
                return true;
            }
        }
    }
    false
}

/// Returns what is wrong with the token at the index of a type that ends before `end`, if anything
/// is.
fn refusal_at(
    file: &str,
    tokens: &[Token],
    item: &Item,
    at: usize,
    end: usize,
) -> Option<ImplProblem> {
    let next = at.saturating_add(1);
    let Some(token) = token_at(tokens, at) else {
        return None;
    };
    if token.says(b"&") {
        return reference_problem(file, tokens, item, at);
    }
    let is_slice = token.says(b"[") && !has_count(tokens, at);
    if (is_slice || token.says(b"str")) && !is_before(tokens, at, b"&") {
        return Some(ImplProblem::NotServed);
    }
    if NOT_SERVED.iter().any(|word| token.says(word)) {
        return Some(ImplProblem::NotServed);
    }
    if token.says(b":") || is_name_at(tokens, at) && next < end && is_name_at(tokens, next) {
        return Some(ImplProblem::CommaExpected);
    }
    None
}

/// Returns whether a `;` is in the brackets that begin at the index, outside of further ones.
fn has_count(tokens: &[Token], open: usize) -> bool {
    let words = inside(tokens, open);
    for at in words.start..words.end {
        if let (Some(bracket), Some(token)) = (token_at(tokens, open), token_at(tokens, at)) {
            if token.says(b";") && token.depth == bracket.depth.saturating_add(1) {
                return true;
            }
        }
    }
    false
}

/// Returns what is wrong with the reference whose `&` is at the index, if anything is.
fn reference_problem(file: &str, tokens: &[Token], item: &Item, at: usize) -> Option<ImplProblem> {
    let next = at.saturating_add(1);
    if is_at(tokens, next, b"mut") {
        return Some(ImplProblem::NotServed);
    }
    let is_bytes = is_at(tokens, next, b"[")
        && is_at(tokens, at.saturating_add(2), b"u8")
        && is_at(tokens, at.saturating_add(3), b"]");
    if !is_bytes && !is_at(tokens, next, b"str") {
        return Some(ImplProblem::NoReference);
    }
    let lifetime = raw_between(file, tokens, at, next).trim();
    if item
        .parameters
        .lifetimes
        .iter()
        .any(|known| *known == lifetime)
    {
        return None;
    }
    Some(ImplProblem::NotRead)
}

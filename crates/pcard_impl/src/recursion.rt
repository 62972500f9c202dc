//! Which types have themselves in them.

use crate::error::{ImplProblem, ImplProblemAt};
use crate::form::{named, position};
use crate::item::{Item, Span};
use crate::scan::problem_at;
use postcard_source::declaration::Kind;
use postcard_source::token::{Token, token_at};

/// Fails at an item that isn't finite: at the first token of its types by which it leads back to itself.
pub(crate) fn check_recursion(tokens: &[Token], items: &[Item]) -> Result<(), ImplProblemAt> {
    for (index, item) in items.iter().enumerate() {
        if let Some(at) = first_open(tokens, items, item) {
            if leads_back(tokens, items, index) {
                return Err(problem_at(tokens, at, ImplProblem::Recursive));
            }
        }
    }
    Ok(())
}

/// Returns whether the first item that isn't finite which the item at the index names, the first that
/// this one names, and so on lead back to it.
fn leads_back(tokens: &[Token], items: &[Item], index: usize) -> bool {
    let mut at = index;
    for _ in items {
        let Some(next) = first_open_item(tokens, items, at) else {
            return false;
        };
        if next == index {
            return true;
        }
        at = next;
    }
    false
}

fn first_open_item(tokens: &[Token], items: &[Item], at: usize) -> Option<usize> {
    let item = items.get(at)?;
    let open = first_open(tokens, items, item)?;
    position(items, token_at(tokens, open)?)
}

/// Returns the index of the first token in the types of an item that [`open_in`] finds, if there is
/// one.
pub(crate) fn first_open(tokens: &[Token], items: &[Item], item: &Item) -> Option<usize> {
    if item.kind == Kind::Alias {
        return open_in(tokens, items, item.words);
    }
    for member in &item.members {
        for field in &member.fields {
            if let Some(at) = open_in(tokens, items, field.words) {
                return Some(at);
            }
        }
    }
    None
}

/// Returns the index of the first of these tokens that names an item which isn't finite, if there is
/// one.
fn open_in(tokens: &[Token], items: &[Item], words: Span) -> Option<usize> {
    for at in words.start..words.end {
        if let Some(token) = token_at(tokens, at) {
            if let Some(item) = named(items, token) {
                if !item.found.is_finite {
                    return Some(at);
                }
            }
        }
    }
    None
}

//! What the types in the items are found to be.

use crate::form::is_signed_alias;
use crate::item::Item;
use crate::memory::is_light;
use crate::recursion::first_open;
use postcard_source::token::Token;

/// What the types in an item are found to be. Each starts as `false`.
#[derive(Clone, Copy)]
pub(crate) struct Found {
    /// Each item that they name is finite: the item hasn't itself in it.
    pub is_finite: bool,
    /// They hold no memory, unless a parameter does.
    pub is_light: bool,
    /// The item is an alias, and has a signed number.
    pub is_signed: bool,
}

impl Found {
    /// Returns that nothing is found.
    pub(crate) fn nothing() -> Found {
        Found {
            is_finite: false,
            is_light: false,
            is_signed: false,
        }
    }
}

/// Finds it for all items. An item follows from those that its types name, so each round may find
/// more, and there are as many rounds as items.
pub(crate) fn mark(tokens: &[Token], items: &mut [Item]) {
    for _ in 0..items.len() {
        for at in 0..items.len() {
            let all = &items[..];
            let found = found_of(tokens, all, &all[at]);
            items[at].found = found;
        }
    }
}

/// Returns what follows for an item from what is found for the others.
fn found_of(tokens: &[Token], items: &[Item], item: &Item) -> Found {
    Found {
        is_finite: first_open(tokens, items, item).is_none(),
        is_light: is_light(tokens, items, item),
        is_signed: is_signed_alias(tokens, items, item),
    }
}

//! Which form the impls of each type have, and which types have none.

use crate::error::ImplProblemAt;
use crate::item::{Item, Span};
use crate::recursion::check_recursion;
use crate::refusal::check_fields;
use postcard_source::declaration::Kind;
use postcard_source::token::{Token, token_at};
use std::alloc::Global;

/// How many variants an enum has at most whose plain form is proved.
const FEW_VARIANTS: usize = 3;

const SIGNED: [&[u8]; 6] = [b"i8", b"i16", b"i32", b"i64", b"i128", b"isize"];

/// Which impls a type has.
#[derive(Clone, Copy, PartialEq, Eq)]
pub(crate) enum Form {
    /// None: it is an alias.
    Alias,
    /// `Shaped` by `via`, `Serialize`, `Deserialize`, and `DeserializeOwned` if nothing in it borrows.
    Via,
    /// The same, and `FromParts`, by which a value is made of its parts, since it has a signed number or
    /// many variants, and the plain form might not be proved.
    ByParts,
    /// `Repr`, `FromRepr` and `SerializeRepr`, since it has a parameter and a lifetime.
    Seen,
}

/// Returns the form of each item. Fails at an item that has itself in it, and else at the
/// first field whose type has no impls that would be proved, and with `OutOfMemory`.
pub(crate) fn forms(
    alloc: Global,
    file: &str,
    tokens: &[Token],
    items: &[Item],
) -> Result<Vec<Form>, ImplProblemAt> {
    check_recursion(tokens, items)?;
    let mut forms = Vec::new(alloc);
    for item in items {
        check_fields(file, tokens, items, item)?;
        forms.push(form_of(tokens, items, item))?;
    }
    Ok(forms)
}

fn form_of(tokens: &[Token], items: &[Item], item: &Item) -> Form {
    if item.kind == Kind::Alias {
        return Form::Alias;
    }
    if is_seen(item) {
        return Form::Seen;
    }
    if item.kind == Kind::Enum && item.members.len() > FEW_VARIANTS {
        return Form::ByParts;
    }
    for member in &item.members {
        for field in &member.fields {
            if has_signed(tokens, items, field.words) {
                return Form::ByParts;
            }
        }
    }
    Form::Via
}

/// Returns whether the item has a parameter and a lifetime.
pub(crate) fn is_seen(item: &Item) -> bool {
    !item.parameters.lifetimes.is_empty() && !item.parameters.types.is_empty()
}

/// Returns whether an item is an alias that has a signed number.
pub(crate) fn is_signed_alias(tokens: &[Token], items: &[Item], item: &Item) -> bool {
    item.kind == Kind::Alias && has_signed(tokens, items, item.words)
}

/// Returns whether one of these words of a type is the type of a signed number, or an alias that has
/// one, also inside of an option, a list or a tuple.
fn has_signed(tokens: &[Token], items: &[Item], words: Span) -> bool {
    for at in words.start..words.end {
        if let Some(token) = token_at(tokens, at) {
            if is_signed(items, token) {
                return true;
            }
        }
    }
    false
}

fn is_signed(items: &[Item], token: Token) -> bool {
    if SIGNED.iter().any(|word| token.says(word)) {
        return true;
    }
    match named(items, token) {
        Some(item) => item.found.is_signed,
        None => false,
    }
}

/// Returns the item with the token's text as its name, if there is one.
pub(crate) fn named<'i, 'a>(items: &'i [Item<'a>], token: Token) -> Option<&'i Item<'a>> {
    items.get(position(items, token)?)
}

/// Returns the index of that item.
pub(crate) fn position(items: &[Item], token: Token) -> Option<usize> {
    items
        .iter()
        .position(|item| token.says(item.name.as_bytes()))
}

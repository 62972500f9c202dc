//! The declarations of types in a file.

ghost use Rattle.std.specs.Prelude.{◌≡◌, ℕ, ◌+◌, ◌<◌, false, length, All, Contains, Decides, OnOk};
ghost use Rattle.std.specs.Prelude.{IfOk, IfErr, IfSome, IfNone};
ghost use Rattle.postcard_source.specs.{AreDeclarations, BeginsItem, Declaration, Declares};
ghost use Rattle.postcard_source.specs.{EndsItem, IsItemEnd, IsKeyword, ItemOpen, Kind};
ghost use Rattle.postcard_source.specs.{ReadsItem, Says, is_of_type};

use crate::error::{FileProblem, ProblemAt, out_of_memory};
use crate::token::{Token, is_name_at, place_of, token_at};
use std::alloc::Global;

/// What a declaration declares.
#[derive(Clone, Copy, Debug, PartialEq, Eq)]
pub enum Kind {
    /// `struct`
    Struct,
    /// `enum`
    Enum,
    /// `type`
    Alias,
}

impl Kind {
    /// Returns what a declaration with this keyword declares, or `None` for another word.
    pub fn from_keyword(word: &[u8]) -> Option<Kind>
        ensures found { IfSome result (λ kind. IsKeyword word.now kind) }
        ensures none { IfNone result ((kind : Kind) → IsKeyword word.now kind → ⊥) }
    {
        match word {
            b"struct" => Some(Kind::Struct),
            b"enum" => Some(Kind::Enum),
            b"type" => Some(Kind::Alias),
            _ => None,
        }
    }
}

/// A declaration of a type.
#[derive(Clone, Copy, Debug)]
pub struct Declaration<'a> {
    /// What it declares.
    pub kind: Kind,
    /// The name of the type.
    pub name: Token<'a>,
    /// The index of the token after the name.
    pub start: usize,
    /// The index of the token after the last one of the declaration.
    pub end: usize,
}

/// Returns the declarations of a file with these tokens, in their order. Their names differ. Fails
/// with `NameExpected` at a declaration without a name, with `ItemOpen` at one that doesn't end,
/// with `DeclaredTwice` at a name that a declaration before has, and with `OutOfMemory`.
pub fn declarations<'a>(
    alloc: Global,
    tokens: &[Token<'a>],
) -> Result<Vec<Declaration<'a>>, ProblemAt>
    ensures declared { IfOk result (λ known. AreDeclarations tokens.now known.items) }
    ensures other { IfErr result (λ e. is_of_type e.problem ≡ false) }
{
    let mut known = Vec::new(alloc);
    for at in 0..tokens.len() {
        read_item(tokens, at, &mut known)?;
    }
    Ok(known)
}

/// Returns whether an item begins at the index: whether it is 0 or the token before it ends an item.
fn begins_item(tokens: &[Token], at: usize) -> bool
    ensures { Decides result (BeginsItem tokens.now at) }
{
    match at.checked_sub(1) {
        Some(before) => ends_item(tokens, before),
        None => true,
    }
}

/// Returns whether the token at the index ends an item: whether it is `;` or `}` outside of all brackets.
fn ends_item(tokens: &[Token], at: usize) -> bool
    ensures { Decides result (EndsItem tokens.now at) }
{
    match token_at(tokens, at) {
        Some(token) => token.depth == 0 && (token.says(b";") || token.says(b"}")),
        None => false,
    }
}

/// Adds the declaration that an item at the index is, if one is, to the end of the list. Fails as
/// [`declarations`] does.
fn read_item<'a>(
    tokens: &[Token<'a>],
    at: usize,
    known: &mut Vec<Declaration<'a>>,
) -> Result<(), ProblemAt>
    requires { at < length tokens.now }
    ensures read { OnOk result (ReadsItem tokens.now at known.old.items known.new.items) }
    ensures other { IfErr result (λ e. is_of_type e.problem ≡ false) }
{
    let Some(declaration) = declared(tokens, at)? else {
        return Ok(());
    };
    let left = declaration.name.left;
    if named(known.as_slice(), declaration.name.text).is_some() {
        return Err(ProblemAt {
            problem: FileProblem::DeclaredTwice,
            left,
        });
    }
    match known.push(declaration) {
        Ok(()) => Ok(()),
        Err(_) => Err(out_of_memory(left)),
    }
}

/// Returns the declaration that an item at the index is, or `None` if none is. Fails as
/// [`declarations`] does, but never with `DeclaredTwice`.
fn declared<'a>(tokens: &[Token<'a>], at: usize) -> Result<Option<Declaration<'a>>, ProblemAt>
    requires { at < length tokens.now }
    ensures found { IfOk result (λ found. IfSome found (λ d. Declares tokens.now at d)) }
    ensures none { IfOk result (λ found. IfNone found
        ((d : Declaration) → Declares tokens.now at d → ⊥)) }
    ensures open { IfErr result (λ e. e.problem ≡ ItemOpen
        → (end : ℕ) → IsItemEnd tokens.now (at + 2) end → ⊥) }
    ensures other { IfErr result (λ e. is_of_type e.problem ≡ false) }
{
    if !begins_item(tokens, at) {
        return Ok(None);
    }
    let Some(kind) = Kind::from_keyword(tokens[at].text) else {
        return Ok(None);
    };
    if at + 1 >= tokens.len() || !is_name_at(tokens, at + 1) {
        return Err(ProblemAt {
            problem: FileProblem::NameExpected,
            left: place_of(tokens, at + 1),
        });
    }
    match item_end(tokens, at + 2) {
        Some(end) => Ok(Some(Declaration {
            kind,
            name: tokens[at + 1],
            start: at + 2,
            end,
        })),
        None => Err(ProblemAt {
            problem: FileProblem::ItemOpen,
            left: place_of(tokens, at),
        }),
    }
}

/// Returns the index after the first token, from the index `start` on, that ends an item, or `None` if
/// none does.
fn item_end(tokens: &[Token], start: usize) -> Option<usize>
    ensures found { IfSome result (λ end. IsItemEnd tokens.now start end) }
    ensures none { IfNone result ((end : ℕ) → IsItemEnd tokens.now start end → ⊥) }
{
    for last in start..tokens.len() {
        if ends_item(tokens, last) {
            return Some(last + 1);
        }
    }
    None
}

/// Returns the declaration with this name, or `None` if there is none.
pub fn named<'a>(known: &[Declaration<'a>], name: &[u8]) -> Option<Declaration<'a>>
    ensures found { IfSome result (λ d. Contains known.now d × Says name.now d.name) }
    ensures none { IfNone result (All (λ d. Says name.now d.name → ⊥) known.now) }
{
    for declaration in known {
        if declaration.name.says(name) {
            return Some(*declaration);
        }
    }
    None
}

//! The words that a declaration stands for, where each name of another one is replaced by what that
//! stands for.
//!
//! `known` has the declarations of the file, and `within` those that are being replaced, each in
//! the one before it. `depth` is how many more may be replaced inside of the last. The functions
//! below [`words_of`] fail as it does.

ghost use Rattle.std.specs.Prelude.{◌≡◌, ℕ, ◌+◌, ◌<◌, ◌≤◌, ◌++◌, ◌∷◌, [], true, length};
ghost use Rattle.std.specs.Prelude.{Decides, OnOk, IfOk, IfErr, IfSome, IfNone};
ghost use Rattle.postcard_source.specs.{AreInOrder, BeginsType, Counts, CountsAt, Declaration};
ghost use Rattle.postcard_source.specs.{EntersAgain, Finds, HasMore, HasMoreAt, HasProblem};
ghost use Rattle.postcard_source.specs.{IsMember, IsOpened, IsSpelledBy, NamesDiffer, Refers};
ghost use Rattle.postcard_source.specs.{Spelled, TooLong, Writes, is_of_type, spelling};

use crate::declaration::{Declaration, Kind, named};
use crate::error::{FileProblem, ProblemAt, out_of_memory};
use crate::token::{Token, is_at};
use crate::words::{check_body, is_discriminant, text_of};
use postcard_schema_text::Problem;
use std::alloc::Global;

/// How deep declarations may nest. A type expression may nest as deep, and each has a bracket there.
const MAX_DEPTH: usize = 64;

/// The greatest number of words and signs of a type, with its names replaced.
const MAX_WORDS: usize = 65_536;

/// Returns the words of a type expression that spell the type with this name. Fails with
/// `NotDeclared` at the end of the file if no declaration has the name, and otherwise as
/// [`FileProblem`] says, where the declaration, or one that it needs, is wrong.
pub fn words_of<'a>(
    alloc: Global,
    tokens: &[Token<'a>],
    known: &[Declaration<'a>],
    name: &[u8],
) -> Result<Vec<Token<'a>>, ProblemAt>
    requires order { AreInOrder tokens.now known.now }
    requires differ { NamesDiffer known.now }
    ensures spelled { IfOk result (λ words. IsSpelledBy tokens.now known.now name.now
        (spelling words.items)) }
    ensures opens { IfOk result (λ words. IsOpened tokens.now known.now (spelling words.items)) }
    ensures problem { IfErr result (λ e. is_of_type e.problem ≡ true
        → HasProblem tokens.now known.now name.now e.problem) }
{
    let Some(declaration) = named(known, name) else {
        return Err(ProblemAt {
            problem: FileProblem::NotDeclared,
            left: 0,
        });
    };
    let mut within = Vec::new(alloc);
    let mut out = Vec::new(alloc);
    if within.push(declaration).is_err() {
        return Err(out_of_memory(0));
    }
    write_declaration(
        tokens,
        known,
        &declaration,
        MAX_DEPTH,
        &mut within,
        &mut out,
    )?;
    Ok(out)
}

/// Adds what a declaration stands for to the end of `out`.
#[cycle(expand)]
fn write_declaration<'a>(
    tokens: &[Token<'a>],
    known: &[Declaration<'a>],
    declaration: &Declaration<'a>,
    depth: usize,
    within: &mut Vec<Declaration<'a>>,
    out: &mut Vec<Token<'a>>,
) -> Result<(), ProblemAt>
    requires order { AreInOrder tokens.now known.now }
    requires here { declaration.now.start ≤ declaration.now.end }
    requires inside { declaration.now.end ≤ length tokens.now }
    ensures written { OnOk result (Spelled tokens.now known.now declaration.now
        (spelling out.old.items) (spelling out.new.items)) }
    ensures counted { OnOk result ((n : ℕ)
        × (length out.new.items ≡ length out.old.items + n)
        × Counts tokens.now known.now declaration.now declaration.now.end n) }
    ensures begins { OnOk result (BeginsType tokens.now declaration.now) }
    ensures kept { OnOk result (within.new.items ≡ within.old.items) }
    ensures problem { IfErr result (λ e. is_of_type e.problem ≡ true
        → Finds tokens.now known.now within.old.items declaration.now depth
        (HasMore tokens.now known.now declaration.now) (length out.old.items) e.problem) }
{
    check_body(tokens, declaration)?;
    for at in declaration.start..declaration.end {
        write_token(tokens, known, declaration, at, depth, within, out)?;
    }
    Ok(())
}

/// Adds what a token of the declaration stands for to the end of `out`.
#[cycle(expand)]
fn write_token<'a>(
    tokens: &[Token<'a>],
    known: &[Declaration<'a>],
    declaration: &Declaration<'a>,
    at: usize,
    depth: usize,
    within: &mut Vec<Declaration<'a>>,
    out: &mut Vec<Token<'a>>,
) -> Result<(), ProblemAt>
    requires order { AreInOrder tokens.now known.now }
    requires start { declaration.now.start ≤ at }
    requires end { at < declaration.now.end }
    requires inside { at < length tokens.now }
    ensures written { OnOk result (Writes tokens.now known.now declaration.now at
        (spelling out.old.items) (spelling out.new.items)) }
    ensures counted { OnOk result ((n : ℕ)
        × (length out.new.items ≡ length out.old.items + n)
        × CountsAt tokens.now known.now declaration.now at n) }
    ensures kept { OnOk result (within.new.items ≡ within.old.items) }
    ensures problem { IfErr result (λ e. is_of_type e.problem ≡ true
        → Finds tokens.now known.now within.old.items declaration.now depth
        (HasMoreAt tokens.now known.now declaration.now at) (length out.old.items) e.problem) }
{
    let left = tokens[at].left;
    let Some(other) = referred(tokens, known, declaration, at) else {
        push(out, text_of(tokens, declaration.kind, at), left)?;
        return Ok(());
    };
    if depth == 0 {
        return Err(ProblemAt {
            problem: FileProblem::Expression(Problem::TooDeep),
            left,
        });
    }
    enter(within, &other, left)?;
    write_declaration(tokens, known, &other, depth - 1, within, out)?;
    let _ = within.pop();
    Ok(())
}

/// Returns the declaration that the token at the index refers to, or `None` if it stands for itself.
fn referred<'a>(
    tokens: &[Token<'a>],
    known: &[Declaration<'a>],
    declaration: &Declaration<'a>,
    at: usize,
) -> Option<Declaration<'a>>
    requires { at < length tokens.now }
    ensures found { IfSome result (λ e. Refers tokens.now known.now declaration.now at e) }
    ensures none { IfNone result ((e : Declaration)
        → Refers tokens.now known.now declaration.now at e → ⊥) }
{
    let Some(other) = named(known, tokens[at].text) else {
        return None;
    };
    if is_member(tokens, declaration.kind, at) {
        return None;
    }
    Some(other)
}

/// Returns whether the token at the index names a field, before `:`, or a variant, or is of the
/// discriminant of one.
fn is_member(tokens: &[Token], kind: Kind, at: usize) -> bool
    requires { at < length tokens.now }
    ensures { Decides result (IsMember tokens.now kind at) }
{
    if is_at(tokens, at + 1, b":") {
        return true;
    }
    match kind {
        Kind::Enum => tokens[at].depth == 1 || is_discriminant(tokens, at),
        _ => false,
    }
}

/// Adds a declaration to those that are being replaced. Fails with `Recursive` if it is one of
/// them, and with `OutOfMemory`.
fn enter<'a>(
    within: &mut Vec<Declaration<'a>>,
    other: &Declaration<'a>,
    left: usize,
) -> Result<(), ProblemAt>
    ensures entered { OnOk result (within.new.items ≡ within.old.items ++ other.now ∷ []) }
    ensures problem { IfErr result (λ e. is_of_type e.problem ≡ true
        → EntersAgain within.old.items other.now e.problem) }
{
    if named(within.as_slice(), other.name.text).is_some() {
        return Err(ProblemAt {
            problem: FileProblem::Recursive,
            left,
        });
    }
    match within.push(*other) {
        Ok(()) => Ok(()),
        Err(_) => Err(out_of_memory(left)),
    }
}

/// Adds a word. Fails with `TooLong` if there are `MAX_WORDS` before it, and with `OutOfMemory`.
fn push<'a>(out: &mut Vec<Token<'a>>, text: &'a [u8], left: usize) -> Result<(), ProblemAt>
    ensures pushed { OnOk result (spelling out.new.items
        ≡ spelling out.old.items ++ (text.now ++ 32 ∷ [])) }
    ensures counted { OnOk result (length out.new.items ≡ length out.old.items + 1) }
    ensures problem { IfErr result (λ e. is_of_type e.problem ≡ true
        → (e.problem ≡ TooLong) × (65536 ≤ length out.old.items)) }
{
    if out.len() >= MAX_WORDS {
        return Err(ProblemAt {
            problem: FileProblem::TooLong,
            left,
        });
    }
    match out.push(Token {
        text,
        depth: 0,
        left,
    }) {
        Ok(()) => Ok(()),
        Err(_) => Err(out_of_memory(left)),
    }
}

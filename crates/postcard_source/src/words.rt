//! What the tokens of a declaration stand for, and which tokens it may begin and end with.

ghost use Rattle.std.specs.Prelude.{◌≡◌, ◌<◌, true, false, length, Decides, IfErr, OnOk};
ghost use Rattle.postcard_source.specs.{BeginsType, EndsDiscriminant, IsAliasText};
ghost use Rattle.postcard_source.specs.{IsDiscriminant, IsEnumText, IsLastComma, IsPlainText};
ghost use Rattle.postcard_source.specs.{IsSign, IsStructText, IsText, Opens, is_of_type};

use crate::declaration::{Declaration, Kind};
use crate::error::{FileProblem, ProblemAt};
use crate::token::{Token, is_at, is_before, is_name_at, place_of};

/// Fails where the tokens after the name of a declaration don't begin or end as its kind has to. What
/// the first of them stands for begins with `(` or `{` otherwise.
pub fn check_body(tokens: &[Token], declaration: &Declaration) -> Result<(), ProblemAt>
    ensures begins { OnOk result (BeginsType tokens.now declaration.now) }
    ensures other { IfErr result (λ e. is_of_type e.problem ≡ false) }
{
    let start = declaration.start;
    let problem = match declaration.kind {
        _ if is_at(tokens, start, b"<") => FileProblem::Generic,
        Kind::Enum if !is_at(tokens, start, b"{") => FileProblem::BraceExpected,
        Kind::Alias if !is_at(tokens, start, b"=") => FileProblem::EqualsExpected,
        Kind::Alias if !is_before(tokens, declaration.end, b";") => {
            return Err(ProblemAt {
                problem: FileProblem::SemicolonExpected,
                left: place_of(tokens, declaration.end),
            });
        }
        _ if begins_type(tokens, declaration) => return Ok(()),
        _ => FileProblem::BodyExpected,
    };
    Err(ProblemAt {
        problem,
        left: place_of(tokens, start),
    })
}

/// Returns whether a type may begin with the first token after the name of a declaration: whether it is
/// no name, and stands for a text that begins with `(` or `{`.
fn begins_type(tokens: &[Token], declaration: &Declaration) -> bool
    ensures { result ≡ true → BeginsType tokens.now declaration.now }
{
    let start = declaration.start;
    start < tokens.len()
        && !is_name_at(tokens, start)
        && opens(text_of(tokens, declaration.kind, start))
}

fn opens(text: &[u8]) -> bool
    ensures { result ≡ true → Opens text.now }
{
    match text.split_first() {
        Some((first, _)) => *first == b'(' || *first == b'{',
        None => false,
    }
}

/// Returns the text that the token at the index stands for in a declaration of this kind.
pub fn text_of<'a>(tokens: &[Token<'a>], kind: Kind, at: usize) -> &'a [u8]
    requires { at < length tokens.now }
    ensures { IsText kind tokens.now at result.now }
{
    match kind {
        Kind::Struct => struct_text(tokens, at),
        Kind::Enum => enum_text(tokens, at),
        Kind::Alias => alias_text(tokens, at),
    }
}

fn struct_text<'a>(tokens: &[Token<'a>], at: usize) -> &'a [u8]
    requires { at < length tokens.now }
    ensures { IsStructText tokens.now at result.now }
{
    if is_sign(tokens, at, 0, b";") {
        return if is_before(tokens, at, b")") {
            b""
        } else {
            b"()"
        };
    }
    if is_last_comma(tokens, at, 1) {
        return b"";
    }
    plain_text(tokens, at)
}

fn alias_text<'a>(tokens: &[Token<'a>], at: usize) -> &'a [u8]
    requires { at < length tokens.now }
    ensures { IsAliasText tokens.now at result.now }
{
    if is_sign(tokens, at, 0, b"=") {
        return b"(";
    }
    if is_sign(tokens, at, 0, b";") {
        return b")";
    }
    plain_text(tokens, at)
}

fn enum_text<'a>(tokens: &[Token<'a>], at: usize) -> &'a [u8]
    requires { at < length tokens.now }
    ensures { IsEnumText tokens.now at result.now }
{
    if is_sign(tokens, at, 0, b"{") {
        return b"(|";
    }
    if is_sign(tokens, at, 0, b"}") {
        return b")";
    }
    if is_sign(tokens, at, 1, b",") {
        return if is_at(tokens, at + 1, b"}") {
            b""
        } else {
            b"|"
        };
    }
    if is_last_comma(tokens, at, 2) {
        return b"";
    }
    if is_discriminant(tokens, at) {
        return b"";
    }
    plain_text(tokens, at)
}

/// Returns the text that a token stands for where it is no sign of its declaration: `()` for `{}`, and
/// otherwise itself.
fn plain_text<'a>(tokens: &[Token<'a>], at: usize) -> &'a [u8]
    requires { at < length tokens.now }
    ensures { IsPlainText tokens.now at result.now }
{
    if is_at(tokens, at, b"{") && is_at(tokens, at + 1, b"}") {
        return b"(";
    }
    if is_at(tokens, at, b"}") && is_before(tokens, at, b"{") {
        return b")";
    }
    tokens[at].text
}

fn is_sign(tokens: &[Token], at: usize, depth: usize, sign: &[u8]) -> bool
    requires { at < length tokens.now }
    ensures { Decides result (IsSign depth sign.now tokens.now at) }
{
    tokens[at].depth == depth && tokens[at].says(sign)
}

/// Returns whether the token at the index is the comma after the last field of a tuple struct or a
/// tuple variant. The fields have `depth` brackets around them.
fn is_last_comma(tokens: &[Token], at: usize, depth: usize) -> bool
    requires { at < length tokens.now }
    ensures { Decides result (IsLastComma depth tokens.now at) }
{
    is_sign(tokens, at, depth, b",") && is_at(tokens, at + 1, b")") && !is_before(tokens, at, b"(")
}

/// Returns whether the token at the index is of the discriminant of a variant: `=` or a token of the
/// expression after it, which ends before the `,` or the `}` of the enum.
pub(crate) fn is_discriminant(tokens: &[Token], at: usize) -> bool
    requires { at < length tokens.now }
    ensures { Decides result (IsDiscriminant tokens.now at) }
{
    let mut index = at + 1;
    'back: while index > 0 {
        index -= 1;
        if ends_discriminant(tokens, index) {
            return false;
        }
        if is_sign(tokens, index, 1, b"=") {
            return true;
        }
    }
    false
}

/// Returns whether no discriminant goes on at the index: whether the token there is outside of all
/// brackets, or the `,` after a variant.
fn ends_discriminant(tokens: &[Token], at: usize) -> bool
    requires { at < length tokens.now }
    ensures { Decides result (EndsDiscriminant tokens.now at) }
{
    tokens[at].depth == 0 || is_sign(tokens, at, 1, b",")
}

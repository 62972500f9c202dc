//! The request of some words: [`Request`].

ghost use Rattle.std.specs.Prelude.{◌≡◌, IfErr, IfNone, IfOk, IfSome, OnErr, Some, map};
ghost use Rattle.std.specs.Prelude.{string_bytes};
ghost use Rattle.pcard_calls.specs.{IsNoCall, IsRequest, IsTypeWord, IsWhyNoCall, TypeWord};
ghost use Rattle.pcard_calls.specs.{first_word, given_of, has_colon, is_bare, is_string};
ghost use Rattle.pcard_calls.specs.{no_call_text, second_word, takes_name};

use crate::names::TypeWord;
use pcard_call::{Call, Misuse, Verb};
use std::fmt;

/// A call, and what its TYPE stands for.
#[derive(Clone, Copy, Debug)]
pub struct Request<'a> {
    /// The call.
    pub call: Call<'a>,
    /// What TYPE stands for: an expression, except where it may be a name.
    pub kind: TypeWord,
}

/// Why some words are no call. It is printed as a line that names the word that is wrong.
#[derive(Clone, Copy, Debug, PartialEq, Eq)]
pub enum NoCall<'a> {
    /// The words are misused.
    Misuse(Misuse<'a>),
    /// TYPE is neither a name nor an expression.
    UnknownType(&'a str),
}

impl fmt::Display for NoCall<'_> {
    ghost output = { λ why. Some (no_call_text why) };

    fn fmt<W: fmt::Write>(&self, f: &mut fmt::Formatter<W>) -> fmt::Result {
        match self {
            NoCall::Misuse(misuse) => misuse.fmt(f),
            NoCall::UnknownType(word) if is_string(word) => {
                write!(f, "unknown type {word}; a string is str")
            }
            NoCall::UnknownType(word) if has_colon(word) => {
                write!(f, "unknown type {word}; a type in a file is @{word}")
            }
            NoCall::UnknownType(word) if is_bare(word) => {
                write!(f, "unknown type {word}; write ({word})")
            }
            NoCall::UnknownType(word) => write!(
                f,
                "unknown type {word}; pcard types prints how a type is written"
            ),
        }
    }
}

impl<'a> Request<'a> {
    /// Returns the request of these words, which come after the program's name. Of `enc` and `dec`
    /// without options, TYPE may be a name. It is an expression everywhere else.
    ///
    /// # Errors
    ///
    /// Fails with why the words are no call.
    pub fn parse(words: &'a [String]) -> Result<Request<'a>, NoCall<'a>>
        ensures request { IfOk result (λ request. IsRequest (map string_bytes words.now)
            request.call.verb (given_of request.call.options)
            (map string_bytes request.call.operands.now) request.kind) }
        ensures none { OnErr result (IsNoCall (map string_bytes words.now)) }
        ensures why { IfErr result (IsWhyNoCall (map string_bytes words.now)) }
    {
        let call = match Call::parse(words) {
            Ok(call) => call,
            Err(misuse) => return Err(NoCall::Misuse(misuse)),
        };
        match kind_of(&call) {
            Some(kind) => Ok(Request { call, kind }),
            None => Err(NoCall::UnknownType(first(call.operands))),
        }
    }
}

/// Returns what TYPE of a call stands for, or `None` if it stands for nothing.
fn kind_of(call: &Call<'_>) -> Option<TypeWord>
    ensures found { IfSome result (IsTypeWord call.now.verb (given_of call.now.options)
        (first_word (map string_bytes call.now.operands.now))) }
    ensures none { IfNone result ((kind : TypeWord) → IsTypeWord call.now.verb
        (given_of call.now.options) (first_word (map string_bytes call.now.operands.now)) kind
        → ⊥) }
{
    if takes_name(call) {
        TypeWord::from_word(first(call.operands))
    } else {
        Some(TypeWord::Expression)
    }
}

fn is_string(word: &str) -> bool
    ensures { result ≡ is_string word.now }
{
    word == "String"
}

/// Returns whether the word is a type only within an expression.
fn is_bare(word: &str) -> bool
    ensures { result ≡ is_bare word.now }
{
    word == "usize" || word == "isize" || word == "bytes"
}

fn has_colon(word: &str) -> bool
    ensures { result ≡ has_colon word.now }
{
    word.as_bytes().contains(&b':')
}

fn takes_name(call: &Call<'_>) -> bool
    ensures { result ≡ takes_name call.now.verb (given_of call.now.options) }
{
    matches!(call.verb, Verb::Encode | Verb::Decode) && call.options.is_empty()
}

/// Returns the first of some words, or the empty word.
pub fn first(words: &[String]) -> &str
    ensures { result.now ≡ first_word (map string_bytes words.now) }
{
    match words {
        [first, ..] => first.as_str(),
        _ => "",
    }
}

/// Returns the second of some words, or the empty word.
pub fn second(words: &[String]) -> &str
    ensures { result.now ≡ second_word (map string_bytes words.now) }
{
    match words {
        [_, second, ..] => second.as_str(),
        _ => "",
    }
}

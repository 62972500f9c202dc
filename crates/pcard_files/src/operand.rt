//! Which operands of a call name a type, or a file of bytes.

ghost use Rattle.std.specs.Prelude.{◌≡◌, ◌<◌, ℕ, List, length, map, string_bytes, IfSome, IfNone};
ghost use Rattle.pcard_files.specs.{IsCall, AreNoCall, IsOnlyCall, IsTypeAt, NamesInput, given_of};
ghost use Rattle.pcard_files.specs.{reads_bytes, takes_type};

use pcard_call::laws::{call_or_misuse, one_call};
use pcard_call::{Call, Verb};

/// Returns the index of the word TYPE, or `None` if the words are no call that has one.
pub(crate) fn type_index(words: &[String]) -> Option<usize>
    ensures found { IfSome result (IsTypeAt (map string_bytes words.now)) }
    ensures one { IfSome result (λ i. (j : ℕ) → IsTypeAt (map string_bytes words.now) j → j ≡ i) }
    ensures none { IfNone result ((i : ℕ) → IsTypeAt (map string_bytes words.now) i → ⊥) }
    ensures inside { IfSome result (λ i. i < length words.now) }
{
    let Some(call) = call_of(words) else {
        return None;
    };
    if !takes_type(call.verb) || call.operands.is_empty() {
        return None;
    }
    Some(words.len() - call.operands.len())
}

/// Returns the name of the file that the call of these words reads its bytes from, or `None` if they
/// name none.
pub(crate) fn input_name(words: &[String]) -> Option<&str>
    ensures found { IfSome result (λ name. NamesInput (map string_bytes words.now) name.now) }
    ensures none { IfNone result ((file : List ℕ)
        → NamesInput (map string_bytes words.now) file → ⊥) }
{
    let Some(call) = call_of(words) else {
        return None;
    };
    if !call.options.raw || !reads_bytes(call.verb) {
        return None;
    }
    if call.operands.len() != 2 {
        return None;
    }
    call.operands[1].as_str().strip_prefix('@')
}

/// Returns the call that the words are, or `None` if they are none.
fn call_of(words: &[String]) -> Option<Call<'_>>
    ensures call { IfSome result (λ call. IsCall (map string_bytes words.now)
        call.verb (given_of call.options) (map string_bytes call.operands.now)) }
    ensures one { IfSome result (λ call. IsOnlyCall (map string_bytes words.now)
        call.verb (given_of call.options) (map string_bytes call.operands.now)) }
    ensures none { IfNone result (AreNoCall (map string_bytes words.now)) }
    ensures inside { IfSome result (λ call. length call.operands.now < length words.now) }
{
    // For the prover: words are one call at most, and those that are misused are none.
    one_call();
    call_or_misuse();
    match Call::parse(words) {
        Ok(call) => Some(call),
        Err(_) => None,
    }
}

fn takes_type(verb: Verb) -> bool
    ensures { result ≡ takes_type verb }
{
    !matches!(verb, Verb::Checksum | Verb::Types)
}

fn reads_bytes(verb: Verb) -> bool
    ensures { result ≡ reads_bytes verb }
{
    matches!(
        verb,
        Verb::Decode | Verb::DecodeAll | Verb::Explain | Verb::Frames
    )
}

//! Reading the word VALUE of `enc` where TYPE is a name, as `u32`, and no expression.

ghost use Rattle.std.specs.Prelude.{IfOk, IfErr};
ghost use Rattle.pcard_calls.specs.{ReadsScalar, RefusesList, SayEach, parts};

use pcard_message::Failure;
use std::alloc::Global;
use std::str::FromStr;

/// Returns the value of a word by the type's `parse`. A number is decimal digits, perhaps after a
/// `+`, or for a signed type a `-`. A `bool` is `true` or `false`, and a `char` one character.
/// Fails with `BadValue` if the word is no value of the type.
pub fn scalar<T: FromStr>(word: &str) -> Result<T, Failure<'static>>
where
    T::Err: Drop,
    ensures { ReadsScalar T.from_str_gives word.now result }
{
    match word.parse::<T>() {
        Ok(value) => Ok(value),
        Err(_) => Err(Failure::BadValue),
    }
}

/// Returns the numbers of a word, in which they have commas between them. The empty word has none.
/// Fails with `BadValue` if a part of the word is no number of the type.
pub fn list<T: FromStr + Drop>(alloc: Global, word: &str) -> Result<Vec<T>, Failure<'static>>
where
    T::Err: Drop,
    ensures value { IfOk result (λ numbers. SayEach T.from_str_gives
        (parts word.now) numbers.items) }
    ensures refused { IfErr result (λ e. RefusesList T.from_str_gives word.now e) }
{
    let mut numbers = Vec::new(alloc);
    if word.is_empty() {
        return Ok(numbers);
    }
    let mut rest = word;
    'parts: while let Some((part, after)) = rest.split_once(',') {
        numbers.push(scalar(part)?)?;
        rest = after;
    }
    numbers.push(scalar(rest)?)?;
    Ok(numbers)
}

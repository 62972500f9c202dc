//! The call of some words.

ghost use Rattle.std.specs.Prelude.{◌≡◌, IfErr, IfOk, map, string_bytes};
ghost use Rattle.pcard_call.specs.{IsBadOption, IsCall, IsMisuse, IsMisused, IsNewOption};
ghost use Rattle.pcard_call.specs.{OptionsThen, begins_option, fits, given_of, is_input, names_input};

use crate::misuse::Misuse;
use crate::options::{OptionName, Options};
use crate::verb::Verb;

/// One call: what its words say.
#[derive(Clone, Copy, Debug)]
pub struct Call<'a> {
    /// What the call does.
    pub verb: Verb,
    /// How it does it.
    pub options: Options<'a>,
    /// With what: the words after the options.
    pub operands: &'a [String],
}

impl<'a> Call<'a> {
    /// Returns the call of these words, which come after the program's name: the verb, its options
    /// in any order, each at most once, and as many operands as they ask for.
    ///
    /// # Errors
    ///
    /// Fails with the first word that is wrong, from left to right, and with `Operands` if it is
    /// none of the options.
    pub fn parse(words: &'a [String]) -> Result<Call<'a>, Misuse<'a>>
        ensures call { IfOk result (λ call. IsCall (map string_bytes words.now)
            call.verb (given_of call.options) (map string_bytes call.operands.now)) }
        ensures misuse { IfErr result (IsMisuse (map string_bytes words.now)) }
    {
        let Some((word, rest)) = words.split_first() else {
            return Err(Misuse::NoVerb);
        };
        let Some(verb) = Verb::from_name(word.as_str()) else {
            return Err(Misuse::UnknownVerb(word.as_str()));
        };
        let (options, operands) = match read_options(verb, Options::none(), rest) {
            Ok(read) => read,
            Err(misuse) => return Err(misuse),
        };
        if !fit(verb, &options, operands) {
            return Err(Misuse::Operands(verb));
        }
        Ok(Call {
            verb,
            options,
            operands,
        })
    }
}

/// Adds the options that the words begin with to those that are given already. Returns them all,
/// and the words after them.
fn read_options<'a>(
    verb: Verb,
    given: Options<'a>,
    words: &'a [String],
) -> Result<(Options<'a>, &'a [String]), Misuse<'a>>
    ensures read { IfOk result (λ read. OptionsThen verb (given_of given.entry)
        (map string_bytes words.now) (given_of read.0) (map string_bytes read.1.now)) }
    ensures misused { IfErr result (IsMisused verb (given_of given.entry) (map string_bytes words.now)) }
{
    let Some((word, rest)) = words.split_first() else {
        return Ok((given, words));
    };
    if !begins_option(word.as_str()) {
        return Ok((given, words));
    }
    let option = match option_of(verb, given, word.as_str()) {
        Ok(option) => option,
        Err(misuse) => return Err(misuse),
    };
    if !option.has_value() {
        return read_options(verb, given.with(option), rest);
    }
    let Some((value, rest)) = rest.split_first() else {
        return Err(Misuse::NoValue(option));
    };
    match given.with_value(option, value.as_str()) {
        Ok(given) => read_options(verb, given, rest),
        Err(misuse) => Err(misuse),
    }
}

fn begins_option(word: &str) -> bool
    ensures { result ≡ begins_option word.now }
{
    word.starts_with("--")
}

/// Returns the option that a word names.
fn option_of<'a>(verb: Verb, given: Options<'a>, word: &'a str) -> Result<OptionName, Misuse<'a>>
    ensures found { IfOk result (IsNewOption verb (given_of given.entry) word.now) }
    ensures misused { IfErr result (IsBadOption verb (given_of given.entry) word.now) }
{
    let Some(option) = OptionName::from_word(word) else {
        return Err(Misuse::UnknownOption(verb, word));
    };
    if !option.is_taken_by(verb) {
        return Err(Misuse::Untaken(verb, option));
    }
    if given.has(option) {
        return Err(Misuse::Twice(option));
    }
    Ok(option)
}

/// Returns whether the operands are those that the verb takes with these options.
fn fit(verb: Verb, options: &Options<'_>, operands: &[String]) -> bool
    ensures { result ≡ fits verb (given_of options.now) (map string_bytes operands.now) }
{
    match verb {
        Verb::Encode => operands.len() == 2,
        Verb::Decode | Verb::DecodeAll | Verb::Explain => {
            if options.raw {
                name_input(operands)
            } else {
                operands.len() == 2
            }
        }
        Verb::Frames if options.hex => !options.raw && operands.len() == 2,
        Verb::Frames if options.raw => name_input(operands),
        Verb::Frames => operands.len() == 1 || operands.is_empty() && options.is_empty(),
        Verb::Size | Verb::Key => operands.len() == 1,
        Verb::Checksum => operands.is_empty() || operands.len() == 2,
        Verb::Types => operands.is_empty(),
    }
}

/// Returns whether the operands are a type, and perhaps where its bytes are: `-` for standard
/// input, or `@` and the name of a file.
fn name_input(operands: &[String]) -> bool
    ensures { result ≡ names_input (map string_bytes operands.now) }
{
    match operands {
        [_kind] => true,
        [_kind, input] => is_input(input.as_str()),
        _ => false,
    }
}

fn is_input(word: &str) -> bool
    ensures { result ≡ is_input word.now }
{
    word == "-" || word.starts_with("@")
}

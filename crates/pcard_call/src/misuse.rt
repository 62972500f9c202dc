//! Why some words are no call.

ghost use Rattle.std.specs.Prelude.{◌≡◌, Some};
ghost use Rattle.pcard_call.specs.{misuse_text};

use crate::options::OptionName;
use crate::verb::Verb;
use std::fmt;

/// Why some words are no call. It is printed as a line that names the word that is wrong, and what
/// would do.
#[derive(Clone, Copy, Debug, PartialEq, Eq)]
pub enum Misuse<'a> {
    /// There is no word.
    NoVerb,
    /// No verb has this name.
    UnknownVerb(&'a str),
    /// No option has this name.
    UnknownOption(Verb, &'a str),
    /// The verb doesn't take the option.
    Untaken(Verb, OptionName),
    /// The option stands twice.
    Twice(OptionName),
    /// The option comes last, without its value.
    NoValue(OptionName),
    /// This is no value of the option.
    BadValue(OptionName, &'a str),
    /// After the options of the verb come too few operands, too many, or others than they allow.
    Operands(Verb),
}

impl fmt::Display for Misuse<'_> {
    ghost output = { λ misuse. Some (misuse_text misuse) };

    fn fmt<W: fmt::Write>(&self, f: &mut fmt::Formatter<W>) -> fmt::Result {
        match self {
            Misuse::NoVerb => f.write_str("a command is missing; pcard --help prints the calls"),
            Misuse::UnknownVerb(word) => write!(
                f,
                "unknown command {word}: there are enc, dec, decs, frames, explain, size, key, compat, crc, types, impl, c, python and demo"
            ),
            Misuse::UnknownOption(verb, word) => {
                let (name, usage) = (verb.name(), verb.usage());
                write!(f, "unknown option {word}; {name} takes {usage}")
            }
            Misuse::Untaken(verb, option) => {
                let (name, usage, word) = (verb.name(), verb.usage(), option.name());
                write!(f, "{name} takes no {word}, but {usage}")
            }
            Misuse::Twice(option) => {
                let word = option.name();
                write!(f, "{word} stands twice")
            }
            Misuse::NoValue(option) => {
                let (word, value) = (option.name(), option.value());
                write!(f, "{word} takes {value}")
            }
            Misuse::BadValue(option, found) => {
                let (word, value) = (option.name(), option.value());
                write!(f, "{word} takes {value}, and not {found}")
            }
            Misuse::Operands(verb) => {
                let (name, usage) = (verb.name(), verb.usage());
                write!(f, "{name} takes {usage}")
            }
        }
    }
}

//! The arguments of `pcard compat`: options in any order, and two types.

ghost use Rattle.std.specs.Prelude.{◌≡◌, ◌≢◌, IfErr, IfNone, IfOk, IfSome, Some, map, string_bytes};
ghost use Rattle.pcard_compat.specs.{IsBadSwitch, IsMisuse, IsMisused, IsNewSwitch, IsRequest};
ghost use Rattle.pcard_compat.specs.{Switch, SwitchesThen, begins_switch, is_given, misuse_text};
ghost use Rattle.pcard_compat.specs.{no_options, switch_name, with_switch};

use std::fmt;

/// An option. None has a value.
#[derive(Clone, Copy, Debug, PartialEq, Eq)]
pub enum Switch {
    /// `--both`
    Both,
    /// `--framed`
    Framed,
    /// `--json`
    Json,
}

impl Switch {
    /// Returns the option that this word names, if there is one.
    pub fn from_word(word: &str) -> Option<Switch>
        ensures found { IfSome result (λ switch. word.now ≡ switch_name switch) }
        ensures none { IfNone result ((switch : Switch) → word.now ≢ switch_name switch) }
    {
        match word {
            "--both" => Some(Switch::Both),
            "--framed" => Some(Switch::Framed),
            "--json" => Some(Switch::Json),
            _ => None,
        }
    }

    /// Returns the word that names the option.
    pub fn name(self) -> &'static str
        ensures { result.now ≡ switch_name self }
    {
        match self {
            Switch::Both => "--both",
            Switch::Framed => "--framed",
            Switch::Json => "--json",
        }
    }
}

/// The options of a call, in any combination.
#[derive(Clone, Copy, Debug, PartialEq, Eq)]
pub struct Options {
    /// `--both`: the types are compared in both directions.
    pub both: bool,
    /// `--framed`: bytes after a value do no harm.
    pub framed: bool,
    /// `--json`: answers are JSON.
    pub json: bool,
}

impl Options {
    /// Returns the options of a call that has none.
    pub fn none() -> Options
        ensures { result ≡ no_options }
    {
        Options {
            both: false,
            framed: false,
            json: false,
        }
    }

    /// Returns whether the option is given.
    pub fn has(self, switch: Switch) -> bool
        ensures { result ≡ is_given switch self }
    {
        match switch {
            Switch::Both => self.both,
            Switch::Framed => self.framed,
            Switch::Json => self.json,
        }
    }

    /// Returns these options and one more.
    pub fn with(self, switch: Switch) -> Options
        ensures { result ≡ with_switch switch self }
    {
        match switch {
            Switch::Both => Options { both: true, ..self },
            Switch::Framed => Options {
                framed: true,
                ..self
            },
            Switch::Json => Options { json: true, ..self },
        }
    }
}

/// One call, read from its arguments.
#[derive(Clone, Copy, Debug)]
pub struct Request<'a> {
    /// How the types are compared.
    pub options: Options,
    /// The word OLD.
    pub old: &'a str,
    /// The word NEW.
    pub new: &'a str,
}

/// Why arguments are invalid. It is printed as a line that names the wrong argument, and what is
/// expected.
#[derive(Clone, Copy, Debug, PartialEq, Eq)]
pub enum Misuse<'a> {
    /// No option has this name.
    UnknownOption(&'a str),
    /// The option stands twice.
    Twice(Switch),
    /// After the options come fewer than two words, or more.
    Operands,
}

impl fmt::Display for Misuse<'_> {
    ghost output = { λ misuse. Some (misuse_text misuse) };

    fn fmt<W: fmt::Write>(&self, f: &mut fmt::Formatter<W>) -> fmt::Result {
        match self {
            Misuse::UnknownOption(word) => write!(
                f,
                "unknown option {word}; compat takes [--both] [--framed] [--json] OLD NEW"
            ),
            Misuse::Twice(switch) => {
                let word = switch.name();
                write!(f, "{word} stands twice")
            }
            Misuse::Operands => f.write_str("compat takes [--both] [--framed] [--json] OLD NEW"),
        }
    }
}

impl<'a> Request<'a> {
    /// Reads the arguments after `compat`: options in any order, each at most once, and then OLD
    /// and NEW.
    ///
    /// # Errors
    ///
    /// Fails with the first option that is wrong. If no option is wrong, fails with `Operands` if
    /// the number of types isn't two.
    pub fn parse(words: &'a [String]) -> Result<Request<'a>, Misuse<'a>>
        ensures request { IfOk result (λ request. IsRequest (map string_bytes words.now)
            request.options request.old.now request.new.now) }
        ensures misuse { IfErr result (IsMisuse (map string_bytes words.now)) }
    {
        let (options, operands) = match read_options(Options::none(), words) {
            Ok(read) => read,
            Err(misuse) => return Err(misuse),
        };
        match operands {
            [old, new] => Ok(Request {
                options,
                old: old.as_str(),
                new: new.as_str(),
            }),
            _ => Err(Misuse::Operands),
        }
    }
}

/// Adds the options that the words begin with to those that are given already. Returns them all,
/// and the words after them.
fn read_options<'a>(
    given: Options,
    words: &'a [String],
) -> Result<(Options, &'a [String]), Misuse<'a>>
    ensures read { IfOk result (λ read. SwitchesThen given (map string_bytes words.now)
        read.0 (map string_bytes read.1.now)) }
    ensures misused { IfErr result (IsMisused given (map string_bytes words.now)) }
{
    let Some((word, rest)) = words.split_first() else {
        return Ok((given, words));
    };
    if !begins_switch(word.as_str()) {
        return Ok((given, words));
    }
    match switch_of(given, word.as_str()) {
        Ok(switch) => read_options(given.with(switch), rest),
        Err(misuse) => Err(misuse),
    }
}

fn begins_switch(word: &str) -> bool
    ensures { result ≡ begins_switch word.now }
{
    word.starts_with("--")
}

/// Returns the option that a word names.
fn switch_of<'a>(given: Options, word: &'a str) -> Result<Switch, Misuse<'a>>
    ensures found { IfOk result (IsNewSwitch given word.now) }
    ensures misused { IfErr result (IsBadSwitch given word.now) }
{
    let Some(switch) = Switch::from_word(word) else {
        return Err(Misuse::UnknownOption(word));
    };
    if given.has(switch) {
        return Err(Misuse::Twice(switch));
    }
    Ok(switch)
}

//! The options of a call: all that an option is stands in this file and in `specs/Options.antt`.

ghost use Rattle.std.specs.Prelude.{◌≡◌, ◌≢◌, ℕ, IfErr, IfNone, IfOk, IfSome, true};
ghost use Rattle.pcard_call.specs.{IsBadValue, OptionName, SaysLongest, WithValue, given_of};
ghost use Rattle.pcard_call.specs.{has_value, is_empty, is_given, nothing_given, option_name};
ghost use Rattle.pcard_call.specs.{takes, usage_of, value_of, with_switch};

use crate::misuse::Misuse;
use crate::verb::Verb;

/// The greatest number of bytes of a frame that `--longest` allows.
pub const LONGEST: usize = 65_536;

/// The name of an option.
#[derive(Clone, Copy, Debug, PartialEq, Eq)]
pub enum OptionName {
    /// `--crc NAME`
    Checksum,
    /// `--longest N`
    Longest,
    /// `--json`
    Json,
    /// `--frame`
    Frame,
    /// `--all`
    All,
    /// `--hex`
    Hex,
    /// `--raw`
    Raw,
    /// `--names`
    Names,
}

impl OptionName {
    /// Returns the option that this word names, if there is one.
    pub fn from_word(word: &str) -> Option<OptionName>
        ensures found { IfSome result (λ option. word.now ≡ option_name option) }
        ensures none { IfNone result ((option : OptionName) → word.now ≢ option_name option) }
    {
        match word {
            "--crc" => Some(OptionName::Checksum),
            "--longest" => Some(OptionName::Longest),
            "--json" => Some(OptionName::Json),
            "--frame" => Some(OptionName::Frame),
            "--all" => Some(OptionName::All),
            "--hex" => Some(OptionName::Hex),
            "--raw" => Some(OptionName::Raw),
            "--names" => Some(OptionName::Names),
            _ => None,
        }
    }

    /// Returns the word that names the option.
    pub fn name(self) -> &'static str
        ensures { result.now ≡ option_name self }
    {
        match self {
            OptionName::Checksum => "--crc",
            OptionName::Longest => "--longest",
            OptionName::Json => "--json",
            OptionName::Frame => "--frame",
            OptionName::All => "--all",
            OptionName::Hex => "--hex",
            OptionName::Raw => "--raw",
            OptionName::Names => "--names",
        }
    }

    /// Returns whether a value stands after the option.
    pub fn has_value(self) -> bool
        ensures { result ≡ has_value self }
    {
        matches!(self, OptionName::Checksum | OptionName::Longest)
    }

    /// Returns what the value of the option is.
    pub fn value(self) -> &'static str
        ensures { result.now ≡ value_of self }
    {
        match self {
            OptionName::Checksum => "the name of a checksum",
            OptionName::Longest => "a number from 1 to 65536",
            _ => "no value",
        }
    }

    /// Returns whether the verb takes the option.
    pub fn is_taken_by(self, verb: Verb) -> bool
        ensures { result ≡ takes verb self }
    {
        match verb {
            Verb::Encode | Verb::Decode | Verb::DecodeAll => {
                matches!(
                    self,
                    OptionName::Checksum | OptionName::Json | OptionName::Frame | OptionName::Raw
                )
            }
            Verb::Explain => !matches!(
                self,
                OptionName::Longest | OptionName::Hex | OptionName::Names
            ),
            Verb::Frames => !matches!(
                self,
                OptionName::Frame | OptionName::All | OptionName::Names
            ),
            Verb::Key => self == OptionName::Names,
            Verb::Size | Verb::Checksum | Verb::Types => false,
        }
    }
}

impl Verb {
    /// Returns what to write after the verb.
    pub fn usage(self) -> &'static str
        ensures { result.now ≡ usage_of self }
    {
        match self {
            Verb::Encode => "[--crc NAME] [--json] [--frame] [--raw] TYPE VALUE",
            Verb::Decode | Verb::DecodeAll => {
                "[--crc NAME] [--json] [--frame] TYPE HEX, or --raw TYPE [@FILE]"
            }
            Verb::Explain =>
                "[--all] [--crc NAME] [--json] [--frame] TYPE HEX, or --raw TYPE [@FILE]",
            Verb::Frames =>
                "[--crc NAME] [--json] [--longest N] [TYPE], --hex TYPE HEX, or --raw TYPE [@FILE]",
            Verb::Size => "TYPE",
            Verb::Key => "[--names] TYPE",
            Verb::Checksum => "NAME HEX, or no word more",
            Verb::Types => "no word more",
        }
    }
}

/// The options of a call, in any combination.
#[derive(Clone, Copy, Debug, PartialEq, Eq)]
pub struct Options<'a> {
    /// `--crc NAME`: each message ends with the checksum of this name.
    pub checksum: Option<&'a str>,
    /// `--longest N`: the most bytes of a frame, its zero included.
    pub longest: Option<usize>,
    /// `--json`: values and answers are JSON.
    pub json: bool,
    /// `--frame`: each message is in a frame.
    pub frame: bool,
    /// `--all`: nothing is left out.
    pub all: bool,
    /// `--hex`: the frames are given as hexadecimal digits.
    pub hex: bool,
    /// `--raw`: messages are given, or for `enc` printed, as bytes.
    pub raw: bool,
    /// `--names`: the names of fields and variants count.
    pub names: bool,
}

impl<'a> Options<'a> {
    /// Returns the options of a call that has none.
    pub fn none() -> Options<'a>
        ensures { given_of result ≡ nothing_given }
    {
        Options {
            checksum: None,
            longest: None,
            json: false,
            frame: false,
            all: false,
            hex: false,
            raw: false,
            names: false,
        }
    }

    /// Returns whether the option is given.
    pub fn has(&self, option: OptionName) -> bool
        ensures { result ≡ is_given option (given_of self.now) }
    {
        match option {
            OptionName::Checksum => self.checksum.is_some(),
            OptionName::Longest => self.longest.is_some(),
            OptionName::Json => self.json,
            OptionName::Frame => self.frame,
            OptionName::All => self.all,
            OptionName::Hex => self.hex,
            OptionName::Raw => self.raw,
            OptionName::Names => self.names,
        }
    }

    /// Returns these options and one more that has no value.
    pub fn with(self, option: OptionName) -> Options<'a>
        ensures { given_of result ≡ with_switch option (given_of self.entry) }
    {
        match option {
            OptionName::Json => Options { json: true, ..self },
            OptionName::Frame => Options {
                frame: true,
                ..self
            },
            OptionName::All => Options { all: true, ..self },
            OptionName::Hex => Options { hex: true, ..self },
            OptionName::Raw => Options { raw: true, ..self },
            OptionName::Names => Options {
                names: true,
                ..self
            },
            OptionName::Checksum | OptionName::Longest => self,
        }
    }

    /// Returns these options and one more, which has this value.
    ///
    /// # Errors
    ///
    /// Fails with `BadValue` if this is no value of the option.
    pub fn with_value(self, option: OptionName, value: &'a str) -> Result<Options<'a>, Misuse<'a>>
        requires { has_value option ≡ true }
        ensures added { IfOk result (λ more.
            WithValue option value.now (given_of self.entry) (given_of more)) }
        ensures misused { IfErr result (IsBadValue option value.now) }
    {
        if option == OptionName::Checksum {
            return Ok(Options {
                checksum: Some(value),
                ..self
            });
        }
        match longest(value) {
            Some(number) => Ok(Options {
                longest: Some(number),
                ..self
            }),
            None => Err(Misuse::BadValue(option, value)),
        }
    }

    /// Returns whether no option is given.
    pub fn is_empty(&self) -> bool
        ensures { result ≡ is_empty (given_of self.now) }
    {
        self.checksum.is_none()
            && self.longest.is_none()
            && !self.json
            && !self.frame
            && !self.all
            && !self.hex
            && !self.raw
            && !self.names
    }
}

/// Returns the number of a word, or `None` if it isn't a number from 1 to 65,536.
fn longest(number: &str) -> Option<usize>
    ensures found { IfSome result (SaysLongest number.now) }
    ensures none { IfNone result ((n : ℕ) → SaysLongest number.now n → ⊥) }
{
    match number.parse::<usize>() {
        Ok(longest) if 1 <= longest && longest <= LONGEST => Some(longest),
        _ => None,
    }
}

//! What a call does.

ghost use Rattle.std.specs.Prelude.{◌≡◌, ◌≢◌, IfNone, IfSome};
ghost use Rattle.pcard_call.specs.{Verb, verb_name};

/// What a call does.
#[derive(Clone, Copy, Debug, PartialEq, Eq)]
pub enum Verb {
    /// `enc`: encodes a value.
    Encode,
    /// `dec`: decodes the value at the front of some bytes.
    Decode,
    /// `decs`: decodes one value after another.
    DecodeAll,
    /// `frames`: decodes the frames of a stream.
    Frames,
    /// `explain`: describes each byte of a message.
    Explain,
    /// `size`: prints how many bytes the messages of a type have.
    Size,
    /// `key`: prints the key of a type.
    Key,
    /// `crc`: computes a checksum, or lists the algorithms.
    Checksum,
    /// `types`: prints how a type is written.
    Types,
}

impl Verb {
    /// Returns the verb with this name, if there is one.
    pub fn from_name(name: &str) -> Option<Verb>
        ensures found { IfSome result (λ verb. name.now ≡ verb_name verb) }
        ensures none { IfNone result ((verb : Verb) → name.now ≢ verb_name verb) }
    {
        match name {
            "enc" => Some(Verb::Encode),
            "dec" => Some(Verb::Decode),
            "decs" => Some(Verb::DecodeAll),
            "frames" => Some(Verb::Frames),
            "explain" => Some(Verb::Explain),
            "size" => Some(Verb::Size),
            "key" => Some(Verb::Key),
            "crc" => Some(Verb::Checksum),
            "types" => Some(Verb::Types),
            _ => None,
        }
    }

    /// Returns the word that names the verb.
    pub fn name(self) -> &'static str
        ensures { result.now ≡ verb_name self }
    {
        match self {
            Verb::Encode => "enc",
            Verb::Decode => "dec",
            Verb::DecodeAll => "decs",
            Verb::Frames => "frames",
            Verb::Explain => "explain",
            Verb::Size => "size",
            Verb::Key => "key",
            Verb::Checksum => "crc",
            Verb::Types => "types",
        }
    }
}

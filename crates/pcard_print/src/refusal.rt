//! Why bytes have no value: [`Refusal`].

ghost use Rattle.std.specs.Prelude.{◌≡◌, ◌<◌, [], IsFalse, IsTrue, Some, length};
ghost use Rattle.pcard_print.specs.{error_words, path_text, place_text, plain_step, reason_text};
ghost use Rattle.pcard_print.specs.{shown_name, step_text};

use postcard_schema::{Path, Step};
use postcard_wire::Error;
use std::fmt;

/// Why bytes have no value.
#[derive(Clone, Debug, Drop, PartialEq, Eq)]
pub enum Reason {
    /// Reading a value of the type fails with this error.
    Unread(Error),
    /// The checksum of the message doesn't follow it.
    BadChecksum,
    /// The bytes before a zero are no COBS frame.
    NoCobs,
    /// No zero ends the frame.
    NoZero,
    /// The frame is longer than is allowed.
    Overfull,
}

impl Reason {
    /// Returns the reason in a few words, as `unexpected end`.
    pub fn text(&self) -> &'static str
        ensures { result.now ≡ reason_text self.now }
    {
        match self {
            Reason::Unread(error) => words_of(error),
            Reason::BadChecksum => "bad checksum",
            Reason::NoCobs => "no COBS frame",
            Reason::NoZero => "no zero ends the frame",
            Reason::Overfull => "overfull",
        }
    }

    /// Returns the name of the JSON member with the bytes that are shown: `frame` if they are no
    /// frame, and else `data`.
    pub fn shown_name(&self) -> &'static str
        ensures { result.now ≡ shown_name self.now }
    {
        match self {
            Reason::NoCobs | Reason::NoZero => "frame",
            _ => "data",
        }
    }
}

fn words_of(error: &Error) -> &'static str
    ensures { result.now ≡ error_words error.now }
{
    match error {
        Error::DeserializeUnexpectedEnd => "unexpected end",
        Error::DeserializeBadVarint => "bad varint",
        Error::DeserializeBadBool => "bad bool",
        Error::DeserializeBadChar => "bad char",
        Error::DeserializeBadUtf8 => "bad UTF-8",
        Error::DeserializeBadOption => "bad option",
        Error::SerdeDeCustom => "unknown variant",
        _ => "refused",
    }
}

/// Where and why bytes have no value.
#[derive(Debug, Drop)]
pub struct Refusal<'a> {
    /// The offset of the part that can't be read, or of the frame.
    pub offset: usize,
    /// Why there is no value.
    pub reason: Reason,
    /// The path of the part that can't be read. It is empty for the whole value.
    pub path: Path<'a>,
    /// The data of the frame, or the frame itself if it is no COBS frame. `None` without a frame.
    pub shown: Option<&'a [u8]>,
}

/// A path before what is wrong with its part. It is printed with `: ` after it, or as nothing for
/// the whole value.
#[derive(Clone, Copy)]
pub(crate) struct Place<'a>(pub &'a Path<'a>);

impl fmt::Display for Place<'_> {
    ghost output = { λ place. Some (place_text (path_text place.0.now.steps.items)) };

    fn fmt<W: fmt::Write>(&self, f: &mut fmt::Formatter<W>) -> fmt::Result {
        if is_whole(self.0) {
            return Ok(());
        }
        write!(f, "{}: ", self.0)
    }
}

/// Returns whether the text of the path is empty.
fn is_whole(path: &Path<'_>) -> bool
    ensures whole { IsTrue result → path_text path.now.steps.items ≡ [] }
    ensures part { IsFalse result → 0 < length (path_text path.now.steps.items) }
{
    match path.steps.as_slice() {
        [] => true,
        [step] => is_blank(*step),
        _ => false,
    }
}

/// Returns whether the text of a step is empty.
fn is_blank(step: Step<'_>) -> bool
    ensures blank { IsTrue result → step_text (plain_step step.entry) ≡ [] }
    ensures shown { IsFalse result → 0 < length (step_text (plain_step step.entry)) }
{
    match step {
        Step::Name(name) => name.is_empty(),
        Step::Part(_number) => false,
        Step::Element(_) | Step::Each => false,
    }
}

//! The error of reading a value from JSON.

ghost use Rattle.std.specs.Prelude.{◌≡◌, List, [], ◌∷◌, ◌++◌, Some, OnOk, IfErr};
ghost use Rattle.postcard_value_json_read.specs.{IsAt, IsWithin, colon_after, expected_text};
ghost use Rattle.postcard_value_json_read.specs.{json_error_text, members_text, plain_step};

use postcard_schema::{Leaf, Path, Step};
use postcard_value::value::Value;
use std::alloc::Global;
use std::fmt;

/// What is wrong with JSON that is no value. It is printed as a short phrase, such as `expected an
/// array of length 2` or `unknown member`.
#[derive(Clone, Copy, Debug, PartialEq, Eq)]
pub enum Expected {
    /// A value of this type without parts.
    Leaf(Leaf),
    /// `null`, or an object with the member `Some` alone.
    Option,
    /// An array of any length.
    Array,
    /// An array of this length.
    ArrayOf(usize),
    /// `null`.
    Null,
    /// An object with this number of members: one for each field of the struct.
    ObjectOf(usize),
    /// The item or the member with which the path ends.
    Present,
    /// No member with the name with which the path ends, since no field has it.
    Absent,
    /// The name of a variant, or an object with the name and the content of a variant alone.
    Variant,
    /// JSON, in a text that isn't.
    Json,
}

/// The error of reading a value from JSON. It is printed as `samples[1].id: expected u8`.
#[derive(Debug, Drop)]
pub enum JsonError<'a> {
    /// The JSON is no value of the schema.
    NotAValue {
        /// The path in the JSON of the first part that is none, as `samples[1].id`. An item of an
        /// array is a [`Step::Element`], and a member of an object a [`Step::Name`]. Empty for the
        /// whole.
        path: Path<'a>,
        /// What is expected there.
        expected: Expected,
    },
    /// An allocation failed.
    OutOfMemory,
}

impl<'a> JsonError<'a> {
    /// Returns the error of the JSON that is being read, with an empty path.
    pub fn here(alloc: Global, expected: Expected) -> JsonError<'a>
        ensures { IsAt [] expected result }
    {
        JsonError::NotAValue {
            path: Path {
                steps: Vec::new(alloc),
            },
            expected,
        }
    }

    /// Returns the error of a part as the error of the JSON around it. The step leads from that
    /// JSON to the part.
    pub fn within(self, step: Step<'a>) -> JsonError<'a>
        ensures place { IsWithin (plain_step step.entry) self.entry result }
        ensures memory { self.entry ≡ JsonError.OutOfMemory → result ≡ JsonError.OutOfMemory }
    {
        match self {
            JsonError::NotAValue { path, expected } => {
                let mut steps = path.steps;
                match steps.insert(0, step) {
                    Ok(()) => JsonError::NotAValue {
                        path: Path { steps },
                        expected,
                    },
                    Err(_) => JsonError::OutOfMemory,
                }
            }
            JsonError::OutOfMemory => JsonError::OutOfMemory,
        }
    }
}

/// Appends a value, or fails with `OutOfMemory`.
pub(crate) fn push<'a>(values: &mut Vec<Value>, value: Value) -> Result<(), JsonError<'a>>
    ensures added { OnOk result (values.new.items ≡ values.old.items ++ value ∷ []) }
    ensures only_out_of_memory { IfErr result (λ e. e ≡ JsonError.OutOfMemory) }
{
    match values.push(value) {
        Ok(()) => Ok(()),
        Err(_) => Err(JsonError::OutOfMemory),
    }
}

impl fmt::Display for Expected {
    ghost output = { λ expected. Some (expected_text expected) };

    fn fmt<W: fmt::Write>(&self, f: &mut fmt::Formatter<W>) -> fmt::Result {
        match self {
            Expected::Leaf(Leaf::Fixed(_, integer)) => {
                let name = integer.name();
                write!(f, "expected {name}")
            }
            Expected::Leaf(leaf) => write!(f, "expected {leaf}"),
            Expected::Option => {
                f.write_str("expected null or an object with the member Some alone")
            }
            Expected::Array => f.write_str("expected an array"),
            Expected::ArrayOf(count) => write!(f, "expected an array of length {count}"),
            Expected::Null => f.write_str("expected null"),
            Expected::ObjectOf(count) => {
                let noun = noun(*count);
                write!(f, "expected an object with {count} {noun}")
            }
            Expected::Present => f.write_str("missing member"),
            Expected::Absent => f.write_str("unknown member"),
            Expected::Variant => f.write_str("expected a variant"),
            Expected::Json => f.write_str("expected JSON"),
        }
    }
}

fn noun(count: usize) -> &'static str
    ensures { result.now ≡ members_text count }
{
    if count == 1 { "member" } else { "members" }
}

impl fmt::Display for JsonError<'_> {
    ghost output = { λ e. Some (json_error_text e) };

    fn fmt<W: fmt::Write>(&self, f: &mut fmt::Formatter<W>) -> fmt::Result {
        match self {
            JsonError::NotAValue { path, expected } => {
                let colon = colon_after(path.steps.is_empty());
                write!(f, "{path}{colon}{expected}")
            }
            JsonError::OutOfMemory => f.write_str("out of memory"),
        }
    }
}

/// Returns what is printed after a path: `: `, but nothing after an empty one.
pub(crate) fn colon_after(is_whole: bool) -> &'static str
    ensures { result.now ≡ colon_after is_whole }
{
    if is_whole { "" } else { ": " }
}

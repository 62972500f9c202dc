//! Encoding and decoding values of the types that have a name.

ghost use Rattle.std.specs.Prelude.{◌≡◌, [], ◌∷◌, ◌++◌, IfErr, IfSome, OnOk};
ghost use Rattle.pcard_calls.specs.{Appends, Converts, NamedDecodeFails, PrintingFails};
ghost use Rattle.pcard_calls.specs.{PrintsNamedDecode, canonical, encode_lower, form_of, list_of};
ghost use Rattle.pcard_calls.specs.{one_word, whole_word};

use crate::joined::Joined;
use crate::names::ValueType;
use crate::value;
use pcard_message::Failure;
use pcard_print::write_hex;
use postcard_de::{Deserialize, take_from_bytes};
use postcard_ser::{Serialize, Serializer};
use postcard_ser_flavors::{Flavor, HVec};
use std::alloc::Global;
use std::fmt::Display;
use std::io::Write;
use std::str::FromStr;

/// The greatest size in bytes of an encoding.
const ENCODING: usize = 4096;

/// What to do with a type.
#[derive(Clone, Copy)]
pub enum Task<'a> {
    /// Encode the value of this word.
    Encode(&'a str),
    /// Decode a value from the front of these bytes.
    Decode(&'a [u8]),
}

/// Decodes a value from the front of the bytes of HEX, which is digits alone, and prints it on a
/// line, and the bytes after it as hexadecimal on a second.
///
/// # Errors
///
/// Fails with `BadHex` if HEX has another character or an odd number of digits, and with the
/// library's error if the bytes begin with no value of the type.
pub fn decode<W: Write>(
    alloc: Global,
    kind: ValueType,
    hex: &str,
    output: &mut W,
) -> Result<(), Failure<'static>>
    ensures printed { OnOk result (PrintsNamedDecode (form_of kind) hex.now
        (W.contents output.old) (W.contents output.new)) }
    ensures refused { IfErr result (NamedDecodeFails (form_of kind) hex.now) }
{
    match pcard_bytes::decode(alloc, hex.as_bytes())? {
        Some(bytes) => convert(alloc, kind, Task::Decode(bytes.as_slice()), output),
        None => Err(Failure::BadHex),
    }
}

/// Does the task with a type that has a name. This is the only table of these types.
pub fn convert<W: Write>(
    alloc: Global,
    kind: ValueType,
    task: Task<'_>,
    output: &mut W,
) -> Result<(), Failure<'static>>
    ensures { Converts task.entry (form_of kind)
        (W.contents output.old) (W.contents output.new) result }
{
    match kind {
        ValueType::U8 => convert_scalar::<u8, W>(alloc, task, output),
        ValueType::U16 => convert_scalar::<u16, W>(alloc, task, output),
        ValueType::U32 => convert_scalar::<u32, W>(alloc, task, output),
        ValueType::U64 => convert_scalar::<u64, W>(alloc, task, output),
        ValueType::U128 => convert_scalar::<u128, W>(alloc, task, output),
        ValueType::I8 => convert_scalar::<i8, W>(alloc, task, output),
        ValueType::I16 => convert_scalar::<i16, W>(alloc, task, output),
        ValueType::I32 => convert_scalar::<i32, W>(alloc, task, output),
        ValueType::I64 => convert_scalar::<i64, W>(alloc, task, output),
        ValueType::I128 => convert_scalar::<i128, W>(alloc, task, output),
        ValueType::Bool => convert_scalar::<bool, W>(alloc, task, output),
        ValueType::Char => convert_scalar::<char, W>(alloc, task, output),
        ValueType::Str => convert_text(alloc, task, output),
        ValueType::ListU8 => convert_list::<u8, W>(alloc, task, output),
        ValueType::ListU32 => convert_list::<u32, W>(alloc, task, output),
    }
}

/// Encodes or decodes a value that is one word: a number, a `bool` or a character.
fn convert_scalar<'a, 'f, T, W: Write>(
    alloc: Global,
    task: Task<'a>,
    output: &mut W,
) -> Result<(), Failure<'f>>
where
    T: FromStr + Display + Serialize + Deserialize<'a> + Drop,
    T::Err: Drop,
    ensures { Converts task.entry (one_word T.shape T.from_str_gives T.output)
        (W.contents output.old) (W.contents output.new) result }
{
    match task {
        Task::Encode(word) => print_encoded(&value::scalar::<T>(word)?, output),
        Task::Decode(bytes) => {
            let (value, rest) = take_from_bytes::<T>(alloc, bytes)?;
            print_decoded(&value, rest, output)
        }
    }
}

/// Encodes or decodes a string.
fn convert_text<W: Write>(
    alloc: Global,
    task: Task<'_>,
    output: &mut W,
) -> Result<(), Failure<'static>>
    ensures { Converts task.entry whole_word
        (W.contents output.old) (W.contents output.new) result }
{
    match task {
        Task::Encode(word) => print_encoded(&word, output),
        Task::Decode(bytes) => {
            let (text, rest) = take_from_bytes::<&str>(alloc, bytes)?;
            print_decoded(text, rest, output)
        }
    }
}

/// Encodes or decodes a list of numbers.
fn convert_list<'a, 'f, T, W: Write>(
    alloc: Global,
    task: Task<'a>,
    output: &mut W,
) -> Result<(), Failure<'f>>
where
    T: FromStr + Display + Serialize + Deserialize<'a> + Drop,
    T::Err: Drop,
    ensures { Converts task.entry (list_of T.shape T.from_str_gives T.output)
        (W.contents output.old) (W.contents output.new) result }
{
    match task {
        Task::Encode(word) => print_encoded(&value::list::<T>(alloc, word)?, output),
        Task::Decode(bytes) => {
            let (numbers, rest) = take_from_bytes::<Vec<T>>(alloc, bytes)?;
            print_decoded(Joined(numbers.as_slice()), rest, output)
        }
    }
}

/// Prints the encoding of a value as hexadecimal on a line, or fails with the error of encoding it
/// into 4,096 bytes.
fn print_encoded<T: Serialize, W: Write>(value: &T, output: &mut W) -> Result<(), Failure<'static>>
    ensures printed { OnOk result (Appends (W.contents output.old) (W.contents output.new)
        (encode_lower (canonical (T.shape.tree value.now)) ++ 10 ∷ [])) }
    ensures refused { IfErr result (PrintingFails T.shape value.now) }
{
    let mut serializer = Serializer {
        output: HVec::<ENCODING>::new(),
    };
    value.serialize(&mut serializer)?;
    let encoding = serializer.output.finalize()?;
    write_hex(&encoding, output)?;
    writeln!(output)?;
    Ok(())
}

/// Prints a value on a line, and the bytes after it as hexadecimal on a second.
fn print_decoded<D: Display + Drop, W: Write>(
    value: D,
    rest: &[u8],
    output: &mut W,
) -> Result<(), Failure<'static>>
    ensures printed { OnOk result (IfSome (D.output value)
        (λ text. Appends (W.contents output.old) (W.contents output.new)
        (text ++ 10 ∷ encode_lower rest.now ++ 10 ∷ []))) }
    ensures only_output { IfErr result (λ e. e ≡ Failure.Output) }
{
    writeln!(output, "{value}")?;
    write_hex(rest, output)?;
    writeln!(output)?;
    Ok(())
}

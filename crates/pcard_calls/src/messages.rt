//! Calls about messages of a format.

ghost use Rattle.std.specs.Prelude.{IfErr, IfOk, OnOk, map, string_bytes};
ghost use Rattle.pcard_calls.specs.{FailsWith, FramesFailWith, GivenFails, HasDistinctNames, IsGiven};
ghost use Rattle.pcard_calls.specs.{PrintsFrames, PrintsWith, READS, given_of, layout_of, longest_of};
ghost use Rattle.pcard_calls.specs.{second_word};

use crate::explain::explain;
use crate::request::second;
use pcard_bytes::{InputError, read_hex, read_input};
use pcard_call::{Call, LONGEST, Options, Verb};
use pcard_message::{Failure, Format, decode, decode_all, encode, print_frames, print_frames_of};
use postcard_de_flavors::Reader;
use std::alloc::Global;
use std::io::Write;

/// Does a call about messages of this format: `enc`, `dec`, `decs`, `explain` or `frames`.
///
/// # Errors
///
/// Fails as [`encode`], [`decode`], [`decode_all`], [`explain`] and [`print_frames`] do, and as
/// [`read_hex`] or [`read_input`] if the bytes of the call can't be read.
pub fn perform<'a, R: Reader, W: Write>(
    alloc: Global,
    call: &Call<'_>,
    format: &'a Format,
    input: &mut R,
    output: &mut W,
) -> Result<(), Failure<'a>>
    requires { HasDistinctNames (layout_of format.now.schema) }
    ensures printed { OnOk result (PrintsWith format.now call.now.verb (given_of call.now.options)
        (second_word (map string_bytes call.now.operands.now))
        (R.remaining input.old) (R.remaining input.new)
        (W.contents output.old) (W.contents output.new)) }
    ensures refused { IfErr result (FailsWith READS (R.steady input.old) format.now
        call.now.verb (given_of call.now.options)
        (second_word (map string_bytes call.now.operands.now))
        (R.remaining input.old) (R.remaining input.new)
        (W.contents output.old) (W.contents output.new)) }
{
    let options = &call.options;
    let text = second(call.operands);
    match call.verb {
        Verb::Encode => encode(alloc, format, options.raw, text, output),
        Verb::Decode => {
            let bytes = bytes_of(alloc, options.raw, text, input)?;
            decode(alloc, format, &bytes, output)
        }
        Verb::DecodeAll => {
            let bytes = bytes_of(alloc, options.raw, text, input)?;
            decode_all(alloc, format, &bytes, output)
        }
        Verb::Explain => {
            let bytes = bytes_of(alloc, options.raw, text, input)?;
            explain(alloc, format, options.all, &bytes, output)
        }
        _ => print_stream(alloc, options, format, text, input, output),
    }
}

/// Returns the bytes of a call: all of the input with `--raw`, and else those of HEX.
fn bytes_of<R: Reader>(
    alloc: Global,
    raw: bool,
    hex: &str,
    input: &mut R,
) -> Result<Vec<u8>, InputError>
    ensures bytes { IfOk result (λ bytes. IsGiven raw hex.now
        (R.remaining input.old) (R.remaining input.new) bytes.items) }
    ensures refused { IfErr result (GivenFails READS (R.steady input.old) raw hex.now
        (R.remaining input.old) (R.remaining input.new)) }
{
    if raw {
        read_input(alloc, input)
    } else {
        read_hex(alloc, hex, input)
    }
}

/// Prints the lines of a stream of frames: of the input, or with `--hex` of the bytes of HEX.
fn print_stream<R: Reader, W: Write>(
    alloc: Global,
    options: &Options<'_>,
    format: &Format,
    hex: &str,
    input: &mut R,
    output: &mut W,
) -> Result<(), Failure<'static>>
    ensures printed { OnOk result (PrintsFrames format.now (longest_of (given_of options.now))
        options.now.hex hex.now (R.remaining input.old) (R.remaining input.new)
        (W.contents output.old) (W.contents output.new)) }
    ensures refused { IfErr result (FramesFailWith READS (R.steady input.old) format.now
        (longest_of (given_of options.now)) options.now.hex hex.now
        (R.remaining input.old) (R.remaining input.new)
        (W.contents output.old) (W.contents output.new)) }
{
    let longest = options.longest.unwrap_or(LONGEST);
    if options.hex {
        let bytes = read_hex(alloc, hex, input)?;
        print_frames_of(alloc, format, longest, &bytes, output)
    } else {
        print_frames(alloc, format, longest, input, output)
    }
}

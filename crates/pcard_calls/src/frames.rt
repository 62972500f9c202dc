//! The command `frames` without a TYPE, which prints each frame of a stream as a list of bytes, on a
//! line.

ghost use Rattle.std.specs.Prelude.{IfErr, OnOk};
ghost use Rattle.pcard_calls.specs.{Appends, FramesFail, PrintsAnswers, answer_line};

use pcard_message::Failure;
use pcard_print::write_hex;
use postcard_accumulator::{Answer, CobsAccumulator, ReadEnd, read_frames};
use postcard_de_flavors::Reader;
use std::alloc::Global;
use std::io;
use std::io::Write;

/// The most bytes of a frame, its zero included.
pub const LONGEST_FRAME: usize = 64;

/// The most bytes of one read.
pub const CHUNK: usize = 16;

/// The most reads.
pub const READS: usize = 65_536;

/// Reads frames of lists of bytes until the input ends, and prints a line for each:
///
/// - `ok` and the bytes as hexadecimal;
/// - `error` for a frame with no such list, or if the allocation for its bytes fails;
/// - `overfull` for a frame of more than 64 bytes, its zero included.
///
/// # Errors
///
/// Fails with `Limit` if the input doesn't end within 65,536 reads, with `ReadFailed` if a read
/// fails, and with `OutOfMemory` if an allocation for an answer fails. The lines of the frames
/// before that are printed.
pub fn print<R: Reader, W: Write>(
    alloc: Global,
    input: &mut R,
    output: &mut W,
) -> Result<(), Failure<'static>>
    ensures printed { OnOk result (PrintsAnswers (R.remaining input.old) (R.remaining input.new)
        (W.contents output.old) (W.contents output.new)) }
    ensures refused { IfErr result (FramesFail (R.steady input.old) (R.remaining input.old)
        (R.remaining input.new) (W.contents output.old) (W.contents output.new)) }
{
    let mut accumulator = CobsAccumulator::<LONGEST_FRAME>::new();
    let mut chunk = [0; CHUNK];
    let mut answers = Vec::new(alloc);
    let end = read_frames(
        alloc,
        input,
        &mut chunk,
        READS,
        &mut accumulator,
        &mut answers,
    );
    for answer in answers.iter() {
        print_answer(answer, output)?;
    }
    match end {
        ReadEnd::End => Ok(()),
        ReadEnd::Limit => Err(Failure::Limit),
        ReadEnd::ReadFailed => Err(Failure::ReadFailed),
        ReadEnd::OutOfMemory { .. } => Err(Failure::OutOfMemory),
    }
}

/// Prints the line of an answer.
fn print_answer<W: Write>(answer: &Answer<Vec<u8>>, output: &mut W) -> io::Result<()>
    ensures { OnOk result (Appends (W.contents output.old) (W.contents output.new)
        (answer_line answer.now)) }
{
    match answer {
        Answer::OverFull => output.write_all(b"overfull\n"),
        Answer::DeserError => output.write_all(b"error\n"),
        Answer::Success(bytes) => {
            output.write_all(b"ok ")?;
            write_hex(bytes, output)?;
            output.write_all(b"\n")
        }
    }
}

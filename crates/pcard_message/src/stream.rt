//! The command `frames`: [`print_frames`] prints the values of a stream of frames, each on a line as
//! soon as its frame has ended. `start` is the offset of a frame in the stream.

ghost use Rattle.std.specs.Prelude.{◌≡◌, ◌+◌, ◌-◌, ◌^◌, ◌<◌, [], ◌∷◌, IfErr, IfOk, OnOk, false, length};
ghost use Rattle.std.specs.Prelude.{min};
ghost use Rattle.pcard_message.specs.{Continues, IsSame, LinesFail, NoZero, PrintsAnswerTo};
ghost use Rattle.pcard_message.specs.{PrintsLine, PrintsLines, PrintsStream, ReadFails, Reads};
ghost use Rattle.pcard_message.specs.{StreamFails, line_failure, overfull, plain_answer, refused};

use crate::failure::Failure;
use crate::format::Format;
use crate::frame::read_frame;
use pcard_print::{Answer, PrintError, Reason, Refusal, print_answer, print_refusal};
use postcard_cobs::frame_len;
use postcard_de_flavors::Reader;
use postcard_schema::Path;
use postcard_wire::Error;
use std::alloc::Global;
use std::io::Write;

/// The most bytes of one read.
const CHUNK: usize = 65_536;

/// The most reads. It only ends the loop: no input has that many bytes.
const READS: u64 = u64::MAX;

/// Reads frames until the input ends, and prints a line for each once its zero is read:
///
/// - its value, and the bytes of its data after that, if there are some;
/// - an error for a frame without a value, with where the frame begins and why;
/// - an error for a frame of more than `longest` bytes, its zero included, once it has that many.
///
/// The output is flushed after each read. Memory is used for one frame and its value only.
///
/// # Errors
///
/// - `ReadFailed` if a read fails, and `Limit` after 2^64 - 1 reads. The lines of what was read
///   before are printed.
/// - `Output` if a line can't be written.
/// - `OutOfMemory` if an allocation fails.
/// - `Library(WontImplement)` if a value has no JSON.
pub fn print_frames<R: Reader, W: Write>(
    alloc: Global,
    format: &Format,
    longest: usize,
    input: &mut R,
    output: &mut W,
) -> Result<(), Failure<'static>>
    ensures printed { OnOk result (PrintsStream format.now longest
        (R.remaining input.old) (R.remaining input.new)
        (W.contents output.old) (W.contents output.new)) }
    ensures refused { IfErr result (StreamFails (R.steady input.old) format.now longest
        (R.remaining input.old) (R.remaining input.new)
        (W.contents output.old) (W.contents output.new)) }
{
    let mut chunk = [0; CHUNK];
    let mut stream = Stream::new(alloc, longest);
    'reads: for _ in 0..READS {
        let more = stream.read(alloc, format, &mut chunk, input, output)?;
        if !more {
            return Ok(());
        }
    }
    Err(Failure::Limit)
}

/// Prints what [`print_frames`] prints if these bytes are the input.
///
/// # Errors
///
/// Fails as [`print_frames`] does. No read can fail.
pub fn print_frames_of<W: Write>(
    alloc: Global,
    format: &Format,
    longest: usize,
    bytes: &[u8],
    output: &mut W,
) -> Result<(), Failure<'static>>
    ensures printed { OnOk result (PrintsLines format.now longest bytes.now
        (W.contents output.old) (W.contents output.new)) }
    ensures refused { IfErr result (LinesFail format.now) }
{
    let mut stream = Stream::new(alloc, longest);
    stream.take(alloc, format, bytes, output)
}

/// The state of a stream between two reads. Its methods and the functions below fail as
/// [`print_frames`] does.
#[derive(Drop)]
struct Stream {
    /// The greatest length of a frame, its zero included.
    longest: usize,
    /// The bytes so far of the frame that hasn't ended. It is empty while that frame is being
    /// skipped.
    held: Vec<u8>,
    /// Whether that frame is being skipped, since it is too long. Its line is printed.
    skipping: bool,
    /// The offset in the stream of that frame.
    start: u64,
    /// The number of bytes of the stream so far.
    count: u64,
    /// The data of the last frame that had several groups.
    message: Vec<u8>,
}

impl Stream {
    fn new(alloc: Global, longest: usize) -> Stream
        ensures limit { result.longest ≡ longest }
        ensures held { result.held.items ≡ [] }
        ensures skipping { result.skipping ≡ false }
        ensures start { result.start ≡ 0 }
        ensures count { result.count ≡ 0 }
    {
        Stream {
            longest,
            held: Vec::new(alloc),
            skipping: false,
            start: 0,
            count: 0,
            message: Vec::new(alloc),
        }
    }

    /// Reads once, prints the lines of what was read, and flushes them. Returns `false` at the end
    /// of the input. Fails with `ReadFailed` if the read fails.
    fn read<R: Reader, W: Write>(
        &mut self,
        alloc: Global,
        format: &Format,
        chunk: &mut [u8],
        input: &mut R,
        output: &mut W,
    ) -> Result<bool, Failure<'static>>
        requires { 0 < length chunk.old }
        ensures read { IfOk result (Reads format.now self.old self.new
            (R.remaining input.old) (R.remaining input.new)
            (W.contents output.old) (W.contents output.new)) }
        ensures stays_steady { R.steady input.old → R.steady input.new }
        ensures refused { IfErr result (ReadFails format.now (R.steady input.old)
            (R.remaining input.old) (R.remaining input.new)
            (W.contents output.old) (W.contents output.new)) }
    {
        let count = match input.read_some(chunk) {
            Ok(count) => count,
            Err(_) => return Err(Failure::ReadFailed),
        };
        self.take(alloc, format, &chunk[..count], output)?;
        output.flush()?;
        Ok(count > 0)
    }

    /// Takes a piece, and prints the lines of the frames that end in it.
    fn take<W: Write>(
        &mut self,
        alloc: Global,
        format: &Format,
        piece: &[u8],
        output: &mut W,
    ) -> Result<(), Failure<'static>>
        ensures printed { OnOk result (Continues format.now self.old piece.now self.new
            (W.contents output.old) (W.contents output.new)) }
        ensures refused { IfErr result (LinesFail format.now) }
    {
        let mut rest = piece;
        'parts: while !rest.is_empty() {
            let end = frame_len(rest);
            let (part, after) = rest.split_at(end);
            self.hold(alloc, format, part, output)?;
            if end == rest.len() {
                return Ok(());
            }
            self.end_frame(alloc, format, output)?;
            let (_, more) = after.split_at(1);
            rest = more;
        }
        Ok(())
    }

    /// Adds bytes without a zero to the held bytes of their frame. If the frame becomes too long,
    /// prints its line, and skips the remaining bytes of the frame. Fails with `OutOfMemory` if the
    /// bytes can't be held, and with `Output` if the line can't be written.
    fn hold<W: Write>(
        &mut self,
        alloc: Global,
        format: &Format,
        part: &[u8],
        output: &mut W,
    ) -> Result<(), Failure<'static>>
        ensures printed { OnOk result (NoZero part.now
            → Continues format.now self.old part.now self.new
            (W.contents output.old) (W.contents output.new)) }
        ensures refused { IfErr result (LinesFail format.now) }
    {
        self.count = self.count.saturating_add(part.len() as u64);
        if self.skipping {
            return Ok(());
        }
        if part.len() > self.longest.saturating_sub(self.held.len()) {
            self.held.clear();
            self.skipping = true;
            return print_overfull(alloc, format, self.start, output);
        }
        match self.held.extend_from_slice(part) {
            Ok(()) => Ok(()),
            Err(_) => Err(Failure::OutOfMemory),
        }
    }

    /// Takes the zero that ends a frame, and prints the frame's line. The line of a skipped frame
    /// is printed already.
    fn end_frame<W: Write>(
        &mut self,
        alloc: Global,
        format: &Format,
        output: &mut W,
    ) -> Result<(), Failure<'static>>
        ensures printed { OnOk result (Continues format.now self.old (0 ∷ []) self.new
            (W.contents output.old) (W.contents output.new)) }
        ensures refused { IfErr result (LinesFail format.now) }
    {
        if self.skipping {
            self.begin_frame();
            return Ok(());
        }
        self.print_frame(alloc, format, output)?;
        self.begin_frame();
        Ok(())
    }

    /// Begins the frame after the zero that comes next.
    fn begin_frame(&mut self)
        ensures longest { self.new.longest ≡ self.old.longest }
        ensures held { self.new.held.items ≡ [] }
        ensures skipping { self.new.skipping ≡ false }
        ensures count { self.new.count ≡ min (self.old.count + 1) (2 ^ 64 - 1) }
        ensures start { self.new.start ≡ self.new.count }
    {
        self.held.clear();
        self.skipping = false;
        self.count = self.count.saturating_add(1);
        self.start = self.count;
    }

    /// Prints the line of the frame that is held, which has ended.
    fn print_frame<W: Write>(
        &mut self,
        alloc: Global,
        format: &Format,
        output: &mut W,
    ) -> Result<(), Failure<'static>>
        ensures printed { OnOk result (NoZero self.old.held.items
            → PrintsAnswerTo format.now self.old.longest self.old.start self.old.held.items
            (W.contents output.old) (W.contents output.new)) }
        ensures kept { OnOk result (IsSame self.old self.new) }
        ensures refused { IfErr result (LinesFail format.now) }
    {
        if self.held.len() >= self.longest {
            return print_overfull(alloc, format, self.start, output);
        }
        let Ok(answer) = read_frame(alloc, format, &self.held, &mut self.message) else {
            return Err(Failure::OutOfMemory);
        };
        print_line(alloc, format, self.start, &answer, output)
    }
}

fn print_line<W: Write>(
    alloc: Global,
    format: &Format,
    start: u64,
    answer: &Answer<'_>,
    output: &mut W,
) -> Result<(), Failure<'static>>
    ensures printed { OnOk result (PrintsLine format.now start (plain_answer answer.now)
        (W.contents output.old) (W.contents output.new)) }
    ensures refused { IfErr result (LinesFail format.now) }
{
    match print_answer(
        alloc,
        format.notation,
        &format.schema,
        start,
        answer,
        output,
    ) {
        Ok(()) => Ok(()),
        Err(error) => Err(failure_of(error)),
    }
}

/// Prints the line of a frame that is too long.
fn print_overfull<W: Write>(
    alloc: Global,
    format: &Format,
    start: u64,
    output: &mut W,
) -> Result<(), Failure<'static>>
    ensures printed { OnOk result (PrintsLine format.now start (refused overfull)
        (W.contents output.old) (W.contents output.new)) }
    ensures refused { IfErr result (LinesFail format.now) }
{
    let refusal = Refusal {
        offset: 0,
        reason: Reason::Overfull,
        path: Path {
            steps: Vec::new(alloc),
        },
        shown: None,
    };
    match print_refusal(alloc, format.notation, start, &refusal, output) {
        Ok(()) => Ok(()),
        Err(error) => Err(failure_of(error)),
    }
}

/// Returns the failure of `frames` for a line that isn't printed. Unlike `dec`, it ends with status
/// 3 if an allocation fails.
fn failure_of(error: PrintError) -> Failure<'static>
    ensures { result ≡ line_failure error }
{
    match error {
        PrintError::Output => Failure::Output,
        PrintError::OutOfMemory => Failure::OutOfMemory,
        PrintError::NoJson => Failure::Library(Error::WontImplement),
    }
}

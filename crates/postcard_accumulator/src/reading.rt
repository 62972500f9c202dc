//! The loop that reads the frames of a reader: [`read_frames`].

ghost use Rattle.std.specs.Prelude.{◌≡◌, ◌≢◌, ◌<◌, ◌++◌, ◌∷◌, [], length, vec_len, vec_capacity};
ghost use Rattle.postcard_accumulator.specs.{IsAtEnd, IsFedAll, IsOwn, IsReading};

use crate::accumulator::CobsAccumulator;
use crate::answers::{Answer, FeedResult};
use crate::laws::held_fits;
use postcard_de::DeserializeOwned;
use postcard_de_flavors::Reader;
use std::alloc::Global;

/// How [`read_frames`] ended.
#[derive(Clone, Copy, Debug, PartialEq, Eq, Drop)]
pub enum ReadEnd {
    /// A read returned 0 bytes: the reader is at its end.
    End,
    /// The greatest number of reads was made.
    Limit,
    /// The reader failed.
    ReadFailed,
    /// An allocation for an answer failed. The bytes `chunk[from..to]` were read and not fed.
    OutOfMemory {
        /// The index in the chunk of the first byte that wasn't fed.
        from: usize,
        /// The number of bytes that the last read wrote to the chunk.
        to: usize,
    },
}

fn keep<T: Drop>(out: &mut Vec<Answer<T>>, answer: Answer<T>)
    requires { vec_len out.old < vec_capacity out.old }
    ensures { out.new.items ≡ out.old.items ++ answer ∷ [] }
{
    let _ = out.push(answer);
}

/// Feeds a piece and appends the answers to `out`. Returns how many bytes at its end weren't fed:
/// 0, unless an allocation for an answer failed.
fn feed_all<T: DeserializeOwned, const N: usize>(
    alloc: Global,
    piece: &[u8],
    acc: &mut CobsAccumulator<N>,
    out: &mut Vec<Answer<T>>,
) -> usize
    ensures { IsFedAll N (IsOwn T.shape) acc.old piece.now out.old.items out.new.items acc.new
        result }
{
    held_fits(acc);
    let mut window = piece;
    'feeds: while !window.is_empty() {
        if out.reserve(1).is_err() {
            return window.len();
        }
        held_fits(acc);
        match acc.feed(alloc, window) {
            FeedResult::Consumed => {
                return 0;
            }
            FeedResult::OverFull(remaining) => {
                window = remaining;
                keep(out, Answer::OverFull);
            }
            FeedResult::DeserError(remaining) => {
                window = remaining;
                keep(out, Answer::DeserError);
            }
            FeedResult::Success { value, remaining } => {
                window = remaining;
                keep(out, Answer::Success(value));
            }
        }
    }
    0
}

/// Reads a stream of frames, and appends the answers to `out`.
///
/// It makes at most `reads` reads, each into `chunk`, which must not be empty, and feeds what was
/// read at once. However it ends, `out` keeps the answers and the accumulator its state, so another
/// call continues there.
///
/// The answers are those of the stream, however the reader cuts it: of what was held before, and of
/// all bytes read. At `OutOfMemory` those of `chunk[from..to]` are missing, which the caller must
/// feed next.
///
/// `ReadFailed` is never returned for a steady reader. At `Limit` at least `reads` bytes were read.
/// What is said here of the bytes read is promised of a reader that knows its bytes.
///
/// # Examples
///
/// ```rust
/// let first = read_frames(rt.alloc(), &mut reader, &mut chunk, 5, acc, out);
/// ```
pub fn read_frames<R: Reader, T: DeserializeOwned, const N: usize>(
    alloc: Global,
    reader: &mut R,
    chunk: &mut [u8],
    reads: usize,
    acc: &mut CobsAccumulator<N>,
    out: &mut Vec<Answer<T>>,
) -> ReadEnd
    requires { 0 < length chunk.old }
    ensures stream { IsReading N T.shape reads (R.remaining reader.old) (R.remaining reader.new)
        chunk.new acc.old acc.new out.old.items out.new.items result }
    ensures at_end { result ≡ ReadEnd.End → IsAtEnd (R.remaining reader.new) }
    ensures steady_never_fails { R.steady reader.old → result ≢ ReadEnd.ReadFailed }
    ensures stays_steady { R.steady reader.old → R.steady reader.new }
{
    held_fits(acc);
    for _ in 0..reads {
        let n = match reader.read_some(chunk) {
            Ok(n) => n,
            Err(_) => {
                return ReadEnd::ReadFailed;
            }
        };
        if n == 0 {
            return ReadEnd::End;
        }
        let left = feed_all(alloc, &chunk[..n], acc, out);
        if left > 0 {
            return ReadEnd::OutOfMemory {
                from: n - left,
                to: n,
            };
        }
    }
    ReadEnd::Limit
}

//! The reading loop: reads all frames of a reader by an accumulator, and checks their checksums.

ghost use Rattle.std.specs.Prelude.{◌≡◌, ◌≢◌, ◌<◌, ◌++◌, ◌∷◌, [], length, vec_len, vec_capacity};
ghost use Rattle.postcard_crc.specs.{IsAtEnd, IsFedAll, IsOwn, IsReading};

use crate::frames::feeding::feed;
use crc::{Crc, Implementation, Width};
use postcard_accumulator::laws::held_fits;
use postcard_accumulator::{Answer, CobsAccumulator, FeedResult, ReadEnd};
use postcard_de::DeserializeOwned;
use postcard_de_flavors::Reader;
use std::alloc::Global;

fn keep<T: Drop>(out: &mut Vec<Answer<T>>, answer: Answer<T>)
    requires { vec_len out.old < vec_capacity out.old }
    ensures { out.new.items ≡ out.old.items ++ answer ∷ [] }
{
    let _ = out.push(answer);
}

/// Feeds a piece and appends the answers to `out`. Returns how many bytes at its end weren't fed.
/// That is 0 if no allocation for an answer failed.
fn feed_all<T: DeserializeOwned, W: Width, I: Implementation<W>, const N: usize>(
    alloc: Global,
    piece: &[u8],
    acc: &mut CobsAccumulator<N>,
    out: &mut Vec<Answer<T>>,
    crc: &Crc<W, I>,
) -> usize
    ensures { IsFedAll N (IsOwn T.shape W.size crc.now) acc.old piece.now out.old.items
        out.new.items acc.new result }
{
    held_fits(acc);
    let mut window = piece;
    'feeds: while !window.is_empty() {
        if out.reserve(1).is_err() {
            return window.len();
        }
        held_fits(acc);
        match feed(alloc, acc, window, crc) {
            FeedResult::Consumed => {
                return 0;
            }
            FeedResult::OverFull(remaining) => {
                window = remaining;
                keep(out, Answer::OverFull);
            }
            FeedResult::DeserError(remaining) => {
                window = remaining;
                keep(out, Answer::DeserError);
            }
            FeedResult::Success { value, remaining } => {
                window = remaining;
                keep(out, Answer::Success(value));
            }
        }
    }
    0
}

/// Reads a stream of frames of values with a checksum, and appends the answers to `out`. Otherwise
/// it does what `read_frames` does.
///
/// The answer to a frame is the value, if the frame's data is its encoding and then just its
/// checksum. Otherwise it is `DeserError`, or `OverFull` for a frame that has no room.
pub fn read_frames<R: Reader, T: DeserializeOwned, W: Width, I: Implementation<W>, const N: usize>(
    alloc: Global,
    reader: &mut R,
    chunk: &mut [u8],
    reads: usize,
    acc: &mut CobsAccumulator<N>,
    out: &mut Vec<Answer<T>>,
    crc: &Crc<W, I>,
) -> ReadEnd
    requires { 0 < length chunk.old }
    ensures stream { IsReading N (IsOwn T.shape W.size crc.now) reads (R.remaining reader.old)
        (R.remaining reader.new) chunk.new acc.old acc.new out.old.items out.new.items result }
    ensures at_end { result ≡ ReadEnd.End → IsAtEnd (R.remaining reader.new) }
    ensures steady_never_fails { R.steady reader.old → result ≢ ReadEnd.ReadFailed }
    ensures stays_steady { R.steady reader.old → R.steady reader.new }
{
    held_fits(acc);
    for _ in 0..reads {
        let n = match reader.read_some(chunk) {
            Ok(n) => n,
            Err(_) => {
                return ReadEnd::ReadFailed;
            }
        };
        if n == 0 {
            return ReadEnd::End;
        }
        let left = feed_all(alloc, &chunk[..n], acc, out, crc);
        if left > 0 {
            return ReadEnd::OutOfMemory {
                from: n - left,
                to: n,
            };
        }
    }
    ReadEnd::Limit
}

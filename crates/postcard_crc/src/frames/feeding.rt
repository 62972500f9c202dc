//! One feed of an accumulator, with the checksum of the frame that it completes.

ghost use Rattle.postcard_accumulator.specs.Values.{IsReadOf};
ghost use Rattle.postcard_crc.specs.{IsFed, IsOwn};

use crate::de::from_bytes_whole;
use crc::{Crc, Implementation, Width};
use postcard_accumulator::{CobsAccumulator, FeedResult};
use postcard_de::{DeserializeOwned, Owned};
use std::alloc::Global;

/// Takes in a piece of a stream up to the end of a frame, and decodes that frame's value if just its
/// checksum follows it. The Rust crate has no such call.
///
/// The result is that of [`feed`](CobsAccumulator::feed), with one difference. It is `DeserError`
/// also if the checksum is wrong or incomplete, or if the data goes on after the checksum.
pub fn feed<'a, T: DeserializeOwned, W: Width, I: Implementation<W>, const N: usize>(
    alloc: Global,
    acc: &mut CobsAccumulator<N>,
    input: &'a [u8],
    crc: &Crc<W, I>,
) -> FeedResult<'a, T>
    ensures { IsFed N (IsOwn T.shape W.size crc.now) acc.old input.now result acc.new }
{
    let taken = acc.take_in(input);
    read(alloc, taken, crc)
}

/// Reads the value of a frame that was taken in, and checks its checksum. If either fails, the
/// result is `DeserError`.
fn read<'a, T: DeserializeOwned, W: Width, I: Implementation<W>>(
    alloc: Global,
    taken: FeedResult<'a, &[u8]>,
    crc: &Crc<W, I>,
) -> FeedResult<'a, T>
    ensures { IsReadOf (IsOwn T.shape W.size crc.now) taken.entry result }
{
    match taken {
        FeedResult::Consumed => FeedResult::Consumed,
        FeedResult::OverFull(remaining) => FeedResult::OverFull(remaining),
        FeedResult::DeserError(remaining) => FeedResult::DeserError(remaining),
        FeedResult::Success {
            value: data,
            remaining,
        } => match from_bytes_whole::<Owned<T>, W, I>(alloc, data, crc.digest()) {
            Ok(owned) => {
                let Owned(value) = owned;
                FeedResult::Success { value, remaining }
            }
            Err(_) => FeedResult::DeserError(remaining),
        },
    }
}

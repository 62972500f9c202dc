//! The accumulator: [`CobsAccumulator`].

ghost use Rattle.std.specs.Prelude.{◌≡◌, ◌+◌, ◌<◌, ◌≤◌, List, ℕ, [], ◌++◌, length, take, drop};
ghost use Rattle.std.specs.Prelude.{false, IfOk, OnErr};
ghost use Rattle.postcard_accumulator.specs.{Groups, IsDecoded, IsFed, IsFedHolding, IsOwn};
ghost use Rattle.postcard_accumulator.specs.{IsReadOf, IsTaken, NoZero, held_of, holding};
ghost use Rattle.postcard_accumulator.specs.{is_skipping};
ghost use Rattle.postcard_accumulator.specs.State.{State};

pub use crate::answers::FeedResult;
use postcard_cobs::{decode_behind_code, frame_len};
use postcard_de::{Deserialize, DeserializeOwned, Owned, from_bytes};
use postcard_wire::Result;
use std::alloc::Global;
use std::marker::Model;

/// Puts COBS frames together from pieces of a stream, and decodes their values, by the
/// [rule](crate#the-rule) on the crate's page. It holds at most `N` bytes: the front of a frame
/// that hasn't ended yet.
#[derive(Drop)]
pub struct CobsAccumulator<const N: usize> {
    buf: [u8; N],
    pub(crate) idx: usize,
    skipping: bool,
}

impl<const N: usize> Model for CobsAccumulator<N> {
    ghost use Rattle.std.specs.Prelude.{◌≡◌, ◌≤◌, List, ℕ, take, IsTrue};
    ghost use Rattle.postcard_cobs.specs.Groups.{NoZero};
    ghost use Rattle.postcard_accumulator.specs.State.{State, state_of};

    ghost Value = { State };

    ghost view = { λ s. state_of s.skipping (take s.idx s.buf) };

    ghost invariant = { λ s. (s.idx ≤ N) × NoZero (take s.idx s.buf)
        × (IsTrue s.skipping → s.idx ≡ 0) };
}

impl<const N: usize> Default for CobsAccumulator<N> {
    fn default() -> Self
        ensures { result ≡ holding [] }
    {
        CobsAccumulator::new()
    }
}

/// Decodes the frame of the first `end` bytes of a buffer in place, and returns the length of its
/// data, which begins at place 1. Fails if and only if the bytes are no COBS frame.
fn decode_front(buf: &mut [u8], end: usize) -> Result<usize>
    requires within { end ≤ length buf.old }
    requires no_zero { NoZero (take end buf.old) }
    ensures decodes { IfOk result (λ n. (n < length buf.new)
        × Groups (take end buf.old) (take n (drop 1 buf.new))) }
    ensures no_groups { OnErr result ((d : List ℕ) → Groups (take end buf.old) d → ⊥) }
{
    decode_behind_code(&mut buf[..end])
}

/// Reads the value of a frame that was taken in, and so makes the result of a feed.
fn read<'de, 'a, T: Deserialize<'de>>(
    alloc: Global,
    taken: FeedResult<'a, &'de [u8]>,
) -> FeedResult<'a, T>
    ensures { IsReadOf (IsOwn T.shape) taken.entry result }
{
    match taken {
        FeedResult::Consumed => FeedResult::Consumed,
        FeedResult::OverFull(remaining) => FeedResult::OverFull(remaining),
        FeedResult::DeserError(remaining) => FeedResult::DeserError(remaining),
        FeedResult::Success {
            value: data,
            remaining,
        } => match from_bytes::<T>(alloc, data) {
            Ok(value) => FeedResult::Success { value, remaining },
            Err(_) => FeedResult::DeserError(remaining),
        },
    }
}

impl<const N: usize> CobsAccumulator<N> {
    ghost use Rattle.std.specs.Prelude.{⊤};
    ghost use Rattle.std.specs.Borrow.{sem, follows_so};
    ghost use Rattle.postcard_accumulator.specs.contracts.accumulator.CobsAccumulator.{the_row};
    ghost use mathlib.Core.Option.{none};

    /// Returns an accumulator that holds nothing.
    pub fn new() -> Self
        ensures { result ≡ holding [] }
    {
        CobsAccumulator {
            buf: [0; N],
            idx: 0,
            skipping: false,
        }
    }

    /// Returns whether an oversized frame is being skipped.
    pub fn skipping(&self) -> bool
        ensures { result ≡ is_skipping self.now }
    {
        self.skipping
    }

    fn extend(&mut self, input: &[u8])
        requires not_skipping { is_skipping self.old ≡ false }
        requires room { length (held_of self.old) + length input.now ≤ N }
        requires no_zero { NoZero input.now }
        ensures { self.new ≡ holding (held_of self.old ++ input.now) }
    {
        let end = self.idx + input.len();
        let all = &mut self.buf[..];
        all[self.idx..end].copy_from_slice(input);
        self.idx = end;
    }

    /// Decodes the bytes held as a frame, and lends its data. Fails if and only if they are
    /// none. Nothing is held once the loan ends, also after a failure.
    fn decode<'de>(&'de mut self) -> Result<&'de [u8]>
        requires { is_skipping self.old ≡ false }
        ensures decodes { IfOk result (λ d. Groups (held_of self.old) d.now) }
        ensures no_groups { OnErr result ((d : List ℕ) → Groups (held_of self.old) d → ⊥) }
        ensures* held { sem 𝓛 (follows_so (the_row N.row) (the_row N.row)
            self.entry.ghost_name none (λ _ _. ⊤) (λ v. v ≡ holding [])) }
    {
        let end = self.idx;
        self.idx = 0;
        let all = &mut self.buf[..];
        let n = decode_front(all, end)?;
        let all = &self.buf[..];
        Ok(&all[1..n + 1])
    }

    /// [`take_in`](CobsAccumulator::take_in) of an accumulator that isn't skipping a frame.
    fn take_held<'de, 'a>(&'de mut self, input: &'a [u8]) -> FeedResult<'a, &'de [u8]>
        requires { is_skipping self.old ≡ false }
        ensures answer { (after : State)
            × IsFedHolding N IsDecoded (held_of self.old) input.now result after }
        ensures* after { sem 𝓛 (follows_so (the_row N.row) (the_row N.row)
            self.entry.ghost_name none (λ _ _. ⊤)
            (λ v. IsFedHolding N IsDecoded (held_of self.old) input.now result v)) }
    {
        let n = frame_len(input);
        if n == input.len() {
            if n > N - self.idx {
                self.idx = 0;
                self.skipping = true;
                return FeedResult::OverFull(&input[n..]);
            }
            self.extend(input);
            return FeedResult::Consumed;
        }
        let remaining = &input[n + 1..];
        if n >= N - self.idx {
            self.idx = 0;
            return FeedResult::OverFull(remaining);
        }
        self.extend(&input[..n]);
        match self.decode() {
            Ok(data) => FeedResult::Success {
                value: data,
                remaining,
            },
            Err(_) => FeedResult::DeserError(remaining),
        }
    }

    /// Does the same as [`feed`](CobsAccumulator::feed), but reads no value: `Success` has the
    /// frame's data, and `DeserError` is for what is no COBS frame. The data borrows from the
    /// accumulator.
    pub fn take_in<'de, 'a>(&'de mut self, input: &'a [u8]) -> FeedResult<'a, &'de [u8]>
        ensures answer { (after : State) × IsTaken N self.old input.now result after }
        ensures* after { sem 𝓛 (follows_so (the_row N.row) (the_row N.row)
            self.entry.ghost_name none (λ _ _. ⊤) (λ v. IsTaken N self.old input.now result v)) }
    {
        if !self.skipping {
            return self.take_held(input);
        }
        let n = frame_len(input);
        if n == input.len() {
            return FeedResult::Consumed;
        }
        self.skipping = false;
        self.take_held(&input[n + 1..])
    }

    /// Takes in a piece of a stream up to the end of a frame, and decodes that frame's value. Bytes
    /// after the value in a frame's data are ignored.
    ///
    /// # Examples
    ///
    /// ```rust
    /// left = match accumulator.feed::<(u8, u8)>(rt.alloc(), left) {
    ///     FeedResult::Consumed => break,
    ///     FeedResult::OverFull(rest) => rest, // a frame of more than 16 bytes
    ///     FeedResult::DeserError(rest) => rest, // a damaged frame
    ///     FeedResult::Success { value, remaining } => {
    ///         readings.push(value)?;
    ///         remaining
    ///     }
    /// };
    /// ```
    pub fn feed<'a, T: DeserializeOwned>(
        &mut self,
        alloc: Global,
        input: &'a [u8],
    ) -> FeedResult<'a, T>
        ensures { IsFed N T.shape self.old input.now result self.new }
    {
        match self.take_in(input) {
            FeedResult::Consumed => FeedResult::Consumed,
            FeedResult::OverFull(remaining) => FeedResult::OverFull(remaining),
            FeedResult::DeserError(remaining) => FeedResult::DeserError(remaining),
            FeedResult::Success {
                value: data,
                remaining,
            } => match from_bytes::<Owned<T>>(alloc, data) {
                Ok(owned) => {
                    let Owned(value) = owned;
                    FeedResult::Success { value, remaining }
                }
                Err(_) => FeedResult::DeserError(remaining),
            },
        }
    }

    /// Does the same as [`feed`](CobsAccumulator::feed), for a value that may borrow from the
    /// accumulator.
    pub fn feed_ref<'de, 'a, T: Deserialize<'de>>(
        &'de mut self,
        alloc: Global,
        input: &'a [u8],
    ) -> FeedResult<'a, T>
        ensures answer { (after : State) × IsFed N T.shape self.old input.now result after }
        ensures* after { sem 𝓛 (follows_so (the_row N.row) (the_row N.row)
            self.entry.ghost_name none (λ _ _. ⊤)
            (λ v. IsFed N T.shape self.old input.now result v)) }
    {
        let taken = self.take_in(input);
        read(alloc, taken)
    }
}

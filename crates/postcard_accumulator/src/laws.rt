//! What holds of every accumulator and stream, as contracts of functions that do nothing
//! (`specs/Laws.antt`, `specs/Messages.antt`).

ghost use Rattle.std.specs.Prelude.{◌≤◌, length};
ghost use Rattle.postcard_accumulator.specs.{AnswersAreOne, CutAtZero, DamageStays, FeedsAnswer};
ghost use Rattle.postcard_accumulator.specs.{FramesAreOne, Joined, MessagesArrive, NoZero};
ghost use Rattle.postcard_accumulator.specs.{NothingAfterZero, Split, held_of};

use crate::accumulator::CobsAccumulator;
use postcard_de::DeserializeOwned;

/// The bytes that an accumulator holds have room in it, and no zero among them.
pub fn held_fits<const N: usize>(accumulator: &CobsAccumulator<N>)
    ensures room { length (held_of accumulator.now) ≤ N }
    ensures no_zero { NoZero (held_of accumulator.now) }
{
    let _ = &accumulator.idx;
}

/// A feed returns the answers of the front that it takes of its piece.
pub fn feeds_answer<T: DeserializeOwned>()
    ensures { FeedsAnswer T.shape }
{}

/// The answers of calls in a row, one list after the other, are the answers of the joined stream.
pub fn joined<T: DeserializeOwned>()
    ensures { Joined T.shape }
{}

/// In an accumulator that holds nothing the answers of `u`, `x` and `v` in a row are those of `u`,
/// of `x` and of `v`. `u` and `x` must each be empty or end in a zero.
pub fn split<T: DeserializeOwned>()
    ensures { Split T.shape }
{}

/// For a type that doesn't grow, damage inside whole frames that keeps their last zero changes no
/// answer of the frames before and after them, except for values that look alike.
pub fn damage_stays<T: DeserializeOwned>()
    ensures { DamageStays T.shape }
{}

/// For a type that doesn't grow, the answers of a stream look alike however it is cut, and the
/// state after it is the same.
pub fn answers_are_one<T: DeserializeOwned>()
    ensures { AnswersAreOne T.shape }
{}

/// After a zero the answers are those of a new accumulator, whatever was held or skipped before.
pub fn cut_at_zero<T: DeserializeOwned>()
    ensures { CutAtZero T.shape }
{}

/// After bytes that end in a zero nothing is held, and nothing is being skipped.
pub fn nothing_after_zero<T: DeserializeOwned>()
    ensures { NothingAfterZero T.shape }
{}

/// Every stream is frames, each ended by a zero, and a rest without a zero, in exactly one
/// way.
pub fn frames_are_one()
    ensures { FramesAreOne }
{}

/// In an accumulator that holds nothing, values that were encoded as frames that have room come
/// back in order, whatever oversized frames are between them. The answer to each is `Success` with
/// a value that looks like it, or `DeserError` if its type grows.
pub fn messages_arrive<T: DeserializeOwned>()
    ensures { MessagesArrive T.shape }
{}

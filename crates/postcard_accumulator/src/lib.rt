//! Frames from a stream: an accumulator that is fed pieces, and a loop that reads them.
//!
//! A stream is COBS frames, each ended by a zero, and comes in pieces, of which one may have half a
//! frame or many frames. A [`CobsAccumulator`] holds the front of a frame until its zero comes, and
//! then reads its value; [`read_frames`] does so for all bytes of a reader.
//!
//! # The rule
//!
//! An accumulator of `N` bytes holds the bytes `h`, or it is skipping an oversized frame. It is fed
//! the piece `p`, whose first zero, if it has one, is `p[n]`. The first row that applies decides:
//!
//! | Before | Piece | Result | After |
//! |---|---|---|---|
//! | skipping | no zero | `Consumed` | skipping |
//! | skipping | a zero at `n` | as for `p[n + 1..]` if `h` is empty | as there |
//! | holds `h` | no zero, `h.len() + p.len() <= N` | `Consumed` | holds `h`, `p` |
//! | holds `h` | no zero, no room | `OverFull` of nothing | skipping |
//! | holds `h` | a zero at `n`, `h.len() + n + 1 <= N` | the frame's own answer | holds nothing |
//! | holds `h` | a zero at `n`, no room | `OverFull` of `p[n + 1..]` | holds nothing |
//!
//! The frame consists of `h` and then `p[..n]`. Its own answer is `Success`, with the value that a
//! front of the frame's data spells and with `p[n + 1..]`, if there is such a value and memory for
//! it. Otherwise it is `DeserError` of `p[n + 1..]`.
//!
//! So an oversized frame has one answer, wherever the line cuts it. A link that joins late may
//! begin inside a frame. It loses at most what comes before the first zero, which may give
//! `DeserError`, `OverFull` or, by chance, a value.
//!
//! # What is proved
//!
//! [`feed`](CobsAccumulator::feed) and [`feed_ref`](CobsAccumulator::feed_ref) answer by the table
//! (`specs/Feeding.antt`); `specs/Values.antt` says what a frame's own answer is. A whole stream
//! has one answer for each frame, in order, whatever the pieces are (`specs/Streams.antt`).
//! [`laws`] has what follows, above all [`laws::messages_arrive`].
#![tactic(auto)]

pub mod accumulator;
mod answers;
pub mod laws;
mod reading;

pub use accumulator::{CobsAccumulator, FeedResult};
pub use answers::Answer;
pub use reading::{ReadEnd, read_frames};

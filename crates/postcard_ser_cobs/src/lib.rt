//! Frames: the flavor [`Cobs`] encodes the bytes that it takes by COBS, and writes the frame into a
//! storage: a `Slice`, an `HVec`, an `AllocVec`, or a user's own.
//!
//! A code byte is known only at the end of its group, so the flavor goes back and sets it. It
//! counts places from the first byte of the frame, so a frame can be written after bytes that the
//! storage already holds:
//!
//! ```text
//! let mut frame = Cobs::try_new(AllocVec::from_vec(vec))?;
//! frame.try_extend(&[0x01, 0x00, 0x20, 0x30])?;
//! let vec = frame.finalize()?; // what the vector held, and then 02 01 03 20 30 00
//! ```
//!
//! The contracts speak of frames by the definitions of `postcard_cobs`: `made d` is the frame of
//! the data `d`.
#![tactic(auto)]

pub mod cobs;
mod steps;

pub use cobs::Cobs;

//! Tests of COBS frames, with frames worked out by hand. They test the encoder, the decoder, the
//! flavor that writes frames, values as frames, and the accumulator that finds frames in a stream.
#![tactic(auto)]

#[cfg(test)]
mod coding;
#[cfg(test)]
mod feeds;
#[cfg(test)]
mod flavor;
#[cfg(test)]
mod lengths;
#[cfg(test)]
mod reading;
#[cfg(test)]
mod rows;
#[cfg(test)]
mod same;
#[cfg(test)]
mod streams;
#[cfg(test)]
mod values;

/// The bytes of a buffer before anything is written.
#[cfg(test)]
const OLD: u8 = 0xAA;

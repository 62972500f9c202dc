//! Frames with a checksum, from a stream. The accumulator of `postcard_accumulator` decodes them.
//! The checksum after each value is checked before the value is returned.
//!
//! A frame's data is the encoding of a value, and then just its checksum, as `to_slice_cobs` writes
//! it. The checksum has all bytes of its type, the lowest first. A frame whose data is anything
//! else has the answer `DeserError`. Otherwise the answers of a stream are as in
//! `postcard_accumulator` (`specs/Own.antt`).

mod feeding;
pub mod laws;
mod reading;

pub use feeding::feed;
pub use reading::read_frames;

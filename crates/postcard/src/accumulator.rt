//! Frames from a stream that comes in pieces. The module `checksum` has frames of values with a
//! checksum.

pub use postcard_accumulator::{CobsAccumulator, FeedResult, laws};
pub use postcard_crc::frames as checksum;

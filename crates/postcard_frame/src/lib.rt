//! Reading values from the COBS frame at the front of a buffer, which is decoded in place.
#![tactic(auto)]

mod cobs;

pub use cobs::{from_bytes_cobs, take_from_bytes_cobs};

//! Messages of a type that is given as an expression: their format ([`Format`]), encoding
//! ([`encode`]) and decoding ([`next`]).
#![tactic(auto)]

pub mod contents;
pub mod decoding;
pub mod encoding;
pub mod failure;
pub mod first;
pub mod format;
pub mod frame;
pub mod stream;

pub use contents::read_data;
pub use decoding::{decode, decode_all};
pub use encoding::encode;
pub use failure::Failure;
pub use first::next;
pub use format::{Format, checksum_of, format_of, schema_of};
pub use frame::{data_of, read_frame};
pub use stream::{print_frames, print_frames_of};

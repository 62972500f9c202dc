//! What the program `pcard` does: it encodes and decodes messages in the Postcard format, explains
//! their bytes, prints the frames of a stream, and prints sizes, keys and checksums. [`run`] runs
//! the call of some words, over any reader as its input and any writer as its output.
#![tactic(auto)]

pub mod checksums;
pub mod convert;
pub mod explain;
pub mod frames;
pub mod joined;
pub mod key;
pub mod messages;
pub mod names;
pub mod program;
pub mod request;
pub mod size;
pub mod syntax;
pub mod value;

pub use program::{report, run};

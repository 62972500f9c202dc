//! Bytes and checksums as arguments of a command. Bytes are hexadecimal digits, of a word or of
//! standard input, in the layouts in which they are pasted. Checksums are chosen by name.
#![tactic(auto)]

pub mod checksum;
pub mod digits;
pub mod hexadecimal;
pub mod input;
pub mod pasted;

pub use checksum::Checksum;
pub use digits::decode;
pub use hexadecimal::read_hex;
pub use input::{InputError, read_input};

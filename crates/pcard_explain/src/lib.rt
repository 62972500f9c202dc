//! The rows that `pcard explain` prints: which bytes of a message are which part of its value.
//!
//! [`print_rows`] prints the lines of an explanation, and [`print_codes`] the code bytes of a frame.
//! A row is a line of text or of JSON.
#![tactic(auto)]

pub mod codes;
pub mod laws;
mod layout;
mod members;
mod note;
mod place;
pub mod rows;
mod told;

pub use codes::{print_after_frame, print_codes};
pub use rows::{ELEMENTS, Trailer, print_rows};

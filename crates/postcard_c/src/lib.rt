//! The library for C: a writer, a reader, checksums, frames and an accumulator, over memory that
//! the caller owns.
//!
//! Each export takes numbers, pointers with lengths, and `#[repr(C)]` structs; `c/postcard.h`
//! declares them, and `docs/C.md` says what C owes. No export has a `requires`: whatever numbers C
//! passes, and whatever it writes into the fields of a struct, a call returns and touches only the
//! memory that it was given. Nothing allocates.
//!
//! In reading order: `writer`, `put`, `put_fixed`, `reader`, `get`, `get_fixed`, `checksum`,
//! `frames`, `accumulator`.
#![tactic(auto)]

mod accumulator;
mod checksum;
mod frames;
mod get;
mod get_fixed;
mod put;
mod put_fixed;
mod reader;
mod wide;
mod writer;

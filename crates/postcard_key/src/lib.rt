//! Keys of types: numbers of 64 bits that a device and a host compare once. If the keys differ, the
//! two were built from different versions of a type, and could misread each other's messages.
//!
//! A key is the CRC-64/XZ of a text. That of [`key`] is the type's shape, an expression without
//! names and blanks. That of [`named_key`] has the names, too. [`laws`] says what equal keys mean.
#![tactic(auto)]

pub mod keys;
pub mod laws;
mod named;
mod shape;
mod text;

pub use keys::{key, named_key};

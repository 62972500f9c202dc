//! Messages with a checksum after them, also in frames, and in frames from a stream. The checksum
//! is that of the value's encoding. It has all bytes of its type, the lowest first.
//!
//! # Errors of encoding
//!
//! Each call that encodes says when it fails with `SerializeBufferFull`. There are two exceptions:
//!
//! - For a type that is written as the string that it prints, the error may be `CollectStrError`
//!   instead.
//! - A value that refuses itself may fail in any case, also with an error of its own. If there is
//!   room for the message, it fails only with such an error.
#![tactic(auto)]

pub mod de;
pub mod de_flavors;
pub mod frames;
pub mod ser;
pub mod ser_flavors;
mod trailer;

//! Bytes that a caller lent, reached by a pointer. The other crates see them as lists, by the
//! contracts here.
//!
//! [`Memory`] has bytes that are written and [`Bytes`] bytes that are read. Both hold one pointer
//! and no slice: the caller keeps the length. A [`Memory`] has no lifetime: the `&` to a [`Life`]
//! that is made with it, and that each of its functions takes, shows for how long the bytes are
//! lent. [`front`] and [`split_front`] lend parts of a slice for as long as the whole was lent. No
//! pointer becomes a number, and none is compared.
#![tactic(auto)]

pub mod bytes;
pub mod cut;
pub mod memory;

pub use bytes::Bytes;
pub use cut::{front, split_front};
pub use memory::{Life, Memory};

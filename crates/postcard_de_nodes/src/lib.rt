//! Reading one node of a message from a source: a number, a `bool`, a character, a text, a byte
//! string, a float; and a list whose bytes are at hand.
//!
//! Each function takes its node from the front of what the source has left. Its contract is one
//! record, `ReadsNode` of a kind of node (`specs/Nodes.antt`): `reads` says what the result is,
//! when there is one, what is left, and which errors may be returned; `refused` the exact reason of
//! an error.
//!
//! Each fails with `DeserializeUnexpectedEnd` if the source can't give the bytes that it takes.
//! What has a length or a count fails as [`numbers::count`] if that can't be read.
#![tactic(auto)]

pub mod bytes;
pub mod choices;
pub mod floats;
pub mod lists;
pub mod numbers;
pub mod texts;

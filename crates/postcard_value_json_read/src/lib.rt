//! Reading values whose type is known only at run time from JSON: [`from_json`], and from a text
//! [`read_json`]. `docs/PCARD.md` has a table of the JSON of each type.
//!
//! The calls read what `postcard_value_json::to_json` returns, and other forms of it. A number is a
//! number of JSON, or a string of its decimal digits. A float may be a string in the notation of
//! `postcard_value_text`. The digits of a byte string may be of either case. The members of an
//! object may stand in any order.
//!
//! By its contract, [`from_json`] returns a value that the JSON denotes. It reads each JSON that
//! denotes one if memory suffices. It reads what `to_json` returned as the same value.
#![tactic(auto)]

pub mod error;
mod find;
mod leaf;
mod place;
pub mod read;
mod skip;
pub mod text;

pub use error::{Expected, JsonError};
pub use read::from_json;
pub use text::{JsonTextError, read_json};

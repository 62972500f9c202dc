//! Texts of values whose type is known only at run time: printing with [`Shown`], and reading with
//! [`read_text`]. `docs/PCARD.md` has a table of the text of each type.
//!
//! Numbers are printed in decimal digits, and read as any integer literals of Rust ([`number`]). A
//! float is printed as the shortest number that reads back ([`mod@float`]). Strings and characters
//! are quoted, with the escapes of Rust, and byte strings are hexadecimal after `0x`. An option is
//! `None` or `Some(7)`, a list or an array `[1, 2]`, a tuple `(1, 2)`, a struct `{id: 42, label:
//! "x"}`, and a map `{1 => true}`. A variant is `Boot`, `Reading(1, -2)` or `Fault{code: 1}`.
//!
//! By its contract, [`read_text`] returns a value that the text denotes. It reads each text that
//! denotes one if memory suffices. The contract of [`Shown`] says which text it prints. That a
//! printed text is read as the same value is proved for floats, and tested for other values.
#![tactic(auto)]

pub mod error;
pub mod expected;
pub mod float;
pub mod leaves;
mod number;
mod quoted;
mod read;
mod show;
pub mod words;

pub use error::TextError;
pub use expected::Expected;
pub use read::read_text;
pub use show::{Shown, has_brackets, is_unit};

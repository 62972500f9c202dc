//! The call `pcard compat OLD NEW`: whether a new version of a type reads what the old one writes.
//!
//! [`answer`] runs the command. It reads the arguments ([`request`]) and the two types
//! ([`type_word`]). It compares the types by `postcard_compat`, and prints the result as text
//! ([`text`]) or as JSON ([`object`]). With `--both` it compares them in both directions, and
//! prints a type by which a host reads both versions ([`host`]).
#![tactic(auto)]

pub mod command;
mod expression;
pub mod host;
pub mod object;
pub mod outcome;
pub mod request;
pub mod text;
pub mod type_word;
pub mod version;

pub use command::answer;
pub use host::host_expression;
pub use outcome::{Outcome, outcome_of};
pub use request::{Misuse, Options, Request, Switch};
pub use type_word::{NoType, type_of_word};
pub use version::{Side, Version};

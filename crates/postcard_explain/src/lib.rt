//! Which bytes of a message are which part of its value: [`explain`]. The type of the message is
//! known only at run time, as a `Schema`.
#![tactic(auto)]

pub mod explanation;
pub mod line;
mod part;
mod row;
mod walk;

pub use explanation::{Explanation, explain};
pub use line::{Expected, Label, Line, LineKind};

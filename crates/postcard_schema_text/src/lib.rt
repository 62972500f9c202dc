//! Type expressions: the text that describes a type of messages, as
//! `{id: u16, label: str, samples: [i32]}`. [`parse`] reads one, and returns its `Schema`.
//! [`schema_text`] returns that of a `Schema`.
#![tactic(auto)]

pub mod ahead;
pub mod angled;
pub mod error;
mod expressible;
pub mod expression;
pub mod laws;
pub mod literal;
pub mod names;
pub mod print;
pub mod scan;
pub mod types;

pub use error::{ExpressionError, Problem, TextError};
pub use expression::parse;
pub use literal::LiteralError;
pub use print::schema_text;

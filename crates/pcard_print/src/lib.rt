//! What `pcard` prints for a value or a refusal: a line of text, or a line of JSON.
//!
//! [`print_answer`] prints the line of an [`Answer`]. Nothing is printed before an allocation fails:
//! a line is printed in whole, or up to where the output fails.
#![tactic(auto)]

pub mod answer;
pub mod digits;
pub mod error;
pub mod json_parts;
pub mod notation;
pub mod refusal;
pub mod refusal_line;
pub mod value_line;

pub use answer::{Answer, print_answer};
pub use digits::write_hex;
pub use error::PrintError;
pub use json_parts::{field_of, json_of, quote};
pub use notation::Notation;
pub use refusal::{Reason, Refusal};
pub use refusal_line::print_refusal;
pub use value_line::{print_first, print_value};

//! The greatest size of a type's encodings, in bytes: [`MaxSize`]. It is a number for a program,
//! which can size one buffer for all values, and a theorem for a proof. A struct or an enum has it
//! by [`MaxSizeRepr`].
#![tactic(auto)]

pub mod cases;
pub mod laws;
pub mod max_size;
pub mod rows;
pub mod sizes;
mod values;

pub use max_size::{MaxSize, MaxSizeRepr, SizeBound};

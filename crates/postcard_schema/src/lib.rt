//! Types of messages as values of a program: [`Schema`]. A schema means a set of trees: those of
//! the messages of its type (`specs/Meaning.antt`).
#![tactic(auto)]

mod copy;
pub mod leaf;
pub mod path;
pub mod schema;

pub use leaf::{ByteOrder, Float, Integer, Leaf};
pub use path::{Path, Step};
pub use schema::{Field, Named, Schema, Variant};

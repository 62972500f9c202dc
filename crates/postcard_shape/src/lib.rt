//! The shape of a type: what its values are on the wire, said once for writing and reading.
//!
//! A shape (`specs/Shape.antt`) says of a type:
//!
//! - the tree of each value, the errors by which a value may refuse itself, and whether it is
//!   written as a text that it prints;
//! - the trees that are read and their values, and whether reading asks for memory;
//! - when two values look alike, and what holds of every value that a program has;
//! - the laws: the encodings are prefix-free, what is read is well formed, the values of one tree
//!   look alike, and what was written is read again.
//!
//! `specs/` has the shapes of values that are one node, and the combinators. Each combinator makes a
//! shape from those of its parts, laws included, so that a type says its shape in one line.
//!
//! In reading order: `shape`, `first`, `rows`, `cases`, `runs`, `blocks` and `pieces`, `formats`, `values`.
#![tactic(auto)]

pub mod blocks;
pub mod cases;
pub mod first;
pub mod formats;
mod pieces;
pub mod rows;
mod runs;
pub mod shape;
mod values;

pub use cases::{Case, Cased, NoCase};
pub use first::FirstBytes;
pub use rows::{Part, Parts};
pub use shape::{Repr, Shaped};

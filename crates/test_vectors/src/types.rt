//! The types of the table by their names, in groups. Each group passes a row of another type on to
//! the next, and the last one refuses it.
//!
//! First come the types that need a scratch buffer while they are read from a reader. The others
//! are read with an empty one.

mod floats;
mod lists;
mod net;
mod nonzero;
mod numbers;
mod owners;
mod pointers;
mod scalars;
mod texts;
mod tuples;
mod users;

pub use scalars::with_scratch as check;

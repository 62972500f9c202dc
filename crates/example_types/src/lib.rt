//! Examples of a user's own types, flavors and theorems, which `docs/TYPES.md` and
//! `docs/TYPES_REFERENCE.md` show.
//!
//! - [`reading`], [`numbers`], [`station`], [`pair`]: structs, which are encoded as the tuple of
//!   their fields. The first borrows from the message, and the second has more than six fields. The
//!   third has a struct as a field, and the last a type parameter.
//! - [`event`]: an enum, which is described as its variants in a row.
//! - [`sample`]: structs with floating-point numbers, one of which has a greatest size, and the other
//!   a list and a set.
//! - [`percent`], [`interval`]: types with a shape of their own. One refuses values when they are
//!   read, the other when they are written.
//! - [`chain`]: a recursive type, with a limit on its depth.
//! - [`tally`]: a list of lists of elements without bytes, with a capacity.
//! - [`store`]: a struct and an enum that have a greatest size, and a store of that size.
//! - [`flavor`], [`trailer`]: writing flavors. [`limited`]: a reading flavor.
//! - [`reader`]: a reader from which a source reads.
//! - [`theorems`]: theorems that a caller proves of its own functions.
#![tactic(auto)]

pub mod chain;
pub mod event;
pub mod flavor;
pub mod interval;
pub mod limited;
pub mod numbers;
pub mod pair;
pub mod percent;
pub mod reader;
pub mod reading;
pub mod sample;
pub mod station;
pub mod store;
pub mod tally;
pub mod theorems;
pub mod trailer;

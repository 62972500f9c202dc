//! The types that are read, a module for each kind. The contract of a type that is one node states
//! the exact reason of a failure. What the pages here don't say, as of `OutOfMemory`, `Deserialize`
//! says.

pub mod c_strings;
pub mod error;
pub mod fixed;
pub mod floats;
pub mod hashes;
pub mod heaps;
pub mod lists;
pub mod long_tuples;
pub mod maps;
pub mod net;
pub mod nonzero;
pub mod numbers;
pub mod options;
pub mod paths;
pub mod ranges;
pub mod scalars;
pub mod sets;
pub mod slices;
pub mod text;
pub mod time;
pub mod tuples;
pub mod units;
pub mod wrappers;

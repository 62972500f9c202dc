//! The impls for the types of std and of `arrayvec`, a module for each kind. Elements, keys,
//! entries and parts are each written by their own `serialize`.

mod c_strings;
mod error;
mod fixed;
mod floats;
mod hashes;
mod heaps;
mod lists;
mod long_tuples;
mod maps;
mod net;
mod nonzero;
mod numbers;
mod options;
mod paths;
mod ranges;
mod scalars;
mod sets;
mod slices;
mod text;
mod time;
mod tuples;
mod units;
mod wrappers;

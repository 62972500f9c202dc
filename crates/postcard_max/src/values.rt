//! The greatest sizes of the types of std and of `arrayvec`, a module for each kind. `laws` says
//! which they are.

mod fixed;
mod floats;
mod net;
mod nonzero;
mod numbers;
mod options;
mod ranges;
mod scalars;
mod time;
mod tuples;
mod units;
mod wrappers;

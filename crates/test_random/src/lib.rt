//! Tests with a hundred thousand random values of some twenty types. Each call writes them and
//! reads them back. They are also sent in streams, with damaged frames between theirs.
//!
//! The values come from a generator with a fixed seed for each type, so they are the same in each
//! run. The expected results of reading come from a plain decoder of the tests' own, which calls
//! nothing of the library.
#![tactic(auto)]

#[cfg(test)]
mod calls;
#[cfg(test)]
mod choices;
#[cfg(test)]
mod floats;
#[cfg(test)]
mod made;
#[cfg(test)]
mod plain;
#[cfg(test)]
mod random;
#[cfg(test)]
mod streams;
#[cfg(test)]
mod values;

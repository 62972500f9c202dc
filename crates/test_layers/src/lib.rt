//! Tests of the layers below the calls of programs, with values, bytes and errors that were worked
//! out by hand. They are in a crate of their own, so that the crates they test are proved without
//! them.
#![tactic(auto)]

#[cfg(test)]
mod asserts;
#[cfg(test)]
mod errors;
#[cfg(test)]
mod numbers;
#[cfg(test)]
mod reading;
#[cfg(test)]
mod reading_flavors;
#[cfg(test)]
mod writing;
#[cfg(test)]
mod writing_flavors;

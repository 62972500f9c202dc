//! Tests of failures: damaged input, counts that exceed the input, short buffers, readers and
//! writers that fail, and each allocation failing in turn.
//!
//! Such a call fails with a named error. After a failed allocation the same call, made again, has
//! the right result. Once the tests are built, `checks/memory` refuses the Nth allocation of each
//! test whose name has `refused` in it, for each N. Before any proof, `rt try --test --fail-alloc
//! N` does so.
#![tactic(auto)]

#[cfg(test)]
mod counts;
#[cfg(test)]
mod damage;
#[cfg(test)]
mod devices;
#[cfg(test)]
mod frames;
#[cfg(test)]
mod growing;
#[cfg(test)]
mod lengths;
#[cfg(test)]
mod reading;
#[cfg(test)]
mod streams;
#[cfg(test)]
mod values;
#[cfg(test)]
mod writing;

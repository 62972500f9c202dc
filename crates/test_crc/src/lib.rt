//! Tests of checksums, and of messages that carry one.
//!
//! They are in a crate of their own, so that the crates they test are proved without them.
#![tactic(auto)]

#[cfg(test)]
mod checksums;
#[cfg(test)]
mod messages;
#[cfg(test)]
mod streams;

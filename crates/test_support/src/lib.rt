//! What the crates of tests share: the types of the published vectors as a user would write them,
//! and readers and writers that misbehave.
#![tactic(auto)]

pub mod devices;
pub mod types;

//! Tests of values that are written and read through readers and writers that give few bytes, fail
//! or are interrupted. Other tests use the flavors, and check the bytes around an encoding.
#![tactic(auto)]

#[cfg(test)]
mod appended;
#[cfg(test)]
mod asserts;
#[cfg(test)]
mod devices;
#[cfg(test)]
mod flavors;
#[cfg(test)]
mod interruptions;
#[cfg(test)]
mod readers;
#[cfg(test)]
mod scratch;
#[cfg(test)]
mod streams;
#[cfg(test)]
mod writers;

/// The bytes of a buffer before anything is written.
#[cfg(test)]
const OLD: u8 = 0xAA;

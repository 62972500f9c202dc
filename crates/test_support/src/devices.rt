//! Readers and writers for tests: with little room, with short pieces, failing at a given call, or
//! interrupted.

pub mod readers;
pub mod writers;

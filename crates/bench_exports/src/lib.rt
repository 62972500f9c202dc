//! The functions by which the speed of the library is measured, as exports of a static library for
//! a driver in C. They call it on values of many kinds, frames, streams, checksums and wrong
//! counts. The name of each begins with `port_`, as those of plain C with `plain_`; `small` stands
//! for small records.
//!
//! Most return a number that depends on what was written or read, so that no work can be optimized
//! away, and `u64::MAX` if encoding or decoding fails. The page `docs/SPEED.md` says how they are measured, and has the results.
#![tactic(auto)]

mod checksums;
mod devices;
mod floats;
mod frames;
mod hostile;
mod kinds;
mod lists;
mod records;

//! Tests of the calls of `pcard` that no row of `test_pcard` can write: readers and writers that
//! fail, files that are held in memory, and limits.
#![tactic(auto)]

#[cfg(test)]
mod calls;
#[cfg(test)]
mod frames;
#[cfg(test)]
mod held;
#[cfg(test)]
mod helpers;
#[cfg(test)]
mod input_files;
#[cfg(test)]
mod output;
#[cfg(test)]
mod pasted;
#[cfg(test)]
mod same;
#[cfg(test)]
mod syntax;
#[cfg(test)]
mod type_files;

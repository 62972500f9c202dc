//! Tests of types as values: their texts, sizes, messages and keys, and versions of a type.
//!
//! Texts, sizes and versions were worked out by hand. A program of its own wrote the bytes of
//! messages, from the documented form of a node, and computed each key bit by bit.
#![tactic(auto)]

#[cfg(test)]
mod asserts;
#[cfg(test)]
mod built;
#[cfg(test)]
mod compat;
#[cfg(test)]
mod hostile;
#[cfg(test)]
mod keys;
#[cfg(test)]
mod messages;
#[cfg(test)]
mod printed;
#[cfg(test)]
mod sizes;
#[cfg(test)]
mod texts;

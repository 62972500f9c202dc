//! The library for C on hosts: messages of a type that is known only at run time, as texts and back.
//!
//! A type is given by an expression such as `{id: u32, label: str}`, and a value by a text such as
//! `{id: 42, label: "x"}`: `postcard_schema_text` and `postcard_value_text` have the grammars.
//! `c/postcard_text.h` declares the exports. They allocate, and no export has a `requires`.
#![tactic(auto)]

mod copy;
mod read;
mod texts;

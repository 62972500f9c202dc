//! Calls of the program `pcard` with files. The word `@FILE:NAME` for TYPE stands for the type that
//! FILE declares with the name NAME, and `@FILE` for the type that FILE has as a schema message. With
//! `--raw`, a word `@FILE` after TYPE stands for the bytes of FILE.
//!
//! [`run`] runs the call of some words, as [`pcard_calls::run`] does. [`pcard_call::Call`] says which
//! words are TYPE and `@FILE`.
#![tactic(auto)]

pub mod call;
pub mod fault;
pub mod files;
pub mod input;
pub mod operand;
pub mod schema_file;
pub mod type_name;
mod written;

pub use fault::{SchemaFault, TypeFault};
pub use files::{Disk, DiskFile, Files, ReadError};
pub use input::run;
pub use type_name::TypeName;

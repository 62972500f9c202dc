//! A static type's own schema, proved to say which messages the type reads: [`HasSchema`].
//!
//! A program that has only the schema of a type reads the messages of the type. Where the type is
//! `exact`, the messages of the schema are just those of the type ([`laws`]).
//!
//! In reading order: `schema`, `make`, `rows`, `cases`, `values`, `keys`, `laws`.
#![tactic(auto)]

pub mod cases;
pub mod keys;
pub mod laws;
pub mod make;
pub mod rows;
pub mod schema;
mod values;

pub use cases::{SchemaCases, enum_schema};
pub use keys::key_of;
pub use postcard_schema::Schema;
pub use rows::{SchemaParts, parts_schema};
pub use schema::HasSchema;
pub use values::fixint::NamedFixInt;

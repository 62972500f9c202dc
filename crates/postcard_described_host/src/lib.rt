//! A host that has only a type's schema reads exactly the messages of the device that has the type.
//!
//! [`laws`] states the theorem for any two readers that meet the contracts of
//! `postcard_de::take_from_bytes` and `postcard_value::take_from_bytes`. [`read_as_both`] makes
//! both calls on the same bytes, and its contract is the theorem on what they return.
//!
//! In reading order: `laws`, `readings`.
#![tactic(auto)]

pub mod laws;
pub mod readings;

pub use postcard_de::Deserialize;
pub use postcard_described::HasSchema;
pub use postcard_value::Value;
pub use readings::{Readings, read_as_both};

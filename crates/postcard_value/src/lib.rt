//! Messages of a type that is known only at run time, as a [`Schema`].
//!
//! [`read_value`] reads a [`Value`] of a schema from any source, and [`write_value`] writes one
//! into any flavor. [`take_from_bytes`] and [`to_flavor`] are the calls for whole messages.
//! [`refused_at`] says where reading fails. By the [`laws`], the encodings of each schema are
//! prefix-free.
#![tactic(auto)]

pub mod calls;
pub mod laws;
pub mod numbers;
pub mod place;
pub mod read;
pub mod value;
pub mod write;

pub use calls::{take_from_bytes, to_flavor};
pub use place::{RefusedPart, refused_at};
pub use postcard_schema::{ByteOrder, Float, Integer, Leaf, Named, Schema};
pub use read::read_value;
pub use value::Value;
pub use write::write_value;

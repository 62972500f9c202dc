//! Reading: a deserializer over a source, and the types that it reads.
//!
//! A type's shape says which trees it reads and what their values are. The layer above relies on
//! one contract, that of [`Deserialize::deserialize`]. `Deserializes F.Flavor shape ..` says:
//!
//! - The result is the value of a front that spells a tree that the type reads.
//! - Such a front is read if the source is able to give it and no allocation fails.
//! - It says what is left in the source, and which errors may be returned.
//!
//! A type that is one node has the clause `DeserializesNode`, by the `ReadsNode` of
//! `postcard_de_nodes`, which adds the exact reason of a failure. Options and `Result` have
//! `DeserializesOption` and `DeserializesResult`.
//!
//! A struct is read as the tuple of its fields and an enum as its variants in a row ([`FromRepr`]),
//! with no proof of its own.
//!
//! In reading order: `deserialize`, `owned`, `repr`, `rows`, `cases`, `deserializer`, `access`,
//! `map_access`, `values`, `laws`.
#![tactic(auto)]

pub mod access;
mod bytes;
pub mod cases;
pub mod deserialize;
pub mod deserializer;
pub mod laws;
pub mod map_access;
pub mod owned;
mod read_element;
pub mod repr;
pub mod rows;
pub mod values;

pub use access::SeqAccess;
pub use bytes::{from_bytes, take_from_bytes};
pub use deserialize::Deserialize;
pub use deserializer::Deserializer;
pub use map_access::MapAccess;
pub use owned::{DeserializeOwned, Owned};
pub use postcard_de_flavors::{Flavor, Slice, flavor, slice};
pub use postcard_shape::{Case, NoCase, Part, Repr, Shaped};
pub use postcard_wire::{Error, Result};
pub use repr::FromRepr;
pub use values::hashes::{read_hash_map, read_hash_set};

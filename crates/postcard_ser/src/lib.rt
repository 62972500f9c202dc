//! Values as bytes: a type writes itself into a flavor, piece by piece.
//!
//! The one contract is that of [`Serialize`]: a call of `serialize` has `Wrote` the bytes of the
//! value's tree. The type's shape says which tree that is (`Shaped`, of the crate
//! `postcard_shape`). After an `Ok` exactly these bytes are appended, and the value `fits`, so that
//! they are read again. The layer above cites nothing else.
//!
//! A struct or an enum of your own implements `Repr` and [`SerializeRepr`] (`docs/TYPES.md`). A
//! type may call the [`Serializer`] itself, more than once. Its proof joins what each call wrote by
//! the lemmas `wrote_..` of `postcard::specs::Lemmas`.
#![tactic(auto)]

pub mod cases;
mod collect_str;
pub mod repr;
pub mod serialize;
pub mod serializer;
mod values;

pub use cases::serialize_variant;
pub use postcard_ser_flavors::{Flavor, Slice};
pub use repr::SerializeRepr;
pub use serialize::Serialize;
pub use serializer::Serializer;

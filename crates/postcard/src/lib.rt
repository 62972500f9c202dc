//! Postcard: encodes values compactly in binary, and decodes them.
//!
//! ```rust
//! let mut buffer = [0; 16];
//! let used = to_slice(&[1u32, 300].as_slice(), &mut buffer)?;
//! assert_eq!(rt; &*used, [0x02, 0x01, 0xAC, 0x02].as_slice());
//! let bytes = [0x03, 0x48, 0x69, 0x21, 0x07];
//! let (text, rest) = take_from_bytes::<&str>(rt.alloc(), &bytes)?;
//! let frame = to_slice_cobs(&[0x01u8, 0x00, 0x20, 0x30].as_slice(), &mut buffer)?;
//! ```
//!
//! This is the crate that programs use. Its contracts say what each call promises from end to end.
//! Each value has a *tree*. The *canonical encoding* of a tree is the shortest of its accepted
//! encodings. Contracts say which of these a call writes or reads.
//!
//! A value *refuses itself* if its own `Serialize` may fail, whatever the flavor. It breaks a rule
//! of its type, begins a list without a length, or is written by a `Display` that may fail. In this
//! library only a `SystemTime` outside of its range does, and a value that contains one. std makes
//! no such time. The shape of your own type says so (`specs/Refusing.antt` of `postcard_shape`).
//!
//! # Errors of encoding
//!
//! Each call that encodes says when it fails with `SerializeBufferFull`. There are two exceptions:
//!
//! - For a type that is written as the string that it prints, the error may be `CollectStrError`
//!   instead.
//! - A value that refuses itself may fail in any case, also with an error of its own. If there is
//!   room for its encoding, it fails only with such an error.
//!
//! # Contents
//!
//! - `to_slice` and `fill_slice` write a value into a buffer, `to_vec`, `to_allocvec`, `to_stdvec`,
//!   `to_extend` and `to_io` elsewhere, and `serialize_with_flavor` into any flavor. `experimental`
//!   has the sizes of encodings.
//! - The names with `_cobs` write and read a value as a frame.
//! - `from_bytes` and `take_from_bytes` read a value from the start of a slice, and `from_io` from
//!   a reader.
//! - `CobsAccumulator` puts frames together from the pieces of a stream, and `read_frames` reads
//!   the frames of a reader.
//! - The names that end in `_crc32`, and the modules `checksum`, write a checksum after each value,
//!   and check it when they read.
//! - `fixint` writes and reads numbers at their full width.
//! - `write_variant`, `FromParts`, `read_parts` and `read_parts_owned` are for the impls of types of
//!   your own.
//! - `laws` has the laws that tie both directions together.
#![tactic(auto)]

pub mod accumulator;
mod cobs;
mod de;
pub mod de_flavors;
pub mod experimental;
pub mod laws;
mod ser;
pub mod ser_flavors;
mod types;
mod with_flavor;

pub use cobs::{
    fill_slice_cobs, to_allocvec_cobs, to_allocvec_cobs_after, to_slice_cobs, to_stdvec_cobs,
    to_vec_cobs,
};
pub use de::from_io;
pub use postcard_accumulator::{Answer, ReadEnd, read_frames};
pub use postcard_crc::de::{
    from_bytes as from_bytes_crc32, take_from_bytes as take_from_bytes_crc32,
};
pub use postcard_crc::ser::{
    to_allocvec as to_allocvec_crc32, to_allocvec as to_stdvec_crc32, to_slice as to_slice_crc32,
    to_vec as to_vec_crc32,
};
pub use postcard_de::{
    Case, Deserialize, DeserializeOwned, Deserializer, FromRepr, MapAccess, NoCase, Owned, Repr,
    SeqAccess, Shaped, from_bytes, read_hash_map, read_hash_set, take_from_bytes,
};
pub use postcard_fixint as fixint;
pub use postcard_frame::{from_bytes_cobs, take_from_bytes_cobs};
pub use postcard_ser::{Serialize, SerializeRepr, Serializer, serialize_variant};
pub use postcard_shape::FirstBytes;
pub use postcard_wire::{Error, Result};
pub use ser::{fill_slice, to_slice};
pub use types::{FromParts, read_parts, read_parts_owned, write_variant};
pub use with_flavor::{serialize_with_flavor, to_allocvec, to_extend, to_io, to_stdvec, to_vec};

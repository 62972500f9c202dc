//! Numbers at their full width: 2, 4, 8 or 16 bytes, the lowest or the highest first, in place of a
//! varint (behaviour of postcard 1.1.3, module `fixint`). No length is written, and a signed number
//! is in two's complement. A varint is shorter for small numbers; a random `u64`, as a hash or an
//! identifier, has 8 bytes here in place of 9 or 10.
//!
//! `specs/Base256.antt` of `postcard_shape` defines the bytes of a number of n bytes: the n bytes
//! whose value in base 256 is the number. `specs/Fixed.antt` defines the shape and proves its laws:
//! what was written is read back as the same number, and any n bytes are read.
//!
//! [`LE`] and [`BE`] stand in place of the number inside a larger value: in a list, in an option,
//! or in the tuple of a struct's fields. There `new` wraps the number and `get` returns it:
//!
//! ```text
//! impl Repr for Header {
//!     type As = (BE<u32>, LE<u16>);
//!
//!     ghost repr = { λ v. (v.address, v.port) };
//! }
//! ```
#![tactic(auto)]

mod array;
pub mod be;
pub mod laws;
pub mod le;
mod number;

pub use array::ByteArray;
pub use be::BE;
pub use le::LE;
pub use number::FixInt;

//! The reading flavors: where the bytes of a message come from.

pub use postcard_crc::de_flavors as checksum;
pub use postcard_de_flavors::{Flavor, Plain, Reader, Slice, flavor, io, plain, reader, slice};

//! The writing flavors: where encoded bytes go.

pub use postcard_crc::ser_flavors as checksum;
pub use postcard_ser_cobs::Cobs;
pub use postcard_ser_flavors::{
    AllocVec, ExtendBytes, ExtendFlavor, Flavor, HVec, Size, Slice, StdVec, Storage, io,
};

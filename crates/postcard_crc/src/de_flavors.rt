//! The reading flavor that checks a checksum, and the calls that decode messages with one. They
//! have the Rust crate's names for each width. The digest determines the width, so all names of a
//! call stand for one function.

pub use crate::de::{
    CrcModifier, from_bytes as from_bytes_u8, from_bytes as from_bytes_u16,
    from_bytes as from_bytes_u32, from_bytes as from_bytes_u64, from_bytes as from_bytes_u128,
    from_bytes_cobs, from_bytes_whole, take_from_bytes as take_from_bytes_u8,
    take_from_bytes as take_from_bytes_u16, take_from_bytes as take_from_bytes_u32,
    take_from_bytes as take_from_bytes_u64, take_from_bytes as take_from_bytes_u128,
};

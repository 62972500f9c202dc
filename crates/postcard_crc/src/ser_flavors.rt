//! The writing flavor that adds a checksum, and the calls over it. They have the Rust crate's names
//! for each width. The digest determines the width, so all names of a call stand for one function.

pub use crate::ser::{
    CrcModifier, serialize_with_checksum, to_allocvec as to_allocvec_u8,
    to_allocvec as to_allocvec_u16, to_allocvec as to_allocvec_u32, to_allocvec as to_allocvec_u64,
    to_allocvec as to_allocvec_u128, to_allocvec_cobs, to_slice as to_slice_u8,
    to_slice as to_slice_u16, to_slice as to_slice_u32, to_slice as to_slice_u64,
    to_slice as to_slice_u128, to_slice_cobs, to_vec as to_vec_u8, to_vec as to_vec_u16,
    to_vec as to_vec_u32, to_vec as to_vec_u64, to_vec as to_vec_u128,
};

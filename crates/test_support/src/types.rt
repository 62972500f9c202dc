//! The types of the vectors, implemented by hand as a user of the library would implement them.
//!
//! A struct is described as the tuple of its fields, and an enum as its variants in a row. Each has
//! three short impls, in which one line, or one line for each variant, is ghost.
//!
//! - [`ref_struct`]: a struct that borrows from the input.
//! - [`basic_u8s`], [`wide_u8s`]: structs of numbers.
//! - [`endpoint`]: a struct with numbers at their full width.
//! - [`newtypes`]: structs whose fields have no names.
//! - [`basic_enum`], [`data_enum`]: an enum without content, and one with content of every kind.

pub mod basic_enum;
pub mod basic_u8s;
pub mod data_enum;
pub mod endpoint;
pub mod newtypes;
pub mod ref_struct;
pub mod wide_u8s;

pub use basic_enum::BasicEnum;
pub use basic_u8s::BasicU8S;
pub use data_enum::{DataEnum, EnumStruct};
pub use endpoint::Endpoint;
pub use newtypes::{DualTupleStruct, NewTypeStruct, TupleStruct};
pub use ref_struct::RefStruct;
pub use wide_u8s::WideU8S;

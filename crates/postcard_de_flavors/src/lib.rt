//! Where the bytes of a message come from. The layer above relies on the contract of [`Flavor`]
//! alone.
//!
//! In reading order: [`flavor`]; the sources [`slice`] and [`io`]; [`reader`], the interface that a
//! reader needs, and [`plain`], which adapts any reader to it.
#![tactic(auto)]

pub mod flavor;
pub mod io;
pub mod plain;
pub mod reader;
pub mod slice;

pub use flavor::Flavor;
pub use plain::Plain;
pub use reader::Reader;
pub use slice::Slice;

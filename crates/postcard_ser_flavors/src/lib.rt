//! Where written bytes go: a flavor takes them one by one or many at once, and returns its output
//! at the end. The one contract is that of [`Flavor`], by the record `Pushed`. The layer above
//! cites nothing else, but for a `Slice`, whose `into_parts` says what a caller's buffer holds in
//! the end.
//!
//! | A message goes | Flavor | Output | Fails |
//! |---|---|---|---|
//! | into bytes that the caller has | [`Slice`] | the part written | if a piece doesn't fit |
//! | into a value, with nothing allocated | [`HVec`] | an `ArrayVec` | if a piece doesn't fit |
//! | into memory that grows | [`AllocVec`], also [`StdVec`] | a `Vec` | if an allocation fails |
//! | after what a target holds | [`ExtendFlavor`] | the target | if the target does |
//! | to a file, a socket or the like | [`io::WriteFlavor`] | the writer, flushed | if it fails |
//! | nowhere, but is counted | [`Size`] | the number of bytes | above `usize::MAX` |
//!
//! Each fails with `SerializeBufferFull`; its page says what a failure leaves. Only the `finalize`
//! of a `WriteFlavor` may fail. A flavor of your own implements the same trait; `example_types` has
//! one.
#![tactic(auto)]

pub mod alloc_vec;
pub mod extend;
pub mod flavor;
pub mod hvec;
pub mod io;
mod short;
pub mod size;
pub mod slice;
pub mod storage;

pub use alloc_vec::{AllocVec, StdVec};
pub use extend::{ExtendBytes, ExtendFlavor};
pub use flavor::Flavor;
pub use hvec::HVec;
pub use size::Size;
pub use slice::Slice;
pub use storage::Storage;

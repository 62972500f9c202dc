//! The trait of the flavors that keep their bytes where they can be changed.

ghost use Rattle.std.specs.Prelude.{◌≡◌, ℕ, ◌<◌, List, length};
ghost use Rattle.postcard_ser_flavors.specs.{IsFree, IsIndexed, IsStorage, SetsByte};

use crate::flavor::Flavor;
use std::ops::IndexMut;

/// A flavor that keeps its bytes: each can be read and changed until `finalize`. A frame needs
/// this, since the code byte before a group is known only at the group's end.
///
/// An impl defines these members beside those of [`Flavor`]:
/// - `held state`: the bytes written so far, from the first on. Bytes from before a frame are among
///   them.
/// - `free state n`: pushing any `n` more bytes succeeds, in whatever pieces.
/// - `free_lawful`, `storage_lawful`, `indexed`: what holds of these in each storage; by the last,
///   a byte that is held can be read by its place.
pub trait Storage: Flavor + IndexMut<usize, Output = u8> {
    ghost held: { Self → List ℕ };

    ghost free: { Self → ℕ → Type 0 };

    // Above the last function, so that a flavor over a storage can cite it in a member of its own.
    ghost free_lawful: { IsFree free };

    /// Changes the byte at a place that is held, counted in bytes from 0, and nothing else. The
    /// number of bytes held fits a `usize`.
    fn set(&mut self, place: usize, byte: u8)
        requires { place < length (held self.old) }
        ensures { SetsByte Self.room Self.reaches held free self.old place byte self.new };

    /// Returns the number of bytes held. A frame that is written after these bytes starts at this
    /// place.
    fn held_len(&self) -> usize
        ensures { result ≡ length (held self.now) };

    ghost storage_lawful: { IsStorage Self.appended Self.room Self.reaches held free };

    ghost indexed: { IsIndexed Self.can_index Self.index_gives held };
}

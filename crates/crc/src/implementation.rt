//! The interface of the tables of an algorithm, by which a register takes a message.

ghost use Rattle.crc.specs.{HoldsMore, IsServable, List, Serve, ℕ};

use crate::algorithm::Algorithm;
pub use crate::table::Table;
use crate::width::Width;

/// How a checksum is computed: by which tables.
pub trait Implementation<W: Width>: Drop {
    /// The entries of the tables, one table after another.
    ghost entries: { Self → List ℕ };

    /// The number of entries.
    ghost count: { ℕ };

    /// Makes the tables of an algorithm.
    fn new(algorithm: &Algorithm<W>) -> Self
        requires { IsServable W.Width algorithm.now }
        ensures { Serve W.Width algorithm.now count (entries result) };

    /// Returns the register after more bytes of the message.
    fn update(&self, algorithm: &Algorithm<W>, register: W, bytes: &[u8]) -> W
        requires valid { IsServable W.Width algorithm.now }
        requires served { Serve W.Width algorithm.now count (entries self.now) }
        ensures { HoldsMore W.Width algorithm.now register bytes.now result };
}

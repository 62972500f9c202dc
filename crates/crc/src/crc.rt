//! An algorithm with its tables.

ghost use Rattle.std.specs.Prelude.{◌≡◌, ◌<◌, ◌*◌, ◌^◌, []};
ghost use Rattle.crc.specs.{IsCrc, IsServable, Parameters, Serve, Took, parameters};

use crate::algorithm::Algorithm;
use crate::digest::Digest;
use crate::implementation::{Implementation, Table};
use crate::width::Width;
use std::marker::Model;

/// An algorithm with its tables, of the implementation `I`, by default a [`Table`]. A contract sees
/// the parameters of the algorithm.
#[derive(Drop)]
pub struct Crc<W: Width, I: Implementation<W> = Table<W>> {
    pub(crate) algorithm: Algorithm<W>,
    pub(crate) tables: I,
}

impl<W: Width, I: Implementation<W>> Model for Crc<W, I> {
    ghost Value = { Parameters };

    ghost view = { λ c. parameters W.number c.algorithm };

    ghost invariant = { λ c. IsServable W.Width c.algorithm
        × Serve W.Width c.algorithm I.count (I.entries c.tables) };
}

impl<W: Width, I: Implementation<W>> Crc<W, I> {
    /// Makes the tables of an algorithm.
    pub fn new(algorithm: &Algorithm<W>) -> Crc<W, I>
        requires { IsServable W.Width algorithm.now }
        ensures { result ≡ parameters W.number algorithm.now }
    {
        Crc {
            algorithm: *algorithm,
            tables: I::new(algorithm),
        }
    }

    /// Returns the checksum of a message.
    pub fn checksum(&self, bytes: &[u8]) -> W
        ensures { IsCrc self.now bytes.now (W.number result) }
    {
        let mut digest = self.digest();
        digest.update(bytes);
        digest.finalize()
    }

    /// Returns a digest that has taken no bytes.
    pub fn digest(&self) -> Digest<'_, W, I>
        ensures { Took result self.now [] }
    {
        Digest::new(self, self.algorithm.init)
    }

    /// Returns a digest that has taken no bytes, with `initial` in place of the algorithm's `init`.
    pub fn digest_with_initial(&self, initial: W) -> Digest<'_, W, I>
        requires { W.number initial < 2 ^ self.now.width }
        ensures { Took result (record self.now { init = W.number initial }) [] }
    {
        Digest::new(self, initial)
    }
}

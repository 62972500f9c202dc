//! The trait of all writing flavors.

ghost use Rattle.std.specs.Prelude.{ℕ, List, [], ◌∷◌};
ghost use Rattle.postcard_wire.specs.Number.{digits};
ghost use Rattle.postcard_ser_flavors.specs.Flavor.{IsFlavor, Pushed, Finalized};

use postcard_wire::Result;
use postcard_wire::varint::{VARINT_MAX_64, varint_u64};

/// A writing flavor: takes the bytes of a message, and returns its output at the end. Without
/// `room` a call may fail, with any error.
///
/// An impl defines these members:
/// - `appended old bytes new`: `new` holds what `old` did, followed by these bytes. A flavor that
///   holds no bytes says this of what it has instead, such as a count.
/// - `room state bytes`: pushing these bytes succeeds, in whatever pieces. Room for no bytes says
///   that `finalize` succeeds.
/// - `tidy`: a push that fails has appended a beginning of its bytes, or nothing.
/// - `reaches old new`: a push may turn `old` into `new`, whether it succeeds or fails.
/// - `finishes last output`: `output` is the output of a flavor whose last state is `last`.
/// - `lawful`: what holds of these words in each flavor.
pub trait Flavor {
    type Output;

    ghost appended: { Self → List ℕ → Self → Type 0 };

    ghost room: { Self → List ℕ → Type 0 };

    ghost tidy: { Type 0 };

    ghost reaches: { Self → Self → Type 0 };

    ghost finishes: { Self → Self.Output → Type 0 };

    // Above the last function, so that a quote at a concrete type reaches it.
    ghost lawful: { IsFlavor appended room reaches };

    /// Takes a byte.
    fn try_push(&mut self, byte: u8) -> Result<()>
        ensures { Pushed appended room tidy reaches self.old (byte ∷ []) result self.new };

    /// Takes bytes in a row, by default one by one.
    fn try_extend(&mut self, bytes: &[u8]) -> Result<()>
        ensures { Pushed appended room tidy reaches self.old bytes.now result self.new }
    {
        for byte in bytes {
            self.try_push(*byte)?;
        }
        Ok(())
    }

    /// Takes the varint of a number of at most 64 bits, 1 to 10 bytes.
    fn try_varint(&mut self, n: u64) -> Result<()>
        ensures { Pushed appended room tidy reaches self.old (digits n) result self.new }
    {
        let mut out = [0; VARINT_MAX_64];
        self.try_extend(varint_u64(n, &mut out))
    }

    /// Ends the message, and returns the output.
    fn finalize(self) -> Result<Self::Output>
        ensures { Finalized room finishes self result };
}

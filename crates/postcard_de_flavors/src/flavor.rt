//! The interface of a source, which bytes are read from.

ghost use Rattle.std.specs.Prelude.{◌≡◌, ◌<◌, ℕ, [], ◌∷◌, length, Option, Result, IfOk, IsOk};
ghost use Rattle.std.specs.Prelude.{IsOkUnless};
ghost use Rattle.std.specs.Borrow.{sem};
ghost use Rattle.std.specs.Io.BufRead.{Rests};
ghost use Rattle.postcard_wire.specs.declared.error.Error.{Error};
ghost use Rattle.postcard_de_flavors.specs.Source.{Left, Takes, CanTake, LendsFront, Laws};

use postcard_wire::{Error, Result};

/// A source of bytes, as a reading flavor of postcard 1.1.3: returns the bytes of a message in
/// order.
///
/// # Errors
///
/// A call that takes bytes fails only with `DeserializeUnexpectedEnd`, and never if the source is
/// `able` to give that many. It leaves the source in a state that `may_leave` allows.
pub trait Flavor: Drop {
    /// What `finalize` returns: what is left of the source.
    type Remainder;
    /// What the source reads from, as in postcard 1.1.3: typically a slice.
    type Source;

    /// What is left: the bytes, if the source knows them, and its scratch, if it needs any.
    ghost left: { Self → Left };

    /// Whether the source is able to give this number of bytes: taking them succeeds, in whatever
    /// pieces.
    ghost able: { Self → ℕ → Type 0 };

    /// The states, by the state before, that a call that takes bytes may leave, whether it succeeds
    /// or fails.
    ghost may_leave: { Self → Self → Type 0 };

    /// What `finalize` may return.
    ghost finishes: { Self → Result Self.Remainder Error → Type 0 };

    /// What `size_hint` returns.
    ghost hint: { Self → Option ℕ };

    /// The laws of a source. If it is able to give a number of bytes, it is able to give fewer. A
    /// call may leave the state as it is. What two calls in a row may leave, one call may leave.
    ghost lawful: { Laws left able may_leave };

    /// Takes the next byte.
    fn pop(&mut self) -> Result<u8>
        ensures gives { IfOk result (λ b. Takes left able self.old (b ∷ []) self.new) }
        ensures accepts { able self.old 1 → IsOk result }
        ensures leaves { may_leave self.old self.new }
        ensures refuses_by_unexpected_end { IsOkUnless result Error.DeserializeUnexpectedEnd };

    /// Returns a hint of the number of bytes left, or `None`. No law ties it to the bytes.
    fn size_hint(&self) -> Option<usize>
        ensures { result ≡ hint self.now };

    /// Returns some of the next bytes: ones that are in memory already, so that taking them
    /// succeeds.
    fn at_hand(&self) -> &[u8]
        ensures can_take { 0 < length result.now → CanTake left able self.now result.now }
    {
        &[]
    }

    /// Takes the next `ct` bytes. The slice stays valid after later calls.
    fn try_take_n<'de>(&mut self, ct: usize) -> Result<&'de [u8]>
    where
        Self: 'de,
        ensures length { IfOk result (λ front. length front.now ≡ ct) }
        ensures gives { IfOk result (λ front. Takes left able self.old front.now self.new) }
        ensures accepts { able self.old ct → IsOk result }
        ensures leaves { may_leave self.old self.new }
        ensures refuses_by_unexpected_end { IsOkUnless result Error.DeserializeUnexpectedEnd };

    /// Takes the next `ct` bytes. The slice is valid until the next call.
    fn try_take_n_temp(&mut self, ct: usize) -> Result<&[u8]>
        ensures length { IfOk result (λ front. length front.now ≡ ct) }
        ensures* gives { sem 𝓛 (Rests Self.row self.entry
            (LendsFront left able may_leave self.old result)) }
        ensures accepts { able self.old ct → IsOk result }
        ensures refuses_by_unexpected_end { IsOkUnless result Error.DeserializeUnexpectedEnd };

    /// Ends reading, and returns what is left of the source, or an error, as `finishes` says.
    fn finalize(self) -> Result<Self::Remainder>
        ensures { finishes self result };
}

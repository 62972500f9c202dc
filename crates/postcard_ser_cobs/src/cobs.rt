//! The flavor that encodes by COBS.

ghost use Rattle.std.specs.Prelude.{◌≡◌, ℕ, ◌+◌, ◌<◌, List, [], ◌∷◌, ◌++◌, length, IsFalse, IfOk};
ghost use Rattle.std.specs.Prelude.{OnOk, OnErr, IsOk, IsOkUnless, IsTrue, IsErrOf};
ghost use Rattle.postcard_ser_cobs.specs.{FinalizedBy, HasFrameRoom, HoldsOpen, LeavesFrame};
ghost use Rattle.postcard_ser_cobs.specs.{PushedBy, PushedToFrame, digits, made};

use crate::steps::{push_one, push_varint, set_code};
use postcard_cobs::{EncoderState, is_zero_free};
use postcard_ser_flavors::{Flavor, Storage};
use postcard_wire::varint::VARINT_MAX_64;
use postcard_wire::{Error, Result};

mod runs;

/// The greatest place at which a byte is still taken: the byte moves it on by at most two, and a
/// `usize` has to count it then.
const MAX_PLACE: usize = usize::MAX - 2;

/// Encodes the bytes that it takes by COBS, and writes the frame into a storage, after the bytes
/// that the storage already holds.
///
/// Data of `n` bytes becomes a frame of at most `n + n / 254 + 2` bytes, its zero included. While
/// the frame is open, the storage holds it without the zero that ends it, and the last code byte is
/// still to be set; `finalize` sets it and writes the zero.
///
/// # Errors
///
/// Each call fails with `SerializeBufferFull` and no other error: if the storage fails, by whatever
/// error, and if the frame would have more bytes than a `usize` counts. A `Cobs` that has failed
/// once fails at every further byte and at the end, so that no frame is closed that lacks bytes.
/// The `Cobs` of the Rust crate goes on.
#[derive(Drop)]
pub struct Cobs<B: Storage> {
    storage: B,
    /// The number of bytes that the storage held before the frame: the place of the frame's first
    /// byte.
    start: usize,
    encoder: EncoderState,
    /// Whether a byte was refused. The storage may then hold a part of what it was asked to write.
    failed: bool,
    ghost stands: { ∥ (IsFalse failed → (before : List ℕ) × (d : List ℕ)
        × HoldsOpen B.held storage start encoder failed before d) ∥₁ },
}

impl<B: Storage + Drop> Cobs<B> {
    /// Opens a frame after the bytes that `bee` holds, which stay as they are, and pushes a place
    /// for the first code byte. If the storage has no room for it, fails and drops the storage;
    /// [`open`](Cobs::open) keeps it.
    pub fn try_new(bee: B) -> Result<Cobs<B>>
        ensures opens_after_held { IfOk result (λ c.
            HoldsOpen B.held c.storage c.start c.encoder c.failed (B.held bee) []) }
        ensures leaves { IfOk result (λ c. B.reaches bee c.storage) }
        ensures keeps_free { IfOk result (λ c. (n : ℕ) → B.free bee (1 + n) → B.free c.storage n) }
        ensures has_room { B.free bee 1 → IsOk result }
        ensures refuses_by_buffer_full { IsOkUnless result Error.SerializeBufferFull }
    {
        let cobs = Cobs::open(bee);
        if cobs.failed {
            return Err(Error::SerializeBufferFull);
        }
        Ok(cobs)
    }

    /// Opens a frame as [`try_new`](Cobs::try_new) does, for a caller that wants its storage back
    /// in any case. If there is no room for one byte, the `Cobs` has failed. The Rust crate has no
    /// such call.
    pub fn open(storage: B) -> Cobs<B>
        ensures opens_after_held { IsFalse result.failed → HoldsOpen B.held result.storage
            result.start result.encoder result.failed (B.held storage) [] }
        ensures leaves { B.reaches storage result.storage }
        ensures keeps_free { IsFalse result.failed
            → (n : ℕ) → B.free storage (1 + n) → B.free result.storage n }
        ensures has_room { B.free storage 1 → IsFalse result.failed }
    {
        let mut storage = storage;
        let start = storage.held_len();
        let failed = push_one(&mut storage, 0).is_err();
        Cobs {
            storage,
            start,
            encoder: EncoderState::default(),
            failed,
        }
    }

    /// Closes the frame with its last code byte and its zero, and returns the storage. If the
    /// second part is an error, a storage of `postcard_ser_flavors` holds only part of a frame. The
    /// Rust crate has no such call.
    pub fn close(self) -> (B, Result<()>)
        ensures holds_frame { OnOk result.1 ((before d : List ℕ)
            → HoldsOpen B.held self.storage self.start self.encoder self.failed before d
            → B.held result.0 ≡ before ++ made d) }
        ensures leaves { B.reaches self.storage result.0 }
        ensures keeps_free { OnOk result.1
            ((n : ℕ) → B.free self.storage (1 + n) → B.free result.0 n) }
        ensures has_room { ⟦<Self as Flavor>⟧.room self [] → IsOk result.1 }
        ensures stays_refused { IsTrue self.failed → IsErrOf result.1 Error.SerializeBufferFull }
        ensures storage_kept { IsTrue self.failed → result.0 ≡ self.storage }
        ensures refuses_by_buffer_full { IsOkUnless result.1 Error.SerializeBufferFull }
    {
        let Cobs {
            storage,
            start,
            encoder,
            failed,
        } = self;
        let mut storage = storage;
        if failed {
            return (storage, Err(Error::SerializeBufferFull));
        }
        let (place, code) = encoder.finalize();
        set_code(&mut storage, start, place, code);
        let closed = push_one(&mut storage, 0);
        (storage, closed)
    }

    /// Gives up the frame, and returns the storage as it is: if no call has failed, with the frame
    /// so far, without its zero. The Rust crate has no such call.
    pub fn into_storage(self) -> B
        ensures { result ≡ self.storage }
    {
        self.storage
    }
}

impl<B: Storage + Drop> Flavor for Cobs<B> {
    ghost use Rattle.postcard_ser_cobs.specs.FramingLaws.{holds_none, holds_join, room_of_front};
    ghost use Rattle.postcard_ser_cobs.specs.FramingLaws.{room_of_rest, leaves_self, leaves_join};
    ghost use Rattle.postcard_ser_cobs.specs.FramingLaws.{leaves_prop};

    type Output = <B as Flavor>::Output;

    ghost appended = { λ s x t. (before d : List ℕ)
        → HoldsOpen B.held s.storage s.start s.encoder s.failed before d
        → HoldsOpen B.held t.storage t.start t.encoder t.failed before (d ++ x) };

    ghost room = { λ s x. HasFrameRoom B.held B.free s.storage s.start s.encoder s.failed x };

    // A byte that is refused may have set a code, or pushed a part of what the encoder returned.
    ghost tidy = { ⊥ };

    ghost reaches = { λ s t.
        LeavesFrame B.held B.free B.reaches s.storage s.failed t.storage t.failed };

    ghost finishes = { λ s output. (before d : List ℕ)
        → HoldsOpen B.held s.storage s.start s.encoder s.failed before d
        → (last : B) × (B.held last ≡ before ++ made d) × B.reaches s.storage last
        × B.finishes last output };

    ghost lawful = { record {
      appended_none = λ s before d h. holds_none h;
      appended_join = λ s t u x y p q before d h.
          holds_join before d x y (q before (d ++ x) (p before d h));
      room_front = λ s x y r. room_of_front B.free_lawful.free_fewer x y r;
      room_rest = λ s t x y r p l. room_of_rest x y r (p r.before r.d r.holds) l;
      reaches_self = λ s. leaves_self B.lawful.reaches_self s.storage s.failed;
      reaches_join = λ s t u p q. leaves_join B.lawful.reaches_join p q;
      reaches_prop = λ s t. leaves_prop B.lawful.reaches_prop B.free_lawful.free_prop
          s.storage s.failed t.storage t.failed;
    } };

    /// Takes a byte of data, by which the frame grows by 1 or 2 bytes.
    #[inline(always)]
    fn try_push(&mut self, byte: u8) -> Result<()>
        ensures { PushedToFrame ⟦<Self as Flavor>⟧ (λ c. c.failed) (λ c. c.storage)
            self.old (byte ∷ []) result self.new }
    {
        if byte == 0 || !self.takes_run(1) {
            return self.push_step(byte);
        }
        // A refusal by the storage leaves this set.
        self.failed = true;
        push_one(&mut self.storage, byte)?;
        self.encoder.push_run_len(1);
        self.failed = false;
        Ok(())
    }

    /// Takes bytes of data. A text without zeros that the open group has room for goes to the
    /// storage in one piece, and other bytes piece by piece.
    #[inline]
    fn try_extend(&mut self, bytes: &[u8]) -> Result<()>
        ensures pushed { PushedBy ⟦<Self as Flavor>⟧ self.old bytes.now result self.new }
        ensures stays_refused { IsTrue self.old.failed → 0 < length bytes.now
            → IsErrOf result Error.SerializeBufferFull }
        ensures storage_kept { IsTrue self.old.failed → self.new.storage ≡ self.old.storage }
        ensures remembers_refusal { OnErr result (IsTrue self.new.failed) }
        ensures refuses_by_buffer_full { IsOkUnless result Error.SerializeBufferFull }
    {
        if self.takes_run(bytes.len()) && is_zero_free(bytes) {
            return self.push_run(bytes);
        }
        self.push_pieces(bytes)
    }

    /// Takes the varint of a number. Only the number 0 has a zero in its varint. The storage writes
    /// any other by itself, if the open group has room for the longest.
    #[inline(always)]
    fn try_varint(&mut self, n: u64) -> Result<()>
        ensures { PushedToFrame ⟦<Self as Flavor>⟧ (λ c. c.failed) (λ c. c.storage)
            self.old (digits n) result self.new }
    {
        if n == 0 || !self.takes_run(VARINT_MAX_64) {
            return self.push_digits(n);
        }
        // A refusal by the storage leaves this set.
        self.failed = true;
        let len = push_varint(&mut self.storage, n)?;
        self.encoder.push_run_len(len);
        self.failed = false;
        Ok(())
    }

    /// Closes the frame as [`close`](Cobs::close) does, and returns the output of the storage. Also
    /// fails if the storage's own `finalize` fails. After any failure the storage is dropped.
    fn finalize(self) -> Result<<B as Flavor>::Output>
        ensures finalized { FinalizedBy ⟦<Self as Flavor>⟧ self result }
        ensures stays_refused { IsTrue self.failed → IsErrOf result Error.SerializeBufferFull }
        ensures refuses_by_buffer_full { IsOkUnless result Error.SerializeBufferFull }
    {
        let (storage, closed) = self.close();
        closed?;
        match storage.finalize() {
            Ok(output) => Ok(output),
            Err(_) => Err(Error::SerializeBufferFull),
        }
    }
}

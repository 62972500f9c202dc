//! Writes many bytes to the storage by one call: runs, which have no zeros, and pieces that have
//! many. The flavor's own calls take only runs that the open group has room for, and leave the rest
//! to the calls here.

ghost use Rattle.std.specs.Prelude.{◌≡◌, ◌≤◌, ◌+◌, ◌-◌, ◌<◌, ◌∷◌, [], length, take, drop};
ghost use Rattle.std.specs.Prelude.{slice_index, IfOk, IsOkUnless, OnErr, IsOk, IsTrue, IsFalse};
ghost use Rattle.std.specs.Prelude.{IsErrOf};
ghost use Rattle.postcard_ser_cobs.specs.{NoZero, PushedBy, PushedToFrame, digits};

use crate::cobs::{Cobs, MAX_PLACE};
use crate::steps::{push_piece, set_codes, take_step};
use postcard_cobs::{EncoderState, frame_len};
use postcard_ser_flavors::{Flavor, Storage};
use postcard_wire::varint::{VARINT_MAX_64, varint_u64};
use postcard_wire::{Error, Result};
use std::mem;

/// The number of bytes that are searched for more zeros if the first zero is near.
const WINDOW: usize = 16;

/// If the bytes searched have this many zeros, it is cheaper to take them together than run by run.
const MANY_ZEROS: u8 = 2;

/// Returns the number of bytes to take together with their zeros, at most `most`, or 0 if zeros are
/// rare among the first bytes, of which `run` come before the first zero.
#[inline(always)]
fn dense_len(bytes: &[u8], run: usize, most: usize) -> usize
    ensures within { result ≤ length bytes.now }
    ensures at_most { result ≤ most }
{
    let few = bytes.len().min(most);
    if run >= WINDOW || few < WINDOW {
        return 0;
    }
    let mut zeros: u8 = 0;
    for place in 0..WINDOW {
        zeros = zeros.wrapping_add(u8::from(bytes[place] == 0));
    }
    if zeros < MANY_ZEROS {
        return 0;
    }
    few
}

/// Returns the number of bytes before the first zero, or of all bytes if there is none, but at most
/// `most`.
#[inline(always)]
fn run_len(bytes: &[u8], most: usize) -> usize
    ensures within { result ≤ length bytes.now }
    ensures at_most { result ≤ most }
    ensures no_zero { NoZero (take result bytes.now) }
    ensures stops_at_zero { result < most → result < length bytes.now
        → slice_index bytes.now result ≡ 0 }
{
    let few = most.min(bytes.len());
    if few == 0 || bytes[0] == 0 {
        return 0;
    }
    frame_len(&bytes[..few])
}

impl<B: Storage + Drop> Cobs<B> {
    /// Returns whether the open group has room for a run of `len` bytes and does not get full by
    /// it, after no refusal. The frame can then be counted with the run.
    #[inline(always)]
    pub(super) fn takes_run(&self, len: usize) -> bool
        ensures going { IsTrue result → IsFalse self.now.failed }
        ensures short { IsTrue result → len < 255 - self.now.encoder.code }
        ensures countable { IsTrue result
            → self.now.encoder.code_at + self.now.encoder.code + len ≤ usize.MAX - 2 }
        ensures else_full { IsFalse result → IsFalse self.now.failed
            → len < 255 - self.now.encoder.code
            → usize.MAX - 2 < self.now.encoder.code_at + self.now.encoder.code + len }
    {
        !self.failed && len < self.encoder.run_room() && self.encoder.place() <= MAX_PLACE - len
    }

    /// Takes a byte of data by the encoder's step for it. Fails as `try_push` does.
    #[inline(never)]
    pub(super) fn push_step(&mut self, byte: u8) -> Result<()>
        ensures { PushedToFrame ⟦<Self as Flavor>⟧ (λ c. c.failed) (λ c. c.storage)
            self.old (byte ∷ []) result self.new }
    {
        if self.failed || self.encoder.place() > MAX_PLACE {
            self.failed = true;
            return Err(Error::SerializeBufferFull);
        }
        // A refusal by the storage leaves this set.
        self.failed = true;
        let step = self.encoder.push(byte);
        take_step(&mut self.storage, self.start, step)?;
        self.failed = false;
        Ok(())
    }

    /// Takes a run in one piece. It must have no zero, and not make the open group full. Fails as
    /// `try_push` does.
    #[inline(always)]
    pub(super) fn push_run(&mut self, run: &[u8]) -> Result<()>
        requires no_zero { NoZero run.now }
        requires short { length run.now < 255 - self.old.encoder.code }
        ensures { PushedToFrame ⟦<Self as Flavor>⟧ (λ c. c.failed) (λ c. c.storage)
            self.old run.now result self.new }
    {
        if self.failed || self.encoder.place() > MAX_PLACE - run.len() {
            self.failed = true;
            return Err(Error::SerializeBufferFull);
        }
        // A refusal by the storage leaves this set.
        self.failed = true;
        self.encoder.push_run(run);
        push_piece(&mut self.storage, run)?;
        self.failed = false;
        Ok(())
    }

    /// Takes a piece at once, zeros included. It must be too short to make the open group full. A
    /// zero of the data is at the place of the next code in the frame, so the piece is pushed as it
    /// is, and the codes are set after that. Fails as `try_push` does.
    #[inline(never)]
    fn push_dense(&mut self, piece: &[u8]) -> Result<()>
        requires short { length piece.now < 255 - self.old.encoder.code }
        ensures { PushedToFrame ⟦<Self as Flavor>⟧ (λ c. c.failed) (λ c. c.storage)
            self.old piece.now result self.new }
    {
        if self.failed || self.encoder.place() > MAX_PLACE - piece.len() {
            self.failed = true;
            return Err(Error::SerializeBufferFull);
        }
        // A refusal by the storage leaves this set.
        self.failed = true;
        push_piece(&mut self.storage, piece)?;
        let encoder = mem::replace(&mut self.encoder, EncoderState::default());
        self.encoder = set_codes(&mut self.storage, self.start, encoder, piece);
        self.failed = false;
        Ok(())
    }

    /// Takes the run that starts at `place` of `bytes`, or a piece with its zeros if many are near,
    /// or the one byte there, and returns the place after it. Fails as `try_push` does.
    fn push_next(&mut self, bytes: &[u8], place: usize) -> Result<usize>
        requires { place < length bytes.now }
        ensures advances { IfOk result (λ n. (place < n) × (n ≤ length bytes.now)) }
        ensures appends { IfOk result (λ n. ⟦<Self as Flavor>⟧.appended self.old
            (take (n - place) (drop place bytes.now)) self.new) }
        ensures has_room { ⟦<Self as Flavor>⟧.room self.old (drop place bytes.now) → IsOk result }
        ensures leaves { ⟦<Self as Flavor>⟧.reaches self.old self.new }
        ensures stays_refused { IsTrue self.old.failed → IsErrOf result Error.SerializeBufferFull }
        ensures storage_kept { IsTrue self.old.failed → self.new.storage ≡ self.old.storage }
        ensures remembers_refusal { OnErr result (IsTrue self.new.failed) }
        ensures refuses_by_buffer_full { IsOkUnless result Error.SerializeBufferFull }
    {
        let room = self.encoder.run_room();
        let rest = &bytes[place..];
        let count = run_len(rest, room - 1);
        let dense = dense_len(rest, count, room - 1);
        if dense > 0 {
            self.push_dense(&rest[..dense])?;
            return Ok(place + dense);
        }
        if count == 0 {
            self.push_step(rest[0])?;
            return Ok(place + 1);
        }
        self.push_run(&rest[..count])?;
        Ok(place + count)
    }
    /// Takes bytes of data piece by piece. Each run of bytes between zeros goes to the storage in
    /// one piece. So do bytes that are dense with zeros. Each piece ends where a group of 254 bytes
    /// is full. Fails as `try_extend` does.
    #[inline(never)]
    pub(super) fn push_pieces(&mut self, bytes: &[u8]) -> Result<()>
        ensures pushed { PushedBy ⟦<Self as Flavor>⟧ self.old bytes.now result self.new }
        ensures stays_refused { IsTrue self.old.failed → 0 < length bytes.now
            → IsErrOf result Error.SerializeBufferFull }
        ensures storage_kept { IsTrue self.old.failed → self.new.storage ≡ self.old.storage }
        ensures remembers_refusal { OnErr result (IsTrue self.new.failed) }
        ensures refuses_by_buffer_full { IsOkUnless result Error.SerializeBufferFull }
    {
        let mut place = 0;
        while place < bytes.len() {
            place = self.push_next(bytes, place)?;
        }
        Ok(())
    }

    /// Takes the varint of a number as a zero, or as bytes of data like any others. Fails as
    /// `try_push` does.
    #[inline(never)]
    pub(super) fn push_digits(&mut self, n: u64) -> Result<()>
        ensures { PushedToFrame ⟦<Self as Flavor>⟧ (λ c. c.failed) (λ c. c.storage)
            self.old (digits n) result self.new }
    {
        if n == 0 {
            return self.push_step(0);
        }
        let mut out = [0; VARINT_MAX_64];
        self.push_pieces(varint_u64(n, &mut out))
    }
}

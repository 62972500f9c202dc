//! The source over a reader.

ghost use Rattle.std.specs.Prelude.{◌≡◌, ◌<◌, ◌≤◌, [], ◌∷◌, length, drop, None, IfOk, IsOk, IsErr};
ghost use Rattle.std.specs.Prelude.{IsOkUnless, MatchResult};
ghost use Rattle.postcard_de_flavors.specs.{AtLeast, CanRead, LendsScratch, MayBecome, Rests};
ghost use Rattle.postcard_de_flavors.specs.{TakesIfAble, left_of, reader_laws, reader_of};
ghost use Rattle.postcard_de_flavors.specs.{scratch_of, sem, the_row};
ghost use mir.Syntax.{named};

use super::sliding_buffer::SlidingBuffer;
use crate::flavor::Flavor;
use crate::reader::Reader;
use postcard_wire::{Error, Result};

/// A source that reads from a reader into a scratch buffer, from which it lends the bytes.
///
/// No byte is read before it is asked for, so what follows a message stays unread. `pop` needs no
/// scratch. The takes read into the front of the scratch and lend that: `try_take_n` uses up `ct`
/// bytes of scratch, even if the read fails, and lends them for as long as the scratch buffer;
/// `try_take_n_temp` leaves them free for the next call.
///
/// A contract sees a reader, `reader_of`, and the scratch left, `scratch_of`. A call succeeds if
/// the reader is steady and has enough bytes left, and enough scratch is left.
///
/// # Errors
///
/// A take fails with `DeserializeUnexpectedEnd` if fewer than `ct` bytes of scratch are left; the
/// reader isn't called then, and nothing is changed. Any call fails with the same error if fewer
/// bytes are left to read or the reader fails; some bytes of the reader may be lost then.
#[derive(Drop)]
pub struct IOReader<'de, T: Reader> {
    reader: T,
    scratch: SlidingBuffer<'de>,
}

impl<'de, T: Reader> IOReader<'de, T> {
    /// Returns a source over `reader`, with all of `buff` as its scratch.
    pub fn new(reader: T, buff: &'de mut [u8]) -> IOReader<'de, T>
        ensures reader { reader_of result ≡ reader }
        ensures scratch { scratch_of result ≡ buff.old }
    {
        IOReader {
            reader,
            scratch: SlidingBuffer::new(buff),
        }
    }
}

impl<'de, T: Reader> Flavor for IOReader<'de, T> {
    type Remainder = (T, &'de mut [u8]);

    type Source = &'de [u8];

    ghost left = { left_of T.remaining };

    ghost able = { CanRead T.remaining T.steady };

    ghost may_leave = { MayBecome T.steady };

    ghost finishes = { λ s r. MatchResult r (λ rest. (rest.0 ≡ reader_of s)
        × (rest.1.now ≡ scratch_of s)) (λ e. ⊥) };

    ghost hint = { λ _. None };

    ghost lawful = { reader_laws T.remaining T.steady };

    fn pop(&mut self) -> Result<u8>
        ensures takes { TakesIfAble ⟦<Self as Flavor>⟧ (λ b. b ∷ []) 1 self.old result self.new }
        ensures succeeds { T.steady (reader_of self.old)
            → AtLeast (T.remaining (reader_of self.old)) 1 → IsOk result }
        ensures uses_no_scratch { scratch_of self.new ≡ scratch_of self.old }
    {
        let mut byte = [0];
        match self.reader.read_full(&mut byte) {
            Ok(()) => Ok(byte[0]),
            Err(_) => Err(Error::DeserializeUnexpectedEnd),
        }
    }

    /// A reader doesn't know how many bytes are left.
    fn size_hint(&self) -> Option<usize>
        ensures { result ≡ None }
    {
        None
    }

    fn try_take_n<'a>(&mut self, ct: usize) -> Result<&'a [u8]>
    where
        Self: 'a,
        ensures length { IfOk result (λ front. length front.now ≡ ct) }
        ensures takes { TakesIfAble ⟦<Self as Flavor>⟧ (λ front. front.now) ct
            self.old result self.new }
        ensures short_scratch_refused { length (scratch_of self.old) < ct → IsErr result
            × (self.new ≡ self.old) }
        ensures uses { ct ≤ length (scratch_of self.old) → scratch_of self.new
            ≡ drop ct (scratch_of self.old) }
    {
        let front = self.scratch.take_n(ct)?;
        match self.reader.read_full(front) {
            Ok(()) => Ok(front),
            Err(_) => Err(Error::DeserializeUnexpectedEnd),
        }
    }

    fn try_take_n_temp(&mut self, ct: usize) -> Result<&[u8]>
        ensures length { IfOk result (λ front. length front.now ≡ ct) }
        ensures* gives { sem 𝓛 (Rests (the_row
            (record { mir = named 1; lft = [] }) T.row) self.entry
            (LendsScratch T.remaining T.steady ct self.old result)) }
        ensures accepts { ⟦<Self as Flavor>⟧.able self.old ct → IsOk result }
        ensures refuses_by_unexpected_end { IsOkUnless result Error.DeserializeUnexpectedEnd }
        ensures short_scratch_refused { length (scratch_of self.old) < ct → IsErr result }
    {
        self.scratch.fill(&mut self.reader, ct)?;
        Ok(self.scratch.front(ct))
    }

    /// Returns the reader and the scratch left. Never fails.
    fn finalize(self) -> Result<(T, &'de mut [u8])> {
        Ok((self.reader, self.scratch.complete()))
    }
}

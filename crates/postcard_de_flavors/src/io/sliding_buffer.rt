//! The scratch buffer of a source over a reader: bytes at its front are used up, or lent until the
//! next call.

ghost use Rattle.std.specs.Prelude.{◌≡◌, ◌<◌, ◌≤◌, ◌^◌, ◌++◌, length, take, drop, IfOk, OnOk};
ghost use Rattle.std.specs.Prelude.{OnErr, IsOk, IsErr, IsOkUnless};
ghost use Rattle.postcard_de_flavors.specs.{AtLeast, Consumes};

use crate::reader::Reader;
use postcard_memory::{Life, Memory};
use postcard_wire::{Error, Result};
use std::marker::Model;
use std::mem;

/// The free part of a scratch buffer. A contract sees the list of its bytes.
#[derive(Drop)]
pub struct SlidingBuffer<'de> {
    memory: Memory,
    life: &'de Life,
    len: usize,
}

impl<'de> Model for SlidingBuffer<'de> {
    ghost use Rattle.std.specs.Prelude.{◌≡◌, ◌<◌, ◌^◌, List, ℕ, length};

    ghost Value = { List ℕ };

    ghost view = { λ s. s.memory.items };

    ghost invariant = { λ s. (s.len ≡ length s.memory.items) × (s.len < 2 ^ 63)
        × (s.memory.time ≡ s.life.now) };
}

impl<'de> SlidingBuffer<'de> {
    /// Returns a buffer of which all of `scratch` is free.
    pub fn new(scratch: &'de mut [u8]) -> SlidingBuffer<'de>
        ensures { result ≡ scratch.old }
    {
        let len = scratch.len();
        let (memory, life) = Memory::new(scratch);
        SlidingBuffer { memory, life, len }
    }

    /// Takes the first `n` free bytes for good, if there are that many.
    pub fn take_n(&mut self, n: usize) -> Result<&'de mut [u8]>
        ensures taken { IfOk result (λ front. (length front.now ≡ n)
            × (self.old ≡ front.now ++ self.new)) }
        ensures unchanged_if_short { OnErr result ((self.new ≡ self.old) × (length self.old < n)) }
        ensures refuses_by_unexpected_end { IsOkUnless result Error.DeserializeUnexpectedEnd }
    {
        if self.len < n {
            return Err(Error::DeserializeUnexpectedEnd);
        }
        let len = self.len;
        let (none, _) = Memory::new(&mut []);
        let old = mem::replace(&mut self.memory, none);
        let (front, rest) = old.whole(self.life, len).split_at_mut(n);
        self.len = rest.len();
        (self.memory, self.life) = Memory::new(rest);
        Ok(front)
    }

    /// Reads the next `n` bytes of a reader into the first `n` free bytes, which stay free. The
    /// bytes after them are unchanged, also after a failure. Fails with `DeserializeUnexpectedEnd`
    /// if fewer bytes are free, and nothing is changed then, or if the read fails; the first `n`
    /// bytes are unspecified then.
    pub fn fill<R: Reader>(&mut self, reader: &mut R, n: usize) -> Result<()>
        ensures length { length self.new ≡ length self.old }
        ensures rest_unchanged { drop n self.new ≡ drop n self.old }
        ensures room { OnOk result (n ≤ length self.old) }
        ensures bytes { OnOk result (Consumes (R.remaining reader.old) (R.remaining reader.new)
            (take n self.new)) }
        ensures succeeds { R.steady reader.old → AtLeast (R.remaining reader.old) n
            → n ≤ length self.old → IsOk result }
        ensures stays_steady { R.steady reader.old → R.steady reader.new }
        ensures short_scratch_refused { length self.old < n → IsErr result × (self.new ≡ self.old)
            × (reader.new ≡ reader.old) }
        ensures refuses_by_unexpected_end { IsOkUnless result Error.DeserializeUnexpectedEnd }
    {
        if self.len < n {
            return Err(Error::DeserializeUnexpectedEnd);
        }
        let len = self.len;
        let life = self.life;
        let all = self.memory.lend(life, len);
        let (front, _) = all.split_at_mut(n);
        match reader.read_full(front) {
            Ok(()) => Ok(()),
            Err(_) => Err(Error::DeserializeUnexpectedEnd),
        }
    }

    /// Returns the first `n` free bytes.
    pub fn front(&self, n: usize) -> &[u8]
        requires { n ≤ length self.now }
        ensures { result.now ≡ take n self.now }
    {
        &self.memory.view(self.life, self.len)[..n]
    }

    /// Returns all free bytes.
    pub fn complete(self) -> &'de mut [u8]
        ensures { result.now ≡ self.entry }
    {
        let SlidingBuffer { memory, life, len } = self;
        memory.whole(life, len)
    }
}

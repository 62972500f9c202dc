//! The reading flavor that checks a checksum, over a slice.

ghost use Rattle.std.specs.Prelude.{◌≡◌, ◌≤◌, Some, length};
ghost use Rattle.postcard_crc.specs.{Finishes, TookBoth, crc_laws, known};

use super::after_checksum;
use crc::{Digest, Implementation, Table, Width};
use postcard_de_flavors::{Flavor, Slice};
use postcard_wire::Result;

/// Reads from a slice, and checks at the end that the bytes after the message are its checksum. A
/// checksum has the bytes of `W`, the lowest first.
///
/// The Rust crate has it over any flavor. Here it works over [`Slice`] alone, the only flavor of
/// which a contract says which bytes a failed call has taken.
#[derive(Drop)]
pub struct CrcModifier<'de, B, W: Width, I: Implementation<W> = Table<W>> {
    pub flavor: B,
    /// The digest of the bytes so far. Its `finalize` is their checksum.
    pub digest: Digest<'de, W, I>,
}

impl<'de, B, W: Width, I: Implementation<W>> CrcModifier<'de, B, W, I> {
    /// Returns a source that reads from `flavor`, and continues `digest`.
    pub fn new(flavor: B, digest: Digest<'de, W, I>) -> CrcModifier<'de, B, W, I>
        ensures flavor { result.flavor ≡ flavor }
        ensures digest { result.digest ≡ digest.entry }
    {
        CrcModifier { flavor, digest }
    }
}

impl<'de, W: Width, I: Implementation<W>> Flavor for CrcModifier<'de, Slice<'de>, W, I> {
    type Remainder = &'de [u8];

    type Source = &'de [u8];

    ghost left = { λ s. known s.flavor };

    ghost able = { λ s n. n ≤ length s.flavor };

    ghost may_leave = { λ s t. TookBoth s.flavor s.digest t.flavor t.digest };

    ghost finishes = { λ s r. Finishes W.size s.flavor s.digest r };

    ghost hint = { λ s. Some (length s.flavor) };

    ghost lawful = { crc_laws (λ s. s.flavor) (λ s. s.digest) };

    fn pop(&mut self) -> Result<u8> {
        let byte = self.flavor.pop()?;
        self.digest.update(&[byte]);
        Ok(byte)
    }

    fn size_hint(&self) -> Option<usize> {
        self.flavor.size_hint()
    }

    /// Returns all remaining bytes. The bytes enter the checksum when they are taken.
    fn at_hand(&self) -> &[u8] {
        self.flavor.at_hand()
    }

    fn try_take_n<'a>(&mut self, ct: usize) -> Result<&'a [u8]>
    where
        Self: 'a,
    {
        let front = self.flavor.try_take_n(ct)?;
        self.digest.update(front);
        Ok(front)
    }

    fn try_take_n_temp(&mut self, ct: usize) -> Result<&[u8]> {
        let taken = self.flavor.try_take_n(ct)?;
        self.digest.update(taken);
        Ok(taken)
    }

    /// Returns the bytes after the checksum. Fails with `DeserializeUnexpectedEnd` if fewer bytes
    /// are left than a checksum has, and with `DeserializeBadCrc` if they are not the checksum of
    /// the bytes taken.
    fn finalize(self) -> Result<&'de [u8]> {
        let CrcModifier { flavor, digest } = self;
        let rest = flavor.finalize()?;
        after_checksum(rest, digest.finalize())
    }
}

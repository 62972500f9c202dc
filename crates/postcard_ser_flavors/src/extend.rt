//! The flavor that appends to a target, such as a vector.

ghost use Rattle.std.specs.Prelude.{◌≡◌, ℕ, List, [], ◌∷◌, ◌++◌, ⊤, OnOk, OnErr, IsOkUnless};
ghost use Rattle.postcard_ser_flavors.specs.{AlwaysFinalized, AnyReached, Appended, NoRoom};
ghost use Rattle.postcard_ser_flavors.specs.{PushedWhole, digits, grows_lawful};

use crate::flavor::Flavor;
use postcard_wire::varint::{VARINT_MAX_64, varint_u64};
use postcard_wire::{Error, Result};
use std::marker::Model;

/// Something that bytes can be appended to. Its member `content` is the list of its bytes.
pub trait ExtendBytes {
    ghost content: { Self → List ℕ };

    /// Appends the bytes. If it fails, with whatever error, the content is unchanged.
    fn extend(&mut self, data: &[u8]) -> Result<()>
        ensures appends { OnOk result (content self.new ≡ content self.old ++ «data».now) }
        ensures unchanged { OnErr result (content self.new ≡ content self.old) };
}

impl ExtendBytes for Vec<u8> {
    ghost content = { λ v. v.items };

    /// Appends the bytes in one copy. Fails with `SerializeBufferFull` if an allocation fails, and
    /// is then unchanged.
    fn extend(&mut self, data: &[u8]) -> Result<()>
        ensures appends { OnOk result (self.new.items ≡ self.old.items ++ «data».now) }
        ensures unchanged { OnErr result (self.new.items ≡ self.old.items) }
        ensures refuses_by_buffer_full { IsOkUnless result Error.SerializeBufferFull }
    {
        self.extend_from_slice(data)
            .map_err(|_| Error::SerializeBufferFull)
    }
}

/// Appends each piece to a target, which is also the output. A push fails with
/// `SerializeBufferFull` if the target fails, whose content is then unchanged.
///
/// A contract sees the target.
#[derive(Drop)]
pub struct ExtendFlavor<T: ExtendBytes> {
    target: T,
}

impl<T: ExtendBytes> Model for ExtendFlavor<T> {
    ghost Value = { T };

    ghost coded = { T.code };

    ghost view = { λ s. s.target };
}

impl<T: ExtendBytes + Drop> ExtendFlavor<T> {
    /// Returns a flavor that appends to what `target` holds.
    pub fn new(target: T) -> ExtendFlavor<T>
        ensures { result ≡ target }
    {
        ExtendFlavor { target }
    }
}

impl<T: ExtendBytes + Drop> Flavor for ExtendFlavor<T> {
    type Output = T;

    ghost appended = { Appended T.content };

    ghost room = { NoRoom };

    ghost tidy = { ⊤ };

    ghost reaches = { AnyReached };

    ghost finishes = { λ s output. output ≡ s };

    ghost lawful = { grows_lawful T.content };

    fn try_push(&mut self, byte: u8) -> Result<()>
        ensures { PushedWhole ⟦<Self as Flavor>⟧ T.content self.old (byte ∷ []) result self.new }
    {
        self.try_extend(&[byte])
    }

    fn try_extend(&mut self, bytes: &[u8]) -> Result<()>
        ensures { PushedWhole ⟦<Self as Flavor>⟧ T.content self.old bytes.now result self.new }
    {
        self.target
            .extend(bytes)
            .map_err(|_| Error::SerializeBufferFull)
    }

    fn try_varint(&mut self, n: u64) -> Result<()>
        ensures { PushedWhole ⟦<Self as Flavor>⟧ T.content self.old (digits n) result self.new }
    {
        let mut out = [0; VARINT_MAX_64];
        self.try_extend(varint_u64(n, &mut out))
    }

    fn finalize(self) -> Result<T>
        ensures { AlwaysFinalized ⟦<Self as Flavor>⟧ self result }
    {
        Ok(self.target)
    }
}

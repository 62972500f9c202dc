//! The texts of C: `CString`, read as a list of bytes.

ghost use Rattle.std.specs.Prelude.{◌≡◌, IfOk, IfSome, IsOkUnless};
ghost use Rattle.postcard_de.specs.{HasNoNul, IfNone, c_string_bytes};

use crate::deserialize::Deserialize;
use crate::deserializer::Deserializer;
use crate::owned::DeserializeOwned;
use postcard_de_flavors::Flavor;
use postcard_wire::{Error, Result};
use std::alloc::Global;
use std::ffi::CString;

/// Returns the text of these bytes, or `None` if one of them is 0. Fails with `OutOfMemory` if an
/// allocation fails.
#[tactic(auto, using(crate::proofs::CStrings::text_before_nul))]
fn text_of(alloc: Global, bytes: Vec<u8>) -> Result<Option<CString>>
    ensures some { IfOk result (λ text. IfSome text (λ s. c_string_bytes s ≡ bytes.items)) }
    ensures no_nul { IfOk result (λ text. IfSome text (λ _. HasNoNul bytes.items)) }
    ensures none { IfOk result (λ text. IfNone text (¬ HasNoNul bytes.items)) }
    ensures only_out_of_memory { IsOkUnless result Error.OutOfMemory }
{
    match CString::new(alloc, bytes)? {
        Ok(text) => Ok(Some(text)),
        Err(_) => Ok(None),
    }
}

/// Reads the bytes before the NUL at the end. Fails with `SerdeDeCustom` if one of them is 0, once
/// all were read.
impl<'de> Deserialize<'de> for CString {
    fn deserialize<F: Flavor>(alloc: Global, d: &mut Deserializer<'de, F>) -> Result<Self> {
        let bytes = <Vec<u8>>::deserialize(alloc, d)?;
        match text_of(alloc, bytes)? {
            Some(text) => Ok(text),
            None => Err(Error::SerdeDeCustom),
        }
    }
}

impl DeserializeOwned for CString {
    fn deserialize_owned<'de, F: Flavor>(
        alloc: Global,
        d: &mut Deserializer<'de, F>,
    ) -> Result<Self> {
        CString::deserialize(alloc, d)
    }
}

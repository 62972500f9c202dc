//! Decoding with a checksum. The value is read first, and then the bytes after it are compared with
//! the checksum. So a value that can't be read is refused by its own error, whatever its checksum.

ghost use Rattle.std.specs.Prelude.{◌≡◌, ◌≤◌, ◌<◌, ◌*◌, ◌⊎◌, ◌↔◌, IsTrue, [], ◌++◌, length, ℕ};
ghost use Rattle.std.specs.Prelude.{List, IfOk, IfErr, IsErrOf, IsOkUnless, OnOk, MatchResult};
ghost use Rattle.postcard_crc.specs.{AcceptsFront, AcceptsFrontAndRest, AcceptsWhole};
ghost use Rattle.postcard_crc.specs.{HasExactErrors, IsCrc, IsCrcAfter, IsDamaged, IsReadError};
ghost use Rattle.postcard_crc.specs.{IsSound, Parameters, ReadsBackFront, ReadsBackFrontAndRest};
ghost use Rattle.postcard_crc.specs.{ReadsBackWhole, ReadsChecked, RefusesMore, Took, low_bytes};

use crate::trailer::trailer_of;
use crc::{Digest, Implementation, Width};
use postcard_de::Deserialize;
use postcard_wire::{Error, Result};
use std::alloc::Global;

mod cobs;
mod modifier;

pub use cobs::from_bytes_cobs;
pub use modifier::CrcModifier;

/// Decodes a value and its checksum from the start of `bytes`, and returns the value with the
/// remaining bytes. The checksum is that of what `digest` has taken, and then the bytes of the
/// value.
///
/// It succeeds if and only if a prefix of `bytes` encodes a tree of the type, its checksum follows,
/// and no allocation fails. A success with bytes after the checksum says nothing about damage: see
/// [`from_bytes_whole`].
///
/// # Errors
///
/// Fails as [`take_from_bytes`](postcard_de::take_from_bytes) if no value can be read. Otherwise
/// fails with `DeserializeUnexpectedEnd` if fewer bytes follow the value than a checksum has, and
/// with `DeserializeBadCrc` if they are not its checksum.
pub fn take_from_bytes<'a, T: Deserialize<'a>, W: Width, I: Implementation<W>>(
    alloc: Global,
    bytes: &'a [u8],
    digest: Digest<'a, W, I>,
) -> Result<(T, &'a [u8])>
    ensures gives { IfOk result (λ read. ReadsChecked T.shape.reads T.shape.value W.size
        digest.entry bytes.now read.0 read.1.now) }
    ensures accepts { AcceptsFrontAndRest T.shape W.size digest.entry bytes.now result }
    ensures reads_back { ReadsBackFrontAndRest T.shape W.size digest.entry bytes.now result }
    ensures refuses_damage { (a : Parameters) (sent : List ℕ) → Took digest.entry a []
        → IsDamaged W.size a sent bytes.now
        → IfOk result (λ read. read.1.now ≡ [] → sent ≡ bytes.now) }
    ensures exact_errors { HasExactErrors T.shape W.size digest.entry bytes.now result }
    ensures named_error { IfErr result
        (λ e. IsReadError T.shape.other e ⊎ (e ≡ Error.DeserializeBadCrc)) }
{
    let (value, rest) = postcard_de::take_from_bytes(alloc, bytes)?;
    let rest = checked(bytes, rest, digest)?;
    Ok((value, rest))
}

/// Decodes a value as [`take_from_bytes`] does, with the same errors. Bytes after the checksum are
/// ignored.
///
/// # Examples
///
/// ```rust
/// let (sensor, tenths): (u8, u32) = from_bytes_crc32(rt.alloc(), sent, crc.digest())?;
/// ```
pub fn from_bytes<'a, T: Deserialize<'a>, W: Width, I: Implementation<W>>(
    alloc: Global,
    bytes: &'a [u8],
    digest: Digest<'a, W, I>,
) -> Result<T>
    ensures gives { IfOk result (λ value. (rest : List ℕ) × ReadsChecked T.shape.reads
        T.shape.value W.size digest.entry bytes.now value rest) }
    ensures accepts { AcceptsFront T.shape W.size digest.entry bytes.now result }
    ensures reads_back { ReadsBackFront T.shape W.size digest.entry bytes.now result }
    ensures exact_errors { HasExactErrors T.shape W.size digest.entry bytes.now result }
    ensures named_error { IfErr result
        (λ e. IsReadError T.shape.other e ⊎ (e ≡ Error.DeserializeBadCrc)) }
{
    let (value, _) = take_from_bytes(alloc, bytes, digest)?;
    Ok(value)
}

/// Decodes a value that, with its checksum after it, is the whole of `bytes`. The Rust crate has no
/// such call: its `from_bytes_crc32` ignores what follows the checksum.
///
/// Fails if `bytes` is a message and its checksum in which bits were changed within `width` bits in
/// a row (`refuses_damage`). These may reach into the checksum. For that the digest must be new,
/// `refin` and `refout` true, and the constant term of the generator 1, as in [`crc::catalog`].
///
/// # Errors
///
/// Fails as [`take_from_bytes`], and with `DeserializeBadEncoding` if bytes follow the checksum.
///
/// # Examples
///
/// ```rust
/// let value: u8 = from_bytes_whole(rt.alloc(), &[0x00, 0x78, 0xf0], sdlc.digest())?;
/// ```
pub fn from_bytes_whole<'a, T: Deserialize<'a>, W: Width, I: Implementation<W>>(
    alloc: Global,
    bytes: &'a [u8],
    digest: Digest<'a, W, I>,
) -> Result<T>
    ensures gives { IfOk result (λ value. ReadsChecked T.shape.reads T.shape.value W.size
        digest.entry bytes.now value []) }
    ensures accepts { AcceptsWhole T.shape W.size digest.entry bytes.now result }
    ensures reads_back { ReadsBackWhole T.shape W.size digest.entry bytes.now result }
    ensures refuses_damage { (a : Parameters) (sent : List ℕ) → Took digest.entry a []
        → IsDamaged W.size a sent bytes.now → OnOk result (sent ≡ bytes.now) }
    ensures exact_errors { HasExactErrors T.shape W.size digest.entry bytes.now result }
    ensures bytes_after { RefusesMore T.shape W.size digest.entry bytes.now result }
    ensures named_error { IfErr result (λ e. IsReadError T.shape.other e
        ⊎ ((e ≡ Error.DeserializeBadCrc) ⊎ (e ≡ Error.DeserializeBadEncoding))) }
{
    let (value, rest) = take_from_bytes(alloc, bytes, digest)?;
    if is_end(rest) {
        Ok(value)
    } else {
        Err(Error::DeserializeBadEncoding)
    }
}

/// Returns the bytes after the checksum with which `rest` begins. The checksum is that of what the
/// digest has taken, and then the bytes before `rest`. Fails as [`after_trailer`] does.
fn checked<'a, W: Width, I: Implementation<W>>(
    bytes: &'a [u8],
    rest: &'a [u8],
    digest: Digest<'a, W, I>,
) -> Result<&'a [u8]>
    requires { length rest.now ≤ length bytes.now }
    ensures gives { IfOk result (λ after. (front : List ℕ) → bytes.now ≡ front ++ rest.now
        → (crc : ℕ) × IsCrcAfter digest.entry front crc
        × (rest.now ≡ low_bytes W.size crc ++ after.now)) }
    ensures accepts { (a : Parameters) (m front after : List ℕ) (crc : ℕ) → IsSound a
        → Took digest.entry a m → bytes.now ≡ front ++ rest.now
        → IsCrc a (m ++ front) crc → rest.now ≡ low_bytes W.size crc ++ after
        → MatchResult result (λ r. r.now ≡ after) (λ _. ⊥) }
    ensures short { length rest.now < W.size → IsErrOf result Error.DeserializeUnexpectedEnd }
    ensures long { W.size ≤ length rest.now → IsOkUnless result Error.DeserializeBadCrc }
{
    after_checksum(rest, crc_before(bytes, rest, digest))
}

/// Returns the checksum of what the digest has taken, and then the bytes before `rest`.
fn crc_before<W: Width, I: Implementation<W>>(
    bytes: &[u8],
    rest: &[u8],
    digest: Digest<'_, W, I>,
) -> W
    requires { length rest.now ≤ length bytes.now }
    ensures { (front : List ℕ) → bytes.now ≡ front ++ rest.now
        → IsCrcAfter digest.entry front (W.number result) }
{
    let mut digest = digest;
    digest.update(&bytes[..bytes.len() - rest.len()]);
    digest.finalize()
}

/// Returns the bytes after the checksum `crc` with which `rest` begins. Fails as [`after_trailer`]
/// does.
fn after_checksum<W: Width>(rest: &[u8], crc: W) -> Result<&[u8]>
    ensures gives { IfOk result (λ after. rest.now ≡ low_bytes W.size (W.number crc) ++ after.now) }
    ensures accepts { (after : List ℕ) → rest.now ≡ low_bytes W.size (W.number crc) ++ after
        → MatchResult result (λ r. r.now ≡ after) (λ _. ⊥) }
    ensures short { length rest.now < W.size → IsErrOf result Error.DeserializeUnexpectedEnd }
    ensures long { W.size ≤ length rest.now → IsOkUnless result Error.DeserializeBadCrc }
{
    let wanted = trailer_of(crc);
    if rest.len() < wanted.len {
        return Err(Error::DeserializeUnexpectedEnd);
    }
    after_trailer(rest, &wanted.bytes[..wanted.len])
}

/// Returns the bytes after the checksum `trailer` with which `rest` begins. Fails with
/// `DeserializeUnexpectedEnd` if `rest` has fewer bytes than `trailer`. Fails with
/// `DeserializeBadCrc` if it begins with other bytes.
fn after_trailer<'a>(rest: &'a [u8], trailer: &[u8]) -> Result<&'a [u8]>
    requires { length trailer.now ≤ length rest.now }
    ensures gives { IfOk result (λ after. rest.now ≡ trailer.now ++ after.now) }
    ensures accepts { (after : List ℕ) → rest.now ≡ trailer.now ++ after
        → MatchResult result (λ r. r.now ≡ after) (λ _. ⊥) }
    ensures named { IsOkUnless result Error.DeserializeBadCrc }
{
    let (found, after) = rest.split_at(trailer.len());
    if are_same(found, trailer) {
        Ok(after)
    } else {
        Err(Error::DeserializeBadCrc)
    }
}

/// Returns `rest.is_empty()`. It is a function of its own for the prover: the proofs cite its
/// clause.
fn is_end(rest: &[u8]) -> bool
    ensures { IsTrue result ↔ (rest.now ≡ []) }
{
    rest.is_empty()
}

/// Returns `found == wanted`. It is a function of its own for the prover: the proofs cite its
/// clause.
fn are_same(found: &[u8], wanted: &[u8]) -> bool
    ensures { IsTrue result ↔ (found.now ≡ wanted.now) }
{
    *found == *wanted
}

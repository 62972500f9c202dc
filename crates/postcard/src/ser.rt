//! Encoding a value into a buffer.

ghost use Rattle.std.specs.Prelude.{◌≡◌, ◌<◌, ◌≤◌, ◌↔◌, ◌⊎◌, ℕ, List, ◌++◌, length, drop, IfOk};
ghost use Rattle.std.specs.Prelude.{IfErr, IsOk, OnOk};
ghost use Rattle.postcard.specs.{Array, FillsFront, FillsSlice, IsAttempt, IsErrorOf, IsWilling};
ghost use Rattle.postcard.specs.{LendsAttempt, LendsIfOk, LendsSoOk, Spells, encoding, sem, u8};

use postcard_memory::front;
use postcard_ser::{Serialize, Serializer};
use postcard_ser_flavors::Slice;
use postcard_wire::{Error, Result};

/// Encodes a value into the first bytes of `buf`, and returns these bytes, the canonical encoding.
/// The bytes after them are unchanged. Nothing is allocated.
///
/// [`fill_slice`] says in plain clauses what `writes_back` does.
///
/// # Errors
///
/// Fails with `SerializeBufferFull` if and only if the encoding is longer than `buf`. The
/// [exceptions](crate#errors-of-encoding) apply. `buf` then begins with a prefix of the encoding,
/// and its other bytes are unchanged. If the value refuses itself, the content is unspecified.
///
/// # Examples
///
/// ```rust
/// let mut buffer = [0; 16];
/// let used = to_slice(&[1u32, 300].as_slice(), &mut buffer)?;
/// assert_eq!(rt; &*used, [0x02, 0x01, 0xAC, 0x02].as_slice());
/// ```
pub fn to_slice<'a, T: Serialize>(value: &T, buf: &'a mut [u8]) -> Result<&'a mut [u8]>
    ensures* writes_back { sem 𝓛 (LendsSoOk (Array u8 0) (Array u8 0) buf.entry result
        (λ all front. all ≡ front ++ drop (length (encoding T.shape value.now)) buf.old)
        (λ all. IsWilling T.shape value.now
        → FillsFront (encoding T.shape value.now) buf.old all)) }
    ensures gives { IfOk result (λ front. front.now ≡ encoding T.shape value.now) }
    ensures shortest { IfOk result (λ front. (p : List ℕ) → Spells (T.shape.tree value.now) p
        → (p ≡ front.now) ⊎ (length front.now < length p)) }
    ensures fits_iff { IsWilling T.shape value.now
        → (IsOk result ↔ (length (encoding T.shape value.now) ≤ length buf.old)) }
    ensures own_error { length (encoding T.shape value.now) ≤ length buf.old
        → IfErr result (T.shape.refusal value.now) }
    ensures named_error { IfErr result (IsErrorOf T.shape value.now) }
    ensures fits { OnOk result (T.shape.fits value.now) }
    ensures spelled { IfOk result (λ front. Spells (T.shape.tree value.now) front.now) }
{
    lend_front(write_front(value, buf))
}

/// Does what [`to_slice`] does, with the same errors, and returns the number of bytes written. It
/// is for callers that keep the buffer.
///
/// # Examples
///
/// ```rust
/// assert_eq!(rt; fill_slice(&[1u32, 300].as_slice(), &mut buffer), Ok(4));
/// ```
pub fn fill_slice<T: Serialize>(value: &T, buf: &mut [u8]) -> Result<usize>
    ensures { FillsSlice T.shape value.now buf.old result buf.new }
{
    let Attempt {
        all: _all,
        count,
        failed,
        error,
    } = write_front(value, buf);
    if failed { Err(error) } else { Ok(count) }
}

/// The outcome of writing into a buffer: the whole buffer, the number of bytes written, and the
/// error. The error counts only if the attempt `failed`.
pub(crate) struct Attempt<'a> {
    pub(crate) all: &'a mut [u8],
    pub(crate) count: usize,
    pub(crate) failed: bool,
    pub(crate) error: Error,
}

/// Writes the value into the first bytes of the buffer.
fn write_front<'a, T: Serialize>(value: &T, buf: &'a mut [u8]) -> Attempt<'a>
    ensures same_loan { result.all.ghost_name ≡ buf.entry.ghost_name }
    ensures attempts { IsAttempt T.shape value.now (encoding T.shape value.now)
        (FillsFront (encoding T.shape value.now) buf.old) buf.old result }
{
    let mut serializer = Serializer {
        output: Slice::new(buf),
    };
    let outcome = value.serialize(&mut serializer);
    let (all, count) = serializer.output.into_parts();
    match outcome {
        Ok(()) => Attempt {
            all,
            count,
            failed: false,
            error: Error::SerializeBufferFull,
        },
        Err(error) => Attempt {
            all,
            count,
            failed: true,
            error,
        },
    }
}

/// Returns the prefix of the buffer that was written, or the error if the attempt failed.
pub(crate) fn lend_front<'a>(attempt: Attempt<'a>) -> Result<&'a mut [u8]>
    requires { attempt.count ≤ length attempt.all.now }
    ensures* writes_back { sem 𝓛 (LendsIfOk (Array u8 0) (Array u8 0) attempt.entry.all result
        (λ front. front ++ drop attempt.entry.count attempt.entry.all.now) attempt.entry.all.now) }
    ensures lends { LendsAttempt attempt.entry result }
{
    let Attempt {
        all,
        count,
        failed,
        error,
    } = attempt;
    if failed {
        return Err(error);
    }
    Ok(front(all, count))
}

//! Decoding a value from a COBS frame, in the buffer that holds it.

ghost use Rattle.std.specs.Prelude.{◌≡◌, ◌+◌, ◌≤◌, ⊤, List, ℕ, length, drop, IfOk, OnOk, OnErr};
ghost use Rattle.postcard_frame.specs.{Array, HasDataOf, IsBeside, IsDecoded, IsReadOf};
ghost use Rattle.postcard_frame.specs.{KeepsFromZero, KeepsZero, before_zero, follows_if};
ghost use Rattle.postcard_frame.specs.{follows_so, name_if_ok, sem, u8};
ghost use mathlib.Core.Option.{none};

use postcard_cobs::decode_in_place_report;
use postcard_de::{Deserialize, from_bytes};
use postcard_memory::split_front;
use postcard_wire::{Error, Result};
use std::alloc::Global;

/// Decodes a value from the frame at the front of the buffer `s`, in place.
///
/// The frame is the bytes before the first zero, or all bytes if there is no zero. Its data is
/// written over the first bytes of the frame. A `&str` or a `&[u8]` in the value borrows from
/// there. Bytes of the data after the value are ignored. The first zero and the bytes after it stay
/// as they are, whatever the result (`writes_back`).
///
/// It succeeds if and only if the frame has data that begins with an accepted encoding of a value
/// of the type, and no allocation fails.
///
/// # Errors
///
/// Fails with `DeserializeBadEncoding` if and only if the frame has no data: it is empty, or a
/// group runs past its end. Otherwise fails as [`from_bytes`] of the frame's data. The bytes before
/// the first zero are unspecified then.
///
/// # Examples
///
/// ```rust
/// let five: u8 = from_bytes_cobs(rt.alloc(), rest)?;
/// ```
pub fn from_bytes_cobs<'a, T: Deserialize<'a>>(alloc: Global, s: &'a mut [u8]) -> Result<T>
    ensures* writes_back { sem 𝓛 (follows_so (Array u8 0) (Array u8 0) s.entry.ghost_name none
        (λ _ _. ⊤) (KeepsFromZero s.old)) }
    ensures reads { IsReadOf T.shape (λ value. value) (before_zero s.old) result }
{
    let Decoded { all, end, len } = decode(s);
    let (front, _) = split_front(all, end);
    read_data(alloc, front, len)
}

/// Does the same as [`from_bytes_cobs`], with the same errors, and returns the value with the bytes
/// after the frame and after the zero that ends it. There are none if there is no zero. The next
/// call can read the next frame from them while the value is used.
///
/// Once the loan has ended, the buffer holds the zero as it was, and then what the caller made of
/// the bytes returned (`writes_back`).
///
/// # Examples
///
/// ```rust
/// let (list, rest) = take_from_bytes_cobs::<&[u8]>(rt.alloc(), &mut two)?;
/// let five: u8 = from_bytes_cobs(rt.alloc(), rest)?;
/// ```
pub fn take_from_bytes_cobs<'a, T: Deserialize<'a>>(
    alloc: Global,
    s: &'a mut [u8],
) -> Result<(T, &'a mut [u8])>
    ensures* writes_back { sem 𝓛 (follows_so (Array u8 0) (Array u8 0) s.entry.ghost_name
        (name_if_ok (λ read. read.1.ghost_name) result)
        (λ rest all. OnOk result (KeepsZero s.old rest all))
        (λ all. OnErr result (KeepsFromZero s.old all))) }
    ensures reads { IsReadOf T.shape (λ read. read.0) (before_zero s.old) result }
    ensures remaining_unchanged { IfOk result (λ read. read.1.now
        ≡ drop (length (before_zero s.old) + 1) s.old) }
{
    let Decoded { all, end, len } = decode(s);
    let (front, rest) = split_front(all, end);
    let value = read_data(alloc, front, len);
    beside(value, rest)
}

/// What decoding in place leaves: the whole buffer, and where the parts of the frame end.
struct Decoded<'a> {
    all: &'a mut [u8],
    /// The length of the frame with the zero that ends it, if there is one; 0 if the frame has no
    /// data.
    end: usize,
    len: usize,
}

fn decode<'a>(s: &'a mut [u8]) -> Decoded<'a>
    ensures same_loan { result.all.ghost_name ≡ s.entry.ghost_name }
    ensures decodes { IsDecoded s.old result }
{
    match decode_in_place_report(s) {
        Ok(report) => {
            let zero = if report.src_used < s.len() { 1 } else { 0 };
            Decoded {
                all: s,
                end: report.src_used + zero,
                len: report.dst_used,
            }
        }
        Err(_) => Decoded {
            all: s,
            end: 0,
            len: 0,
        },
    }
}

/// Reads a value from the first `len` bytes of `front`, the data of a frame; `front` is empty if
/// the frame has no data. Fails as [`from_bytes_cobs`] does.
fn read_data<'a, T: Deserialize<'a>>(alloc: Global, front: &'a [u8], len: usize) -> Result<T>
    requires { len ≤ length front.now }
    ensures reads { (frame : List ℕ) → HasDataOf frame front.now len
        → IsReadOf T.shape (λ value. value) frame result }
{
    if front.is_empty() {
        return Err(Error::DeserializeBadEncoding);
    }
    from_bytes(alloc, &front[..len])
}

fn beside<'a, T>(value: Result<T>, rest: &'a mut [u8]) -> Result<(T, &'a mut [u8])>
    ensures* writes_back { sem 𝓛 (follows_if (Array u8 0) (Array u8 0) rest.entry.ghost_name
        (name_if_ok (λ read. read.1.ghost_name) result) (λ w. w) rest.old) }
    ensures same { IsBeside value rest.old result }
{
    match value {
        Ok(value) => Ok((value, rest)),
        Err(error) => Err(error),
    }
}

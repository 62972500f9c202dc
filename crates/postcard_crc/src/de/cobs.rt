//! Decoding with a checksum from a COBS frame, in the buffer that holds it.

ghost use Rattle.std.specs.Prelude.{◌≡◌, ◌≤◌, ⊤, List, ℕ, length};
ghost use Rattle.postcard_crc.specs.{Array, HasDataOf, IsDecodedFrame, IsReadOf, KeepsFromZero};
ghost use Rattle.postcard_crc.specs.{before_zero, follows_so, sem, u8};
ghost use mathlib.Core.Option.{none};

use crate::de::from_bytes_whole;
use crc::{Digest, Implementation, Width};
use postcard_cobs::decode_in_place_report;
use postcard_de::Deserialize;
use postcard_memory::split_front;
use postcard_wire::{Error, Result};
use std::alloc::Global;

/// Decodes a value from the frame at the start of the buffer `s`, in place, as
/// [`from_bytes_cobs`](postcard_frame::from_bytes_cobs) does. The frame's data is the value's
/// encoding, and then just its checksum. The first zero and the bytes after it are unchanged,
/// whatever the result (`writes_back`). The Rust crate has no such call.
///
/// Damage to the frame's data is refused as [`from_bytes_whole`] says (`refuses_damage`). A damaged
/// code byte of the frame moves zeros of the data, which need not be such damage.
///
/// # Errors
///
/// Fails with `DeserializeBadEncoding` if the frame has no data, and otherwise as
/// [`from_bytes_whole`] of the frame's data. The bytes before the first zero are unspecified then.
///
/// # Examples
///
/// ```rust
/// let mut frame = [0x01, 0x03, 0x78, 0xf0, 0x00];
/// let value: u8 = from_bytes_cobs(rt.alloc(), &mut frame, sdlc.digest())?;
/// ```
pub fn from_bytes_cobs<'a, T: Deserialize<'a>, W: Width, I: Implementation<W>>(
    alloc: Global,
    s: &'a mut [u8],
    digest: Digest<'a, W, I>,
) -> Result<T>
    ensures* writes_back { sem 𝓛 (follows_so (Array u8 0) (Array u8 0) s.entry.ghost_name none
        (λ _ _. ⊤) (KeepsFromZero s.old)) }
    ensures reads { IsReadOf T.shape W.size digest.entry (before_zero s.old) result }
{
    let DecodedFrame {
        all,
        frame_len,
        data_len,
    } = decode_frame(s);
    let (front, _) = split_front(all, frame_len);
    read_checked(alloc, front, data_len, digest)
}

/// The result of decoding in place: the whole buffer, and the lengths of its parts.
struct DecodedFrame<'a> {
    all: &'a mut [u8],
    /// The length of the frame without the zero that ends it. It is 0 if the frame has no data.
    frame_len: usize,
    /// The length of the data, which is at the start of the buffer.
    data_len: usize,
}

/// Decodes the frame at the start of the buffer in place. Returns the buffer and the lengths of its
/// parts.
fn decode_frame<'a>(s: &'a mut [u8]) -> DecodedFrame<'a>
    ensures same_loan { result.all.ghost_name ≡ s.entry.ghost_name }
    ensures decodes { IsDecodedFrame s.old result }
{
    match decode_in_place_report(s) {
        Ok(report) => DecodedFrame {
            all: s,
            frame_len: report.src_used,
            data_len: report.dst_used,
        },
        Err(_) => DecodedFrame {
            all: s,
            frame_len: 0,
            data_len: 0,
        },
    }
}

/// Reads a value and then just its checksum from a frame's data, the first `data_len` bytes of
/// `front`. If there is no data, `front` is empty. Fails as [`from_bytes_cobs`] does.
fn read_checked<'a, T: Deserialize<'a>, W: Width, I: Implementation<W>>(
    alloc: Global,
    front: &'a [u8],
    data_len: usize,
    digest: Digest<'a, W, I>,
) -> Result<T>
    requires { data_len ≤ length front.now }
    ensures reads { (frame : List ℕ) → HasDataOf frame front.now data_len
        → IsReadOf T.shape W.size digest.entry frame result }
{
    if front.is_empty() {
        return Err(Error::DeserializeBadEncoding);
    }
    from_bytes_whole(alloc, &front[..data_len], digest)
}

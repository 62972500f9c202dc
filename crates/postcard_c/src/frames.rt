//! Frames of COBS, made from a message and decoded in place.

ghost use Rattle.std.specs.Prelude.{◌≡◌, ◌≢◌, ◌-◌, ◌≤◌, ◌↔◌, ◌++◌, length, IfOk, IsOk, OnOk};
ghost use Rattle.postcard_c.specs.{Fills, HasNoData, LeavesData, before_zero, made};

use postcard_cobs::decode_in_place;
use postcard_ser_cobs::Cobs;
use postcard_ser_flavors::{Flavor, Slice, Storage};
use postcard_wire::Result;
use postcard_wire::status::{BAD_FRAME, BUFFER_FULL};

/// Writes bytes as a frame after those that a storage holds, and returns the storage in any case.
/// The second part is `SerializeBufferFull` if and only if the frame has no room.
fn frame_into<B: Storage + Drop>(bytes: &[u8], storage: B) -> (B, Result<()>)
    ensures gives { OnOk result.1 (B.held result.0 ≡ B.held storage ++ made bytes.now) }
    ensures leaves { B.reaches storage result.0 }
    ensures has_room { length (made bytes.now) ≤ usize.MAX - 2
        → B.free storage (length (made bytes.now)) → IsOk result.1 }
{
    let mut cobs = Cobs::open(storage);
    match cobs.try_extend(bytes) {
        Ok(()) => cobs.close(),
        Err(error) => (cobs.into_storage(), Err(error)),
    }
}

/// Writes bytes as a frame into the front of a buffer. Returns the whole buffer in any case, and
/// the number of the frame's bytes, or `SerializeBufferFull` if it has no room.
fn write_frame<'a>(bytes: &[u8], buffer: &'a mut [u8]) -> (&'a mut [u8], Result<usize>)
    ensures same_loan { result.0.ghost_name ≡ buffer.entry.ghost_name }
    ensures count_is_length { IfOk result.1 (λ count. count ≡ length (made bytes.now)) }
    ensures fills { OnOk result.1 (Fills (made bytes.now) buffer.old result.0.now) }
    ensures fits_iff { IsOk result.1 ↔ (length (made bytes.now) ≤ length buffer.old) }
{
    let (slice, framed) = frame_into(bytes, Slice::new(buffer));
    let (all, count) = slice.into_parts();
    match framed {
        Ok(()) => (all, Ok(count)),
        Err(error) => (all, Err(error)),
    }
}

/// Writes bytes as a COBS frame (Cheshire and Baker 1999), the zero that ends it included, into the
/// front of `frame`, and the frame's size into `count`. The bytes after it are unchanged. The frame
/// of `n` bytes has at most `n + n / 254 + 2`.
///
/// # Errors
///
/// Fails with `SerializeBufferFull` if and only if the frame has no room. The content of `frame` is
/// then unspecified, and `count` is unchanged.
#[unsafe(no_mangle)]
pub extern "C" fn postcard_cobs_encode(message: &[u8], frame: &mut [u8], count: &mut usize) -> u32
    ensures fits_iff { (result ≡ 0) ↔ (length (made message.now) ≤ length frame.old) }
    ensures fills { result ≡ 0 → Fills (made message.now) frame.old frame.new }
    ensures counts { result ≡ 0 → count.new ≡ length (made message.now) }
    ensures full { result ≢ 0 → (result ≡ 2) × (count.new ≡ count.old) }
{
    let (_all, framed) = write_frame(message, frame);
    match framed {
        Ok(length) => {
            *count = length;
            0
        }
        Err(_) => BUFFER_FULL,
    }
}

/// Decodes the COBS frame at the front of a buffer in place: the bytes before the first zero, or all
/// bytes if there is no zero. Writes the number of bytes of its data into `count`. The data is at the
/// front of the buffer, and each byte after it is unchanged.
///
/// # Errors
///
/// Fails with `DeserializeBadEncoding` if and only if the frame is empty or one of its groups runs
/// past its end. The bytes of the frame are then unspecified, and `count` is unchanged.
#[unsafe(no_mangle)]
pub extern "C" fn postcard_cobs_decode(frame: &mut [u8], count: &mut usize) -> u32
    ensures decodes { result ≡ 0 → LeavesData frame.old frame.new count.new }
    ensures no_frame { result ≢ 0 → (result ≡ 11) × HasNoData (before_zero frame.old) }
    ensures unchanged { result ≢ 0 → count.new ≡ count.old }
{
    match decode_in_place(frame) {
        Ok(length) => {
            *count = length;
            0
        }
        Err(_) => BAD_FRAME,
    }
}

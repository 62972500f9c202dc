//! The first message or frame of some bytes: [`next`].

ghost use Rattle.std.specs.Prelude.{◌≤◌, IfNone, IfOk, IfSome, drop, length};
ghost use Rattle.pcard_message.specs.{EndsFrame, IsNext, IsNextData, NoZero, plain_answer};

use crate::contents::read_data;
use crate::format::Format;
use crate::frame::{read_frame, refuse};
use pcard_print::{Answer, Reason};
use postcard_cobs::frame_len;
use std::alloc::{AllocError, Global};

/// Returns the answer to the first message or frame of some bytes, and the bytes after it. If a
/// message without a frame is refused, or no zero ends the frame, all bytes are left.
///
/// `room` holds the data of a frame of several groups.
///
/// # Errors
///
/// Fails if an allocation fails.
pub fn next<'a: 'b, 'b>(
    alloc: Global,
    format: &'a Format,
    bytes: &'a [u8],
    room: &'b mut Vec<u8>,
) -> Result<(Answer<'b>, &'a [u8]), AllocError>
    ensures { IfOk result (λ found. IsNext format.now bytes.now (plain_answer found.0)
        found.1.now) }
{
    if !format.framed {
        // For the prover: the answer lives no longer than `room`.
        let message: &'b [u8] = bytes;
        let way: &'b Format = format;
        let (answer, count) = next_message(alloc, way, message)?;
        return Ok((answer, &bytes[count..]));
    }
    let Some((frame, after)) = cut_frame(bytes) else {
        return Ok((refuse(alloc, Reason::NoZero, bytes), bytes));
    };
    let answer = read_frame(alloc, format, frame, room)?;
    Ok((answer, after))
}

/// Returns the bytes before the first zero, and those after it. Returns `None` if no byte is zero.
fn cut_frame(bytes: &[u8]) -> Option<(&[u8], &[u8])>
    ensures cut { IfSome result (λ cut. EndsFrame bytes.now cut.0.now cut.1.now) }
    ensures none { IfNone result (NoZero bytes.now) }
{
    let end = frame_len(bytes);
    if end == bytes.len() {
        return None;
    }
    Some((&bytes[..end], &bytes[end + 1..]))
}

/// Returns the answer to the first message of some bytes, and the number of its bytes.
fn next_message<'a>(
    alloc: Global,
    format: &'a Format,
    bytes: &'a [u8],
) -> Result<(Answer<'a>, usize), AllocError>
    ensures found { IfOk result (λ found. IsNextData format.now bytes.now (plain_answer found.0)
        (drop found.1 bytes.now)) }
    ensures within { IfOk result (λ found. found.1 ≤ length bytes.now) }
{
    match read_data(alloc, format, bytes)? {
        Answer::Value(value, after) => {
            Ok((Answer::Value(value, &[]), bytes.len() - after.len()))
        }
        Answer::Refused(refusal) => Ok((Answer::Refused(refusal), 0)),
    }
}

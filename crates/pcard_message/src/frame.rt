//! Frames without the zero that ends them, read by [`read_frame`].

ghost use Rattle.std.specs.Prelude.{◌≡◌, ℕ, List, ◌∷◌, IfNone, IfOk, IfSome, length};
ghost use Rattle.pcard_message.specs.{Groups, IsContentAnswer, IsFrameAnswer, NoZero};
ghost use Rattle.pcard_message.specs.{plain_answer, refused, whole};

use crate::contents::read_data;
use crate::format::Format;
use pcard_print::{Answer, Reason, Refusal};
use postcard_cobs::decode_in_place;
use postcard_schema::Path;
use std::alloc::{AllocError, Global};

/// Returns the value with which a frame's data begins, and the bytes of the data after the value
/// and its checksum. If there is no value, returns why. The offset of a refusal is that of the
/// frame's first byte.
///
/// The data of a frame of several groups is put into `room`.
///
/// # Errors
///
/// Fails if an allocation fails.
pub fn read_frame<'a>(
    alloc: Global,
    format: &'a Format,
    frame: &'a [u8],
    room: &'a mut Vec<u8>,
) -> Result<Answer<'a>, AllocError>
    ensures { IfOk result (λ answer. NoZero frame.now
        → IsFrameAnswer format.now frame.now (plain_answer answer)) }
{
    match data_of(frame, room)? {
        Some(content) => read_content(alloc, format, content),
        None => Ok(refuse(alloc, Reason::NoCobs, frame)),
    }
}

/// Returns the data of a frame, or `None` if it is no COBS frame.
///
/// The data of a frame of several groups is put into `room`.
///
/// # Errors
///
/// Fails if an allocation fails.
pub fn data_of<'a>(frame: &'a [u8], room: &'a mut Vec<u8>) -> Result<Option<&'a [u8]>, AllocError>
    ensures some { IfOk result (λ found. IfSome found (λ content.
        NoZero frame.now → Groups frame.now content.now)) }
    ensures none { IfOk result (λ found. IfNone found (NoZero frame.now
        → (content : List ℕ) → Groups frame.now content → ⊥)) }
{
    if let Some(content) = only_group(frame) {
        return Ok(Some(content));
    }
    room.clear();
    room.extend_from_slice(frame)?;
    Ok(unpack(frame, room))
}

/// Returns the data of a frame of one group: the bytes after its code byte. Returns `None` if the
/// frame has several groups or none.
fn only_group(frame: &[u8]) -> Option<&[u8]>
    ensures one { IfSome result (λ content. NoZero frame.now → Groups frame.now content.now) }
    ensures none { IfNone result ((content : List ℕ)
        → frame.now ≡ length frame.now ∷ content → ⊥) }
{
    let Some((code, content)) = frame.split_first() else {
        return None;
    };
    if usize::from(*code) != frame.len() {
        return None;
    }
    Some(content)
}

/// Returns the data of a frame, decoded in `buffer`, which is a copy of the frame. Returns `None`
/// if it is no COBS frame.
fn unpack<'a>(frame: &[u8], buffer: &'a mut [u8]) -> Option<&'a [u8]>
    requires { buffer.old ≡ frame.now }
    ensures some { IfSome result (λ content. NoZero frame.now → Groups frame.now content.now) }
    ensures none { IfNone result (NoZero frame.now
        → (content : List ℕ) → Groups frame.now content → ⊥) }
{
    match decode_in_place(buffer) {
        Ok(count) => Some(&buffer[..count]),
        Err(_) => None,
    }
}

/// Returns the answer to a frame with this data.
fn read_content<'a>(
    alloc: Global,
    format: &'a Format,
    content: &'a [u8],
) -> Result<Answer<'a>, AllocError>
    ensures { IfOk result (λ answer. IsContentAnswer format.now content.now
        (plain_answer answer)) }
{
    match read_data(alloc, format, content)? {
        Answer::Value(value, rest) => Ok(Answer::Value(value, rest)),
        Answer::Refused(refusal) => Ok(Answer::Refused(Refusal {
            offset: 0,
            shown: Some(content),
            ..refusal
        })),
    }
}

/// Returns the refusal of bytes as a whole, which shows them.
pub(crate) fn refuse(alloc: Global, reason: Reason, bytes: &[u8]) -> Answer<'_>
    ensures { plain_answer result ≡ refused (whole reason bytes.now) }
{
    Answer::Refused(Refusal {
        offset: 0,
        reason,
        path: Path {
            steps: Vec::new(alloc),
        },
        shown: Some(bytes),
    })
}

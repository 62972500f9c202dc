//! The device, which decodes a request in the buffer that holds its frame, and encodes the reply.

ghost use Rattle.std.specs.Prelude.{◌≡◌, IfOk, MatchResult};
ghost use Rattle.postcard_cobs.specs.Groups.{before_zero, made};
ghost use Rattle.postcard_wire.specs.Spelling.{canonical};
ghost use Rattle.postcard_frame.specs.Frame.{ReadsFrame};
ghost use Rattle.example_call.specs.Device.{IsReplyTo};
ghost use Rattle.example_call.specs.declared.message.Reply.{Reply};
ghost use Rattle.example_call.specs.declared.message.Request.{Request};

use crate::message::{Refusal, Reply, Request};
use postcard::{Result, Shaped, from_bytes_cobs, to_slice_cobs};
use std::alloc::Global;

/// Returns the reply to a request, or `Refused(NotUnderstood)` if no request was decoded.
fn reply_to<'a>(request: Result<Request<'a>>) -> Reply<'a>
    ensures { MatchResult request.entry (λ asked. IsReplyTo asked result)
        (λ _. result ≡ Reply.Refused Refusal.NotUnderstood) }
{
    match request {
        Ok(Request::Ping) => Reply::Pong,
        Ok(Request::Add { left, right }) => match left.checked_add(right) {
            Some(sum) => Reply::Sum(sum),
            None => Reply::Refused(Refusal::TooLarge),
        },
        Ok(Request::Echo(text)) => Reply::Text(text),
        Err(_) => Reply::Refused(Refusal::NotUnderstood),
    }
}

/// Decodes the request in a frame, encodes the reply as a frame into `buffer`, and returns that
/// frame. If the frame has no request, the reply is `Refused(NotUnderstood)`. The request is
/// decoded in place, which changes the bytes of its frame.
///
/// # Errors
///
/// Fails with `SerializeBufferFull` if `buffer` is too short for the reply's frame.
pub fn answer<'b>(alloc: Global, request: &mut [u8], buffer: &'b mut [u8]) -> Result<&'b mut [u8]>
    ensures replies { (asked : Request) → ⟦<Request<'static> as Shaped>⟧.shape.fits asked
        → before_zero request.old
        ≡ before_zero (made (canonical (⟦<Request<'static> as Shaped>⟧.shape.tree asked)))
        → IfOk result (λ frame. (reply : Reply) × IsReplyTo asked reply
        × ⟦<Reply<'static> as Shaped>⟧.shape.fits reply
        × (frame.now ≡ made (canonical (⟦<Reply<'static> as Shaped>⟧.shape.tree reply)))) }
    ensures refuses { ((asked : Request) → ReadsFrame ⟦<Request<'static> as Shaped>⟧.shape.reads
        ⟦<Request<'static> as Shaped>⟧.shape.value (before_zero request.old) asked → ⊥)
        → IfOk result (λ frame. frame.now ≡ made (canonical
        (⟦<Reply<'static> as Shaped>⟧.shape.tree (Reply.Refused Refusal.NotUnderstood)))) }
{
    let reply = reply_to(from_bytes_cobs(alloc, request));
    to_slice_cobs(&reply, buffer)
}

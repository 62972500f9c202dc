//! A remote call: a client sends a request to a device as a frame, and the device replies.
//!
//! Client and device know the same messages, and each has a buffer. Here both are in one program;
//! on a link, the bytes of the buffers would go over the wire.
#![tactic(auto)]

ghost use Rattle.std.specs.Prelude.{◌≡◌, IfOk};
ghost use Rattle.postcard_cobs.specs.Groups.{before_zero, made};
ghost use Rattle.postcard_wire.specs.Spelling.{canonical};
ghost use Rattle.example_call.specs.Device.{IsReplyTo};
ghost use Rattle.example_call.specs.declared.message.Request.{Request};

mod device;
mod message;

use anyhow::Result;
use message::{Reply, Request};
use postcard::{Shaped, from_bytes_cobs, to_slice_cobs};

/// The size of a buffer in bytes, and so the greatest size of a frame.
const BUFFER: usize = 32;

/// Passes a frame to the device, and returns the reply, which borrows from `buffer`. Prints both
/// frames and the reply. The contract says: the reply to the frame of a request is the reply to
/// that request.
fn exchange<'a>(
    rt: &(impl Print + AllocGlobal),
    frame: &mut [u8],
    buffer: &'a mut [u8],
) -> Result<Reply<'a>>
    ensures { (asked : Request) → ⟦<Request<'static> as Shaped>⟧.shape.fits asked
        → before_zero frame.old
        ≡ before_zero (made (canonical (⟦<Request<'static> as Shaped>⟧.shape.tree asked)))
        → IfOk result (IsReplyTo asked) }
{
    println!(rt; "  sent {frame:?}")?;
    let frame = device::answer(rt.alloc(), frame, buffer)?;
    println!(rt; "  got  {frame:?}")?;
    let reply = from_bytes_cobs(rt.alloc(), frame)?;
    println!(rt; "  {reply:?}")?;
    Ok(reply)
}

/// Sends a request to the device, and returns the reply to it, which borrows from `buffer`.
fn ask<'a>(
    rt: &(impl Print + AllocGlobal),
    request: &Request,
    buffer: &'a mut [u8],
) -> Result<Reply<'a>>
    ensures { IfOk result (IsReplyTo request.now) }
{
    println!(rt; "{request:?}")?;
    let mut there = [0; BUFFER];
    exchange(rt, to_slice_cobs(request, &mut there)?, buffer)
}

fn main(rt: HostRuntime) -> Result<()> {
    let mut buffer = [0; BUFFER];
    ask(&rt, &Request::Ping, &mut buffer)?;
    ask(
        &rt,
        &Request::Add {
            left: 2,
            right: 300,
        },
        &mut buffer,
    )?;
    ask(&rt, &Request::Echo("hi"), &mut buffer)?;
    let right = u32::MAX;
    ask(&rt, &Request::Add { left: 1, right }, &mut buffer)?;

    println!(rt; "a variant that no request has")?;
    exchange(&rt, &mut [0x02, 0x07, 0x00], &mut buffer)?;
    println!(rt; "a byte lost")?;
    exchange(&rt, &mut [0x05, 0x01, 0x02, 0xAC, 0x00], &mut buffer)?;
    Ok(())
}

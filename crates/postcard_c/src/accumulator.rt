//! Frames from a stream that comes in pieces, in the caller's memory.

ghost use Rattle.std.specs.Prelude.{◌≡◌, ◌+◌, ◌≤◌, ◌++◌, List, ℕ, length, take, IsTrue, false};
ghost use Rattle.std.specs.Prelude.{IfOk, OnErr};
ghost use Rattle.postcard_c.specs.{Feeds, Groups, NoZero, Stands, Takes, before_zero, holding};
ghost use Rattle.postcard_c.specs.{state_of};

use postcard_cobs::{decode_in_place, frame_len};
use postcard_wire::Result;

/// No frame ended, except one that was being skipped.
const CONSUMED: u32 = 0;
/// A frame ended.
const FRAME: u32 = 1;
/// A frame has no room.
const OVERSIZED: u32 = 2;
/// A frame ended that is no COBS frame.
const DAMAGED: u32 = 3;

/// Puts COBS frames together from the pieces of a stream.
///
/// A frame has room if it has at most as many bytes as the buffer, its zero included. An oversized
/// frame is skipped through its zero, and meanwhile nothing is held.
#[repr(C)]
#[derive(Drop)]
pub struct Accumulator<'a> {
    /// The whole buffer.
    pub buffer: &'a mut [u8],
    /// The number of bytes at the front of the buffer that are held: the front of a frame that
    /// hasn't ended.
    pub held: usize,
    /// Whether an oversized frame is being skipped.
    pub skipping: bool,
}

/// What a piece completes: one of the four constants, how many bytes of the piece were taken, how
/// many a frame's data has, and what the accumulator carries on.
#[derive(Clone, Copy)]
pub struct Outcome {
    answer: u32,
    taken: usize,
    size: usize,
    held: usize,
    skipping: bool,
}

/// Decodes the frame of the first `end` bytes of a buffer in place, and returns the length of its
/// data. Fails if and only if the bytes are no COBS frame.
fn decode_front(buf: &mut [u8], end: usize) -> Result<usize>
    requires { end ≤ length buf.old }
    ensures decodes { IfOk result (λ n. (n ≤ length buf.new)
        × Groups (before_zero (take end buf.old)) (take n buf.new)) }
    ensures no_groups { OnErr result
        ((d : List ℕ) → Groups (before_zero (take end buf.old)) d → ⊥) }
{
    decode_in_place(&mut buf[..end])
}

fn extend(buf: &mut [u8], held: usize, piece: &[u8])
    requires { held + length piece.now ≤ length buf.old }
    ensures { take (held + length piece.now) buf.new ≡ take held buf.old ++ piece.now }
{
    let end = held + piece.len();
    buf[held..end].copy_from_slice(piece);
}

/// Takes in a piece up to the end of a frame, while no frame is skipped.
fn take_held(buf: &mut [u8], held: usize, piece: &[u8]) -> Outcome
    requires { held ≤ length buf.old }
    ensures { NoZero (take held buf.old)
        → Takes (length buf.old) (holding (take held buf.old)) piece.now buf.new result }
{
    let n = frame_len(piece);
    let room = buf.len() - held;
    if n == piece.len() {
        if n > room {
            return Outcome {
                answer: OVERSIZED,
                taken: n,
                size: 0,
                held: 0,
                skipping: true,
            };
        }
        extend(buf, held, piece);
        return Outcome {
            answer: CONSUMED,
            taken: n,
            size: 0,
            held: held + n,
            skipping: false,
        };
    }
    if n >= room {
        return Outcome {
            answer: OVERSIZED,
            taken: n + 1,
            size: 0,
            held: 0,
            skipping: false,
        };
    }
    extend(buf, held, &piece[..n]);
    match decode_front(buf, held + n) {
        Ok(size) => Outcome {
            answer: FRAME,
            taken: n + 1,
            size,
            held: 0,
            skipping: false,
        },
        Err(_) => Outcome {
            answer: DAMAGED,
            taken: n + 1,
            size: 0,
            held: 0,
            skipping: false,
        },
    }
}

/// Takes in a piece up to the end of a frame. A frame that is skipped has no answer of its own.
fn take_in(buf: &mut [u8], held: usize, skipping: bool, piece: &[u8]) -> Outcome
    requires { held ≤ length buf.old }
    ensures { NoZero (take held buf.old) → (IsTrue skipping → held ≡ 0)
        → Takes (length buf.old) (state_of skipping (take held buf.old)) piece.now buf.new result }
{
    if !skipping {
        return take_held(buf, held, piece);
    }
    let n = frame_len(piece);
    if n == piece.len() {
        return Outcome {
            answer: CONSUMED,
            taken: n,
            size: 0,
            held: 0,
            skipping: true,
        };
    }
    let outcome = take_held(buf, 0, &piece[n + 1..]);
    Outcome {
        answer: outcome.answer,
        taken: n + 1 + outcome.taken,
        size: outcome.size,
        held: outcome.held,
        skipping: outcome.skipping,
    }
}

/// Takes in a piece of a stream up to the end of a frame, and returns what that completed. It is 1
/// for a frame, 2 for one without room, 3 for what is no COBS frame, and 0 if none or only a
/// skipped one ended.
///
/// Writes into `taken` how many bytes of the piece were taken; the caller feeds the others next.
/// Writes into `count` how many a frame's data has, or 0 without a frame; the data is at the front
/// of the buffer until the next feed.
///
/// If C changes the fields between two feeds to what no feed leaves, the answer may be any, but
/// nothing outside of the buffer is touched.
#[unsafe(no_mangle)]
pub extern "C" fn postcard_feed(
    accumulator: &mut Accumulator<'_>,
    piece: &[u8],
    taken: &mut usize,
    count: &mut usize,
) -> u32
    ensures { Stands accumulator.old
        → Feeds accumulator.old accumulator.new piece.now result taken.new count.new }
{
    let held = accumulator.held;
    if held > accumulator.buffer.len() {
        accumulator.held = 0;
        *taken = piece.len();
        *count = 0;
        return OVERSIZED;
    }
    let skipping = accumulator.skipping;
    let outcome = take_in(accumulator.buffer, held, skipping, piece);
    accumulator.held = outcome.held;
    accumulator.skipping = outcome.skipping;
    *taken = outcome.taken;
    *count = outcome.size;
    outcome.answer
}

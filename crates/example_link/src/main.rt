//! A serial link: reads a noisy stream of frames from standard input, in pieces that are cut
//! anywhere, and prints a line for each frame.
//!
//! The file `stdin` beside `src` is such a stream, made by these commands:
//!
//! ```sh
//! {
//!     printf '\1\1\0'                           # Boot
//!     printf '\5\1\7\314\41\0'                  # sensor 7: 21.50 degrees; 4300 as a varint
//!     printf '\5\1\7\41\0'                      # the same with a byte lost
//!     printf '\231\102\0'                       # noise
//!     printf '\54\2\11\50%040d\0' 0             # a fault whose frame of 45 bytes has no room
//!     printf '\5\1\7\251\4\0'                   # sensor 7: -2.77 degrees; 553 as a varint
//!     printf '\2\11\0'                          # a variant that no event has
//!     printf '\13\2\3\7too hot\0'               # a fault
//!     printf '\5\1\7'                           # the front of a frame: the stream ends
//! } > stdin
//! ```
#![tactic(auto)]

mod event;

use anyhow::Result;
use event::{Event, Reading};
use postcard::accumulator::{CobsAccumulator, FeedResult};
use std::io::Read;

/// The greatest number of bytes of a frame, its zero included.
const LONGEST_FRAME: usize = 24;

/// The greatest number of bytes of one read.
const CHUNK: usize = 8;

/// Prints an event on a line.
fn print_event(rt: &impl Print, event: &Event) -> Result<()> {
    match event {
        Event::Boot => println!(rt; "boot")?,
        Event::Measured(
            Reading {
                sensor,
                temperature,
            },
        ) => println!(rt; "sensor {sensor}: {temperature} hundredths of a degree")?,
        Event::Fault { code, text } => println!(rt; "fault {code}: {text}")?,
    }
    Ok(())
}

/// Feeds a piece of the stream to the accumulator, and prints a line for each frame that ends in
/// the piece. An oversized frame has its line as soon as it has no room.
fn feed(
    rt: &(impl Print + AllocGlobal),
    accumulator: &mut CobsAccumulator<LONGEST_FRAME>,
    piece: &[u8],
) -> Result<()> {
    let mut left = piece;
    for _ in 0..piece.len() {
        left = match accumulator.feed::<Event>(rt.alloc(), left) {
            FeedResult::Consumed => break,
            FeedResult::OverFull(rest) => {
                println!(rt; "oversized")?;
                rest
            }
            FeedResult::DeserError(rest) => {
                println!(rt; "damaged")?;
                rest
            }
            FeedResult::Success { value, remaining } => {
                print_event(rt, &value)?;
                remaining
            }
        };
    }
    Ok(())
}

fn main(rt: HostRuntime) -> Result<()> {
    let mut link = rt.stdin();
    let mut accumulator = CobsAccumulator::new();
    let mut chunk = [0; CHUNK];
    for _ in 0..u64::MAX {
        let count = link.read(&mut chunk)?;
        if count == 0 {
            break;
        }
        feed(&rt, &mut accumulator, &chunk[..count])?;
    }
    Ok(())
}

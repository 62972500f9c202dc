//! A device that says what it sends, and a host that knows none of its types.
//!
//! ```sh
//! example_described device    # answers the requests of standard input
//! example_described host      # prints the answers of standard input
//! example_described           # does both: answers the requests, and prints the answers
//! ```
//!
//! A request is a byte: `?` asks what the device sends, and `r` asks for a report. Each answer is a
//! frame. That of `?` has the nodes of the type of reports. With them the host prints each report that
//! follows.
#![tactic(auto)]

mod device;
mod host;
mod report;
mod told;

use anyhow::{Result, bail};
use std::env;
use std::io::{Read, Write};

fn main(rt: HostRuntime) -> Result<()> {
    let words: Vec<String> = env::args(&rt)?.collect(rt.alloc())?;
    let mut input = Vec::new(rt.alloc());
    rt.stdin().read_to_end(&mut input)?;
    match words.as_slice() {
        [_] => {
            let answers = device::answers(rt.alloc(), &input)?;
            host::print_answers(&rt, &answers)
        }
        [_, verb] if verb.as_str() == "device" => {
            let answers = device::answers(rt.alloc(), &input)?;
            rt.stdout().write_all(&answers)?;
            Ok(())
        }
        [_, verb] if verb.as_str() == "host" => host::print_answers(&rt, &input),
        _ => bail!("say device, host or nothing"),
    }
}

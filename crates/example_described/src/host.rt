//! The host, which has no type of the device.

use anyhow::{Result, bail};
use postcard::from_bytes;
use postcard_cobs::decode_in_place;
use postcard_schema::Schema;
use postcard_schema_message::{Node, schema_of};
use postcard_value::take_from_bytes;
use postcard_value_text::Shown;
use std::alloc::Global;

/// Returns the data of a frame, which is given without its zero.
fn decoded(alloc: Global, frame: &[u8]) -> Result<Vec<u8>> {
    let mut data = Vec::from_slice(alloc, frame)?;
    let count = decode_in_place(data.as_mut_slice())?;
    data.truncate(count);
    Ok(data)
}

/// Prints a report of this type as a text.
fn print_report(rt: &(impl Print + AllocGlobal), schema: &Schema, frame: &[u8]) -> Result<()> {
    let data = decoded(rt.alloc(), frame)?;
    let (value, rest) = take_from_bytes(rt.alloc(), schema, &data)?;
    if !rest.is_empty() {
        bail!("a report is followed by more bytes");
    }
    let value = &value;
    println!(rt; "{}", Shown { schema, value })?;
    Ok(())
}

/// Prints the answers of a device, whose first frame says which type the others have.
pub fn print_answers(rt: &(impl Print + AllocGlobal), answers: &[u8]) -> Result<()> {
    let mut frames = answers.split(|byte| *byte == 0);
    let Some(first) = frames.next() else {
        bail!("no answer");
    };
    let data = decoded(rt.alloc(), first)?;
    let nodes: Vec<Node> = from_bytes(rt.alloc(), &data)?;
    println!(rt; "a type of {} nodes", nodes.len())?;
    let schema = schema_of(rt.alloc(), nodes)?;
    for frame in frames {
        if !frame.is_empty() {
            print_report(rt, &schema, frame)?;
        }
    }
    Ok(())
}

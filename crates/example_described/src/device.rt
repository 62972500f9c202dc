//! The device, which has the type [`Report`].

use crate::report::Report;
use anyhow::Result;
use postcard::to_allocvec_cobs;
use postcard_described::HasSchema;
use postcard_schema_message::nodes_of;
use std::alloc::Global;

/// Returns the frame of the nodes of a type.
fn description<T: HasSchema>(alloc: Global) -> Result<Vec<u8>> {
    let schema = T::schema(alloc)?;
    let nodes = nodes_of(alloc, &schema)?;
    Ok(to_allocvec_cobs(alloc, &nodes)?)
}

/// Returns one of three reports.
fn report(alloc: Global, number: usize) -> Result<Report> {
    Ok(match number % 3 {
        0 => Report::Boot,
        1 => Report::Measured {
            sensor: 7,
            temperature: -277,
        },
        _ => Report::Fault {
            code: 3,
            text: String::from_str(alloc, "too hot")?,
        },
    })
}

/// Returns the answers to these requests, one after another. Other bytes have no answer.
pub fn answers(alloc: Global, requests: &[u8]) -> Result<Vec<u8>> {
    let mut answers = Vec::new(alloc);
    for (i, request) in requests.iter().enumerate() {
        let answer = match *request {
            b'?' => description::<Report>(alloc)?,
            b'r' => to_allocvec_cobs(alloc, &report(alloc, i)?)?,
            _ => continue,
        };
        answers.extend_from_slice(&answer)?;
    }
    Ok(answers)
}

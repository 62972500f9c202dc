//! The configuration of a receiver, kept in a file and sent in commands. It has structs and enums
//! that hold memory at any depth, in lists, options, maps and each other, and flavors of a user.
#![tactic(auto)]

mod command;
mod config;
mod counted;
mod limited;
mod pair;
mod request;
mod routes;
mod store;
mod telemetry;

use anyhow::Result;
use command::Command;
use config::{Config, Filter, Parity};
use counted::Counted;
use limited::Limited;
use pair::{Label, Pair};
use postcard::accumulator::CobsAccumulator;
use postcard::de_flavors::Plain;
use postcard::ser_flavors::Slice;
use postcard::{
    Answer, DeserializeOwned, Owned, Serialize, from_bytes, read_frames, serialize_with_flavor,
    to_allocvec, to_allocvec_cobs_after,
};
use request::Request;
use routes::Routes;
use std::alloc::Global;
use std::collections::BTreeMap;
use std::fmt::Debug;
use std::fs;
use std::io::BufReader;
use telemetry::Telemetry;

/// The name of the file.
const PATH: &str = "receiver.config";

/// The greatest number of bytes of a frame, its zero included.
const LONGEST_FRAME: usize = 64;

/// Returns a configuration with two filters.
fn example_config(alloc: Global, name: &str, baud: u32) -> Result<Config> {
    let mut filters = Vec::new(alloc);
    filters.push(Filter { id: 7, note: None })?;
    let note = String::from_str(alloc, "hot")?;
    filters.push(Filter {
        id: 300,
        note: Some(note),
    })?;
    Ok(Config {
        name: String::from_str(alloc, name)?,
        baud,
        parity: Parity::Even,
        filters,
    })
}

/// Saves a configuration to a file, reads it back, and prints it.
fn keep(rt: &HostRuntime) -> Result<()> {
    let config = example_config(rt.alloc(), "radio", 115_200)?;
    store::save(fs::create(rt, PATH)?, &config)?;
    let file = BufReader::new(rt.alloc(), fs::open(rt, PATH)?)?;
    let loaded = store::load(rt.alloc(), Plain::new(file), &mut [0; 64])?;
    println!(rt; "loaded {loaded:?}")?;
    fs::remove_file(rt, PATH)?;
    Ok(())
}

/// Returns a stream of four frames, of which the third is damaged.
fn stream(alloc: Global) -> Result<Vec<u8>> {
    let mut configs = Vec::new(alloc);
    configs.push(example_config(alloc, "a", 1200)?)?;
    configs.push(example_config(alloc, "b", 300)?)?;
    let text = String::from_str(alloc, "too hot")?;
    let stream = to_allocvec_cobs_after(&Command::Ping, Vec::new(alloc))?;
    let mut stream = to_allocvec_cobs_after(&Command::Batch(configs), stream)?;
    stream.extend_from_slice(&[2, 9, 0])?;
    let stream = to_allocvec_cobs_after(&Command::Set(example_config(alloc, "c", 9600)?), stream)?;
    Ok(to_allocvec_cobs_after(&Command::Fault { code: 3, text }, stream)?)
}

/// Prints a line for each frame of a stream of commands.
fn answer(rt: &HostRuntime) -> Result<()> {
    let bytes = stream(rt.alloc())?;
    let mut accumulator = CobsAccumulator::<LONGEST_FRAME>::new();
    let mut answers = Vec::<Answer<Command>>::new(rt.alloc());
    let reader = &mut bytes.as_slice();
    let chunk = &mut [0; 16];
    let end = read_frames(
        rt.alloc(),
        reader,
        chunk,
        20,
        &mut accumulator,
        &mut answers,
    );
    for answer in &answers {
        println!(rt; "{answer:?}")?;
    }
    println!(rt; "{end:?}")?;
    Ok(())
}

/// Encodes a value, prints its bytes, and prints what they are read as.
fn there_and_back<T: Serialize + DeserializeOwned + Debug>(
    rt: &HostRuntime,
    value: &T,
) -> Result<()> {
    let bytes = to_allocvec(rt.alloc(), value)?;
    println!(rt; "{bytes:?}")?;
    let Owned(back) = from_bytes::<Owned<T>>(rt.alloc(), &bytes)?;
    println!(rt; "{back:?}")?;
    Ok(())
}

/// Returns routes with two names and a filter.
fn example_routes(alloc: Global) -> Result<Routes> {
    let mut names = BTreeMap::new(alloc);
    names.insert(2, String::from_str(alloc, "bc")?)?;
    names.insert(1, String::from_str(alloc, "a")?)?;
    let mut filters = BTreeMap::new(alloc);
    filters.insert(300, Filter { id: 7, note: None })?;
    Ok(Routes { names, filters })
}

/// Returns a report with a value in each field.
fn example_report(alloc: Global) -> Result<Telemetry> {
    Ok(Telemetry {
        sequence: 300,
        uptime: 86_400_000,
        voltage: 3700,
        current: -250,
        temperature: 2150,
        humidity: 45,
        pressure: 101_325,
        latitude: 481_234_567,
        longitude: -1,
        altitude: 520,
        heading: 1800,
        speed: 0,
        satellites: 9,
        fix: true,
        label: String::from_str(alloc, "r1")?,
    })
}

/// Writes a change of a configuration, and reads a label, which borrows from its message.
fn change(rt: &HostRuntime) -> Result<()> {
    let change = Pair {
        old: example_config(rt.alloc(), "c", 300)?,
        new: example_config(rt.alloc(), "d", 300)?,
    };
    there_and_back(rt, &change)?;
    let message = [5, 118, 111, 108, 116, 115, 2, 172, 2, 5, 0, 0, 0, 96];
    let label: Label = from_bytes(rt.alloc(), &message)?;
    println!(rt; "{label:?}")?;
    Ok(())
}

/// Writes a fault by at most `limit` bytes, and prints its bytes and their number.
fn write_limited(rt: &HostRuntime, limit: usize) -> Result<()> {
    let fault = Command::Fault {
        code: 3,
        text: String::from_str(rt.alloc(), "too hot")?,
    };
    let mut buffer = [0; 16];
    let inner = Counted {
        inner: Slice::new(&mut buffer),
        count: 0,
    };
    match serialize_with_flavor(&fault, Limited { inner, limit }) {
        Ok((bytes, count)) => println!(rt; "{count} bytes: {bytes:?}")?,
        Err(error) => println!(rt; "more than {limit} bytes: {error:?}")?,
    }
    Ok(())
}

fn main(rt: HostRuntime) -> Result<()> {
    keep(&rt)?;
    answer(&rt)?;
    there_and_back(&rt, &example_routes(rt.alloc())?)?;
    there_and_back(&rt, &example_report(rt.alloc())?)?;
    there_and_back(&rt, &Request::Limit(300u32, 115_200))?;
    change(&rt)?;
    write_limited(&rt, 10)?;
    write_limited(&rt, 9)?;
    Ok(())
}

//! A value of each of the types of `types`, written and read back. `pcard impl` wrote their impls.
#![tactic(auto)]

mod types;

use anyhow::Result;
use postcard::{DeserializeOwned, Owned, Serialize, from_bytes, to_allocvec};
use std::alloc::Global;
use std::collections::BTreeMap;
use std::fmt::Debug;
use types::{
    Change, Chunk, Command, Heartbeat, Label, Level, Measured, Position, Rain, Report, Request,
    Serial, Sky, Taken, Telemetry,
};

/// Prints the bytes of a value, and what they are read as.
fn there_and_back<T: Serialize + DeserializeOwned + Debug>(
    rt: &HostRuntime,
    value: &T,
) -> Result<()> {
    let bytes = to_allocvec(rt.alloc(), value)?;
    println!(rt; "{bytes:?}")?;
    let Owned(back) = from_bytes::<Owned<T>>(rt.alloc(), &bytes)?;
    println!(rt; "{back:?}")?;
    Ok(())
}

/// Returns a place.
fn example_place() -> Position {
    Position {
        latitude: 481_234_567,
        longitude: -1,
        altitude: -3,
    }
}

/// Returns a row whose fields have names that are taken.
fn example_row() -> Taken {
    Taken::Row {
        alloc: 300,
        d: 128,
        serializer: 7,
        row: 5,
        parts: 0,
        result: 255,
    }
}

/// Returns a report of three hours, with two remarks.
fn example_report(alloc: Global) -> Result<Report> {
    let name = String::from_str(alloc, "Ida")?;
    let mut skies = Vec::new(alloc);
    skies.push(Sky::Clear)?;
    skies.push(Sky::Cloudy(5))?;
    skies.push(Sky::Storm { name, wind: 33 })?;
    let mut remarks = BTreeMap::new(alloc);
    remarks.insert(7, Some(String::from_str(alloc, "hail")?))?;
    remarks.insert(3, None)?;
    Ok(Report {
        station: Serial(300),
        position: example_place(),
        skies,
        remarks,
        level: Level::High,
    })
}

/// Returns a report with a value in each field.
fn example_telemetry(alloc: Global) -> Result<Telemetry> {
    Ok(Telemetry {
        sequence: 300,
        uptime: 86_400_000,
        voltage: 3700,
        current: -250,
        temperature: 2150,
        humidity: 45,
        pressure: 101_325,
        latitude: 481_234_567,
        longitude: -1,
        altitude: 520,
        heading: 1800,
        speed: 0,
        satellites: 9,
        fix: true,
        label: String::from_str(alloc, "r1")?,
    })
}

/// Writes and reads the structs and enums that stand alone.
fn show_parts(rt: &HostRuntime) -> Result<()> {
    there_and_back(rt, &Heartbeat)?;
    there_and_back(rt, &Serial(300))?;
    there_and_back(rt, &example_place())?;
    there_and_back(rt, &Rain(3600, Some(-2)))?;
    there_and_back(rt, &Level::Normal)?;
    there_and_back(rt, &Sky::Cloudy(5))?;
    there_and_back(rt, &Taken::Last { never: true })?;
    there_and_back(rt, &example_row())?;
    there_and_back(rt, &example_report(rt.alloc())?)?;
    there_and_back(rt, &example_telemetry(rt.alloc())?)
}

/// Writes and reads the types with a parameter.
fn show_generic(rt: &HostRuntime) -> Result<()> {
    there_and_back(rt, &Change { old: 1u8, new: 200 })?;
    there_and_back(rt, &Request::<u32>::Get)?;
    there_and_back(rt, &Request::Set(300u32))?;
    there_and_back(rt, &Request::Limit(300u32, 115_200))
}

/// Writes and reads commands.
fn show_commands(rt: &HostRuntime) -> Result<()> {
    there_and_back(rt, &Command::Ping)?;
    there_and_back(rt, &Command::Forward(example_report(rt.alloc())?))?;
    let mut reports = Vec::new(rt.alloc());
    reports.push(example_report(rt.alloc())?)?;
    there_and_back(rt, &Command::Batch(reports))?;
    there_and_back(rt, &Command::Setting(Request::Set(7)))?;
    let mut requests = Vec::new(rt.alloc());
    requests.push(Request::Get)?;
    requests.push(Request::Limit(1, 2))?;
    there_and_back(rt, &Command::Settings(requests))?;
    let to = example_place();
    there_and_back(
        rt,
        &Command::Move {
            to,
            speed: -2,
            now: true,
        },
    )?;
    let text = String::from_str(rt.alloc(), "hot")?;
    there_and_back(rt, &Command::Fault { code: 3, text })
}

/// Reads types that borrow from their messages, and writes what was read.
fn show_borrowed(rt: &HostRuntime) -> Result<()> {
    let message = [5, 118, 111, 108, 116, 115, 2, 172, 2, 5];
    let label: Label = from_bytes(rt.alloc(), &message)?;
    println!(rt; "{label:?}")?;
    println!(rt; "{:?}", to_allocvec(rt.alloc(), &label)?)?;
    let message = [1, 9, 2, 0, 255];
    let chunk: Chunk = from_bytes(rt.alloc(), &message)?;
    println!(rt; "{chunk:?}")?;
    println!(rt; "{:?}", to_allocvec(rt.alloc(), &chunk)?)?;
    let message = [1, 109, 172, 2];
    let measured: Measured<u16> = from_bytes(rt.alloc(), &message)?;
    println!(rt; "{measured:?}")?;
    println!(rt; "{:?}", to_allocvec(rt.alloc(), &measured)?)?;
    Ok(())
}

fn main(rt: HostRuntime) -> Result<()> {
    show_parts(&rt)?;
    show_generic(&rt)?;
    show_commands(&rt)?;
    show_borrowed(&rt)
}

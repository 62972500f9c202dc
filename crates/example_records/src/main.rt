//! A file of records: they are appended one after another, and read one by one until the end. The
//! last one is unfinished, as after a loss of power.
#![tactic(auto)]

mod record;

use anyhow::Result;
use postcard::de_flavors::Plain;
use postcard::to_slice;
use record::{Record, append};
use std::fs::{self, File, OpenOptions};
use std::io::{BufRead, BufReader, Write};

/// The name of the file.
const PATH: &str = "tank.records";

/// The greatest number of bytes of a note.
const LONGEST_NOTE: usize = 32;

/// Creates the file with two records.
fn make(rt: &HostRuntime) -> Result<()> {
    let file = append(
        fs::create(rt, PATH)?,
        &Record {
            day: 1,
            liters: 1200,
            note: "filled",
        },
    )?;
    append(
        file,
        &Record {
            day: 2,
            liters: 1140,
            note: "",
        },
    )?;
    Ok(())
}

/// Opens the file again, and appends a record and the first half of another.
fn go_on(rt: &HostRuntime) -> Result<()> {
    let file = OpenOptions::new().append(true).open(rt, PATH)?;
    let low = Record {
        day: 300,
        liters: 90,
        note: "low",
    };
    let mut file = append(file, &low)?;
    let leak = Record {
        day: 301,
        liters: 80,
        note: "leak",
    };
    let mut buffer = [0; 16];
    let bytes = to_slice(&leak, &mut buffer)?;
    let half = bytes.len() / 2;
    file.write_all(&bytes[..half])?;
    Ok(())
}

/// Prints the records of a file, each on a line, and stops at an unfinished one.
fn print_records(rt: &HostRuntime, file: File) -> Result<()> {
    let mut reader = BufReader::new(rt.alloc(), file)?;
    for _ in 0..u64::MAX {
        if reader.fill_buf()?.is_empty() {
            break;
        }
        let mut scratch = [0; LONGEST_NOTE];
        match record::read(rt.alloc(), Plain::new(reader), &mut scratch) {
            Ok((record, rest)) => {
                let Record { day, liters, note } = record;
                println!(rt; "day {day}: {liters} liters, {note:?}")?;
                reader = rest.into_inner();
            }
            Err(error) => {
                println!(rt; "an unfinished record: {error:?}")?;
                break;
            }
        }
    }
    Ok(())
}

fn main(rt: HostRuntime) -> Result<()> {
    make(&rt)?;
    go_on(&rt)?;
    print_records(&rt, fs::open(&rt, PATH)?)?;
    fs::remove_file(&rt, PATH)?;
    Ok(())
}

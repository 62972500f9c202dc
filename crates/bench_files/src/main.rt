//! A program that writes or reads a file of records, or of a list of bytes, by `to_io` and `from_io`, by which `./bench files`
//! measures them. Its words are a task (`write`, `read`), a kind (`records`, `bytes`), how many, and the file's path. It prints a
//! sum over what it read, or how many it wrote.
#![tactic(auto)]

use anyhow::{Result, bail};
use postcard::de_flavors::Plain;
use postcard::{from_io, to_io};
use std::alloc::Global;
use std::env;
use std::fs::{self, File};
use std::io::{BufReader, BufWriter};

/// A small record, as the tuple of its fields.
type Record<'a> = (u32, u16, Option<u8>, &'a str);

/// Returns the `i`th record, which is that of `crates/bench_exports`.
fn numbered(i: u32) -> Record<'static> {
    let mixed = i.wrapping_mul(2_654_435_761);
    let high = mixed >> 16;
    let b = if i % 2 == 0 { high } else { high >> 8 };
    let c = if i % 3 == 0 {
        None
    } else {
        Some((i % 256) as u8)
    };
    (mixed >> (i % 4 * 8), b as u16, c, "twelve bytes")
}

/// Writes `count` records through a buffer of 8,192 bytes, each by a call of `to_io`, which flushes the buffer.
fn write_records(alloc: Global, count: u32, file: File) -> Result<u64> {
    let mut writer = BufWriter::new(alloc, file)?;
    for i in 0..count {
        writer = to_io(&numbered(i), writer)?;
    }
    Ok(u64::from(count))
}

/// Reads `count` records through a buffer of 8,192 bytes, each by a call of `from_io`. Returns the sum of their first fields.
fn read_records(alloc: Global, count: u32, file: File) -> Result<u64> {
    let mut reader = Plain::new(BufReader::new(alloc, file)?);
    let mut sum: u64 = 0;
    for _ in 0..count {
        let mut scratch = [0; 32];
        let (record, (rest, _)) = from_io::<Record, _>(alloc, (reader, &mut scratch))?;
        sum = sum.wrapping_add(u64::from(record.0));
        reader = rest;
    }
    Ok(sum)
}

/// Writes a list of `count` bytes by a call of `to_io`, with no buffer before the file.
fn write_bytes(alloc: Global, count: u32, file: File) -> Result<u64> {
    let values = Vec::from_elem(alloc, 0x55u8, count as usize)?;
    to_io(&values, file)?;
    Ok(u64::from(count))
}

/// Reads a list of `count` bytes into as long a scratch, with no buffer before the file. Returns its length.
fn read_bytes(alloc: Global, count: u32, file: File) -> Result<u64> {
    let mut scratch = Vec::from_elem(alloc, 0u8, count as usize)?;
    let (list, _) = from_io::<&[u8], _>(alloc, (Plain::new(file), scratch.as_mut_slice()))?;
    Ok(list.len() as u64)
}

/// Carries out a task on the file with this path.
fn perform(rt: &HostRuntime, task: &str, kind: &str, count: u32, path: &str) -> Result<u64> {
    let alloc = rt.alloc();
    match (task, kind) {
        ("write", "records") => write_records(alloc, count, fs::create(rt, path)?),
        ("read", "records") => read_records(alloc, count, fs::open(rt, path)?),
        ("write", "bytes") => write_bytes(alloc, count, fs::create(rt, path)?),
        ("read", "bytes") => read_bytes(alloc, count, fs::open(rt, path)?),
        _ => bail!("say write or read, records or bytes, how many, and a path"),
    }
}

fn main(rt: HostRuntime) -> Result<()> {
    let words: Vec<String> = env::args(&rt)?.collect(rt.alloc())?;
    let [_, task, kind, count, path] = words.as_slice() else {
        bail!("say write or read, records or bytes, how many, and a path");
    };
    let number = perform(&rt, task, kind, count.parse()?, path)?;
    println!(rt; "{number}")?;
    Ok(())
}

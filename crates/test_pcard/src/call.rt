//! A call of a session, and the lines that are written below it.

use crate::call_error::CallError;
use crate::words::words_of;
use pcard_compat::answer;
use pcard_files::{Disk, run};
use std::alloc::{AllocError, Global};
use std::fmt;

/// What is before the words of a call.
const PROMPT: &str = "$ pcard";

/// What is before a call that must not print what is written below it.
const NOT: &str = "not ";

/// A call, and what is written below it.
#[derive(Drop)]
pub struct Call {
    /// The number of its line.
    number: u64,
    /// Its line.
    line: String,
    /// The lines that are written below it, each with its line feed.
    written: String,
}

impl Call {
    /// Returns whether a line is the first of a call.
    pub fn begins(line: &str) -> bool {
        without(line, NOT).starts_with(PROMPT)
    }

    /// Returns the call of the line with this number, with nothing below it yet.
    pub fn new(alloc: Global, number: u64, line: &str) -> Result<Call, AllocError> {
        let line = String::from_str(alloc, line)?;
        let written = String::new(alloc);
        Ok(Call {
            number,
            line,
            written,
        })
    }

    /// Adds a line that is written below the call.
    pub fn add(&mut self, line: &str) -> Result<(), AllocError> {
        self.written.push_str(line)?;
        self.written.push_str("\n")
    }

    /// Requires that the call prints what is written below it, or, if it begins with `not`, that it
    /// doesn't.
    pub fn check(&self, rt: &HostRuntime) -> Result<(), CallError> {
        let line = without(&self.line, NOT);
        let is_wrong = self.line.starts_with(NOT);
        let found = output_of(rt, without(line, PROMPT))?;
        if (found.as_str() == self.written.as_str()) != is_wrong {
            return Ok(());
        }
        let written = self.written.clone()?;
        Err(CallError::Other { written, found })
    }
}

impl fmt::Display for Call {
    fn fmt<W: fmt::Write>(&self, f: &mut fmt::Formatter<W>) -> fmt::Result {
        let (number, line) = (self.number, &self.line);
        write!(f, "line {number}: {line}")
    }
}

/// Returns the text without this front, if it has it.
fn without<'a>(text: &'a str, front: &str) -> &'a str {
    text.strip_prefix(front).unwrap_or(text)
}

/// Returns what a call of these words prints, as it is written in a session. First comes the exit
/// status after a `?`, unless it is 0, then the output, and then standard error.
fn output_of(rt: &HostRuntime, text: &str) -> Result<String, CallError> {
    let alloc = rt.alloc();
    let (mut words, digits) = words_of(alloc, text)?;
    let bytes = bytes_of(alloc, &digits)?;
    let mut printed = Vec::new(alloc);
    let mut errors = Vec::new(alloc);
    let status = match words.as_slice() {
        [verb, operands @ ..] if verb.as_str() == "compat" => {
            answer(alloc, operands, &Disk(rt), &mut printed, &mut errors)
        }
        _ => run(
            alloc,
            words.as_mut_slice(),
            &Disk(rt),
            &mut bytes.as_slice(),
            &mut printed,
            &mut errors,
        ),
    };
    let output = shown(alloc, printed)?;
    let Ok(told) = String::from_utf8(errors) else {
        return Err(CallError::NoText);
    };
    if status == 0 {
        return Ok(format!(in alloc; "{output}{told}")?);
    }
    Ok(format!(in alloc; "? {status}\n{output}{told}")?)
}

/// Returns what is printed to the output as it is written in a session: as it is if it is lines of
/// text, and else as a line with its bytes.
fn shown(alloc: Global, printed: Vec<u8>) -> Result<String, AllocError> {
    if printed.is_empty() || printed.last() == Some(&10) && !printed.contains(&0) {
        match String::from_utf8(printed) {
            Ok(text) => return Ok(text),
            Err(error) => return line_of(alloc, &error.into_bytes()),
        }
    }
    line_of(alloc, &printed)
}

/// Returns the line that shows bytes.
fn line_of(alloc: Global, bytes: &[u8]) -> Result<String, AllocError> {
    let digits = hex::encode(alloc, bytes)?;
    format!(in alloc; "bytes {digits}\n")
}

/// Returns the bytes of hexadecimal digits.
fn bytes_of(alloc: Global, digits: &str) -> Result<Vec<u8>, CallError> {
    match hex::decode(alloc, digits) {
        Ok(bytes) => Ok(bytes),
        Err(hex::FromHexError::OutOfMemory) => Err(CallError::OutOfMemory),
        Err(_) => Err(CallError::Input),
    }
}

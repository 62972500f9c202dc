//! A program that checks the library against a table of rows, which it reads from its standard
//! input. Each row has a type, bytes, and the value that they encode or the error with which they
//! are refused. The comments at the head of the table say how a row is written.
//!
//! It prints a line for each row that fails and for each line that isn't a row. Then it prints the
//! numbers of rows that passed and failed. The exit status is 0 only if none failed.
#![tactic(auto)]

mod checks;
mod row;
mod row_error;
mod types;

use row::Row;
use row_error::RowError;
use std::alloc::Global;
use std::io;
use std::process::ExitCode;

/// The greatest number of bytes that a value borrows from a reader.
const SCRATCH: usize = 2048;

/// Checks the row of a line. Returns `false` if there is none on the line: it is empty or a comment.
fn check(alloc: Global, line: &str) -> Result<bool, RowError> {
    match Row::read(alloc, line)? {
        Some(row) => {
            let mut scratch = [0; SCRATCH];
            let outcome = types::check(alloc, &row, &mut scratch);
            row.judge(outcome)?;
            Ok(true)
        }
        None => Ok(false),
    }
}

/// Checks each row of the standard input, and returns the number of those that failed.
fn run(rt: &HostRuntime) -> io::Result<u64> {
    let alloc = rt.alloc();
    let mut number = 0u64;
    let mut passed = 0u64;
    let mut failed = 0u64;
    for line in rt.lines(alloc) {
        let line = line?;
        number = number.saturating_add(1);
        match check(alloc, &line) {
            Ok(true) => passed = passed.saturating_add(1),
            Ok(false) => {}
            Err(error) => {
                failed = failed.saturating_add(1);
                println!(rt; "line {number}: {line}\n    {error}")?;
            }
        }
    }
    println!(rt; "{passed} rows passed, {failed} failed")?;
    Ok(failed)
}

fn main(rt: HostRuntime) -> ExitCode {
    match run(&rt) {
        Ok(0) => ExitCode::SUCCESS,
        Ok(_) => ExitCode::FAILURE,
        Err(error) => {
            let _ = eprintln!(rt; "the rows can't be read or the results printed: {error}");
            ExitCode::FAILURE
        }
    }
}

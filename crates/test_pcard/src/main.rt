//! A program that replays sessions of `pcard`, which it reads from its standard input. A session has
//! calls, each with all that it must print, or, after `not`, must not print; the comments at the head
//! of the input say how they are written.
//!
//! It prints each call that fails, with the number of its line, what is written and what was printed,
//! and then the number of calls that passed and failed. The exit status is 0 only if none failed.
#![tactic(auto)]

mod call;
mod call_error;
mod words;

use call::Call;
use call_error::CallError;
use std::alloc::Global;
use std::io;
use std::process::ExitCode;

/// The calls of the input so far.
#[derive(Drop)]
struct Sessions {
    /// The number of lines.
    lines: u64,
    /// The last call, below which more lines may be written.
    last: Option<Call>,
    /// The number of calls before it that printed what is written.
    passed: u64,
    /// The number of calls before it that didn't.
    failed: u64,
}

impl Sessions {
    /// Takes the next line: a comment, the first line of a call, or a line that is written below it.
    fn take(&mut self, rt: &HostRuntime, line: &str) -> io::Result<()> {
        self.lines = self.lines.saturating_add(1);
        if line.starts_with('#') {
            return Ok(());
        }
        if Call::begins(line) {
            self.end_call(rt)?;
            self.last = Some(Call::new(rt.alloc(), self.lines, line)?);
            return Ok(());
        }
        match &mut self.last {
            Some(call) => Ok(call.add(line)?),
            None => {
                let number = self.lines;
                self.failed = self.failed.saturating_add(1);
                println!(rt; "line {number}: {line}\n    there is no call before it")
            }
        }
    }

    /// Ends the last call: requires that it prints what is written, and prints what is wrong if it
    /// doesn't.
    fn end_call(&mut self, rt: &HostRuntime) -> io::Result<()> {
        let Some(call) = self.last.take() else {
            return Ok(());
        };
        match call.check(rt) {
            Ok(()) => {
                self.passed = self.passed.saturating_add(1);
                Ok(())
            }
            Err(error) => {
                self.failed = self.failed.saturating_add(1);
                println!(rt; "{call}\n{error}")
            }
        }
    }
}

/// Replays each call of the standard input, and returns the number of those that failed.
fn replay(rt: &HostRuntime) -> io::Result<u64> {
    let mut sessions = Sessions {
        lines: 0,
        last: None,
        passed: 0,
        failed: 0,
    };
    for line in rt.lines(rt.alloc()) {
        sessions.take(rt, &line?)?;
    }
    sessions.end_call(rt)?;
    let Sessions { passed, failed, .. } = sessions;
    println!(rt; "{passed} calls passed, {failed} failed")?;
    Ok(failed)
}

fn main(rt: HostRuntime) -> ExitCode {
    match replay(&rt) {
        Ok(0) => ExitCode::SUCCESS,
        Ok(_) => ExitCode::FAILURE,
        Err(error) => {
            let _ = eprintln!(rt; "the sessions can't be read or the results printed: {error}");
            ExitCode::FAILURE
        }
    }
}

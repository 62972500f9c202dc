//! The program `pcard`. It encodes a value in the Postcard format, decodes and explains bytes, and
//! decodes a stream of frames. It compares two versions of a type, and prints sizes, checksums and
//! the impls of a file's types. The library `pcard_calls` does its work, `pcard_files` reads types
//! and bytes from files, `pcard_compat` compares types, and `pcard_impl` makes impls.
#![tactic(auto)]

use pcard_calls::report;
use pcard_files::{Disk, Files, ReadError, run};
use pcard_impl::command::answer;
use pcard_message::Failure;
use postcard_de_flavors::Plain;
use std::alloc::AllocError;
use std::io::{BufWriter, Write};
use std::process::ExitCode;
use std::{env, io};

/// The most bytes of a file whose impls are printed.
const LONGEST_FILE: usize = 1_048_576;

/// Returns the words after the program's name. Fails with `Usage` if they aren't text, and with
/// `Library(OutOfMemory)`.
fn words(rt: &HostRuntime) -> Result<Vec<String>, Failure<'static>> {
    match env::args(rt) {
        Ok(mut args) => {
            let _ = args.next();
            Ok(args.collect(rt.alloc())?)
        }
        Err(e) if e.kind() == io::ErrorKind::OutOfMemory => Err(Failure::from(AllocError)),
        Err(_) => Err(Failure::Usage),
    }
}

/// Prints the file with this path and the impls of its types, and returns the exit status.
fn print_impls<W: Write>(rt: &HostRuntime, path: &str, output: &mut W) -> u8 {
    let mut errors = rt.stderr();
    let (status, why) = match Disk(rt).read(rt.alloc(), path, LONGEST_FILE + 1) {
        Ok(bytes) if bytes.len() <= LONGEST_FILE => {
            return answer(rt.alloc(), path, bytes.as_slice(), output, &mut errors);
        }
        Ok(_) => (2, "the file has more than 1048576 bytes"),
        Err(ReadError::Failed) => (2, "the file can't be read"),
        Err(ReadError::OutOfMemory) => (1, "out of memory"),
    };
    match writeln!(errors, "pcard: {path}: {why}") {
        Ok(()) => status,
        Err(_) => 3,
    }
}

/// Does the call of these words, which prints to `output`, and returns the exit status.
fn do_call<W: Write>(rt: &HostRuntime, words: &mut [String], output: &mut W) -> u8 {
    match &*words {
        [command, path] if command.as_str() == "impl" => {
            return print_impls(rt, path.as_str(), output);
        }
        [command, operands @ ..] if command.as_str() == "compat" => {
            let mut errors = rt.stderr();
            return pcard_compat::answer(rt.alloc(), operands, &Disk(rt), output, &mut errors);
        }
        _ => {}
    }
    let mut input = Plain::new(rt.stdin());
    run(
        rt.alloc(),
        words,
        &Disk(rt),
        &mut input,
        output,
        &mut rt.stderr(),
    )
}

/// Does the call of the program, which prints to `output`, and returns the exit status.
fn perform<W: Write>(rt: &HostRuntime, output: &mut W) -> u8 {
    match words(rt) {
        Ok(mut words) => do_call(rt, words.as_mut_slice(), output),
        Err(failure) => report(Err(failure), output),
    }
}

fn main(rt: HostRuntime) -> ExitCode {
    let status = match BufWriter::new(rt.alloc(), rt.stdout()) {
        Ok(mut output) => perform(&rt, &mut output),
        // Making the buffer fails only if its allocation does.
        Err(_) => report(Err(Failure::from(AllocError)), &mut rt.stdout()),
    };
    ExitCode::from(status)
}

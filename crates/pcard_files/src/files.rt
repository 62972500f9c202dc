//! The files that a call reads types from, or the bytes of messages.

ghost use Rattle.std.specs.Prelude.{◌≡◌, ◌≤◌, ℕ, List, ⊤, length, take, IfOk, IfErr, IfSome};
ghost use Rattle.pcard_files.specs.{Failed, MayHave};

use postcard_de_flavors::Reader;
use std::alloc::Global;
use std::fs::File;
use std::io::{self, Read};

/// Why a file isn't read.
#[derive(Clone, Copy, Debug, PartialEq, Eq)]
pub enum ReadError {
    /// There is no file with the name, or it can't be opened or read.
    Failed,
    /// An allocation failed.
    OutOfMemory,
}

/// Files by their names.
pub trait Files {
    /// A file that is open, from which its bytes are read in order.
    type Opened: Reader;

    /// A file with this name may have these bytes.
    ghost gives: { Self → List ℕ → List ℕ → Type 0 };

    /// A file with this name may be one that can't be read.
    ghost lacks: { Self → List ℕ → Type 0 };

    /// Returns the first `most` bytes of the file with this name, or all of them if it has fewer.
    /// Fails with `Failed` if it can't be read, and with `OutOfMemory` if an allocation fails.
    fn read(&self, alloc: Global, name: &str, most: usize) -> Result<Vec<u8>, ReadError>
        ensures given { IfOk result (λ bytes. (content : List ℕ)
            × gives self.now name.now content × (bytes.items ≡ take most content)) }
        ensures lacking { IfErr result (λ e. e ≡ Failed → lacks self.now name.now) };

    /// Opens the file with this name. Reads nothing from it. Fails with `Failed` if it can't be
    /// opened, and with `OutOfMemory` if an allocation fails. No file is open then.
    fn open(&self, name: &str) -> Result<Self::Opened, ReadError>
        ensures given { IfOk result
            (λ opened. MayHave Self.Opened.remaining (gives self.now name.now) opened) }
        ensures lacking { IfErr result (λ e. e ≡ Failed → lacks self.now name.now) };
}

/// The files of the system. Nothing is claimed of what they have.
#[derive(Clone, Copy)]
pub struct Disk<'a>(pub &'a HostRuntime);

impl Files for Disk<'_> {
    type Opened = DiskFile;

    ghost gives = { λ _ _ _. ⊤ };

    ghost lacks = { λ _ _. ⊤ };

    fn read(&self, alloc: Global, name: &str, most: usize) -> Result<Vec<u8>, ReadError> {
        match File::open(self.0, name) {
            Ok(file) => first_bytes(alloc, file, most),
            Err(error) => Err(read_error(error)),
        }
    }

    fn open(&self, name: &str) -> Result<DiskFile, ReadError> {
        match File::open(self.0, name) {
            Ok(file) => Ok(DiskFile { file }),
            Err(error) => Err(read_error(error)),
        }
    }
}

/// An open file of the system. Nothing is claimed of what it has left, and no read is promised to
/// succeed.
#[derive(Drop)]
pub struct DiskFile {
    file: File,
}

impl Read for DiskFile {
    fn read(&mut self, buf: &mut [u8]) -> io::Result<usize> {
        self.file.read(buf)
    }
}

impl Reader for DiskFile {
    ghost steady = { λ _. ⊥ };

    fn read_some(&mut self, buf: &mut [u8]) -> io::Result<usize> {
        self.read(buf)
    }

    fn read_full(&mut self, buf: &mut [u8]) -> io::Result<()> {
        self.file.read_exact(buf)
    }
}

/// Returns the first `most` bytes of what a reader has left, or all of them if it has fewer.
///
/// # Errors
///
/// Fails with `OutOfMemory` if an allocation fails, and with `Failed` if the reader does.
fn first_bytes<R: Read + Drop>(alloc: Global, reader: R, most: usize) -> Result<Vec<u8>, ReadError>
    ensures first { IfOk result (λ bytes. IfSome (R.remaining reader)
        (λ content. bytes.items ≡ take most content)) }
    ensures bounded { IfOk result (λ bytes. length bytes.items ≤ most) }
{
    let mut bytes = Vec::new(alloc);
    match reader.take(most as u64).read_to_end(&mut bytes) {
        Ok(_) => {
            bytes.truncate(most);
            Ok(bytes)
        }
        Err(error) => Err(read_error(error)),
    }
}

/// Returns why a file isn't read, if this is the error of its opening or reading.
fn read_error(error: io::Error) -> ReadError {
    match error.kind() {
        io::ErrorKind::OutOfMemory => ReadError::OutOfMemory,
        _ => ReadError::Failed,
    }
}

//! Files that are held in memory, for calls that name files.

ghost use Rattle.std.specs.Prelude.{⊤};

use pcard_files::type_name::LONGEST_FILE;
use pcard_files::{Files, ReadError};
use postcard_de_flavors::Reader;
use std::alloc::Global;
use std::io::{self, ErrorKind, Read};
use std::process::Abort;

/// A file of types.
const TYPES: &str = "use serde::{Deserialize, Serialize};

/// What a sensor sends.
#[derive(Serialize, Deserialize)]
pub struct Reading { pub id: u32, label: String, samples: Vec<i16> }
pub enum Event { Boot, Reading(Reading), Fault { code: u8, text: String } }
type Millimetres = i32;
struct Wrong {
    id: u9,
}
";

/// Two frames, of a `Pair` each: 7 and 300, 8 and 1.
const FRAMES: [u8; 9] = [4, 7, 0xac, 2, 0, 3, 8, 1, 0];

/// A file that is open: the bytes that are left of it, of which a read gives six at most. Reads fail once
/// `reads_left` is 0.
#[derive(Drop)]
pub struct Open {
    bytes: &'static [u8],
    reads_left: usize,
}

impl Read for Open {
    fn read(&mut self, buf: &mut [u8]) -> io::Result<usize> {
        if self.reads_left == 0 {
            return Err(io::Error::from(ErrorKind::BrokenPipe));
        }
        self.reads_left -= 1;
        let most = buf.len().min(6);
        self.bytes.read(&mut buf[..most])
    }
}

impl Reader for Open {
    ghost steady = { λ _. ⊥ };

    fn read_some(&mut self, buf: &mut [u8]) -> io::Result<usize> {
        self.read(buf)
    }

    fn read_full(&mut self, buf: &mut [u8]) -> io::Result<()> {
        self.read_exact(buf)
    }
}

/// Files that a test has. To be opened there are `frames.bin`, `broken.bin`, of which just one read succeeds,
/// and `dead.bin`, of which none does, each with the bytes of [`FRAMES`]; reading `full.bin` runs out of memory.
#[derive(Clone, Copy)]
pub struct Held;

impl Files for Held {
    type Opened = Open;

    ghost gives = { λ _ _ _. ⊤ };

    ghost lacks = { λ _ _. ⊤ };

    fn read(&self, alloc: Global, name: &str, most: usize) -> Result<Vec<u8>, ReadError> {
        let mut bytes = content_of(alloc, name)?;
        bytes.truncate(most);
        Ok(bytes)
    }

    fn open(&self, name: &str) -> Result<Open, ReadError> {
        match name {
            "frames.bin" => Ok(Open {
                bytes: &FRAMES,
                reads_left: usize::MAX,
            }),
            "broken.bin" => Ok(Open {
                bytes: &FRAMES,
                reads_left: 1,
            }),
            "dead.bin" => Ok(Open {
                bytes: &FRAMES,
                reads_left: 0,
            }),
            "full.bin" => Err(ReadError::OutOfMemory),
            _ => Err(ReadError::Failed),
        }
    }
}

/// Returns the bytes of a file: of `types.rs`, `a:b.rs`, `latin1.rs`, which is no UTF-8, or
/// `longest.rs` and `long.rs`, of which the second is one byte too long. Reading `full.rs` runs out of memory.
fn content_of(alloc: Global, name: &str) -> Result<Vec<u8>, ReadError> {
    match name {
        "types.rs" => padded(alloc, TYPES.as_bytes(), 0),
        "a:b.rs" => padded(alloc, b"struct Pair(u8, u16);", 0),
        "latin1.rs" => padded(alloc, b"// caf\xe9\nstruct Pair(u8, u16);", 0),
        "longest.rs" => padded(alloc, b"struct Pair(u8, u16);", LONGEST_FILE),
        "long.rs" => padded(alloc, b"struct Pair(u8, u16);", LONGEST_FILE + 1),
        "full.rs" => Err(ReadError::OutOfMemory),
        _ => Err(ReadError::Failed),
    }
}

/// Returns the bytes, and blanks after them, if they are fewer than `least`.
fn padded(alloc: Global, bytes: &[u8], least: usize) -> Result<Vec<u8>, ReadError> {
    let Ok(mut content) = Vec::from_slice(alloc, bytes) else {
        return Err(ReadError::OutOfMemory);
    };
    match content.resize(least.max(bytes.len()), b' ') {
        Ok(()) => Ok(content),
        Err(_) => Err(ReadError::OutOfMemory),
    }
}

/// Returns the words of a call.
pub fn words_of(rt: &(impl Abort + AllocGlobal), call: &[&str]) -> Vec<String> {
    let mut words = Vec::new(rt.alloc());
    for word in call {
        let word = String::from_str(rt.alloc(), word).expect(rt, "memory");
        words.push(word).expect(rt, "memory");
    }
    words
}

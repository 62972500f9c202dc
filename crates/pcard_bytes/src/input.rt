//! Reading the input to its end.

ghost use Rattle.std.specs.Prelude.{◌≡◌, IfErr, IfOk};
ghost use Rattle.pcard_bytes.specs.{InputFails, IsInput, OutOfMemory};

use postcard_de_flavors::Reader;
use std::alloc::{AllocError, Global};

/// The most bytes of one read.
const CHUNK: usize = 65_536;

/// The most reads of an input. It only ends the loop: no input has that many bytes.
pub const READS: u64 = u64::MAX;

/// Why bytes can't be read from a word of a call or from the input.
#[derive(Debug, Drop, PartialEq, Eq)]
pub enum InputError {
    /// The word is no text of hexadecimal digits, since the character with this number, counted
    /// from 1, is wrong.
    BadHex(usize),
    /// A read of the input failed.
    ReadFailed,
    /// The input didn't end within [`READS`] reads.
    Limit,
    /// An allocation failed.
    OutOfMemory,
}

impl From<AllocError> for InputError {
    ghost from_gives = { λ _ error. error ≡ OutOfMemory };

    fn from(_error: AllocError) -> InputError {
        InputError::OutOfMemory
    }
}

/// Returns all bytes of the input.
///
/// # Errors
///
/// Fails with `ReadFailed` if a read of the input fails, with `Limit` if the input doesn't end
/// within [`READS`] reads, and with `OutOfMemory`.
pub fn read_input<R: Reader>(alloc: Global, input: &mut R) -> Result<Vec<u8>, InputError>
    ensures all { IfOk result (λ held. IsInput (R.remaining input.old) (R.remaining input.new)
        held.items) }
    ensures refused { IfErr result (InputFails READS (R.steady input.old)
        (R.remaining input.old) (R.remaining input.new)) }
{
    let mut held = Vec::new(alloc);
    let mut chunk = [0; CHUNK];
    'reads: for _ in 0..READS {
        let count = match input.read_some(&mut chunk) {
            Ok(count) => count,
            Err(_) => return Err(InputError::ReadFailed),
        };
        if count == 0 {
            return Ok(held);
        }
        held.extend_from_slice(&chunk[..count])?;
    }
    Err(InputError::Limit)
}

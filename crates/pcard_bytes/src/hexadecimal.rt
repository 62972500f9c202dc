//! Reading the bytes of HEX, a word of a call.

ghost use Rattle.std.specs.Prelude.{IfOk, IfErr};
ghost use Rattle.pcard_bytes.specs.{HexFails, StandsFor};

use crate::input::{InputError, READS, read_input};
use crate::pasted;
use postcard_de_flavors::Reader;
use std::alloc::Global;

/// Returns the bytes of a pasted text of hexadecimal digits. Blanks, colons, commas or hyphens may
/// stand between the bytes, and the text may be the lines of `xxd` or of `hexdump -C`. If the word
/// is `-`, the whole input is the text.
///
/// # Errors
///
/// Fails with `BadHex` if a word of the text isn't an even number of digits. A word may begin with
/// `0x`. Also fails as [`read_input`] does.
pub fn read_hex<R: Reader>(alloc: Global, text: &str, input: &mut R) -> Result<Vec<u8>, InputError>
    ensures value { IfOk result (λ bytes. StandsFor text.now (R.remaining input.old)
        (R.remaining input.new) bytes.items) }
    ensures refused { IfErr result (HexFails READS (R.steady input.old) text.now
        (R.remaining input.old) (R.remaining input.new)) }
{
    if text != "-" {
        return pasted::read(alloc, text.as_bytes());
    }
    let held = read_input(alloc, input)?;
    pasted::read(alloc, &held)
}

//! Reading bytes from hexadecimal digits alone, two for each byte, the high one first.

ghost use Rattle.std.specs.Prelude.{◌≡◌, IfOk, IsErr, MatchOption, Ok};
ghost use Rattle.pcard_bytes.specs.{decode_of};

use hex::FromHex;
use std::alloc::{AllocError, Global};

/// Returns the bytes of a text of hexadecimal digits, of either case. Returns `None` if the text
/// has another character or an odd number of digits.
pub fn decode(alloc: Global, text: &[u8]) -> Result<Option<Vec<u8>>, AllocError>
    ensures { IfOk result (λ read. MatchOption read (IsErr (decode_of text.now))
        (λ bytes. decode_of text.now ≡ Ok bytes.items)) }
{
    let mut bytes = Vec::new(alloc);
    let mut rest = text;
    'pairs: while rest.len() >= 2 {
        let (pair, after) = rest.split_at(2);
        let Ok(byte) = <[u8; 1]>::from_hex(pair) else {
            return Ok(None);
        };
        bytes.push(byte[0])?;
        rest = after;
    }
    if !rest.is_empty() {
        return Ok(None);
    }
    Ok(Some(bytes))
}

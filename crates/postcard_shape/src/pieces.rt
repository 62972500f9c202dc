//! Numbers that are varints, written many at a time.

ghost use Rattle.postcard_shape.specs.{AreFirst};

use crate::first::FirstBytes;
use crate::runs::Varint;

/// The number of numbers of one byte each that are written at once.
const BLOCK: usize = 16;

/// The most numbers that are written one by one before a block is looked for again. Where sizes
/// repeat themselves, the processor foresees them, but not if a block is looked for too often.
const PAUSE: usize = 256;

/// Does what `first_bytes` does: returns a block if each of the first 16 numbers has one byte.
#[inline(always)]
pub(crate) fn first_block<T: Varint>(items: &[T]) -> FirstBytes<'_>
    ensures { AreFirst T.form items.now result }
{
    if items.len() < BLOCK {
        return FirstBytes::OneByOne;
    }
    let mut bytes = [0; BLOCK];
    // No branch within the loop, so that the compiler reads the numbers in the lanes of a vector.
    let mut more = 0u64;
    for i in 0..BLOCK {
        let number = items[i].to_number();
        bytes[i] = (number % 0x100) as u8;
        more |= number / 0x80;
    }
    if more != 0 {
        return FirstBytes::SomeOneByOne(items.len().min(PAUSE));
    }
    FirstBytes::Block(bytes, BLOCK)
}

//! The bytes of a checksum after a message.

ghost use Rattle.std.specs.Prelude.{◌≡◌, ◌≤◌, take};
ghost use Rattle.crc.specs.Checked.{low_bytes};

use crc::Width;

/// The bytes of a checksum, the lowest first: the first `len` of an array.
#[derive(Drop)]
pub struct Trailer {
    /// The array.
    pub bytes: [u8; 16],
    /// The number of bytes of the checksum.
    pub len: usize,
    pub ghost within: { len ≤ 16 },
}

/// Returns the bytes of a checksum.
pub fn trailer_of<W: Width>(crc: W) -> Trailer
    ensures bytes { take result.len result.bytes ≡ low_bytes W.size (W.number crc) }
    ensures len { result.len ≡ W.size }
{
    Trailer {
        bytes: crc.to_u128().to_le_bytes(),
        len: (W::bits() / 8) as usize,
    }
}

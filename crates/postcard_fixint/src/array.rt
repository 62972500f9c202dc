//! The arrays of bytes that numbers are written as and read from.

ghost use Rattle.std.specs.Prelude.{◌≡◌, ◌≤◌, ℕ, length, take};
ghost use Rattle.postcard_fixint.specs.{DeserializesNode, IsValue, array_node};

use postcard_de::{Deserializer, Flavor, Result};
use postcard_shape::Shaped;
use postcard_wire::laws::in_range;

/// An array of bytes, which is read with no count, no memory and no scratch: byte by byte, or at once
/// from bytes in memory.
pub trait ByteArray: Shaped + Sized + Drop {
    /// The number of bytes.
    ghost size: { ℕ };

    /// Returns the number of bytes.
    fn size() -> usize
        ensures { result ≡ size };

    /// Returns the array that `bytes` begin with.
    fn from_front(bytes: &[u8]) -> Self
        requires { size ≤ length bytes.now }
        ensures { IsValue Self.shape (take size bytes.now) result };

    /// Reads the array from the next bytes. Fails with `DeserializeUnexpectedEnd` if the source
    /// can't give as many; some of them may have been taken then.
    fn read<'de, F: Flavor>(d: &mut Deserializer<'de, F>) -> Result<Self>
        ensures { DeserializesNode F.Flavor (array_node Self.shape size) d.old result d.new };
}

impl<const N: usize> ByteArray for [u8; N] {
    ghost size = { N };

    #[inline(always)]
    fn size() -> usize {
        N
    }

    #[inline(always)]
    fn from_front(bytes: &[u8]) -> [u8; N] {
        let front = in_range(&bytes[..N]);
        let mut array = [0; N];
        array.copy_from_slice(front);
        array
    }

    fn read<'de, F: Flavor>(d: &mut Deserializer<'de, F>) -> Result<[u8; N]> {
        let mut bytes = [0; N];
        for i in 0..N {
            bytes[i] = d.deserialize_u8()?;
        }
        Ok(bytes)
    }
}

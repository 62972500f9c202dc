//! The deserializer, and its calls for integers, texts, byte strings and the counts of lists and
//! maps. The modules below have the others; `unsupported` refuses what the format can't serve.

ghost use Rattle.std.specs.Prelude.{◌≡◌, false};
ghost use Rattle.postcard_de.specs.{DeserializesNode, byte_node, bytes_node, int_node};
ghost use Rattle.postcard_de.specs.{lent_bytes_node, lent_text_node, num_node, number_node};
ghost use Rattle.postcard_de.specs.{signed_byte_node, source_of, text_node};

mod containers;
mod enums;
mod floats;
mod leaves;
mod options;
mod tuples;
mod unsupported;

use crate::access::SeqAccess;
use crate::map_access::MapAccess;
use postcard_de_flavors::{Flavor, Slice};
use postcard_de_nodes::{bytes, numbers, texts};
use postcard_wire::{Result, zigzag};
use std::alloc::Global;
use std::marker::PhantomData;

/// Reads values from a source, each from the front of what is left. Padded varints are read too.
/// The names of structs, fields and variants aren't used. A signed number of 16 or more bits is
/// read from its zigzag encoding.
///
/// A call that begins a tuple, a struct or the content of a variant returns a [`SeqAccess`], which
/// reads the parts. It reads nothing itself, and never fails. A contract sees the source, by
/// `source_of`.
///
/// # Errors
///
/// A call fails with `DeserializeUnexpectedEnd` if the source can't give the bytes that it takes. A
/// number of 16, 32, 64 or 128 bits has a varint of at most 3, 5, 10 or 19 bytes. It fails with
/// `DeserializeBadVarint` if the varint is longer, or the number has more bits. The call has taken
/// that many bytes then. The index of a variant is a number of 32 bits, and a count or a length one
/// of 64. A call that reads other values fails as the first of them that can't be read.
#[derive(Drop)]
pub struct Deserializer<'de, F: Flavor> {
    pub(crate) flavor: F,
    lives: PhantomData<&'de F>,
}

impl<'de> Deserializer<'de, Slice<'de>> {
    /// Returns a deserializer that reads from `bytes`.
    pub fn from_bytes(bytes: &'de [u8]) -> Self
        ensures { source_of result ≡ bytes.now }
    {
        Deserializer::from_flavor(Slice::new(bytes))
    }
}

impl<'de, F: Flavor> Deserializer<'de, F> {
    /// Returns a deserializer that reads from `flavor`. Reads nothing yet.
    pub fn from_flavor(flavor: F) -> Self
        ensures { source_of result ≡ flavor }
    {
        Deserializer {
            flavor,
            lives: PhantomData,
        }
    }

    /// Ends reading, and returns what is left of the source, or the error of its `finalize`.
    pub fn finalize(self) -> Result<F::Remainder>
        ensures { F.finishes (source_of self.entry) result }
    {
        self.flavor.finalize()
    }

    /// Always returns `false`: the format is binary.
    pub fn is_human_readable(&self) -> bool
        ensures { result ≡ false }
    {
        false
    }

    /// Reads a byte.
    pub fn deserialize_u8(&mut self) -> Result<u8>
        ensures { DeserializesNode F.Flavor byte_node self.old result self.new }
    {
        self.flavor.pop()
    }

    /// Reads a byte as a signed number, in two's complement.
    pub fn deserialize_i8(&mut self) -> Result<i8>
        ensures { DeserializesNode F.Flavor signed_byte_node self.old result self.new }
    {
        let bits = self.flavor.pop()?;
        Ok(bits.cast_signed())
    }

    /// Reads a number of 16 bits.
    pub fn deserialize_u16(&mut self) -> Result<u16>
        ensures { DeserializesNode F.Flavor (num_node 16) self.old result self.new }
    {
        let n = numbers::number(&mut self.flavor, 16)?;
        Ok(n as u16)
    }

    /// Reads a number of 32 bits.
    pub fn deserialize_u32(&mut self) -> Result<u32>
        ensures { DeserializesNode F.Flavor (num_node 32) self.old result self.new }
    {
        let n = numbers::number(&mut self.flavor, 32)?;
        Ok(n as u32)
    }

    /// Reads a number of 64 bits.
    pub fn deserialize_u64(&mut self) -> Result<u64>
        ensures { DeserializesNode F.Flavor (num_node 64) self.old result self.new }
    {
        let n = numbers::number(&mut self.flavor, 64)?;
        Ok(n as u64)
    }

    /// Reads a number of 128 bits.
    pub fn deserialize_u128(&mut self) -> Result<u128>
        ensures { DeserializesNode F.Flavor (num_node 128) self.old result self.new }
    {
        let n = numbers::number(&mut self.flavor, 128)?;
        Ok(n)
    }

    /// Reads a signed number of 16 bits.
    pub fn deserialize_i16(&mut self) -> Result<i16>
        ensures { DeserializesNode F.Flavor (int_node 16) self.old result self.new }
    {
        let folded = numbers::number(&mut self.flavor, 16)?;
        Ok(zigzag::de_zig_zag_i16(folded as u16))
    }

    /// Reads a signed number of 32 bits.
    pub fn deserialize_i32(&mut self) -> Result<i32>
        ensures { DeserializesNode F.Flavor (int_node 32) self.old result self.new }
    {
        let folded = numbers::number(&mut self.flavor, 32)?;
        Ok(zigzag::de_zig_zag_i32(folded as u32))
    }

    /// Reads a signed number of 64 bits.
    pub fn deserialize_i64(&mut self) -> Result<i64>
        ensures { DeserializesNode F.Flavor (int_node 64) self.old result self.new }
    {
        let folded = numbers::number(&mut self.flavor, 64)?;
        Ok(zigzag::de_zig_zag_i64(folded as u64))
    }

    /// Reads a signed number of 128 bits.
    pub fn deserialize_i128(&mut self) -> Result<i128>
        ensures { DeserializesNode F.Flavor (int_node 128) self.old result self.new }
    {
        let folded = numbers::number(&mut self.flavor, 128)?;
        Ok(zigzag::de_zig_zag_i128(folded))
    }

    /// Reads a text: its length in bytes, and that many bytes of UTF-8. The text borrows from what
    /// the source borrows. Also fails with `DeserializeBadUtf8` if the bytes aren't UTF-8; they are
    /// taken then.
    #[inline(always)]
    pub fn deserialize_str(&mut self) -> Result<&'de str>
        ensures { DeserializesNode F.Flavor lent_text_node self.old result self.new }
    {
        texts::text(&mut self.flavor)
    }

    /// Reads a text as `deserialize_str` does, and returns a copy of it. Also fails with
    /// `OutOfMemory` if the allocation fails; the text is taken then.
    pub fn deserialize_string(&mut self, alloc: Global) -> Result<String>
        ensures { DeserializesNode F.Flavor text_node self.old result self.new }
    {
        texts::text_copy(alloc, &mut self.flavor)
    }

    /// Reads a byte string: its length, and that many bytes. The slice borrows from what the source
    /// borrows.
    pub fn deserialize_bytes(&mut self) -> Result<&'de [u8]>
        ensures { DeserializesNode F.Flavor lent_bytes_node self.old result self.new }
    {
        bytes::bytes(&mut self.flavor)
    }

    /// Reads a byte string, and returns a copy of its bytes. Also fails with `OutOfMemory` if the
    /// allocation fails; the bytes are taken then.
    pub fn deserialize_byte_buf(&mut self, alloc: Global) -> Result<Vec<u8>>
        ensures { DeserializesNode F.Flavor bytes_node self.old result self.new }
    {
        bytes::bytes_copy(alloc, &mut self.flavor)
    }

    /// Reads the number of elements of a list. [`next_element`](SeqAccess::next_element) then reads
    /// each.
    pub fn deserialize_seq(&mut self) -> Result<SeqAccess>
        ensures { DeserializesNode F.Flavor (number_node 64) self.old result self.new }
    {
        let count = numbers::count(&mut self.flavor)?;
        Ok(SeqAccess::new(count))
    }

    /// Reads the number of pairs of a map. [`next_key`](MapAccess::next_key) and
    /// [`next_value`](MapAccess::next_value) then read each in turn.
    pub fn deserialize_map(&mut self) -> Result<MapAccess>
        ensures { DeserializesNode F.Flavor (number_node 64) self.old result self.new }
    {
        let pairs = numbers::count(&mut self.flavor)?;
        Ok(MapAccess::new(pairs))
    }
}

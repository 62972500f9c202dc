//! The calls by which a type writes itself, one for each node of the format. This file has those
//! for numbers, strings and lists.

ghost use Rattle.std.specs.Prelude.{◌≡◌, [], ◌∷◌, ◌++◌, length, map, false, IsOk, IsErrOf, IfSome};
ghost use Rattle.postcard_ser.specs.{Byte, IfNone, Int, Num, Seq, Serializes, SerializesBytes};
ghost use Rattle.postcard_ser.specs.{SerializesTree, Text, cast_unsigned, digits, trees, w8};

mod enums;
mod floats;
mod groups;
mod leaves;
mod options;

use crate::serialize::Serialize;
use postcard_ser_flavors::Flavor;
use postcard_wire::varint::{VARINT_MAX_128, varint_u128};
use postcard_wire::zigzag::{zig_zag_i16, zig_zag_i32, zig_zag_i64, zig_zag_i128};
use postcard_wire::{Error, Result};

/// Writes values into a flavor.
///
/// Some calls begin a list, a map, a tuple, a struct or a variant of `len` parts. Exactly `len`
/// calls for these parts must follow. Each writes its part as the part's own `serialize` does.
/// Their number is not checked. The names of structs, fields and variants aren't written.
///
/// An index is a varint of 1 to 5 bytes, and a count or a length one of 1 to 10. Any other integer
/// of 8 bits is one byte, in two's complement if signed. A wider one is a varint of at most 3, 5,
/// 10 or 19 bytes for 16, 32, 64 or 128 bits. The varint of a signed integer is that of its zigzag
/// encoding.
///
/// # Errors
///
/// If the flavor refuses a piece, a call fails with `SerializeBufferFull`, whatever the flavor's
/// own error is. Only in the text of `collect_str` the error is `CollectStrError`. A call for a
/// part of a value also fails as that part's own `serialize` does. A list or a map without a length
/// fails with `SerializeSeqLengthUnknown`, before anything is written. A call that writes nothing
/// never fails. The bytes that the flavor took before the error stay in it, as
/// `Serialize::serialize` says.
#[derive(Drop)]
pub struct Serializer<F: Flavor> {
    /// The flavor that the bytes go to.
    pub output: F,
}

/// Returns the error of a call whose flavor refused a piece.
fn refusal(_of_flavor: Error) -> Error
    ensures { result ≡ Error.SerializeBufferFull }
{
    Error::SerializeBufferFull
}

impl<F: Flavor> Serializer<F> {
    #[inline(always)]
    fn push(&mut self, byte: u8) -> Result<()>
        ensures { SerializesBytes F.Flavor (byte ∷ []) self.old result self.new }
    {
        self.output.try_push(byte).map_err(refusal)
    }

    #[inline(always)]
    pub(crate) fn extend(&mut self, piece: &[u8]) -> Result<()>
        ensures { SerializesBytes F.Flavor piece.now self.old result self.new }
    {
        self.output.try_extend(piece).map_err(refusal)
    }

    /// Writes a number as a varint.
    #[inline(always)]
    fn varint(&mut self, n: u64) -> Result<()>
        ensures { SerializesBytes F.Flavor (digits n) self.old result self.new }
    {
        self.output.try_varint(n).map_err(refusal)
    }

    /// Writes the number of the bytes, and then the bytes.
    fn extend_counted(&mut self, piece: &[u8]) -> Result<()>
        ensures { SerializesBytes F.Flavor (digits (length piece.now) ++ piece.now)
            self.old result self.new }
    {
        self.serialize_u64(piece.len() as u64)?;
        self.extend(piece)
    }

    /// Returns `false`: the format is binary.
    pub fn is_human_readable(&self) -> bool
        ensures { result ≡ false }
    {
        false
    }

    /// Writes a `u8`.
    pub fn serialize_u8(&mut self, v: u8) -> Result<()>
        ensures { SerializesTree F.Flavor (Byte v) self.old result self.new }
    {
        self.push(v)
    }

    /// Writes a `u16`.
    pub fn serialize_u16(&mut self, v: u16) -> Result<()>
        ensures { SerializesTree F.Flavor (Num 16 v) self.old result self.new }
    {
        self.serialize_u32(u32::from(v))
    }

    /// Writes a `u32`.
    pub fn serialize_u32(&mut self, v: u32) -> Result<()>
        ensures { SerializesTree F.Flavor (Num 32 v) self.old result self.new }
    {
        self.varint(u64::from(v))
    }

    /// Writes a `u64`.
    pub fn serialize_u64(&mut self, v: u64) -> Result<()>
        ensures { SerializesTree F.Flavor (Num 64 v) self.old result self.new }
    {
        self.varint(v)
    }

    /// Writes a `u128`.
    pub fn serialize_u128(&mut self, v: u128) -> Result<()>
        ensures { SerializesTree F.Flavor (Num 128 v) self.old result self.new }
    {
        let mut out = [0; VARINT_MAX_128];
        self.extend(varint_u128(v, &mut out))
    }

    /// Writes an `i8`.
    pub fn serialize_i8(&mut self, v: i8) -> Result<()>
        ensures { SerializesTree F.Flavor (Byte (cast_unsigned w8 v)) self.old result self.new }
    {
        self.push(v.cast_unsigned())
    }

    /// Writes an `i16`.
    pub fn serialize_i16(&mut self, v: i16) -> Result<()>
        ensures { SerializesTree F.Flavor (Int 16 v) self.old result self.new }
    {
        self.serialize_u16(zig_zag_i16(v))
    }

    /// Writes an `i32`.
    pub fn serialize_i32(&mut self, v: i32) -> Result<()>
        ensures { SerializesTree F.Flavor (Int 32 v) self.old result self.new }
    {
        self.serialize_u32(zig_zag_i32(v))
    }

    /// Writes an `i64`.
    pub fn serialize_i64(&mut self, v: i64) -> Result<()>
        ensures { SerializesTree F.Flavor (Int 64 v) self.old result self.new }
    {
        self.serialize_u64(zig_zag_i64(v))
    }

    /// Writes an `i128`.
    pub fn serialize_i128(&mut self, v: i128) -> Result<()>
        ensures { SerializesTree F.Flavor (Int 128 v) self.old result self.new }
    {
        self.serialize_u128(zig_zag_i128(v))
    }

    /// Writes the number of the string's bytes, and then the bytes.
    pub fn serialize_str(&mut self, v: &str) -> Result<()>
        ensures { SerializesTree F.Flavor (Text v.now) self.old result self.new }
    {
        self.extend_counted(v.as_bytes())
    }

    /// Writes the number of the bytes, and then the bytes, like a list of `u8`.
    #[tactic(auto, using(crate::proofs::Elements::elements_count, postcard_shape::proofs::Bytes::bytes_of_bytes))]
    pub fn serialize_bytes(&mut self, v: &[u8]) -> Result<()>
        ensures { SerializesTree F.Flavor (Seq (trees (map Byte v.now))) self.old result self.new }
    {
        self.extend_counted(v)
    }

    /// Begins a list: writes the number of its elements. Each is then written by
    /// `serialize_element`.
    pub fn serialize_seq(&mut self, len: Option<usize>) -> Result<()>
        ensures known { IfSome len
            (λ n. SerializesTree F.Flavor (Num 64 n) self.old result self.new) }
        ensures unknown { IfNone len (IsErrOf result Error.SerializeSeqLengthUnknown
            × (self.new ≡ self.old)) }
    {
        match len {
            Some(n) => self.serialize_u64(n as u64),
            None => Err(Error::SerializeSeqLengthUnknown),
        }
    }

    /// Writes an element of a list, or any part of a value.
    pub fn serialize_element<T: Serialize>(&mut self, value: &T) -> Result<()>
        ensures { Serializes F.Flavor T.shape value.now self.old result self.new }
    {
        value.serialize(self)
    }

    /// Ends a list. Writes nothing.
    pub fn end(&mut self) -> Result<()>
        ensures wrote { SerializesBytes F.Flavor [] self.old result self.new }
        ensures succeeds { IsOk result }
        ensures unchanged { self.new ≡ self.old }
    {
        Ok(())
    }
}

//! Numbers by their bits: reading and writing them, and the bits of signed numbers.

ghost use Rattle.std.specs.Prelude.{◌≡◌, ℕ, ◌<◌, ◌%◌, ◌*◌, ◌^◌, true, false, IfSome, IfNone};
ghost use Rattle.postcard_value.specs.{DeserializesTree, IsArray, IsBitsOf, IsByte, IsFixed};
ghost use Rattle.postcard_value.specs.{IsInteger, Little, Wrote, array, byte, canonical};
ghost use Rattle.postcard_value.specs.{fixed_tree, float_size, integer_reads, integer_tree, little};
ghost use Rattle.postcard_value.specs.{never, never_refused, number_of, order_of, size_of};
ghost use Rattle.postcard_value.specs.{unsigned};

use postcard_de::{Deserializer, Result};
use postcard_fixint::{ByteArray, FixInt, be, le};
use postcard_schema::{ByteOrder, Float, Integer};
use postcard_ser::Serializer;
use std::alloc::Global;

/// Reads a number, and returns its bits. A number of 8 bits is a byte, and a wider one a varint,
/// which holds the zigzag encoding if the type is signed. Fails as the `deserialize_*` call of the
/// type does.
pub fn read_integer<'de, F: postcard_de::Flavor>(
    integer: Integer,
    d: &mut Deserializer<'de, F>,
) -> Result<u128>
    ensures { DeserializesTree F.Flavor (integer_reads integer) (IsInteger integer) never_refused
        d.old result d.new }
{
    match integer {
        Integer::U8 | Integer::I8 => Ok(u128::from(d.deserialize_u8()?)),
        Integer::U16 => Ok(u128::from(d.deserialize_u16()?)),
        Integer::U32 => Ok(u128::from(d.deserialize_u32()?)),
        Integer::U64 => Ok(u128::from(d.deserialize_u64()?)),
        Integer::U128 => Ok(d.deserialize_u128()?),
        Integer::I16 => Ok(u128::from(d.deserialize_i16()?.cast_unsigned())),
        Integer::I32 => Ok(u128::from(d.deserialize_i32()?.cast_unsigned())),
        Integer::I64 => Ok(u128::from(d.deserialize_i64()?.cast_unsigned())),
        Integer::I128 => Ok(d.deserialize_i128()?.cast_unsigned()),
    }
}

/// Writes the number with these bits, as [`read_integer`] reads it. Fails with
/// `SerializeBufferFull` if the flavor refuses bytes.
pub fn write_integer<F: postcard_ser::Flavor>(
    integer: Integer,
    bits: u128,
    serializer: &mut Serializer<F>,
) -> Result<()>
    ensures { Wrote F.Flavor serializer.old.output (canonical (integer_tree integer bits))
        never ⊥ result serializer.new.output }
{
    // The width of a number changes neither its digits nor those of its zigzag encoding.
    let low = low_bits(integer, bits);
    if integer.size() == 1 {
        serializer.serialize_u8(low as u8)
    } else if integer.is_signed() {
        serializer.serialize_i128(signed(integer, low))
    } else {
        serializer.serialize_u128(low)
    }
}

/// Reads the bits of a number from its bytes. Fails with `DeserializeUnexpectedEnd` if the source
/// has fewer bytes.
pub fn read_bits<'de, F: postcard_de::Flavor>(
    alloc: Global,
    order: ByteOrder,
    integer: Integer,
    d: &mut Deserializer<'de, F>,
) -> Result<u128>
    ensures { DeserializesTree F.Flavor (IsArray (size_of integer) IsByte)
        (IsFixed (order_of order) (unsigned (size_of integer))) never_refused d.old result d.new }
{
    match integer {
        Integer::U8 | Integer::I8 => {
            let bytes = <[u8; 1] as ByteArray>::read(d)?;
            Ok(u128::from(bytes[0]))
        }
        Integer::U16 | Integer::I16 => Ok(u128::from(read_number::<u16, F>(alloc, order, d)?)),
        Integer::U32 | Integer::I32 => Ok(u128::from(read_number::<u32, F>(alloc, order, d)?)),
        Integer::U64 | Integer::I64 => Ok(u128::from(read_number::<u64, F>(alloc, order, d)?)),
        Integer::U128 | Integer::I128 => read_number::<u128, F>(alloc, order, d),
    }
}

/// Reads a number from its bytes, in this order. Fails as [`read_bits`] does.
fn read_number<'de, T: FixInt, F: postcard_de::Flavor>(
    alloc: Global,
    order: ByteOrder,
    d: &mut Deserializer<'de, F>,
) -> Result<T>
    ensures { DeserializesTree F.Flavor (array T.width.size byte).reads
        (IsFixed (order_of order) T.width) never_refused d.old result d.new }
{
    match order {
        ByteOrder::Little => le::deserialize::<T, F>(alloc, d),
        ByteOrder::Big => be::deserialize::<T, F>(alloc, d),
    }
}

/// Writes the bytes of the number with these bits. Fails with `SerializeBufferFull` if the flavor
/// refuses bytes.
pub fn write_bits<F: postcard_ser::Flavor>(
    order: ByteOrder,
    integer: Integer,
    bits: u128,
    serializer: &mut Serializer<F>,
) -> Result<()>
    ensures { Wrote F.Flavor serializer.old.output
        (canonical (fixed_tree order (size_of integer) bits))
        never ⊥ result serializer.new.output }
{
    write_low_bits(order, integer, low_bits(integer, bits), serializer)
}

/// Writes the bytes of the number with these bits, none of which is above its type's width. Fails
/// as [`write_bits`] does.
fn write_low_bits<F: postcard_ser::Flavor>(
    order: ByteOrder,
    integer: Integer,
    bits: u128,
    serializer: &mut Serializer<F>,
) -> Result<()>
    requires { bits < 256 ^ size_of integer }
    ensures { Wrote F.Flavor serializer.old.output ((order_of order).spell (size_of integer) bits)
        never ⊥ result serializer.new.output }
{
    match integer {
        Integer::U8 | Integer::I8 => serializer.serialize_u8(bits as u8),
        Integer::U16 | Integer::I16 => write_number(order, bits as u16, serializer),
        Integer::U32 | Integer::I32 => write_number(order, bits as u32, serializer),
        Integer::U64 | Integer::I64 => write_number(order, bits as u64, serializer),
        Integer::U128 | Integer::I128 => write_number(order, bits, serializer),
    }
}

/// Writes the bytes of a number, in this order. Fails as [`write_bits`] does.
fn write_number<T: FixInt, F: postcard_ser::Flavor>(
    order: ByteOrder,
    value: T,
    serializer: &mut Serializer<F>,
) -> Result<()>
    ensures { Wrote F.Flavor serializer.old.output
        ((order_of order).spell T.width.size (T.width.modulo value)) never ⊥
        result serializer.new.output }
{
    match order {
        ByteOrder::Little => le::serialize(&value, serializer),
        ByteOrder::Big => be::serialize(&value, serializer),
    }
}

/// Reads the bits of a float from its bytes, the lowest first. Fails as [`read_bits`] does.
pub fn read_float<'de, F: postcard_de::Flavor>(
    alloc: Global,
    float: Float,
    d: &mut Deserializer<'de, F>,
) -> Result<u64>
    ensures { DeserializesTree F.Flavor (IsArray (float_size float) IsByte)
        (IsFixed little (unsigned (float_size float))) never_refused d.old result d.new }
{
    match float {
        Float::F32 => Ok(u64::from(le::deserialize::<u32, F>(alloc, d)?)),
        Float::F64 => Ok(le::deserialize::<u64, F>(alloc, d)?),
    }
}

/// Writes the bytes of the float with these bits, the lowest first. Fails as [`write_bits`] does.
pub fn write_float<F: postcard_ser::Flavor>(
    float: Float,
    bits: u64,
    serializer: &mut Serializer<F>,
) -> Result<()>
    ensures { Wrote F.Flavor serializer.old.output
        (canonical (fixed_tree Little (float_size float) bits))
        never ⊥ result serializer.new.output }
{
    let integer = match float {
        Float::F32 => Integer::U32,
        Float::F64 => Integer::U64,
    };
    write_bits(ByteOrder::Little, integer, u128::from(bits), serializer)
}

/// Returns the bits of a signed number in two's complement, or `None` if it isn't one of the type.
pub fn bits_of(integer: Integer, z: i128) -> Option<u128>
    ensures bits { IfSome result (λ n. IsBitsOf integer z n) }
    ensures none { IfNone result ((n : ℕ) → IsBitsOf integer z n → ⊥) }
{
    let half = half_of(integer);
    let magnitude = z.unsigned_abs();
    if z < 0 {
        if magnitude > half {
            return None;
        }
        return Some(half - magnitude + half);
    }
    if magnitude < half {
        Some(magnitude)
    } else {
        None
    }
}

/// Returns the signed number with these bits in two's complement, or `None` if the type has fewer
/// bits.
pub fn signed_of(integer: Integer, bits: u128) -> Option<i128>
    ensures number { IfSome result (λ z. (bits < 256 ^ size_of integer)
        × (z ≡ number_of (size_of integer) bits)) }
    ensures none { IfNone result (bits < 256 ^ size_of integer → ⊥) }
{
    if are_bits(integer, bits) {
        Some(signed(integer, bits))
    } else {
        None
    }
}

/// Returns the signed number with these bits in two's complement, none of which is above its type's
/// width.
fn signed(integer: Integer, bits: u128) -> i128
    requires { bits < 256 ^ size_of integer }
    ensures { result ≡ number_of (size_of integer) bits }
{
    let half = half_of(integer);
    if bits < half {
        return bits as i128;
    }
    let below = half - 1 - (bits - half);
    -1 - (below as i128)
}

/// Returns whether the bits are those of a number of the type: none is above its width.
pub fn are_bits(integer: Integer, bits: u128) -> bool
    ensures within { result ≡ true → bits < 256 ^ size_of integer }
    ensures beyond { result ≡ false → bits < 256 ^ size_of integer → ⊥ }
{
    bits / 2 < half_of(integer)
}

/// Returns the bits within the width of the type, without those above them.
pub fn low_bits(integer: Integer, bits: u128) -> u128
    ensures low { result ≡ bits % 256 ^ size_of integer }
    ensures below { result < 256 ^ size_of integer }
{
    match integer {
        Integer::U8 | Integer::I8 => bits % (1 << 8),
        Integer::U16 | Integer::I16 => bits % (1 << 16),
        Integer::U32 | Integer::I32 => bits % (1 << 32),
        Integer::U64 | Integer::I64 => bits % (1 << 64),
        Integer::U128 | Integer::I128 => bits,
    }
}

/// Returns half of the numbers of the type: the first pattern of bits that stands for a negative
/// number.
fn half_of(integer: Integer) -> u128
    ensures { 2 * result ≡ 256 ^ size_of integer }
{
    match integer {
        Integer::U8 | Integer::I8 => 1 << 7,
        Integer::U16 | Integer::I16 => 1 << 15,
        Integer::U32 | Integer::I32 => 1 << 31,
        Integer::U64 | Integer::I64 => 1 << 63,
        Integer::U128 | Integer::I128 => 1 << 127,
    }
}

//! A type without parts, as a node holds it, and how it is written and read.

ghost use Rattle.std.specs.Option.{IfNone};
ghost use Rattle.std.specs.Prelude.{◌≡◌, ◌<◌, ◌≤◌, IfSome};
ghost use Rattle.postcard_schema_message.specs.{enumeration, integer_index, leaf_at, leaf_back};
ghost use Rattle.postcard_schema_message.specs.{leaf_index, via};

use postcard_de::{Deserialize, DeserializeOwned, Deserializer};
use postcard_de_flavors::Flavor as DeFlavor;
use postcard_schema::{ByteOrder, Float, Integer, Leaf};
use postcard_ser::{Serialize, Serializer, serialize_variant};
use postcard_ser_flavors::Flavor;
use postcard_shape::Shaped;
use postcard_wire::{Error, Result};
use std::alloc::Global;

/// A type without parts.
///
/// It is written as an enum of 36 variants without content. Their indices are one byte each:
///
/// | Index | Type |
/// |---|---|
/// | 0 | `bool` |
/// | 1 to 5 | `u8`, `u16`, `u32`, `u64`, `u128` |
/// | 6 to 10 | `i8`, `i16`, `i32`, `i64`, `i128` |
/// | 11, 12 | `f32`, `f64` |
/// | 13, 14, 15 | `char`, `str`, `bytes` |
/// | 16 to 25 | `LE<T>`, where `T` has the index minus 15 |
/// | 26 to 35 | `BE<T>`, where `T` has the index minus 25 |
#[derive(Clone, Copy, Debug, PartialEq, Eq)]
pub struct NodeLeaf(pub Leaf);

impl Shaped for NodeLeaf {
    ghost shape = { via (λ v. v.0) (enumeration 36 leaf_index leaf_at leaf_back) };
}

impl Serialize for NodeLeaf {
    fn serialize<F: Flavor>(&self, serializer: &mut Serializer<F>) -> Result<()> {
        serialize_variant(index_of(self.0), &(), serializer)
    }
}

/// Reading fails with `SerdeDeCustom` if the index is above 35.
impl<'de> Deserialize<'de> for NodeLeaf {
    fn deserialize<F: DeFlavor>(_alloc: Global, d: &mut Deserializer<'de, F>) -> Result<Self> {
        let index = d.deserialize_enum("NodeLeaf", &[])?;
        match leaf_of(index) {
            Some(leaf) => {
                d.unit_variant()?;
                Ok(NodeLeaf(leaf))
            }
            None => Err(Error::SerdeDeCustom),
        }
    }
}

impl DeserializeOwned for NodeLeaf {
    fn deserialize_owned<'de, F: DeFlavor>(
        alloc: Global,
        d: &mut Deserializer<'de, F>,
    ) -> Result<Self> {
        NodeLeaf::deserialize(alloc, d)
    }
}

/// Returns the index of a type.
fn index_of(leaf: Leaf) -> u32
    ensures index { result ≡ leaf_index leaf }
    ensures few { result < 36 }
{
    match leaf {
        Leaf::Bool => 0,
        Leaf::Integer(integer) => 1 + integer_index_of(integer),
        Leaf::Float(Float::F32) => 11,
        Leaf::Float(Float::F64) => 12,
        Leaf::Char => 13,
        Leaf::Str => 14,
        Leaf::Bytes => 15,
        Leaf::Fixed(ByteOrder::Little, integer) => 16 + integer_index_of(integer),
        Leaf::Fixed(ByteOrder::Big, integer) => 26 + integer_index_of(integer),
    }
}

/// Returns the type at an index, or `None` if the index is above 35.
fn leaf_of(index: u32) -> Option<Leaf>
    ensures known { IfSome result (λ leaf. leaf_index leaf ≡ index) }
    ensures few { IfSome result (λ _. index < 36) }
    ensures unknown { IfNone result (36 ≤ index) }
{
    match index {
        0 => Some(Leaf::Bool),
        1..=10 => Some(Leaf::Integer(integer_of(index - 1))),
        11 => Some(Leaf::Float(Float::F32)),
        12 => Some(Leaf::Float(Float::F64)),
        13 => Some(Leaf::Char),
        14 => Some(Leaf::Str),
        15 => Some(Leaf::Bytes),
        16..=25 => Some(Leaf::Fixed(ByteOrder::Little, integer_of(index - 16))),
        26..=35 => Some(Leaf::Fixed(ByteOrder::Big, integer_of(index - 26))),
        _ => None,
    }
}

/// Returns the place of a type of integers among the ten.
fn integer_index_of(integer: Integer) -> u32
    ensures index { result ≡ integer_index integer }
    ensures few { result < 10 }
{
    match integer {
        Integer::U8 => 0,
        Integer::U16 => 1,
        Integer::U32 => 2,
        Integer::U64 => 3,
        Integer::U128 => 4,
        Integer::I8 => 5,
        Integer::I16 => 6,
        Integer::I32 => 7,
        Integer::I64 => 8,
        Integer::I128 => 9,
    }
}

/// Returns the type of integers at a place among the ten.
fn integer_of(index: u32) -> Integer
    requires { index < 10 }
    ensures { integer_index result ≡ index }
{
    match index {
        0 => Integer::U8,
        1 => Integer::U16,
        2 => Integer::U32,
        3 => Integer::U64,
        4 => Integer::U128,
        5 => Integer::I8,
        6 => Integer::I16,
        7 => Integer::I32,
        8 => Integer::I64,
        _ => Integer::I128,
    }
}

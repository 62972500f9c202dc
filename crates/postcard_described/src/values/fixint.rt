//! The schemas of numbers at their full width: `LE<T>` and `BE<T>`.

ghost use Rattle.std.specs.Prelude.{◌≡◌};
ghost use Rattle.postcard_described.specs.{alike, of_leaf};
ghost use Rattle.postcard_described.specs.Within.{Same};
ghost use Rattle.postcard_schema.specs.{size_of};
ghost use Rattle.postcard_schema.specs.declared.leaf.ByteOrder.TheVariants as orders;
ghost use Rattle.postcard_schema.specs.declared.leaf.Integer.{Integer};
ghost use Rattle.postcard_schema.specs.declared.leaf.Integer.TheVariants as integers;
ghost use Rattle.postcard_schema.specs.declared.leaf.Leaf.TheVariants as leaves;
ghost use Rattle.postcard_wire.specs.Reading.{IsArray, IsByte};

use crate::schema::HasSchema;
use postcard_fixint::{BE, FixInt, LE};
use postcard_schema::{ByteOrder, Integer, Leaf, Schema};
use postcard_wire::Result;
use std::alloc::Global;

/// A type of numbers that can be written at its full width, which a schema names.
pub trait NamedFixInt: FixInt {
    /// The type as a schema names it.
    ghost integer: { Integer };

    /// Returns the type as a schema names it.
    fn integer() -> Integer
        ensures { result ≡ integer };

    /// A number has the number of bytes that the schema says.
    ghost same_bytes: { Same (IsArray Self.width.size IsByte) (IsArray (size_of integer) IsByte) };
}

impl NamedFixInt for u16 {
    ghost integer = { integers.U16 };

    fn integer() -> Integer {
        Integer::U16
    }

    ghost same_bytes = { alike };
}

impl NamedFixInt for u32 {
    ghost integer = { integers.U32 };

    fn integer() -> Integer {
        Integer::U32
    }

    ghost same_bytes = { alike };
}

impl NamedFixInt for u64 {
    ghost integer = { integers.U64 };

    fn integer() -> Integer {
        Integer::U64
    }

    ghost same_bytes = { alike };
}

impl NamedFixInt for u128 {
    ghost integer = { integers.U128 };

    fn integer() -> Integer {
        Integer::U128
    }

    ghost same_bytes = { alike };
}

impl NamedFixInt for i16 {
    ghost integer = { integers.I16 };

    fn integer() -> Integer {
        Integer::I16
    }

    ghost same_bytes = { alike };
}

impl NamedFixInt for i32 {
    ghost integer = { integers.I32 };

    fn integer() -> Integer {
        Integer::I32
    }

    ghost same_bytes = { alike };
}

impl NamedFixInt for i64 {
    ghost integer = { integers.I64 };

    fn integer() -> Integer {
        Integer::I64
    }

    ghost same_bytes = { alike };
}

impl NamedFixInt for i128 {
    ghost integer = { integers.I128 };

    fn integer() -> Integer {
        Integer::I128
    }

    ghost same_bytes = { alike };
}

impl<T: NamedFixInt> HasSchema for LE<T> {
    ghost described = { of_leaf (leaves.Fixed orders.Little T.integer) };

    fn schema_with(_alloc: Global, _names: &[&str]) -> Result<Schema> {
        Ok(Schema::Leaf(Leaf::Fixed(ByteOrder::Little, T::integer())))
    }

    ghost same = { T.same_bytes };
}

impl<T: NamedFixInt> HasSchema for BE<T> {
    ghost described = { of_leaf (leaves.Fixed orders.Big T.integer) };

    fn schema_with(_alloc: Global, _names: &[&str]) -> Result<Schema> {
        Ok(Schema::Leaf(Leaf::Fixed(ByteOrder::Big, T::integer())))
    }

    ghost same = { T.same_bytes };
}

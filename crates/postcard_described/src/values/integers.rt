//! The schemas of integers.

ghost use Rattle.postcard_described.specs.{alike, of_integer};
ghost use Rattle.postcard_schema.specs.declared.leaf.Integer.TheVariants as integers;

use crate::schema::HasSchema;
use postcard_schema::{Integer, Leaf, Schema};
use postcard_wire::Result;
use std::alloc::Global;

impl HasSchema for u8 {
    ghost described = { of_integer integers.U8 };

    fn schema_with(_alloc: Global, _names: &[&str]) -> Result<Schema> {
        Ok(Schema::Leaf(Leaf::Integer(Integer::U8)))
    }

    ghost same = { alike };
}

impl HasSchema for u16 {
    ghost described = { of_integer integers.U16 };

    fn schema_with(_alloc: Global, _names: &[&str]) -> Result<Schema> {
        Ok(Schema::Leaf(Leaf::Integer(Integer::U16)))
    }

    ghost same = { alike };
}

impl HasSchema for u32 {
    ghost described = { of_integer integers.U32 };

    fn schema_with(_alloc: Global, _names: &[&str]) -> Result<Schema> {
        Ok(Schema::Leaf(Leaf::Integer(Integer::U32)))
    }

    ghost same = { alike };
}

impl HasSchema for u64 {
    ghost described = { of_integer integers.U64 };

    fn schema_with(_alloc: Global, _names: &[&str]) -> Result<Schema> {
        Ok(Schema::Leaf(Leaf::Integer(Integer::U64)))
    }

    ghost same = { alike };
}

impl HasSchema for u128 {
    ghost described = { of_integer integers.U128 };

    fn schema_with(_alloc: Global, _names: &[&str]) -> Result<Schema> {
        Ok(Schema::Leaf(Leaf::Integer(Integer::U128)))
    }

    ghost same = { alike };
}

impl HasSchema for usize {
    ghost described = { of_integer integers.U64 };

    fn schema_with(alloc: Global, _names: &[&str]) -> Result<Schema> {
        u64::schema(alloc)
    }

    ghost same = { alike };
}

impl HasSchema for i8 {
    ghost described = { of_integer integers.I8 };

    fn schema_with(_alloc: Global, _names: &[&str]) -> Result<Schema> {
        Ok(Schema::Leaf(Leaf::Integer(Integer::I8)))
    }

    ghost same = { alike };
}

impl HasSchema for i16 {
    ghost described = { of_integer integers.I16 };

    fn schema_with(_alloc: Global, _names: &[&str]) -> Result<Schema> {
        Ok(Schema::Leaf(Leaf::Integer(Integer::I16)))
    }

    ghost same = { alike };
}

impl HasSchema for i32 {
    ghost described = { of_integer integers.I32 };

    fn schema_with(_alloc: Global, _names: &[&str]) -> Result<Schema> {
        Ok(Schema::Leaf(Leaf::Integer(Integer::I32)))
    }

    ghost same = { alike };
}

impl HasSchema for i64 {
    ghost described = { of_integer integers.I64 };

    fn schema_with(_alloc: Global, _names: &[&str]) -> Result<Schema> {
        Ok(Schema::Leaf(Leaf::Integer(Integer::I64)))
    }

    ghost same = { alike };
}

impl HasSchema for i128 {
    ghost described = { of_integer integers.I128 };

    fn schema_with(_alloc: Global, _names: &[&str]) -> Result<Schema> {
        Ok(Schema::Leaf(Leaf::Integer(Integer::I128)))
    }

    ghost same = { alike };
}

impl HasSchema for isize {
    ghost described = { of_integer integers.I64 };

    fn schema_with(alloc: Global, _names: &[&str]) -> Result<Schema> {
        i64::schema(alloc)
    }

    ghost same = { alike };
}

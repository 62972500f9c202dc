//! The schemas of numbers that aren't 0: those of all numbers. A message with 0 is refused.

ghost use Rattle.std.specs.Prelude.{pos};
ghost use Rattle.postcard_described.specs.{alike, of_integer, of_some};
ghost use Rattle.postcard_schema.specs.declared.leaf.Integer.TheVariants as integers;
ghost use Rattle.postcard_shape.specs.Leaves.{Without};
ghost use Rattle.postcard_wire.specs.Reading.{IsByte, IsInt, IsNum};
ghost use Rattle.postcard_wire.specs.Tree.{Byte, Int, Num};

use crate::schema::HasSchema;
use postcard_schema::Schema;
use postcard_wire::Result;
use std::alloc::Global;
use std::num::{
    NonZeroI8, NonZeroI16, NonZeroI32, NonZeroI64, NonZeroI128, NonZeroIsize, NonZeroU8,
    NonZeroU16, NonZeroU32, NonZeroU64, NonZeroU128, NonZeroUsize,
};

impl HasSchema for NonZeroU8 {
    ghost described = { of_some (Without (Byte 0) IsByte) (of_integer integers.U8) (λ t r. r.0) };

    fn schema_with(alloc: Global, _names: &[&str]) -> Result<Schema> {
        u8::schema(alloc)
    }

    ghost same = { alike };
}

impl HasSchema for NonZeroU16 {
    ghost described = { of_some (Without (Num 16 0) (IsNum 16)) (of_integer integers.U16) (λ t r. r.0) };

    fn schema_with(alloc: Global, _names: &[&str]) -> Result<Schema> {
        u16::schema(alloc)
    }

    ghost same = { alike };
}

impl HasSchema for NonZeroU32 {
    ghost described = { of_some (Without (Num 32 0) (IsNum 32)) (of_integer integers.U32) (λ t r. r.0) };

    fn schema_with(alloc: Global, _names: &[&str]) -> Result<Schema> {
        u32::schema(alloc)
    }

    ghost same = { alike };
}

impl HasSchema for NonZeroU64 {
    ghost described = { of_some (Without (Num 64 0) (IsNum 64)) (of_integer integers.U64) (λ t r. r.0) };

    fn schema_with(alloc: Global, _names: &[&str]) -> Result<Schema> {
        u64::schema(alloc)
    }

    ghost same = { alike };
}

impl HasSchema for NonZeroU128 {
    ghost described = { of_some (Without (Num 128 0) (IsNum 128)) (of_integer integers.U128) (λ t r. r.0) };

    fn schema_with(alloc: Global, _names: &[&str]) -> Result<Schema> {
        u128::schema(alloc)
    }

    ghost same = { alike };
}

impl HasSchema for NonZeroUsize {
    ghost described = { of_some (Without (Num 64 0) (IsNum 64)) (of_integer integers.U64) (λ t r. r.0) };

    fn schema_with(alloc: Global, _names: &[&str]) -> Result<Schema> {
        usize::schema(alloc)
    }

    ghost same = { alike };
}

impl HasSchema for NonZeroI8 {
    ghost described = { of_some (Without (Byte 0) IsByte) (of_integer integers.I8) (λ t r. r.0) };

    fn schema_with(alloc: Global, _names: &[&str]) -> Result<Schema> {
        i8::schema(alloc)
    }

    ghost same = { alike };
}

impl HasSchema for NonZeroI16 {
    ghost described = { of_some (Without (Int 16 (pos 0)) (IsInt 16)) (of_integer integers.I16) (λ t r. r.0) };

    fn schema_with(alloc: Global, _names: &[&str]) -> Result<Schema> {
        i16::schema(alloc)
    }

    ghost same = { alike };
}

impl HasSchema for NonZeroI32 {
    ghost described = { of_some (Without (Int 32 (pos 0)) (IsInt 32)) (of_integer integers.I32) (λ t r. r.0) };

    fn schema_with(alloc: Global, _names: &[&str]) -> Result<Schema> {
        i32::schema(alloc)
    }

    ghost same = { alike };
}

impl HasSchema for NonZeroI64 {
    ghost described = { of_some (Without (Int 64 (pos 0)) (IsInt 64)) (of_integer integers.I64) (λ t r. r.0) };

    fn schema_with(alloc: Global, _names: &[&str]) -> Result<Schema> {
        i64::schema(alloc)
    }

    ghost same = { alike };
}

impl HasSchema for NonZeroI128 {
    ghost described = { of_some (Without (Int 128 (pos 0)) (IsInt 128)) (of_integer integers.I128) (λ t r. r.0) };

    fn schema_with(alloc: Global, _names: &[&str]) -> Result<Schema> {
        i128::schema(alloc)
    }

    ghost same = { alike };
}

impl HasSchema for NonZeroIsize {
    ghost described = { of_some (Without (Int 64 (pos 0)) (IsInt 64)) (of_integer integers.I64) (λ t r. r.0) };

    fn schema_with(alloc: Global, _names: &[&str]) -> Result<Schema> {
        isize::schema(alloc)
    }

    ghost same = { alike };
}

//! The schemas of `bool`, characters and floats.

ghost use Rattle.postcard_described.specs.{alike, of_leaf};
ghost use Rattle.postcard_schema.specs.declared.leaf.Float.TheVariants as floats;
ghost use Rattle.postcard_schema.specs.declared.leaf.Leaf.TheVariants as leaves;

use crate::schema::HasSchema;
use postcard_schema::{Float, Leaf, Schema};
use postcard_wire::Result;
use std::alloc::Global;

impl HasSchema for bool {
    ghost described = { of_leaf leaves.Bool };

    fn schema_with(_alloc: Global, _names: &[&str]) -> Result<Schema> {
        Ok(Schema::Leaf(Leaf::Bool))
    }

    ghost same = { alike };
}

impl HasSchema for char {
    ghost described = { of_leaf leaves.Char };

    fn schema_with(_alloc: Global, _names: &[&str]) -> Result<Schema> {
        Ok(Schema::Leaf(Leaf::Char))
    }

    ghost same = { alike };
}

impl HasSchema for f32 {
    ghost described = { of_leaf (leaves.Float floats.F32) };

    fn schema_with(_alloc: Global, _names: &[&str]) -> Result<Schema> {
        Ok(Schema::Leaf(Leaf::Float(Float::F32)))
    }

    ghost same = { alike };
}

impl HasSchema for f64 {
    ghost described = { of_leaf (leaves.Float floats.F64) };

    fn schema_with(_alloc: Global, _names: &[&str]) -> Result<Schema> {
        Ok(Schema::Leaf(Leaf::Float(Float::F64)))
    }

    ghost same = { alike };
}

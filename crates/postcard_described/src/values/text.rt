//! The schemas of strings. An `ArrayString` refuses strings longer than its capacity.

ghost use Rattle.std.specs.Prelude.{◌≡◌, IfErr, IfOk};
ghost use Rattle.postcard_described.specs.{alike, leaf, of_leaf, of_some, short_text_inside, type_of};
ghost use Rattle.postcard_schema.specs.declared.leaf.Leaf.TheVariants as leaves;
ghost use Rattle.postcard_shape.specs.Leaves.{IsShortText};

use crate::schema::HasSchema;
use arrayvec::ArrayString;
use postcard_schema::{Leaf, Schema};
use postcard_wire::{Error, Result};
use std::alloc::Global;
use std::borrow::CowStr;
use std::boxed::BoxedStr;
use std::path::{Path, PathBuf};
use std::rc::RcStr;
use std::sync::ArcStr;

impl HasSchema for &str {
    ghost described = { of_leaf leaves.Str };

    fn schema_with(_alloc: Global, _names: &[&str]) -> Result<Schema>
        ensures typed { IfOk result (λ schema. type_of schema ≡ leaf leaves.Str) }
        ensures only_out_of_memory { IfErr result (λ e. e ≡ Error.OutOfMemory) }
    {
        Ok(Schema::Leaf(Leaf::Str))
    }

    ghost same = { alike };
}

impl HasSchema for String {
    ghost described = { of_leaf leaves.Str };

    fn schema_with(_alloc: Global, _names: &[&str]) -> Result<Schema> {
        Ok(Schema::Leaf(Leaf::Str))
    }

    ghost same = { alike };
}

impl HasSchema for BoxedStr {
    ghost described = { of_leaf leaves.Str };

    fn schema_with(_alloc: Global, _names: &[&str]) -> Result<Schema> {
        Ok(Schema::Leaf(Leaf::Str))
    }

    ghost same = { alike };
}

impl HasSchema for RcStr {
    ghost described = { of_leaf leaves.Str };

    fn schema_with(_alloc: Global, _names: &[&str]) -> Result<Schema> {
        Ok(Schema::Leaf(Leaf::Str))
    }

    ghost same = { alike };
}

impl HasSchema for ArcStr {
    ghost described = { of_leaf leaves.Str };

    fn schema_with(_alloc: Global, _names: &[&str]) -> Result<Schema> {
        Ok(Schema::Leaf(Leaf::Str))
    }

    ghost same = { alike };
}

impl HasSchema for CowStr<'_> {
    ghost described = { of_leaf leaves.Str };

    fn schema_with(_alloc: Global, _names: &[&str]) -> Result<Schema>
        ensures typed { IfOk result (λ schema. type_of schema ≡ leaf leaves.Str) }
        ensures only_out_of_memory { IfErr result (λ e. e ≡ Error.OutOfMemory) }
    {
        Ok(Schema::Leaf(Leaf::Str))
    }

    ghost same = { alike };
}

impl HasSchema for Path<'_> {
    ghost described = { of_leaf leaves.Str };

    fn schema_with(_alloc: Global, _names: &[&str]) -> Result<Schema>
        ensures typed { IfOk result (λ schema. type_of schema ≡ leaf leaves.Str) }
        ensures only_out_of_memory { IfErr result (λ e. e ≡ Error.OutOfMemory) }
    {
        Ok(Schema::Leaf(Leaf::Str))
    }

    ghost same = { alike };
}

impl HasSchema for PathBuf {
    ghost described = { of_leaf leaves.Str };

    fn schema_with(_alloc: Global, _names: &[&str]) -> Result<Schema> {
        Ok(Schema::Leaf(Leaf::Str))
    }

    ghost same = { alike };
}

impl<const CAP: usize> HasSchema for ArrayString<CAP> {
    ghost described = { of_some (IsShortText CAP) (of_leaf leaves.Str) (short_text_inside CAP) };

    fn schema_with(_alloc: Global, _names: &[&str]) -> Result<Schema> {
        Ok(Schema::Leaf(Leaf::Str))
    }

    ghost same = { alike };
}

//! The schemas of C strings: lists of bytes. A list with a zero byte is refused.

ghost use Rattle.std.specs.Prelude.{◌≡◌, IfErr, IfOk};
ghost use Rattle.std.specs.Ffi.{HasNoNul};
ghost use Rattle.postcard_described.specs.{alike, of_integer, of_seq, of_some, seq, type_of};
ghost use Rattle.postcard_described.specs.{leaf};
ghost use Rattle.postcard_schema.specs.declared.leaf.Integer.TheVariants as integers;
ghost use Rattle.postcard_schema.specs.declared.leaf.Leaf.TheVariants as leaves;
ghost use Rattle.postcard_shape.specs.Leaves.{byte};
ghost use Rattle.postcard_shape.specs.Lists.{seq as list};
ghost use Rattle.postcard_shape.specs.Only.{only};

use crate::make::seq_schema;
use crate::schema::HasSchema;
use postcard_schema::Schema;
use postcard_wire::{Error, Result};
use std::alloc::Global;
use std::ffi::{CStr, CString};

impl HasSchema for CStr<'_> {
    ghost described = { of_some (only HasNoNul (list byte)).reads
        (of_seq (of_integer integers.U8)) (λ t r. r.0) };

    fn schema_with(alloc: Global, _names: &[&str]) -> Result<Schema>
        ensures typed { IfOk result (λ schema.
            type_of schema ≡ seq (leaf (leaves.Integer integers.U8))) }
        ensures only_out_of_memory { IfErr result (λ e. e ≡ Error.OutOfMemory) }
    {
        seq_schema(alloc, u8::schema(alloc)?)
    }

    ghost same = { alike };
}

impl HasSchema for CString {
    ghost described = { of_some (only HasNoNul (list byte)).reads
        (of_seq (of_integer integers.U8)) (λ t r. r.0) };

    fn schema_with(alloc: Global, _names: &[&str]) -> Result<Schema> {
        seq_schema(alloc, u8::schema(alloc)?)
    }

    ghost same = { alike };
}

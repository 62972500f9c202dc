//! The schemas of parts in a row. An impl gives a tuple or a struct as its parts in a row.

ghost use Rattle.std.specs.Prelude.{◌≡◌, ◌<◌, ◌+◌, ◌++◌, [], length, map, IfErr, IfOk, OnOk};
ghost use Rattle.postcard_described.specs.{end_same, group, group_same, no_parts, of_parts, part_then};
ghost use Rattle.postcard_described.specs.{HasFields, row_of, then_same, type_of};
ghost use Rattle.postcard_described.specs.Described.{RowDescribed};
ghost use Rattle.postcard_described.specs.Within.{Same};

use crate::make::{group_schema, push};
use crate::schema::HasSchema;
use postcard_schema::Schema;
use postcard_shape::{Part, Parts};
use postcard_wire::{Error, Result};
use std::alloc::Global;

/// Parts in a row that each have a schema: `()`, or a `Part` of a type with [`HasSchema`], followed
/// by other parts.
pub trait SchemaParts: Parts {
    /// As in [`HasSchema`], for the parts in a row.
    ghost described: { RowDescribed };

    /// Appends the schemas of the parts.
    fn push_parts(alloc: Global, parts: &mut Vec<Schema>) -> Result<()>
        ensures added { OnOk result (map type_of parts.new.items
            ≡ map type_of parts.old.items ++ described.messages) }
        ensures only_out_of_memory { IfErr result (λ e. e ≡ Error.OutOfMemory) };

    ghost same: { Same Self.parts.reads described.has };
}

impl SchemaParts for () {
    ghost described = { no_parts };

    fn push_parts(alloc: Global, parts: &mut Vec<Schema>) -> Result<()> {
        let _ = alloc;
        let _ = parts;
        Ok(())
    }

    ghost same = { end_same };
}

impl<A: HasSchema, R: SchemaParts> SchemaParts for Part<A, R> {
    ghost described = { part_then A.described R.described };

    fn push_parts(alloc: Global, parts: &mut Vec<Schema>) -> Result<()> {
        push(A::schema(alloc)?, parts)?;
        R::push_parts(alloc, parts)
    }

    ghost same = { then_same A.same R.same };
}

/// Returns the schema of parts in a row: a struct if there is a name for each part, and else a
/// tuple.
pub fn parts_schema<P: SchemaParts>(alloc: Global, names: &[&str]) -> Result<Schema>
    ensures typed { IfOk result (λ schema. type_of schema ≡ group (row_of P.described.messages)) }
    ensures named { 0 < length names.now → length names.now ≡ length P.described.messages
        → IfOk result (HasFields names.now) }
    ensures only_out_of_memory { IfErr result (λ e. e ≡ Error.OutOfMemory) }
{
    let mut row = Vec::new(alloc);
    P::push_parts(alloc, &mut row)?;
    group_schema(alloc, names, row)
}

/// Returns the schema of two tuples in a row: that of the parts of both, with these names. A struct
/// of many fields is written in this way.
pub fn joined_schema<P: SchemaParts, Q: SchemaParts>(
    alloc: Global,
    names: &[&str],
) -> Result<Schema>
    ensures typed { IfOk result (λ schema.
        type_of schema ≡ group (row_of (P.described.messages ++ (Q.described.messages ++ [])))) }
    ensures named { 0 < length names.now
        → length names.now ≡ length P.described.messages + length Q.described.messages
        → IfOk result (HasFields names.now) }
    ensures only_out_of_memory { IfErr result (λ e. e ≡ Error.OutOfMemory) }
{
    let mut parts = Vec::new(alloc);
    P::push_parts(alloc, &mut parts)?;
    Q::push_parts(alloc, &mut parts)?;
    group_schema(alloc, names, parts)
}

impl<A: HasSchema, R: SchemaParts> HasSchema for Part<A, R> {
    ghost described = { of_parts (part_then A.described R.described) };

    fn schema_with(alloc: Global, names: &[&str]) -> Result<Schema> {
        parts_schema::<Part<A, R>>(alloc, names)
    }

    ghost same = { group_same (then_same A.same R.same) };
}

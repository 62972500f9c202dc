//! The schemas of the variants of enums. An impl gives an enum as its variants in a row.

ghost use Rattle.std.specs.Prelude.{◌≡◌, ◌++◌, ℕ, length, map, IfErr, IfOk, OnOk};
ghost use Rattle.postcard_described.specs.{alike, case_same, case_then, choice, contents, no_cases};
ghost use Rattle.postcard_described.specs.{HasVariants, first_text, names_of, of_cases, row_of};
ghost use Rattle.postcard_described.specs.{type_of, units, variants_same};
ghost use Rattle.postcard_described.specs.Described.{CasesDescribed};
ghost use Rattle.postcard_described.specs.Within.{Same};

use crate::make::{choice_schema, push_named};
use crate::schema::HasSchema;
use postcard_schema::{Schema, Variant};
use postcard_shape::{Case, Cased, NoCase};
use postcard_wire::{Error, Result};
use std::alloc::Global;

/// The name of a variant, and the names of its fields.
pub type VariantName<'a> = (&'a str, &'a [&'a str]);

/// Variants in a row whose contents each have a schema: `NoCase`, or a `Case` of a type with
/// [`HasSchema`], followed by others.
pub trait SchemaCases: Cased {
    /// As in [`HasSchema`], for the content at each index.
    ghost described: { CasesDescribed };

    /// Appends the schemas of the variants with these names. A variant past the last name has an
    /// empty name.
    fn push_cases(
        alloc: Global,
        names: &[VariantName<'_>],
        variants: &mut Vec<Variant>,
    ) -> Result<()>
        ensures added { OnOk result (map type_of (contents variants.new.items)
            ≡ map type_of (contents variants.old.items) ++ described.messages) }
        ensures named { length names.now ≡ length described.messages → OnOk result
            (names_of variants.new.items ≡ names_of variants.old.items ++ map first_text names.now) }
        ensures only_out_of_memory { IfErr result (λ e. e ≡ Error.OutOfMemory) };

    ghost same: { (i : ℕ) → Same (Self.cases.reads i) (described.has i) };
}

impl SchemaCases for NoCase {
    ghost described = { no_cases };

    fn push_cases(
        alloc: Global,
        names: &[VariantName<'_>],
        variants: &mut Vec<Variant>,
    ) -> Result<()> {
        let _ = alloc;
        let _ = names;
        let _ = variants;
        Ok(())
    }

    ghost same = { λ i. alike };
}

impl<A: HasSchema, R: SchemaCases> SchemaCases for Case<A, R> {
    ghost described = { case_then A.described R.described };

    fn push_cases(
        alloc: Global,
        names: &[VariantName<'_>],
        variants: &mut Vec<Variant>,
    ) -> Result<()> {
        match names {
            [] => {
                push_named(alloc, "", A::schema(alloc)?, variants)?;
                R::push_cases(alloc, names, variants)
            }
            [(name, fields), rest @ ..] => {
                push_named(alloc, name, A::schema_with(alloc, fields)?, variants)?;
                R::push_cases(alloc, rest, variants)
            }
        }
    }

    ghost same = { case_same A.same R.same };
}

/// Returns the schema of an enum of variants in a row with these names.
pub fn enum_schema<C: SchemaCases>(alloc: Global, names: &[VariantName<'_>]) -> Result<Schema>
    ensures typed { IfOk result (λ schema. type_of schema
        ≡ choice (row_of C.described.messages)) }
    ensures named { length names.now ≡ length C.described.messages
        → IfOk result (HasVariants names.now) }
    ensures only_out_of_memory { IfErr result (λ e. e ≡ Error.OutOfMemory) }
{
    let mut variants = Vec::new(alloc);
    C::push_cases(alloc, names, &mut variants)?;
    Ok(choice_schema(variants))
}

/// Returns the schema of an enum of variants without content, which have these names.
pub fn units_schema(alloc: Global, names: &[&str]) -> Result<Schema>
    ensures typed { IfOk result (λ schema.
        type_of schema ≡ choice (row_of (units (length names.now)))) }
    ensures only_out_of_memory { IfErr result (λ e. e ≡ Error.OutOfMemory) }
{
    let mut variants = Vec::new(alloc);
    for name in names {
        push_named(alloc, name, Schema::Tuple(Vec::new(alloc)), &mut variants)?;
    }
    Ok(choice_schema(variants))
}

impl<A: HasSchema, R: SchemaCases> HasSchema for Case<A, R> {
    ghost described = { of_cases (case_then A.described R.described) };

    fn schema_with(alloc: Global, names: &[&str]) -> Result<Schema> {
        let _ = names;
        enum_schema::<Case<A, R>>(alloc, &[])
    }

    ghost same = { variants_same (case_same A.same R.same) };
}

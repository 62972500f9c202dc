//! The schemas of options and results.

ghost use Rattle.postcard_described.specs.{of_option, of_result, option_same, result_same};
ghost use Rattle.postcard_described.specs.{variants_same};

use crate::make::{choice_schema, option_schema, push_named};
use crate::schema::HasSchema;
use postcard_schema::Schema;
use std::alloc::Global;

impl<T: HasSchema> HasSchema for Option<T> {
    ghost described = { of_option T.described };

    fn schema_with(alloc: Global, _names: &[&str]) -> postcard_wire::Result<Schema> {
        option_schema(alloc, T::schema(alloc)?)
    }

    ghost same = { option_same T.same };
}

impl<T: HasSchema, E: HasSchema> HasSchema for Result<T, E> {
    ghost described = { of_result T.described E.described };

    fn schema_with(alloc: Global, _names: &[&str]) -> postcard_wire::Result<Schema> {
        let mut variants = Vec::new(alloc);
        push_named(alloc, "Ok", T::schema(alloc)?, &mut variants)?;
        push_named(alloc, "Err", E::schema(alloc)?, &mut variants)?;
        Ok(choice_schema(variants))
    }

    ghost same = { variants_same (result_same T.same E.same) };
}

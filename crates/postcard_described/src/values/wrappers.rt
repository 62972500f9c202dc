//! The schemas of types that hold one value of another, or point to it: that of the value.

use crate::schema::HasSchema;
use postcard_schema::Schema;
use postcard_wire::Result;
use std::alloc::Global;
use std::borrow::Cow;
use std::cmp::Reverse;
use std::num::{Saturating, Wrapping};
use std::rc::Rc;
use std::sync::Arc;

impl<T: HasSchema> HasSchema for &T {
    ghost described = { T.described };

    fn schema_with(alloc: Global, names: &[&str]) -> Result<Schema> {
        T::schema_with(alloc, names)
    }

    ghost same = { T.same };
}

impl<T: HasSchema> HasSchema for &mut T {
    ghost described = { T.described };

    fn schema_with(alloc: Global, names: &[&str]) -> Result<Schema> {
        T::schema_with(alloc, names)
    }

    ghost same = { T.same };
}

impl<T: HasSchema> HasSchema for Box<T> {
    ghost described = { T.described };

    fn schema_with(alloc: Global, names: &[&str]) -> Result<Schema> {
        T::schema_with(alloc, names)
    }

    ghost same = { T.same };
}

impl<T: HasSchema> HasSchema for Rc<T> {
    ghost described = { T.described };

    fn schema_with(alloc: Global, names: &[&str]) -> Result<Schema> {
        T::schema_with(alloc, names)
    }

    ghost same = { T.same };
}

impl<T: HasSchema> HasSchema for Arc<T> {
    ghost described = { T.described };

    fn schema_with(alloc: Global, names: &[&str]) -> Result<Schema> {
        T::schema_with(alloc, names)
    }

    ghost same = { T.same };
}

impl<T: HasSchema> HasSchema for Cow<'_, T> {
    ghost described = { T.described };

    fn schema_with(alloc: Global, names: &[&str]) -> Result<Schema> {
        T::schema_with(alloc, names)
    }

    ghost same = { T.same };
}

impl<T: HasSchema> HasSchema for Wrapping<T> {
    ghost described = { T.described };

    fn schema_with(alloc: Global, names: &[&str]) -> Result<Schema> {
        T::schema_with(alloc, names)
    }

    ghost same = { T.same };
}

impl<T: HasSchema> HasSchema for Saturating<T> {
    ghost described = { T.described };

    fn schema_with(alloc: Global, names: &[&str]) -> Result<Schema> {
        T::schema_with(alloc, names)
    }

    ghost same = { T.same };
}

impl<T: HasSchema> HasSchema for Reverse<T> {
    ghost described = { T.described };

    fn schema_with(alloc: Global, names: &[&str]) -> Result<Schema> {
        T::schema_with(alloc, names)
    }

    ghost same = { T.same };
}

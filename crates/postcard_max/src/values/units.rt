//! The greatest size of types with one value, for which nothing is written: 0.

ghost use Rattle.postcard_max.specs.{end_lawful, exactly, group_lawful};

use crate::max_size::MaxSize;
use std::marker::PhantomData;

impl MaxSize for () {
    ghost limit = { exactly 0 };

    fn postcard_max_size() -> Option<usize> {
        Some(0)
    }

    fn in_forms(&self) {}

    ghost lawful = { group_lawful end_lawful };
}

impl<T> MaxSize for PhantomData<T> {
    ghost limit = { exactly 0 };

    fn postcard_max_size() -> Option<usize> {
        <()>::postcard_max_size()
    }

    fn in_forms(&self) {}

    ghost lawful = { group_lawful end_lawful };
}

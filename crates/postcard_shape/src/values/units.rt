//! The shapes of types with one value, for which nothing is written.

ghost use Rattle.postcard_shape.specs.{group, none};

use crate::shape::Shaped;
use std::marker::PhantomData;

impl Shaped for () {
    ghost shape = { group none };
}

impl<T> Shaped for PhantomData<T> {
    ghost shape = { group none };
}

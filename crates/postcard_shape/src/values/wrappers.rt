//! The shapes of types that hold one value of another, or point to it: that of the value.

ghost use Rattle.postcard_shape.specs.{cow_value, growing, via};

use crate::shape::{Repr, Shaped};
use std::borrow::Cow;
use std::cmp::Reverse;
use std::num::{Saturating, Wrapping};
use std::rc::Rc;
use std::sync::Arc;

impl<T: Shaped> Repr for &T {
    type As = T;

    ghost repr = { λ v. v.now };
}

impl<T: Shaped> Repr for &mut T {
    type As = T;

    ghost repr = { λ v. v.now };
}

impl<T: Shaped> Shaped for Box<T> {
    ghost shape = { via (λ v. v.value) (growing T.shape) };
}

impl<T: Shaped> Shaped for Rc<T> {
    ghost shape = { via (λ v. v.value) (growing T.shape) };
}

impl<T: Shaped> Repr for Wrapping<T> {
    type As = T;

    ghost repr = { λ v. v.0 };
}

impl<T: Shaped> Repr for Reverse<T> {
    type As = T;

    ghost repr = { λ v. v.0 };
}

impl<T: Shaped> Repr for Saturating<T> {
    type As = T;

    ghost repr = { λ v. v.0 };
}

impl<T: Shaped> Shaped for Arc<T> {
    ghost shape = { via (λ v. v.value) (growing T.shape) };
}

impl<T: Shaped> Repr for Cow<'_, T> {
    type As = T;

    ghost repr = { λ v. cow_value v };
}

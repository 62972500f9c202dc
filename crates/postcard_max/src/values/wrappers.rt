//! The greatest sizes of types that hold one value of another, or point to it: that of the value.

ghost use Rattle.postcard_max.specs.{via_lawful};

use crate::max_size::{MaxSize, MaxSizeRepr};
use std::borrow::Cow;
use std::cmp::Reverse;
use std::num::{Saturating, Wrapping};
use std::rc::Rc;
use std::sync::Arc;

impl<T: MaxSize> MaxSizeRepr for &T {
    fn in_forms_repr(&self) {
        (**self).in_forms();
    }
}

impl<T: MaxSize> MaxSizeRepr for &mut T {
    fn in_forms_repr(&self) {
        (**self).in_forms();
    }
}

impl<T: MaxSize> MaxSize for Box<T> {
    ghost limit = { T.limit };

    fn postcard_max_size() -> Option<usize> {
        T::postcard_max_size()
    }

    fn in_forms(&self) {
        self.as_ref().in_forms();
    }

    ghost lawful = { via_lawful (λ v. v.value) T.lawful };
}

impl<T: MaxSize> MaxSize for Rc<T> {
    ghost limit = { T.limit };

    fn postcard_max_size() -> Option<usize> {
        <T as MaxSize>::postcard_max_size()
    }

    fn in_forms(&self) {
        let shared: &T = self;
        shared.in_forms();
    }

    ghost lawful = { via_lawful (λ v. v.value) T.lawful };
}

impl<T: MaxSize> MaxSizeRepr for Wrapping<T> {
    fn in_forms_repr(&self) {
        self.0.in_forms();
    }
}

impl<T: MaxSize> MaxSizeRepr for Reverse<T> {
    fn in_forms_repr(&self) {
        let Reverse(value) = self;
        value.in_forms();
    }
}

impl<T: MaxSize> MaxSizeRepr for Saturating<T> {
    fn in_forms_repr(&self) {
        let Saturating(number) = self;
        number.in_forms();
    }
}

impl<T: MaxSize> MaxSize for Arc<T> {
    ghost limit = { T.limit };

    fn postcard_max_size() -> Option<usize> {
        <T>::postcard_max_size()
    }

    fn in_forms(&self) {
        let held: &T = self;
        held.in_forms();
    }

    ghost lawful = { via_lawful (λ v. v.value) T.lawful };
}

impl<T: MaxSize> MaxSizeRepr for Cow<'_, T> {
    fn in_forms_repr(&self) {
        match self {
            Cow::Borrowed(value) => value.in_forms(),
            Cow::Owned(value) => value.in_forms(),
        }
    }
}

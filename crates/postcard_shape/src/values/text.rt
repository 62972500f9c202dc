//! The shapes of texts: borrowed, owned, and shared.

ghost use Rattle.postcard_shape.specs.{arc_str_bytes, boxed_str_bytes, cow_str_bytes, growing};
ghost use Rattle.postcard_shape.specs.{rc_str_bytes, string_bytes, text, via};

use crate::shape::Shaped;
use std::borrow::CowStr;
use std::boxed::BoxedStr;
use std::rc::RcStr;
use std::sync::ArcStr;

impl Shaped for &str {
    ghost shape = { via (λ v. v.now) text };
}

impl Shaped for String {
    ghost shape = { via (λ v. string_bytes v) (growing text) };
}

impl Shaped for BoxedStr {
    ghost shape = { via (λ v. boxed_str_bytes v) (growing text) };
}

impl Shaped for RcStr {
    ghost shape = { via (λ v. rc_str_bytes v) (growing text) };
}

impl Shaped for ArcStr {
    ghost shape = { via (λ v. arc_str_bytes v) (growing text) };
}

impl Shaped for CowStr<'_> {
    ghost shape = { via (λ v. cow_str_bytes v) (growing text) };
}

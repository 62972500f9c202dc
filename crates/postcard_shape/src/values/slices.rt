//! The shapes of slices in a box, an `Rc` or an `Arc`, and of slices that may be borrowed: those of
//! lists.

ghost use Rattle.postcard_shape.specs.{arc_slice_items, boxed_slice_items, cow_slice_items};
ghost use Rattle.postcard_shape.specs.{growing, rc_slice_items, seq, via};

use crate::shape::Shaped;
use std::borrow::CowSlice;
use std::boxed::BoxedSlice;
use std::rc::RcSlice;
use std::sync::ArcSlice;

impl<T: Shaped> Shaped for BoxedSlice<T> {
    ghost shape = { via (λ v. boxed_slice_items v) (growing (seq T.shape)) };
}

impl<T: Shaped> Shaped for RcSlice<T> {
    ghost shape = { via (λ v. rc_slice_items v) (growing (seq T.shape)) };
}

impl<T: Shaped> Shaped for ArcSlice<T> {
    ghost shape = { via (λ v. arc_slice_items v) (growing (seq T.shape)) };
}

impl<T: Shaped> Shaped for CowSlice<'_, T> {
    ghost shape = { via (λ v. cow_slice_items v) (growing (seq T.shape)) };
}

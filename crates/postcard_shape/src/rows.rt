//! Parts in a row, as a type: what tuples of any length are written and read as.

ghost use Rattle.postcard_shape.specs.{Row, along, group, none, then};

use crate::shape::Shaped;

/// A part, followed by the other parts. The last is followed by `()`.
#[derive(Drop)]
pub struct Part<A, R>(pub A, pub R);

/// Parts in a row: `()`, or a [`Part`] of a type that is [`Shaped`], followed by other parts.
pub trait Parts {
    /// The trees of the parts, in order, and the laws that tie them to the values.
    ghost parts: { Row Self };
}

impl Parts for () {
    ghost parts = { none };
}

impl<A: Shaped, R: Parts> Parts for Part<A, R> {
    ghost parts = { along (λ v. (v.0, v.1)) (then A.shape R.parts) };
}

impl<A: Shaped, R: Parts> Shaped for Part<A, R> {
    ghost shape = { group (along (λ v. (v.0, v.1)) (then A.shape R.parts)) };
}

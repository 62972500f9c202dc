//! The variants of an enum in a row, as a type: what enums are written and read as.

ghost use Rattle.postcard_shape.specs.Cases.{Cases, no_case, case, variants};

use crate::shape::Shaped;

/// The first variant's content (`This`), or one of the variants after it (`Next`). The last is
/// followed by [`NoCase`].
///
/// An enum `Boot | Reading(u16, i32)` is seen as `Case<(), Case<(u16, i32), NoCase>>`, and a value
/// `Reading(1, 2)` of it as `Next(This((1, 2)))`. The index of a variant is the count of `Next`.
#[derive(Drop)]
pub enum Case<A, R> {
    This(A),
    Next(R),
}

/// No variant: a type without values.
#[derive(Drop)]
pub enum NoCase {}

/// Variants in a row: [`NoCase`], or a [`Case`] of a type that is [`Shaped`], followed by others.
pub trait Cased {
    /// The index and the content of each value, and the laws that tie them to the value.
    ghost cases: { Cases Self };
}

impl Cased for NoCase {
    ghost cases = { no_case };
}

impl<A: Shaped, R: Cased> Cased for Case<A, R> {
    ghost cases = { case A.shape R.cases };
}

impl<A: Shaped, R: Cased> Shaped for Case<A, R> {
    ghost shape = { variants (case A.shape R.cases) };
}

//! The shapes of options and results.

ghost use Rattle.postcard_shape.specs.{option, result};

use crate::shape::Shaped;

impl<T: Shaped> Shaped for Option<T> {
    ghost shape = { option T.shape };
}

impl<T: Shaped, E: Shaped> Shaped for Result<T, E> {
    ghost shape = { result T.shape E.shape };
}

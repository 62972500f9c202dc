//! The shape of errors: an enum without content, by the index of each.

ghost use Rattle.postcard_shape.specs.{enumeration, error_at, error_back, error_index};

use crate::shape::Shaped;
use postcard_wire::Error;

impl Shaped for Error {
    ghost shape = { enumeration 17 error_index error_at error_back };
}

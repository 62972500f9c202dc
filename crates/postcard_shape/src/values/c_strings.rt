//! The shapes of the texts of C: the list of their bytes without the NUL at the end, of which none
//! is 0.

ghost use Rattle.postcard_shape.specs.{HasNoNul, byte, c_str_bytes, c_string_bytes, growing, only};
ghost use Rattle.postcard_shape.specs.{seq, via};

use crate::shape::Shaped;
use std::ffi::{CStr, CString};

impl Shaped for CStr<'_> {
    ghost shape = { via (λ v. c_str_bytes v) (only HasNoNul (seq byte)) };
}

impl Shaped for CString {
    ghost shape = { via (λ v. c_string_bytes v) (growing (only HasNoNul (seq byte))) };
}

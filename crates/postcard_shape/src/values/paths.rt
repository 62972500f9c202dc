//! The shapes of paths, which are texts.

ghost use Rattle.postcard_shape.specs.{growing, path_buf_bytes, path_bytes, text, via};

use crate::shape::Shaped;
use std::path::{Path, PathBuf};

impl Shaped for Path<'_> {
    ghost shape = { via (λ v. path_bytes v) text };
}

impl Shaped for PathBuf {
    ghost shape = { via (λ v. path_buf_bytes v) (growing text) };
}

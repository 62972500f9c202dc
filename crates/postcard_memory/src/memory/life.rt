//! How long bytes are lent.

use std::marker::{Move, Owns};

/// A `&'a Life` shows that the bytes are lent for `'a`. No `Life` exists except by reference.
pub struct Life {}

impl Owns for Life {
    ghost use base.Fml.{Lft};
    ghost use denote.Sharing.{ends};

    ghost Value = { Lft };

    ghost shr_at = { λ time _ κ. ends time κ };
}

impl Move for Life {
    ghost use base.Fml.{ffalse};

    ghost own_val = { λ _ _. ffalse };
}

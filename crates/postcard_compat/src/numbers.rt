//! Whether one type without parts reads what another one writes: [`leaf_serves`].

ghost use Rattle.std.specs.Prelude.{◌≡◌, true};
ghost use Rattle.postcard_compat.specs.{Serves, integer_leaf, leaf};

use postcard_schema::{Integer, Leaf};

/// Returns `true` if the new type reads each message of the old one as the same. `false` promises
/// nothing.
///
/// A varint is read by a wider type of the same sign. A number of 8 bits is a byte and not a varint.
pub fn leaf_serves(old: Leaf, new: Leaf) -> bool
    ensures { result ≡ true → Serves (leaf new) (leaf old) }
{
    if old == new {
        return true;
    }
    match (old, new) {
        (Leaf::Integer(old), Leaf::Integer(new)) => varint_serves(old, new),
        _ => false,
    }
}

/// Returns `true` if each varint of the old type is one of the new type, and the same number.
fn varint_serves(old: Integer, new: Integer) -> bool
    ensures { result ≡ true → Serves (integer_leaf new) (integer_leaf old) }
{
    if old.size() < 2 {
        return false;
    }
    if old.size() > new.size() {
        return false;
    }
    old.is_signed() == new.is_signed()
}

//! Whether a new version of a type reads the first bytes of what the old version wrote:
//! [`serves_front`].

ghost use Rattle.std.specs.Prelude.{◌≡◌, true};
ghost use Rattle.postcard_compat.specs.{AllServeFront, ServesFront, parts_of, type_of, types_of};

use crate::row::Row;
use crate::serves;
use postcard_schema::Schema;

/// Returns `true` if each message of the old type begins with a message of the new type. The new
/// message says the beginning of what the old one says. `false` promises nothing.
///
/// The new type may lack the last parts of the old one. Each of its parts serves the one at its
/// place.
///
/// # Examples
///
/// ```rust
/// let old = parse(rt.alloc(), "{id: u16, on: bool}").expect(&rt, "a type");
/// let new = parse(rt.alloc(), "{id: u32}").expect(&rt, "a type");
/// assert!(rt; serves_front(&old, &new));
/// ```
pub fn serves_front(old: &Schema, new: &Schema) -> bool
    ensures { result ≡ true → ServesFront (type_of new.now) (type_of old.now) }
{
    parts_begin(Row::of(old), Row::of(new))
}

/// Returns `true` if each part of the new row serves the part at its place in the old row. The old
/// row may be longer.
fn parts_begin(old: Row<'_>, new: Row<'_>) -> bool
    ensures { result ≡ true → AllServeFront (types_of (parts_of new.entry))
        (types_of (parts_of old.entry)) }
{
    for index in 0..new.len() {
        let Some(other) = new.get(index) else {
            return false;
        };
        let Some(part) = old.get(index) else {
            return false;
        };
        if !serves(part, other) {
            return false;
        }
    }
    true
}

//! Whether a new version of a type reads what the old version wrote.
//!
//! Take three steps. [`flattened`] removes nested groups from both types. Then [`serves`] compares
//! the two: if it returns `true`, the new type reads each message of the old type, and the message
//! says the same. If it returns `false`, [`serves_front`] tells whether the new type reads the
//! beginning of each message. `false` promises nothing.
//!
//! Types that aren't flattened may be compared, too. Then `((u8, u8), u8)` and `(u8, u8, u8)` aren't
//! recognized as the same.
//!
//! [`both`] finds a type that reads the messages of two versions. The [`laws`] say what follows for
//! the bytes. `specs/Said.antt` defines what a message says, and `specs/Serving.antt` when a type
//! serves another. Names take no bytes, so these calls don't compare them.
//!
//! [`compare`] takes all of these steps. It returns a verdict, the [`differences`] with their
//! paths, and an [`Example`]. An example is a message of the old type, and what the new type makes
//! of it. This call compares names, too. `specs/Comparing.antt` defines what a verdict means.
#![tactic(auto)]

ghost use Rattle.std.specs.Prelude.{◌≡◌, true};
ghost use Rattle.postcard_compat.specs.{Serves, VariantsServe, contents, parts_of, type_of};
ghost use Rattle.postcard_compat.specs.{types_of};

mod candidates;
pub mod change;
pub mod common;
pub mod comparison;
pub mod example;
pub mod flat;
pub mod front;
pub mod laws;
mod numbers;
mod row;
pub mod walk;
pub mod word;

pub use change::{Change, Difference, Kind, Turn, Variant};
pub use common::both;
pub use comparison::{Comparison, Verdict, compare};
pub use example::{Example, Reading, example_of};
pub use flat::flattened;
pub use front::serves_front;
use numbers::leaf_serves;
use postcard_schema::{Named, Schema};
use row::{Row, option_content};
pub use walk::{Changes, differences};
pub use word::{Word, words};

/// Returns `true` if the new type reads every message of the old one, in every encoding, as a
/// message that says the same. `false` promises nothing.
///
/// Integers may become wider, and an enum may have more variants. An option may become an enum: its
/// first variant has no bytes, and its second variant has the value. Structs and tuples are
/// compared by their parts. All else in the two types must be equal.
///
/// # Examples
///
/// ```rust
/// let old = parse(rt.alloc(), "{id: u16, on: bool}").expect(&rt, "a type");
/// let new = parse(rt.alloc(), "{id: u32, on: bool}").expect(&rt, "a type");
/// assert!(rt; serves(&old, &new));
/// assert!(rt; !serves(&new, &old));
/// ```
#[cycle(serves)]
pub fn serves(old: &Schema, new: &Schema) -> bool
    ensures { result ≡ true → Serves (type_of new.now) (type_of old.now) }
{
    match old {
        Schema::Leaf(old) => match new {
            Schema::Leaf(new) => leaf_serves(*old, *new),
            _ => false,
        },
        Schema::Option(old) => match option_content(new) {
            Some(new) => serves(old, new),
            None => false,
        },
        Schema::Seq(old) => match new {
            Schema::Seq(new) => serves(old, new),
            _ => false,
        },
        Schema::Map(old_key, old_value) => match new {
            Schema::Map(key, value) => serves(old_key, key) && serves(old_value, value),
            _ => false,
        },
        Schema::Array(old, old_count) => match new {
            Schema::Array(new, count) => old_count == count && serves(old, new),
            _ => false,
        },
        Schema::Tuple(old) => {
            let new = Row::of(new);
            old.len() == new.len() && parts_serve(old, new)
        }
        Schema::Struct(old) => {
            let new = Row::of(new);
            old.len() == new.len() && named_serve(old, new)
        }
        Schema::Enum(old) => match new {
            Schema::Enum(new) => named_serve(old, Row::Named(new)),
            _ => false,
        },
    }
}

/// Returns `true` if each old part is served by the part at its place in the new row.
#[cycle(serves)]
fn parts_serve(old: &Vec<Schema>, new: Row<'_>) -> bool
    ensures { result ≡ true → VariantsServe (types_of (parts_of new.entry))
        (types_of old.now.items) }
{
    for (index, part) in old.iter().enumerate() {
        let Some(other) = new.get(index) else {
            return false;
        };
        if !serves(part, other) {
            return false;
        }
    }
    true
}

/// Returns `true` if each old field or variant is served by the part at its place in the new row.
#[cycle(serves)]
fn named_serve(old: &Vec<Named<Schema>>, new: Row<'_>) -> bool
    ensures { result ≡ true → VariantsServe (types_of (parts_of new.entry))
        (types_of (contents old.now.items)) }
{
    for (index, part) in old.iter().enumerate() {
        let Some(other) = new.get(index) else {
            return false;
        };
        if !serves(&part.content, other) {
            return false;
        }
    }
    true
}

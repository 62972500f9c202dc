//! Laws of schemas. Each law is the contract of a function that does nothing.

ghost use Rattle.std.specs.Prelude.{ℕ, List};
ghost use Rattle.postcard_described.specs.{reads};
ghost use Rattle.postcard_described.specs.Messages.{IsMessage};

use crate::schema::HasSchema;

/// The messages of a type are messages of its schema. If the type is exact, the messages of the
/// schema are those of the type.
pub fn same_messages<T: HasSchema>()
    ensures inside { (p : List ℕ) → IsMessage T.shape.reads p
        → IsMessage (reads T.described.message) p }
    ensures all { T.described.exact → (p : List ℕ) → IsMessage (reads T.described.message) p
        → IsMessage T.shape.reads p }
{}

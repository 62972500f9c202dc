//! The trait of types that have a schema.

ghost use Rattle.std.specs.Prelude.{◌≡◌, IfErr, IfOk};
ghost use Rattle.postcard_described.specs.{type_of};
ghost use Rattle.postcard_described.specs.Described.{Described};
ghost use Rattle.postcard_described.specs.Within.{Same};

use postcard_schema::Schema;
use postcard_shape::Shaped;
use postcard_wire::{Error, Result};
use std::alloc::Global;

/// A type that has a schema.
pub trait HasSchema: Shaped {
    /// The type of its messages, and the law: each tree that the type reads is a tree of its
    /// schema. If the type is exact, it reads each tree of its schema.
    ghost described: { Described };

    /// Returns the schema. If the type is written as a tuple, and `names` has one name for each
    /// part, it is a struct with these names.
    ///
    /// # Errors
    ///
    /// Fails with `OutOfMemory` if an allocation fails.
    fn schema_with(alloc: Global, names: &[&str]) -> Result<Schema>
        ensures typed { IfOk result (λ schema. type_of schema ≡ described.message) }
        ensures only_out_of_memory { IfErr result (λ e. e ≡ Error.OutOfMemory) };

    /// Returns the schema. Fails as `schema_with`.
    final fn schema(alloc: Global) -> Result<Schema>
        ensures typed { IfOk result (λ schema. type_of schema ≡ described.message) }
        ensures only_out_of_memory { IfErr result (λ e. e ≡ Error.OutOfMemory) }
    {
        Self::schema_with(alloc, &[])
    }

    /// The trees that are described are those that the type reads.
    ghost same: { Same Self.shape.reads described.has };
}

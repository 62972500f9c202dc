//! The sizes of a type that is known only at run time: its messages have at least [`min_size`] and
//! at most [`max_size`] bytes. [`endless_parts`] lists the parts that have no greatest size.
#![tactic(auto)]

ghost use Rattle.std.specs.Prelude.{◌≡◌};
ghost use Rattle.postcard_schema_size.specs.{AreBounded, IsLeastSize, IsReached, limit, reads};
ghost use Rattle.postcard_schema_size.specs.{type_of};

pub mod endless;
mod sizes;
mod walk;

pub use endless::endless_parts;
use postcard_schema::Schema;
use walk::sizes_of;

/// Returns the greatest number of bytes of a message of the type, or `None` if none is known. A
/// type that contains a string, a byte string, a list or an enum without variants has none. Nor has
/// one whose number does not fit `usize`.
///
/// No message is longer. If the indices of all variants are below 2^32, some message has this size.
pub fn max_size(schema: &Schema) -> Option<usize>
    ensures greatest { result ≡ (limit (type_of schema.now)).greatest }
    ensures bounded { AreBounded result (reads (type_of schema.now)) }
    ensures is_reached { (limit (type_of schema.now)).reached
        → IsReached result (reads (type_of schema.now)) }
{
    sizes_of(schema).greatest
}

/// Returns the least number of bytes of a message of the type. Returns `None` if that does not fit
/// `usize`, or if the type has no message, as an enum without variants.
///
/// No message is shorter, and some message has this size.
pub fn min_size(schema: &Schema) -> Option<usize>
    ensures { IsLeastSize result (reads (type_of schema.now)) }
{
    sizes_of(schema).least
}

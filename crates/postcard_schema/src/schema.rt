//! Types with parts.

ghost use Rattle.std.specs.Prelude.{◌≡◌};
ghost use Rattle.postcard_schema.specs.{contents, has_bytes, some_has_bytes, type_of, types_of};

use crate::leaf::Leaf;

/// A name and the type or schema that it names. Names are kept for printing, and take no bytes in
/// the format.
#[derive(Debug, Drop)]
pub struct Named<T> {
    /// The name of a field or a variant.
    pub name: String,
    /// The type of the field, or of the variant's content.
    pub content: T,
}

/// A field of a struct: its name and its type.
pub type Field = Named<Schema>;

/// A variant of an enum: its name and the type of its content. The content of a variant without
/// any, such as `Boot`, is the unit: [`Schema::Tuple`] without parts.
pub type Variant = Named<Schema>;

/// The type of a message.
#[derive(Debug, Drop)]
pub enum Schema {
    /// A type without parts.
    Leaf(Leaf),
    /// `T?`: no value, or a value of `T`.
    Option(Box<Schema>),
    /// `[T]`: a list, written as the number of elements and then the elements.
    Seq(Box<Schema>),
    /// `{K => V}`: a map, written as the number of entries and then the entries, each as its key and
    /// then its value. Entries keep their order, and equal keys may occur.
    Map(Box<Schema>, Box<Schema>),
    /// `[T; N]`: an array, written as its `N` elements without a count.
    Array(Box<Schema>, usize),
    /// `(T, U)` or the unit `()`: a tuple, written as its parts in order.
    Tuple(Vec<Schema>),
    /// `{name: T, ..}`: a struct, written as its fields in order.
    Struct(Vec<Field>),
    /// `Boot | Reading(u16, i32)`: an enum, written as the index of the variant, counted from 0,
    /// and then the variant's content.
    Enum(Vec<Variant>),
}

impl Schema {
    /// Returns `true` if every message of the type has at least one byte, and `false` if the type's
    /// only message is empty, as for `()`.
    #[cycle(has_bytes)]
    pub fn has_bytes(&self) -> bool
        ensures { result ≡ has_bytes (type_of self.now) }
    {
        match self {
            Schema::Array(element, count) => *count > 0 && element.has_bytes(),
            Schema::Tuple(parts) => part_has_bytes(parts),
            Schema::Struct(fields) => field_has_bytes(fields),
            _ => true,
        }
    }
}

/// Returns whether one of the parts has at least one byte in every message.
#[cycle(has_bytes)]
fn part_has_bytes(parts: &Vec<Schema>) -> bool
    ensures { result ≡ some_has_bytes (types_of parts.now.items) }
{
    for part in parts {
        if part.has_bytes() {
            return true;
        }
    }
    false
}

/// Returns whether one of the fields has at least one byte in every message.
#[cycle(has_bytes)]
fn field_has_bytes(fields: &Vec<Field>) -> bool
    ensures { result ≡ some_has_bytes (types_of (contents fields.now.items)) }
{
    for field in fields {
        if field.content.has_bytes() {
            return true;
        }
    }
    false
}

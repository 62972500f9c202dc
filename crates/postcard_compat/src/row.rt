//! Types as rows of parts and as options, without their names.

ghost use Rattle.std.specs.Prelude.{◌≡◌, ◌≤◌, ◌<◌, IfNone, IfSome, get_or, length};
ghost use Rattle.postcard_compat.specs.{MessageType, SameMessages, Serves, group, option, parts_of};
ghost use Rattle.postcard_compat.specs.{type_of, types_of};

use postcard_schema::{Named, Schema};

/// Parts in order: those of a type, or the contents of variants.
#[derive(Clone, Copy)]
pub enum Row<'a> {
    /// A type that is no tuple and no struct, as its only part.
    One(&'a Schema),
    /// The parts of a tuple.
    Plain(&'a Vec<Schema>),
    /// The fields of a struct, or the variants of an enum.
    Named(&'a Vec<Named<Schema>>),
}

impl<'a> Row<'a> {
    /// Returns the parts of a type. A type that is no tuple and no struct is its only part.
    pub fn of(schema: &'a Schema) -> Row<'a>
        ensures { SameMessages (type_of schema.now) (group (types_of (parts_of result))) }
    {
        match schema {
            Schema::Tuple(parts) => Row::Plain(parts),
            Schema::Struct(fields) => Row::Named(fields),
            _ => Row::One(schema),
        }
    }

    /// Returns the number of parts.
    pub fn len(self) -> usize
        ensures { result ≡ length (parts_of self.entry) }
    {
        match self {
            Row::One(_) => 1,
            Row::Plain(parts) => parts.len(),
            Row::Named(parts) => parts.len(),
        }
    }

    /// Returns the type of the part at an index, counted from 0.
    pub fn get(self, index: usize) -> Option<&'a Schema>
        ensures part { IfSome result (λ part. (index < length (parts_of self.entry))
            × (part.now ≡ get_or (parts_of self.entry) index part.now)) }
        ensures none { IfNone result (length (parts_of self.entry) ≤ index) }
    {
        match self {
            Row::One(schema) => {
                if index > 0 {
                    return None;
                }
                Some(schema)
            }
            Row::Plain(parts) => parts.get(index),
            Row::Named(parts) => match parts.get(index) {
                Some(part) => Some(&part.content),
                None => None,
            },
        }
    }
}

/// Returns the type of the value of an option. An enum is read as an option if its first variant
/// has no bytes. The value is then the content of the second variant.
pub fn option_content(schema: &Schema) -> Option<&Schema>
    ensures { IfSome result (λ content. (x : MessageType) → Serves (type_of content.now) x
        → Serves (type_of schema.now) (option x)) }
{
    match schema {
        Schema::Option(content) => Some(content),
        Schema::Enum(variants) => {
            let absent = variants.get(0)?;
            let present = variants.get(1)?;
            if Row::of(&absent.content).len() > 0 {
                return None;
            }
            Some(&present.content)
        }
        _ => None,
    }
}

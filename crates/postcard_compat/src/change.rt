//! How a part of the old type differs from the part at its place in the new type: [`Difference`].

ghost use Rattle.std.specs.Prelude.{◌≡◌};
ghost use Rattle.postcard_compat.specs.{is_move};

use postcard_schema::{Integer, Leaf, Schema};
use std::fmt;

/// The kind of a part. It is printed as the name of a type without parts, or as one word.
#[derive(Clone, Copy, Debug)]
pub enum Kind {
    Leaf(Leaf),
    Option,
    Enum,
    /// A list or a map.
    List,
    Array,
    /// A struct or a tuple.
    Struct,
}

impl Kind {
    /// Returns what a part of this type is.
    pub(crate) fn of(schema: &Schema) -> Kind {
        match schema {
            Schema::Leaf(leaf) => Kind::Leaf(*leaf),
            Schema::Option(_) => Kind::Option,
            Schema::Seq(_) | Schema::Map(_, _) => Kind::List,
            Schema::Array(_, _) => Kind::Array,
            Schema::Tuple(_) | Schema::Struct(_) => Kind::Struct,
            Schema::Enum(_) => Kind::Enum,
        }
    }
}

impl fmt::Display for Kind {
    fn fmt<W: fmt::Write>(&self, f: &mut fmt::Formatter<W>) -> fmt::Result {
        match self {
            Kind::Leaf(leaf) => write!(f, "{leaf}"),
            Kind::Option => f.write_str("option"),
            Kind::Enum => f.write_str("enum"),
            Kind::List => f.write_str("list"),
            Kind::Array => f.write_str("array"),
            Kind::Struct => f.write_str("struct"),
        }
    }
}

/// How a part of the old type differs from the part at its place in the new type. It is printed as
/// the words after the path.
#[derive(Debug, Drop)]
pub enum Change {
    /// The new type reads the part as the same. A note.
    Widened {
        old: Kind,
        new: Kind,
    },
    /// The field has a new name. A note.
    Renamed {
        name: String,
    },
    /// The variant has a new name. A note.
    VariantRenamed {
        variant: Variant,
        name: String,
    },
    /// The enum has a further variant. A note.
    VariantAdded {
        variant: Variant,
    },
    /// Varints above `greatest` are refused.
    Narrowed {
        old: Integer,
        new: Integer,
        greatest: u128,
    },
    /// The part is read as one of another kind.
    Retyped {
        old: Kind,
        new: Kind,
    },
    /// An array has another number of elements.
    Resized {
        old: usize,
        new: usize,
    },
    /// The old type has no part at this place.
    Added {
        kind: Kind,
    },
    /// The new type has no part at this place.
    Removed {
        kind: Kind,
    },
    /// The new type has no variant with this index.
    VariantRemoved {
        variant: Variant,
    },
    /// The new type has the field's name at another place, so the message's field is read under
    /// another name.
    Moved {
        path: String,
    },
    /// The new type has the variant's name at another index, so the message's variant is read under
    /// another name.
    VariantMoved {
        variant: Variant,
        name: String,
    },
}

/// A variant of an enum, printed as `variant Percent (2)`.
#[derive(Debug, Drop)]
pub struct Variant {
    pub name: String,
    pub index: usize,
}

impl Change {
    /// Returns `true` if the new type still reads each message as the same.
    pub fn is_note(&self) -> bool {
        matches!(
            self,
            Change::Widened { .. }
                | Change::Renamed { .. }
                | Change::VariantRenamed { .. }
                | Change::VariantAdded { .. }
        )
    }

    /// Returns `true` if a name stands at another place of the new type.
    pub fn is_move(&self) -> bool
        ensures { result ≡ is_move self.now }
    {
        matches!(self, Change::Moved { .. } | Change::VariantMoved { .. })
    }
}

impl fmt::Display for Variant {
    fn fmt<W: fmt::Write>(&self, f: &mut fmt::Formatter<W>) -> fmt::Result {
        let index = self.index;
        write!(f, "variant {name} ({index})", name = &self.name)
    }
}

impl fmt::Display for Change {
    fn fmt<W: fmt::Write>(&self, f: &mut fmt::Formatter<W>) -> fmt::Result {
        match self {
            Change::Widened { old, new } => join(f, old, " is now ", new),
            Change::Renamed { name } => join(f, &"has the name", " ", name),
            Change::VariantRenamed { variant, name } => join(f, variant, " has the name ", name),
            Change::VariantAdded { variant } => join(f, variant, " is ", &"new"),
            Change::Narrowed { old, new, greatest } => write_narrowed(f, *old, *new, *greatest),
            Change::Retyped { old, new } => join(f, old, " is read as ", new),
            Change::Resized { old, new } => join(f, old, " elements are read as ", new),
            Change::Added { kind } => join(f, kind, " is ", &"new"),
            Change::Removed { kind } => join(f, kind, " is ", &"gone"),
            Change::VariantRemoved { variant } => join(f, variant, " is ", &"unknown"),
            Change::Moved { path } => join(f, &"is read", " as ", path),
            Change::VariantMoved { variant, name } => join(f, variant, " is read as ", name),
        }
    }
}

/// Prints two things, with words between them.
fn join<A: fmt::Display, B: fmt::Display, W: fmt::Write>(
    f: &mut fmt::Formatter<W>,
    first: &A,
    words: &str,
    second: &B,
) -> fmt::Result {
    write!(f, "{first}{words}{second}")
}

fn write_narrowed<W: fmt::Write>(
    f: &mut fmt::Formatter<W>,
    old: Integer,
    new: Integer,
    greatest: u128,
) -> fmt::Result {
    let (old, new) = (old.name(), new.name());
    write!(f, "{old} is read as {new}, which ends at {greatest}")
}

/// A step from a value of a flattened type to one of its parts.
#[derive(Clone, Copy, Debug)]
pub enum Turn {
    /// The part of a row with this number, counted from 0.
    Part(usize),
    /// The value of an option.
    Content,
    /// An element of a list or an array.
    Element,
    /// The content of the variant with this index.
    Variant(usize),
}

/// A part of the old type that differs from the part at its place in the new type. It is printed as
/// its path, a colon, and how it differs.
#[derive(Debug, Drop)]
pub struct Difference {
    /// The path in the old type, such as `samples[].unit`. Empty for the whole.
    pub path: String,
    /// How the part differs.
    pub what: Change,
    /// The steps that lead to the part in a message of the flattened old type.
    pub steps: Vec<Turn>,
}

impl fmt::Display for Difference {
    fn fmt<W: fmt::Write>(&self, f: &mut fmt::Formatter<W>) -> fmt::Result {
        let what = &self.what;
        if self.path.is_empty() {
            return write!(f, "the value: {what}");
        }
        write!(f, "{path}: {what}", path = &self.path)
    }
}

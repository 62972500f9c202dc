//! The two versions of a type, and the names that answers give them.

ghost use Rattle.std.specs.Prelude.{◌≡◌};
ghost use Rattle.pcard_compat.specs.{side_name};

use postcard_schema::Schema;

/// Which of the two types of a call.
#[derive(Clone, Copy, Debug, PartialEq, Eq)]
pub enum Side {
    /// The first type of the call.
    Old,
    /// The second type of the call.
    New,
}

impl Side {
    /// Returns the word for the type in an answer: `OLD` or `NEW`.
    pub fn name(self) -> &'static str
        ensures { result.now ≡ side_name self }
    {
        match self {
            Side::Old => "OLD",
            Side::New => "NEW",
        }
    }
}

/// One of the two types of a call.
#[derive(Clone, Copy, Debug)]
pub struct Version<'a> {
    /// Which one.
    pub side: Side,
    /// The type.
    pub schema: &'a Schema,
}

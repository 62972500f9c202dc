//! The text of the heads of impls and of their functions, and of the bodies that name no field.

use crate::form::Form;
use crate::item::Item;
use crate::pieces::{Lifetimes, add_arguments, add_declared};
use crate::text::Text;

/// The `ghost use` line of `via`.
pub(crate) const USE_VIA: &str = "    ghost use Rattle.postcard_shape.specs.Shape.{via};\n";

/// The head of a `serialize`, after its name.
pub(crate) const SERIALIZES: &str = "<F: postcard::ser_flavors::Flavor>(
        &self,
        serializer: &mut postcard::Serializer<F>,
    ) -> postcard::Result<()> {
";

/// The head of a `deserialize`.
pub(crate) const DESERIALIZE: &str = "    fn deserialize<F: postcard::de_flavors::Flavor>(
        alloc: std::alloc::Global,
        d: &mut postcard::Deserializer<'de, F>,
    ) -> postcard::Result<Self> {
";

/// The head of a `deserialize_owned`.
pub(crate) const DESERIALIZE_OWNED: &str =
    "    fn deserialize_owned<F: postcard::de_flavors::Flavor>(
        alloc: std::alloc::Global,
        d: &mut postcard::Deserializer<'_, F>,
    ) -> postcard::Result<Self> {
";

/// A trait of the library, whose impl is written.
#[derive(Clone, Copy)]
pub(crate) enum Trait {
    Shaped,
    Serialize,
    Deserialize,
    DeserializeOwned,
    Repr,
    FromRepr,
    SerializeRepr,
    FromParts,
}

impl Trait {
    fn name(self) -> &'static str {
        match self {
            Trait::Shaped => "postcard::Shaped",
            Trait::Serialize => "postcard::Serialize",
            Trait::Deserialize => "postcard::Deserialize<'de>",
            Trait::DeserializeOwned => "postcard::DeserializeOwned",
            Trait::Repr => "postcard::Repr",
            Trait::FromRepr => "postcard::FromRepr",
            Trait::SerializeRepr => "postcard::SerializeRepr",
            Trait::FromParts => "postcard::FromParts",
        }
    }

    /// Returns what its impl asks of each parameter.
    fn bound(self) -> &'static str {
        match self {
            Trait::Shaped | Trait::Repr => "postcard::Shaped",
            Trait::FromRepr | Trait::FromParts => "postcard::Shaped + Drop",
            Trait::Serialize | Trait::SerializeRepr => "postcard::Serialize",
            Trait::Deserialize => "postcard::Deserialize<'de>",
            Trait::DeserializeOwned => "postcard::DeserializeOwned",
        }
    }

    /// Returns the lifetimes that its impl names.
    fn lifetimes(self) -> Lifetimes {
        match self {
            Trait::Shaped | Trait::Repr | Trait::FromParts => Lifetimes::Own,
            Trait::Deserialize => Lifetimes::Read,
            _ => Lifetimes::Any,
        }
    }
}

pub(crate) fn add_head(out: &mut Text, item: &Item, of: Trait) {
    out.add("\nimpl");
    add_declared(out, item, of.lifetimes(), of.bound());
    out.add_all(&[" ", of.name(), " for "]);
    out.add(item.name);
    add_arguments(out, item, of.lifetimes());
    out.add(" {\n");
}

/// Returns whether the shape of a type names what is `seen` by its `FromParts`. That of a type with parameters
/// repeats it, since its `Shaped` doesn't ask of them to be `Drop`.
pub(crate) fn quotes_seen(item: &Item, form: Form) -> bool {
    form == Form::ByParts && item.parameters.types.is_empty()
}

/// Adds the prover's name of what is `seen` of a value.
pub(crate) fn add_seen_name(out: &mut Text, item: &Item) {
    out.add_all(&["⟦<", item.name]);
    add_arguments(out, item, Lifetimes::Own);
    out.add(" as postcard::FromParts>⟧.seen");
}

/// Adds the impl of `DeserializeOwned` for a type without parameters.
pub(crate) fn add_owned(out: &mut Text, item: &Item) {
    add_head(out, item, Trait::DeserializeOwned);
    out.add(DESERIALIZE_OWNED);
    out.add("        postcard::Deserialize::deserialize(alloc, d)\n    }\n}\n");
}

/// Adds the body of a function that reads a value by its parts, with the lifetime of what is read or with
/// none, and the end of its impl.
pub(crate) fn add_parts_body(out: &mut Text, lifetimes: Lifetimes) {
    let call = match lifetimes {
        Lifetimes::Read => "read_parts",
        _ => "read_parts_owned",
    };
    out.add_all(&["        postcard::", call, "(alloc, d)\n    }\n}\n"]);
}

//! Calls for the impls of a type of your own. `write_variant` writes a value of an enum.
//! `read_parts` reads the parts of a value, of which the type's `from_parts` makes the value.

ghost use Rattle.std.specs.Prelude.{◌≡◌, OnOk};
ghost use Rattle.postcard.specs.{Deserializes, IsVariantOf, Wrote, encoding, via};

use postcard_de::{Deserialize, DeserializeOwned, Deserializer};
use postcard_de_flavors::Flavor as DeFlavor;
use postcard_ser::{Serialize, Serializer, serialize_variant};
use postcard_ser_flavors::Flavor;
use postcard_shape::Shaped;
use postcard_wire::Result;
use std::alloc::Global;

/// Writes a value of an enum as a variant: the index as a varint of 1 to 5 bytes, and then the
/// content. `value` is for the contract alone, which requires that its type's shape gives it this
/// index and this content.
///
/// The content is `&()` for a variant without fields, and a reference to the field for one field.
/// For several it is a reference to their tuple, as in `Event::Fault { code, text } =>
/// write_variant(self, 2, &(code, text), serializer)`.
///
/// # Errors
///
/// Fails with `SerializeBufferFull` if the flavor refuses the index, and otherwise as the
/// `serialize` of the content does. What was written before the error stays in the flavor.
///
/// # Examples
///
/// ```rust
/// Step::Stay => write_variant(self, 0, &(), serializer),
/// Step::Move { x, y, speed } => write_variant(self, 1, &(x, y, speed), serializer),
/// ```
pub fn write_variant<E: Shaped, T: Serialize, F: Flavor>(
    value: &E,
    index: u32,
    content: &T,
    serializer: &mut Serializer<F>,
) -> Result<()>
    requires { IsVariantOf E.shape value.now index T.shape content.now }
    ensures wrote { Wrote F.Flavor serializer.old.output (encoding E.shape value.now)
        (E.shape.refusal value.now) E.shape.text result serializer.new.output }
    ensures fits { OnOk result (E.shape.fits value.now) }
{
    let _ = value;
    serialize_variant(index, content, serializer)
}

/// A type whose values are made of their parts. The parts of a struct are the tuple of its fields,
/// or a tuple of tuples of them. The parts of an enum are its variants in a row (`Case`).
///
/// Its shape is that of the parts, `via ⟦<Point as FromParts>⟧.seen ⟦<Parts as Shaped>⟧.shape`, and
/// its `deserialize` calls [`read_parts`].
pub trait FromParts: Sized + Drop {
    /// The type of the parts.
    type Parts: Shaped + Drop;

    /// The parts of each value.
    ghost seen: { Self → Self.Parts };

    /// Makes a value of its parts.
    fn from_parts(parts: Self::Parts) -> Self
        ensures { Self.seen result ≡ parts };
}

/// Reads the parts of a value, and makes the value from them.
///
/// # Errors
///
/// Fails as the `deserialize` of the parts does. The parts that were read before the error are
/// dropped, and their bytes stay taken.
pub fn read_parts<'de, T: FromParts, F: DeFlavor>(
    alloc: Global,
    d: &mut Deserializer<'de, F>,
) -> Result<T>
where
    T::Parts: Deserialize<'de>,
    ensures { Deserializes F.Flavor (via T.seen T.Parts.shape) d.old result d.new }
{
    let parts = <T::Parts as Deserialize<'de>>::deserialize(alloc, d)?;
    Ok(T::from_parts(parts))
}

/// Reads parts that borrow nothing, and makes a value of them: [`read_parts`] for the
/// `deserialize_owned` of a type with a parameter.
///
/// # Errors
///
/// Fails as the `deserialize_owned` of the parts does. The parts that were read before the error
/// are dropped, and their bytes stay taken.
pub fn read_parts_owned<T: FromParts, F: DeFlavor>(
    alloc: Global,
    d: &mut Deserializer<'_, F>,
) -> Result<T>
where
    T::Parts: DeserializeOwned,
    ensures { Deserializes F.Flavor (via T.seen T.Parts.shape) d.old result d.new }
{
    let parts = <T::Parts as DeserializeOwned>::deserialize_owned(alloc, d)?;
    Ok(T::from_parts(parts))
}

//! How an enum is written as a variant, and read by its variants in a row.

ghost use Rattle.std.specs.Prelude.{◌≡◌, OnOk};
ghost use Rattle.postcard_schema_message.specs.{Deserializes, IsVariantOf, Wrote, encoding, via};

use postcard_de::{Deserialize, Deserializer};
use postcard_de_flavors::Flavor as DeFlavor;
use postcard_ser::{Serialize, Serializer, serialize_variant};
use postcard_ser_flavors::Flavor;
use postcard_shape::Shaped;
use postcard_wire::Result;
use std::alloc::Global;

/// An enum whose values are made of their variants in a row (`Case`).
pub(crate) trait FromRow: Sized + Drop {
    /// The type of the row.
    type Row: Shaped + Drop;

    /// The row of each value.
    ghost seen: { Self → Self.Row };

    /// Makes a value of its row.
    fn from_row(row: Self::Row) -> Self
        ensures { Self.seen result ≡ row };
}

/// Reads the row of a value, and makes the value of it. Fails as reading the row does.
pub(crate) fn read_row<'de, T: FromRow, F: DeFlavor>(
    alloc: Global,
    d: &mut Deserializer<'de, F>,
) -> Result<T>
where
    T::Row: Deserialize<'de>,
    ensures { Deserializes F.Flavor (via T.seen T.Row.shape) d.old result d.new }
{
    let row = <T::Row as Deserialize<'de>>::deserialize(alloc, d)?;
    Ok(T::from_row(row))
}

/// Writes a value of an enum as a variant: its index, and then its content. `value` is for the
/// contract alone. Fails if the flavor refuses the index, and as writing the content does.
pub(crate) fn write_variant<E: Shaped, T: Serialize, F: Flavor>(
    value: &E,
    index: u32,
    content: &T,
    serializer: &mut Serializer<F>,
) -> Result<()>
    requires { IsVariantOf E.shape value.now index T.shape content.now }
    ensures wrote { Wrote F.Flavor serializer.old.output (encoding E.shape value.now)
        (E.shape.refusal value.now) E.shape.text result serializer.new.output }
    ensures fits { OnOk result (E.shape.fits value.now) }
{
    let _ = value;
    serialize_variant(index, content, serializer)
}

//! Writing a value into a flavor: [`write_value`].

ghost use Rattle.postcard_value.specs.{Wrote, canonical, canonical_all, map, never, tree, trees};

use crate::numbers::{write_bits, write_float, write_integer};
use crate::value::Value;
use postcard_ser::Serializer;
use postcard_ser_flavors::Flavor;
use postcard_wire::Result;

/// Writes the canonical encoding of the value's tree, as `Serialize::serialize` does for a type of
/// the program. [`Value`] itself is no such type: the encodings of all values together aren't
/// prefix-free.
///
/// # Errors
///
/// Fails with `SerializeBufferFull` if the flavor refuses bytes. The bytes that the flavor took
/// before the error stay in it.
#[cycle(write)]
pub fn write_value<F: Flavor>(value: &Value, serializer: &mut Serializer<F>) -> Result<()>
    ensures { Wrote F.Flavor serializer.old.output (canonical (tree value.now)) never ⊥ result
        serializer.new.output }
{
    match value {
        Value::Bool(x) => serializer.serialize_bool(*x),
        Value::Integer(integer, bits) => write_integer(*integer, *bits, serializer),
        Value::Float(float, bits) => write_float(*float, *bits, serializer),
        Value::Char(c) => serializer.serialize_char(*c),
        Value::Str(text) => serializer.serialize_str(text),
        Value::Bytes(held) => serializer.serialize_bytes(held),
        Value::Fixed(order, integer, bits) => write_bits(*order, *integer, *bits, serializer),
        Value::Absent => serializer.serialize_none(),
        Value::Present(content) => {
            serializer.serialize_u8(1)?;
            write_value(content, serializer)
        }
        Value::Seq(items) => {
            serializer.serialize_seq(Some(items.len()))?;
            write_all(items, serializer)
        }
        Value::Group(items) => write_all(items, serializer),
        Value::Variant(index, content) => {
            serializer.serialize_tuple_variant("", *index, "", 0)?;
            write_value(content, serializer)
        }
    }
}

/// Writes the values in order, without a count. Fails as [`write_value`] does.
#[cycle(write)]
fn write_all<F: Flavor>(items: &Vec<Value>, serializer: &mut Serializer<F>) -> Result<()>
    ensures { Wrote F.Flavor serializer.old.output
        (canonical_all (trees (map tree items.now.items)))
        never ⊥ result serializer.new.output }
{
    for item in items {
        write_value(item, serializer)?;
    }
    Ok(())
}

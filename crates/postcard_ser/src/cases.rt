//! The variants of an enum: the index, followed by the content.

ghost use Rattle.std.specs.Prelude.{OnOk, ◌<◌, ◌^◌};
ghost use Rattle.postcard_ser.specs.{Variant, Wrote, canonical};

use crate::serialize::Serialize;
use crate::serializer::Serializer;
use postcard_ser_flavors::Flavor;
use postcard_wire::Result;

/// Writes a variant of an enum: its index as a varint of 1 to 5 bytes, and then its content. A
/// variant without fields has the content `&()`. Fails with `SerializeBufferFull` if the flavor
/// refuses the index, and otherwise as the content does.
pub fn serialize_variant<T: Serialize, F: Flavor>(
    index: u32,
    content: &T,
    serializer: &mut Serializer<F>,
) -> Result<()>
    ensures wrote { Wrote F.Flavor serializer.old.output
        (canonical (Variant index (T.shape.tree content.now)))
        (T.shape.refusal content.now) T.shape.text result serializer.new.output }
    ensures fits { OnOk result ((index < 2 ^ 32) × T.shape.fits content.now) }
{
    serializer.serialize_newtype_variant("", index, "", content)
}

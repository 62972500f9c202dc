//! Structs and enums that are written as another type.

ghost use Rattle.std.specs.Prelude.{OnOk};
ghost use Rattle.postcard_ser.specs.{Wrote, canonical};

use crate::serialize::Serialize;
use crate::serializer::Serializer;
use postcard_ser_flavors::Flavor;
use postcard_shape::Repr;
use postcard_wire::Result;

/// A type that is written as the type that its `Repr` names.
///
/// A struct writes the tuple of its fields, as `(&self.name, &self.count).serialize(serializer)`,
/// and an enum the variant of each arm of a `match` by `serialize_variant`.
pub trait SerializeRepr: Repr {
    /// Writes this value as `serialize` writes the value that `repr` makes of it.
    fn serialize_repr<F: Flavor>(&self, serializer: &mut Serializer<F>) -> Result<()>
        ensures wrote { Wrote F.Flavor serializer.old.output
            (canonical (Self.As.shape.tree (Self.repr self.now)))
            (Self.As.shape.refusal (Self.repr self.now)) Self.As.shape.text result
            serializer.new.output }
        ensures fits { OnOk result (Self.As.shape.fits (Self.repr self.now)) };
}

impl<T: SerializeRepr> Serialize for T {
    #[inline(always)]
    fn serialize<F: Flavor>(&self, serializer: &mut Serializer<F>) -> Result<()> {
        self.serialize_repr(serializer)
    }
}

//! The trait of types that can be encoded.

ghost use Rattle.std.specs.Prelude.{OnOk};
ghost use Rattle.postcard_ser.specs.{Wrote, canonical};

use crate::serializer::Serializer;
use postcard_ser_flavors::Flavor;
use postcard_shape::Shaped;
use postcard_wire::Result;

/// A type whose values can be encoded. Its shape says as which tree.
///
/// Your own struct or enum implements `SerializeRepr`, which gives it this trait. A type that
/// implements `Shaped` by hand implements this trait by hand, too.
pub trait Serialize: Shaped {
    /// Writes the canonical encoding of the value's tree.
    ///
    /// # Errors
    ///
    /// Fails with `SerializeBufferFull` if the flavor refuses a piece. A type that is written as
    /// the string that it prints may fail with `CollectStrError` instead, also if it fails to
    /// print. A type may refuse some of its values, with the errors that its shape names. A value
    /// is refused if a part of it is. If the flavor has room for the encoding, no other error is
    /// returned.
    ///
    /// The bytes that the flavor took before the error stay in it. Over a tidy flavor they are a
    /// prefix of the encoding, which may be empty. If a value is refused, they may be other bytes.
    fn serialize<F: Flavor>(&self, serializer: &mut Serializer<F>) -> Result<()>
        ensures wrote { Wrote F.Flavor serializer.old.output (canonical (Self.shape.tree self.now))
            (Self.shape.refusal self.now) Self.shape.text result serializer.new.output }
        ensures fits { OnOk result (Self.shape.fits self.now) };
}

//! A type some of whose values can't be written.

ghost use Rattle.std.specs.Prelude.{◌≡◌, ◌<◌};
ghost use Rattle.postcard_wire.specs.declared.error.Error.TheVariants.{SerdeSerCustom};
ghost use Rattle.postcard_shape.specs.Shape.{via};
ghost use Rattle.postcard_shape.specs.Refusing.{refusing};

use postcard::ser_flavors::Flavor;
use postcard::{Error, Result, Serialize, Serializer, Shaped};

/// The numbers from `start` to `end`, both included.
#[derive(Debug, Drop, PartialEq)]
pub struct Interval {
    /// The least number of the interval.
    pub start: u16,
    /// The greatest number of the interval.
    pub end: u16,
}

/// An interval is encoded as the tuple of its ends, and refuses itself with `SerdeSerCustom` if it
/// ends before it starts.
impl Shaped for Interval {
    ghost shape = { refusing (λ v e. (v.end < v.start) × (e ≡ SerdeSerCustom))
        (via (λ v. (v.start, v.end)) ⟦<(u16, u16) as Shaped>⟧.shape) };
}

/// Writing fails with `SerdeSerCustom` if the interval ends before it starts. Nothing is written
/// then.
impl Serialize for Interval {
    fn serialize<F: Flavor>(&self, serializer: &mut Serializer<F>) -> Result<()> {
        if self.end < self.start {
            return Err(Error::ser_custom("ends before it starts"));
        }
        (self.start, self.end).serialize(serializer)
    }
}

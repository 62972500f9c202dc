//! An enum with three variants: one without content, one of a struct, and one with fields.

ghost use Rattle.example_types.specs.declared.event.Event.{Event};

use crate::reading::Reading;
use postcard::ser_flavors::Flavor;
use postcard::{
    Case, FromRepr, NoCase, Repr, Result, SerializeRepr, Serializer, serialize_variant,
};

/// A report of a device.
#[derive(Debug, Drop, PartialEq)]
pub enum Event<'a> {
    /// The device started.
    Boot,
    /// The device took this measurement.
    Reading(Reading<'a>),
    /// The device failed.
    Fault {
        /// The number of the fault.
        code: u8,
        /// A description of the fault.
        text: String,
    },
}

impl<'a> Repr for Event<'a> {
    ghost use Rattle.postcard_shape.specs.declared.cases.Case.TheVariants.{This, Next};

    type As = Case<(), Case<<Reading<'a> as Repr>::As, Case<(u8, String), NoCase>>>;

    ghost repr = { elim [
      | Event.Boot ↦ This tt
      | Event.Reading r ↦ Next (This (⟦<Reading<'a> as Repr>⟧.repr r))
      | Event.Fault code text ↦ Next (Next (This (code, text)))
    ] };
}

impl FromRepr for Event<'_> {
    fn from_repr(repr: Self::As) -> Self {
        match repr {
            Case::This(()) => Event::Boot,
            Case::Next(Case::This(repr)) => Event::Reading(Reading::from_repr(repr)),
            Case::Next(Case::Next(Case::This((code, text)))) => Event::Fault { code, text },
            Case::Next(Case::Next(Case::Next(never))) => match never {},
        }
    }
}

impl SerializeRepr for Event<'_> {
    fn serialize_repr<F: Flavor>(&self, serializer: &mut Serializer<F>) -> Result<()> {
        match self {
            Event::Boot => serialize_variant(0, &(), serializer),
            Event::Reading(reading) => serialize_variant(1, reading, serializer),
            Event::Fault { code, text } => serialize_variant(2, &(code, text), serializer),
        }
    }
}

//! The events that a device reports over the link.

ghost use Rattle.example_link.specs.declared.event.Event.{Event};

use postcard::ser_flavors::Flavor;
use postcard::{
    Case, FromRepr, NoCase, Repr, Result, Serialize, SerializeRepr, Serializer, serialize_variant,
};

/// A measurement of a sensor.
#[derive(Debug, Drop, PartialEq)]
pub struct Reading {
    /// The number of the sensor.
    pub sensor: u16,
    /// The temperature, in hundredths of a degree Celsius.
    pub temperature: i16,
}

impl Repr for Reading {
    type As = (u16, i16);

    ghost repr = { λ v. (v.sensor, v.temperature) };
}

impl FromRepr for Reading {
    fn from_repr((sensor, temperature): Self::As) -> Self {
        Reading {
            sensor,
            temperature,
        }
    }
}

impl SerializeRepr for Reading {
    fn serialize_repr<F: Flavor>(&self, serializer: &mut Serializer<F>) -> Result<()> {
        (self.sensor, self.temperature).serialize(serializer)
    }
}

/// A report of a device.
#[derive(Debug, Drop, PartialEq)]
pub enum Event {
    /// The device started.
    Boot,
    /// The device took this measurement.
    Measured(Reading),
    /// The device failed.
    Fault {
        /// The number of the fault.
        code: u8,
        /// A description of the fault.
        text: String,
    },
}

impl Repr for Event {
    ghost use Rattle.postcard_shape.specs.declared.cases.Case.TheVariants.{This, Next};

    type As = Case<(), Case<Reading, Case<(u8, String), NoCase>>>;

    ghost repr = { elim [
      | Event.Boot ↦ This tt
      | Event.Measured reading ↦ Next (This reading)
      | Event.Fault code text ↦ Next (Next (This (code, text)))
    ] };
}

impl FromRepr for Event {
    fn from_repr(repr: Self::As) -> Self {
        match repr {
            Case::This(()) => Event::Boot,
            Case::Next(Case::This(reading)) => Event::Measured(reading),
            Case::Next(Case::Next(Case::This((code, text)))) => Event::Fault { code, text },
            Case::Next(Case::Next(Case::Next(never))) => match never {},
        }
    }
}

impl SerializeRepr for Event {
    fn serialize_repr<F: Flavor>(&self, serializer: &mut Serializer<F>) -> Result<()> {
        match self {
            Event::Boot => serialize_variant(0, &(), serializer),
            Event::Measured(reading) => serialize_variant(1, reading, serializer),
            Event::Fault { code, text } => serialize_variant(2, &(code, text), serializer),
        }
    }
}

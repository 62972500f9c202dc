//! A struct that borrows from the message.

use postcard::ser_flavors::Flavor;
use postcard::{FromRepr, Repr, Result, Serialize, SerializeRepr, Serializer};

/// A measurement of a sensor.
#[derive(Debug, Drop, PartialEq)]
pub struct Reading<'a> {
    /// The number of the sensor.
    pub id: u16,
    /// The temperature, in hundredths of a degree Celsius.
    pub temperature: i32,
    /// The name of the place, borrowed from the message.
    pub label: &'a str,
    /// The raw samples, in a vector of the reading's own.
    pub samples: Vec<u16>,
}

impl<'a> Repr for Reading<'a> {
    type As = (u16, i32, &'a str, Vec<u16>);

    ghost repr = { λ v. (v.id, v.temperature, v.label, v.samples) };
}

impl FromRepr for Reading<'_> {
    fn from_repr((id, temperature, label, samples): Self::As) -> Self {
        Reading {
            id,
            temperature,
            label,
            samples,
        }
    }
}

impl SerializeRepr for Reading<'_> {
    fn serialize_repr<F: Flavor>(&self, serializer: &mut Serializer<F>) -> Result<()> {
        (self.id, self.temperature, self.label, &self.samples).serialize(serializer)
    }
}

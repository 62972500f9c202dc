//! Structs with floating-point numbers: one that has a greatest size, and one with a list and a set.

use postcard::experimental::max_size::{MaxSize, MaxSizeRepr};
use postcard::ser_flavors::Flavor;
use postcard::{FromRepr, Repr, Result, Serialize, SerializeRepr, Serializer};
use std::collections::BTreeSet;

/// A measurement of a weather sensor.
#[derive(Clone, Copy, Debug, PartialEq)]
pub struct Sample {
    /// The number of the sensor.
    pub sensor: u16,
    /// Degrees Celsius.
    pub temperature: f32,
    /// Pascals, or `None` if the sensor has no barometer.
    pub pressure: Option<f64>,
    /// The last three speeds of the wind, in metres a second.
    pub wind: [f32; 3],
}

impl Repr for Sample {
    type As = (u16, f32, Option<f64>, [f32; 3]);

    ghost repr = { λ v. (v.sensor, v.temperature, v.pressure, v.wind) };
}

impl FromRepr for Sample {
    fn from_repr((sensor, temperature, pressure, wind): Self::As) -> Self {
        Sample {
            sensor,
            temperature,
            pressure,
            wind,
        }
    }
}

impl SerializeRepr for Sample {
    fn serialize_repr<F: Flavor>(&self, serializer: &mut Serializer<F>) -> Result<()> {
        (self.sensor, self.temperature, self.pressure, self.wind).serialize(serializer)
    }
}

impl MaxSizeRepr for Sample {
    fn in_forms_repr(&self) {
        (self.sensor, self.temperature, self.pressure, self.wind).in_forms();
    }
}

/// The speeds of the wind on a day, and the sensors that measured them.
#[derive(Debug, Drop, PartialEq)]
pub struct Survey {
    /// The greatest speed, in metres a second, or `None` on a calm day.
    pub greatest: Option<f32>,
    /// The speed in each hour, in metres a second.
    pub hours: Vec<f64>,
    /// The numbers of the sensors.
    pub sensors: BTreeSet<u16>,
}

impl Repr for Survey {
    type As = (Option<f32>, Vec<f64>, BTreeSet<u16>);

    ghost repr = { λ v. (v.greatest, v.hours, v.sensors) };
}

impl FromRepr for Survey {
    fn from_repr((greatest, hours, sensors): Self::As) -> Self {
        Survey {
            greatest,
            hours,
            sensors,
        }
    }
}

impl SerializeRepr for Survey {
    fn serialize_repr<F: Flavor>(&self, serializer: &mut Serializer<F>) -> Result<()> {
        (self.greatest, &self.hours, &self.sensors).serialize(serializer)
    }
}

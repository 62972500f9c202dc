//! What a receiver reports each second: a struct of fifteen fields.

ghost use Rattle.postcard_shape.specs.Shape.{via};

use postcard::de_flavors::Flavor as DeFlavor;
use postcard::ser_flavors::Flavor;
use postcard::{
    Deserialize, DeserializeOwned, Deserializer, FromParts, Result, Serialize, Serializer, Shaped,
    read_parts,
};
use std::alloc::Global;

/// What a receiver reports each second.
#[derive(Debug, Drop)]
pub struct Telemetry {
    /// The number of the report.
    pub sequence: u32,
    /// Milliseconds since the start.
    pub uptime: u64,
    /// Millivolts.
    pub voltage: u16,
    /// Milliamperes; negative while the battery is charged.
    pub current: i16,
    /// Hundredths of a degree Celsius.
    pub temperature: i16,
    /// Percent.
    pub humidity: u8,
    /// Pascals.
    pub pressure: u32,
    /// Degrees north times 10,000,000.
    pub latitude: i32,
    /// Degrees east times 10,000,000.
    pub longitude: i32,
    /// Metres above the sea.
    pub altitude: i16,
    /// Tenths of a degree, clockwise from the north.
    pub heading: u16,
    /// Centimetres a second.
    pub speed: u16,
    /// The number of satellites in view.
    pub satellites: u8,
    /// Whether the position is known.
    pub fix: bool,
    /// The name of the receiver.
    pub label: String,
}

/// The fields, as three tuples of five. Their bytes are those of the fields in a row. Three short
/// tuples are proved faster than one of fifteen fields.
type Parts = (
    (u32, u64, u16, i16, i16),
    (u8, u32, i32, i32, i16),
    (u16, u16, u8, bool, String),
);

impl FromParts for Telemetry {
    type Parts = Parts;

    ghost seen = { λ v. (
      (v.sequence, v.uptime, v.voltage, v.current, v.temperature),
      (v.humidity, v.pressure, v.latitude, v.longitude, v.altitude),
      (v.heading, v.speed, v.satellites, v.fix, v.label),
    ) };

    fn from_parts(parts: Self::Parts) -> Self {
        let (first, second, third) = parts;
        let (sequence, uptime, voltage, current, temperature) = first;
        let (humidity, pressure, latitude, longitude, altitude) = second;
        let (heading, speed, satellites, fix, label) = third;
        Telemetry {
            sequence,
            uptime,
            voltage,
            current,
            temperature,
            humidity,
            pressure,
            latitude,
            longitude,
            altitude,
            heading,
            speed,
            satellites,
            fix,
            label,
        }
    }
}

impl Shaped for Telemetry {
    ghost shape = { via ⟦<Telemetry as FromParts>⟧.seen ⟦<Parts as Shaped>⟧.shape };
}

impl Serialize for Telemetry {
    fn serialize<F: Flavor>(&self, serializer: &mut Serializer<F>) -> Result<()> {
        let first = (
            self.sequence,
            self.uptime,
            self.voltage,
            self.current,
            self.temperature,
        );
        let second = (
            self.humidity,
            self.pressure,
            self.latitude,
            self.longitude,
            self.altitude,
        );
        let third = (
            self.heading,
            self.speed,
            self.satellites,
            self.fix,
            &self.label,
        );
        (first, second, third).serialize(serializer)
    }
}

impl<'de> Deserialize<'de> for Telemetry {
    fn deserialize<F: DeFlavor>(alloc: Global, d: &mut Deserializer<'de, F>) -> Result<Self> {
        read_parts(alloc, d)
    }
}

impl DeserializeOwned for Telemetry {
    fn deserialize_owned<F: DeFlavor>(alloc: Global, d: &mut Deserializer<'_, F>) -> Result<Self> {
        Telemetry::deserialize(alloc, d)
    }
}

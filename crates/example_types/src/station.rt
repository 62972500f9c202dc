//! A struct that has another struct as a field.

use postcard::ser_flavors::Flavor;
use postcard::{FromRepr, Repr, Result, Serialize, SerializeRepr, Serializer};

/// A place on the earth.
#[derive(Debug, Drop, PartialEq)]
pub struct Position {
    /// Degrees north times 10,000,000; negative in the south.
    pub latitude: i32,
    /// Degrees east times 10,000,000; negative in the west.
    pub longitude: i32,
}

impl Repr for Position {
    type As = (i32, i32);

    ghost repr = { λ v. (v.latitude, v.longitude) };
}

impl FromRepr for Position {
    fn from_repr((latitude, longitude): Self::As) -> Self {
        Position {
            latitude,
            longitude,
        }
    }
}

impl SerializeRepr for Position {
    fn serialize_repr<F: Flavor>(&self, serializer: &mut Serializer<F>) -> Result<()> {
        (self.latitude, self.longitude).serialize(serializer)
    }
}

/// A weather station.
#[derive(Debug, Drop, PartialEq)]
pub struct Station {
    /// The name of the station.
    pub name: String,
    /// The place of the station.
    pub position: Position,
    /// The height above the sea in metres, or `None` if it wasn't measured.
    pub height: Option<i16>,
}

impl Repr for Station {
    type As = (String, Position, Option<i16>);

    ghost repr = { λ v. (v.name, v.position, v.height) };
}

impl FromRepr for Station {
    fn from_repr((name, position, height): Self::As) -> Self {
        Station {
            name,
            position,
            height,
        }
    }
}

impl SerializeRepr for Station {
    fn serialize_repr<F: Flavor>(&self, serializer: &mut Serializer<F>) -> Result<()> {
        (&self.name, &self.position, self.height).serialize(serializer)
    }
}

//! The settings of a radio, and the greatest size of their encoding.

use arrayvec::ArrayString;
use postcard::experimental::max_size::{MaxSize, MaxSizeRepr};
use postcard::ser_flavors::Flavor;
use postcard::{FromRepr, Repr, Result, Serialize, SerializeRepr, Serializer};

/// The settings of a radio.
#[derive(Debug, Drop, PartialEq)]
pub struct Settings {
    /// The name of the radio, at most 12 bytes of UTF-8.
    pub name: ArrayString<12>,
    /// The volume, from 0 to 255.
    pub volume: u8,
    /// The minute of the day at which the alarm rings, or `None` for no alarm.
    pub alarm: Option<u16>,
}

/// The greatest size of encoded settings in bytes: 13 of the name, 1 of the volume, 4 of the alarm.
pub const SETTINGS_SIZE: usize = 18;

impl Default for Settings {
    /// Returns the settings of a new radio: an empty name, a volume of 20, and no alarm.
    fn default() -> Self {
        Settings {
            name: ArrayString::new(),
            volume: 20,
            alarm: None,
        }
    }
}

/// On the wire, settings are the tuple of their fields.
impl Repr for Settings {
    type As = (ArrayString<12>, u8, Option<u16>);

    ghost repr = { λ v. (v.name, v.volume, v.alarm) };
}

impl FromRepr for Settings {
    fn from_repr((name, volume, alarm): Self::As) -> Self {
        Settings {
            name,
            volume,
            alarm,
        }
    }
}

impl SerializeRepr for Settings {
    fn serialize_repr<F: Flavor>(&self, serializer: &mut Serializer<F>) -> Result<()> {
        (&self.name, self.volume, self.alarm).serialize(serializer)
    }
}

impl MaxSizeRepr for Settings {
    fn in_forms_repr(&self) {
        (&self.name, self.volume, self.alarm).in_forms();
    }
}

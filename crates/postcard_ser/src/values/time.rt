//! Spans and points of time.

use crate::serialize::Serialize;
use crate::serializer::Serializer;
use postcard_ser_flavors::Flavor;
use postcard_wire::{Error, Result};
use std::time::{Duration, SystemTime, UNIX_EPOCH};

/// Written as the whole seconds, a number of 64 bits, and the nanoseconds beyond them, one of 32.
impl Serialize for Duration {
    fn serialize<F: Flavor>(&self, serializer: &mut Serializer<F>) -> Result<()> {
        (self.as_secs(), self.subsec_nanos()).serialize(serializer)
    }
}

/// Written as the span since the beginning of 1970. Fails with `SerdeSerCustom`, and writes
/// nothing, if that is before 1970, or 2^63 seconds or more. No call of std makes such a value.
impl Serialize for SystemTime {
    fn serialize<F: Flavor>(&self, serializer: &mut Serializer<F>) -> Result<()> {
        match self.duration_since(UNIX_EPOCH) {
            Ok(since_1970) if UNIX_EPOCH.checked_add(since_1970).is_some() => {
                since_1970.serialize(serializer)
            }
            _ => Err(Error::SerdeSerCustom),
        }
    }
}

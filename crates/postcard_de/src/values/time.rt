//! Spans and points of time: `Duration`, `SystemTime`.

use crate::deserialize::Deserialize;
use crate::deserializer::Deserializer;
use crate::owned::DeserializeOwned;
use postcard_de_flavors::Flavor;
use postcard_wire::{Error, Result};
use std::alloc::Global;
use std::time::{Duration, SystemTime, UNIX_EPOCH};

const NANOSECONDS_PER_SECOND: u32 = 1_000_000_000;

/// Reads the seconds and the nanoseconds, numbers of 64 and 32 bits; whole seconds of the
/// nanoseconds are carried. Fails with `SerdeDeCustom` if the seconds then exceed 64 bits.
impl<'de> Deserialize<'de> for Duration {
    fn deserialize<F: Flavor>(alloc: Global, d: &mut Deserializer<'de, F>) -> Result<Self> {
        let parts: (u64, u32) = <(u64, u32)>::deserialize(alloc, d)?;
        let (seconds, nanoseconds) = parts;
        let carried = (nanoseconds / NANOSECONDS_PER_SECOND) as u64;
        if seconds > u64::MAX - carried {
            return Err(Error::SerdeDeCustom);
        }
        Ok(Duration::new(seconds, nanoseconds))
    }
}

impl DeserializeOwned for Duration {
    fn deserialize_owned<'de, F: Flavor>(
        alloc: Global,
        d: &mut Deserializer<'de, F>,
    ) -> Result<Self> {
        Duration::deserialize(alloc, d)
    }
}

/// Reads the span since the beginning of 1970. Fails with `SerdeDeCustom` if it is 2^63 seconds or
/// more.
impl<'de> Deserialize<'de> for SystemTime {
    fn deserialize<F: Flavor>(alloc: Global, d: &mut Deserializer<'de, F>) -> Result<Self> {
        let since_1970: Duration = Deserialize::deserialize(alloc, d)?;
        match UNIX_EPOCH.checked_add(since_1970) {
            Some(time) => Ok(time),
            None => Err(Error::SerdeDeCustom),
        }
    }
}

impl DeserializeOwned for SystemTime {
    fn deserialize_owned<'de, F: Flavor>(
        alloc: Global,
        d: &mut Deserializer<'de, F>,
    ) -> Result<Self> {
        SystemTime::deserialize(alloc, d)
    }
}

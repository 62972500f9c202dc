//! Theorems of a caller: structs are read as they were written, five bytes are enough for a `u32`,
//! and 28 for a sample.

ghost use Rattle.std.specs.Ordering.{nat_cmp};
ghost use Rattle.std.specs.Prelude.{◌≡◌, IfOk, IsOk, string_bytes};
ghost use Rattle.postcard_shape.specs.Options.{SameOption};
ghost use Rattle.postcard_shape.specs.Lists.{SameList};
ghost use Rattle.postcard_shape.specs.Maps.{SameSet};

use crate::reading::Reading;
use crate::sample::{Sample, Survey};
use crate::station::Station;
use postcard::experimental::max_size::fill_max_size;
use postcard::laws::{comes_back, frame_comes_back};
use postcard::{Result, fill_slice, from_bytes, to_allocvec};
use std::alloc::Global;

/// Encodes a reading into `message` and decodes it again. All fields come back as they were.
///
/// # Errors
///
/// Fails with `SerializeBufferFull` or `OutOfMemory` if an allocation fails.
pub fn reading_comes_back<'a>(
    alloc: Global,
    reading: &Reading,
    message: &'a mut Vec<u8>,
) -> Result<Reading<'a>>
    ensures same_numbers { IfOk result (λ back. (back.id ≡ reading.now.id)
        × (back.temperature ≡ reading.now.temperature)) }
    ensures same_label { IfOk result (λ back. back.label.now ≡ reading.now.label.now) }
    ensures same_samples { IfOk result (λ back. SameList (λ a b. a ≡ b) back.samples.items
        reading.now.samples.items) }
{
    *message = to_allocvec(alloc, reading)?;
    from_bytes(alloc, message)
}

/// Encodes a station and decodes it again. All fields come back as they were.
///
/// # Errors
///
/// Fails with `SerializeBufferFull` or `OutOfMemory` if an allocation fails.
pub fn station_comes_back(alloc: Global, station: &Station) -> Result<Station>
    ensures same_name { IfOk result (λ back. string_bytes back.name
        ≡ string_bytes station.now.name) }
    ensures same_position { IfOk result (λ back.
        (back.position.latitude ≡ station.now.position.latitude)
        × (back.position.longitude ≡ station.now.position.longitude)) }
    ensures same_height { IfOk result (λ back. SameOption (λ a b. a ≡ b) back.height
        station.now.height) }
{
    comes_back(alloc, station)
}

/// Encodes a `u32` into a buffer of five bytes, and returns the number of bytes written. It never
/// fails, since five bytes are always enough.
#[tactic(auto, using(postcard::specs::Lemmas::u32_len))]
pub fn u32_fits_five_bytes(number: u32, buffer: &mut [u8; 5]) -> Result<usize>
    ensures { IsOk result }
{
    fill_slice(&number, buffer)
}

/// Encodes a sample and decodes it again. All numbers come back as they were, the sign of a zero
/// included, and a NaN as a NaN.
///
/// # Errors
///
/// Fails with `SerializeBufferFull` if an allocation fails.
pub fn sample_comes_back(alloc: Global, sample: &Sample) -> Result<Sample>
    ensures same_numbers { IfOk result (λ back. (back.sensor ≡ sample.now.sensor)
        × (back.temperature ≡ sample.now.temperature)) }
    ensures same_pressure { IfOk result (λ back. SameOption (λ a b. a ≡ b) back.pressure
        sample.now.pressure) }
    ensures same_wind { IfOk result (λ back. SameList (λ a b. a ≡ b) back.wind sample.now.wind) }
{
    comes_back(alloc, sample)
}

/// Encodes a sample into a buffer of 28 bytes, and returns the number of bytes written. It never
/// fails, since 28 bytes are always enough.
pub fn sample_fits_28_bytes(sample: &Sample, buffer: &mut [u8; 28]) -> Result<usize>
    ensures { IsOk result }
{
    fill_max_size(sample, buffer)
}

/// Encodes a survey as a frame and decodes that again. The numbers come back as they were, and so
/// does the set of the sensors.
///
/// # Errors
///
/// Fails with `SerializeBufferFull` or `OutOfMemory` if an allocation fails.
pub fn survey_comes_back(alloc: Global, survey: &Survey) -> Result<Survey>
    ensures same_greatest { IfOk result (λ back. SameOption (λ a b. a ≡ b) back.greatest
        survey.now.greatest) }
    ensures same_hours { IfOk result (λ back. SameList (λ a b. a ≡ b) back.hours.items
        survey.now.hours.items) }
    ensures same_sensors { IfOk result (λ back. SameSet nat_cmp (λ a b. a ≡ b) back.sensors.keys
        survey.now.sensors.keys) }
{
    frame_comes_back(alloc, survey)
}

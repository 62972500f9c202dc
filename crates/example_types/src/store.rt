//! A store of a lamp's settings: a buffer of the greatest size that encoded settings can have.

ghost use Rattle.example_types.specs.declared.store.Mode.{Mode};
ghost use Rattle.std.specs.Prelude.{◌≡◌, Some, IsOk};

use arrayvec::ArrayString;
use postcard::experimental::max_size::laws::within_max_size;
use postcard::experimental::max_size::{MaxSize, MaxSizeRepr, fill_max_size};
use postcard::ser_flavors::Flavor;
use postcard::{
    Case, FromRepr, NoCase, Repr, Result, Serialize, SerializeRepr, Serializer, fill_slice_cobs,
    from_bytes, serialize_variant,
};
use std::alloc::Global;

/// The times at which the lamp is on.
#[derive(Debug, Drop, PartialEq)]
pub enum Mode {
    /// Never.
    Off,
    /// Always, at this brightness.
    On(u16),
    /// Between two hours of the day.
    Timer {
        /// The hour at which it goes on.
        from: u8,
        /// The hour at which it goes off.
        to: u8,
    },
}

impl Repr for Mode {
    ghost use Rattle.postcard_shape.specs.declared.cases.Case.TheVariants.{This, Next};

    type As = Case<(), Case<u16, Case<(u8, u8), NoCase>>>;

    ghost repr = { elim [
      | Mode.Off ↦ This tt
      | Mode.On brightness ↦ Next (This brightness)
      | Mode.Timer from to ↦ Next (Next (This (from, to)))
    ] };
}

impl FromRepr for Mode {
    fn from_repr(repr: Self::As) -> Self {
        match repr {
            Case::This(()) => Mode::Off,
            Case::Next(Case::This(brightness)) => Mode::On(brightness),
            Case::Next(Case::Next(Case::This((from, to)))) => Mode::Timer { from, to },
            Case::Next(Case::Next(Case::Next(never))) => match never {},
        }
    }
}

impl SerializeRepr for Mode {
    fn serialize_repr<F: Flavor>(&self, serializer: &mut Serializer<F>) -> Result<()> {
        match self {
            Mode::Off => serialize_variant(0, &(), serializer),
            Mode::On(brightness) => serialize_variant(1, brightness, serializer),
            Mode::Timer { from, to } => serialize_variant(2, &(from, to), serializer),
        }
    }
}

impl MaxSizeRepr for Mode {
    fn in_forms_repr(&self) {
        match self {
            Mode::Off => {}
            Mode::On(brightness) => brightness.in_forms(),
            Mode::Timer { from, to } => (from, to).in_forms(),
        }
    }
}

/// The settings of a lamp.
#[derive(Debug, Drop, PartialEq)]
pub struct Settings {
    /// The name of the lamp, at most 16 bytes of UTF-8.
    pub name: ArrayString<16>,
    /// The color temperature in kelvins, or `None` for the lamp's own.
    pub color: Option<u16>,
    /// The times at which the lamp is on.
    pub mode: Mode,
}

impl Repr for Settings {
    type As = (ArrayString<16>, Option<u16>, Mode);

    ghost repr = { λ v. (v.name, v.color, v.mode) };
}

impl FromRepr for Settings {
    fn from_repr((name, color, mode): Self::As) -> Self {
        Settings { name, color, mode }
    }
}

impl SerializeRepr for Settings {
    fn serialize_repr<F: Flavor>(&self, serializer: &mut Serializer<F>) -> Result<()> {
        (&self.name, self.color, &self.mode).serialize(serializer)
    }
}

impl MaxSizeRepr for Settings {
    fn in_forms_repr(&self) {
        (&self.name, self.color, &self.mode).in_forms();
    }
}

/// The greatest size of encoded settings in bytes: 17 of the name, 4 of the color, 4 of the mode.
pub const SETTINGS_SIZE: usize = 25;

/// Returns the greatest size of encoded settings, which is [`SETTINGS_SIZE`].
pub fn settings_size() -> Option<usize>
    ensures { result ≡ Some 25 }
{
    Settings::postcard_max_size()
}

/// The greatest size of a frame of settings in bytes: that of the settings, one byte before them, and
/// the zero that ends the frame. An accumulator of this size has room for every such frame.
pub const SETTINGS_FRAME_SIZE: usize = 27;

/// Encodes settings as a frame into the first bytes of a buffer, and returns the number of bytes of
/// the frame. It never fails, since the buffer is always large enough.
#[tactic(auto, using(postcard::specs::Lemmas::frame_len))]
pub fn fill_frame(settings: &Settings, buffer: &mut [u8; SETTINGS_FRAME_SIZE]) -> Result<usize>
    ensures { IsOk result }
{
    within_max_size(settings);
    fill_slice_cobs(settings, buffer)
}

/// Encoded settings, in a buffer of a fixed size.
#[derive(Drop)]
pub struct Store {
    memory: [u8; SETTINGS_SIZE],
}

impl Store {
    /// Returns a store whose memory is all zeros: the encoding of settings with an empty name, no
    /// color and the mode [`Mode::Off`].
    pub fn new() -> Store {
        Store {
            memory: [0; SETTINGS_SIZE],
        }
    }

    /// Overwrites the store with these settings, and returns the number of bytes written. It never
    /// fails, since the memory is always large enough.
    pub fn save(&mut self, settings: &Settings) -> Result<usize>
        ensures { IsOk result }
    {
        fill_max_size(settings, &mut self.memory)
    }

    /// Returns the settings that were saved last, or those of [`Store::new`] if none were.
    ///
    /// # Errors
    ///
    /// Fails as `from_bytes` does if the memory holds no settings.
    pub fn load(&self, alloc: Global) -> Result<Settings> {
        from_bytes(alloc, &self.memory)
    }
}

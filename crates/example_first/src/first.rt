//! An enum and a struct, encoded, framed, read back and printed.

ghost use Rattle.example_first.specs.declared.first.Sky.{Sky};
ghost use Rattle.postcard_shape.specs.Shape.{via};
ghost use Rattle.postcard_shape.specs.declared.cases.Case.TheVariants.{This, Next};

use postcard::de_flavors::Flavor as DeFlavor;
use postcard::ser_flavors::Flavor;
use postcard::{
    Case, Deserialize, DeserializeOwned, Deserializer, FromParts, NoCase, Result, Serialize,
    Serializer, Shaped, from_bytes, from_bytes_cobs, read_parts, to_allocvec, to_allocvec_cobs,
    write_variant,
};
use std::alloc::Global;

/// The sky over a station.
#[derive(Debug, Drop)]
pub enum Sky {
    /// No cloud.
    Clear,
    /// This many eighths are covered.
    Cloudy(u8),
    /// A storm with a name.
    Storm {
        /// The name of the storm.
        name: String,
        /// The speed of its wind, in metres a second.
        wind: u16,
    },
}

/// What the variants of [`Sky`] hold, in a row.
type SkyParts = Case<(), Case<u8, Case<(String, u16), NoCase>>>;

impl FromParts for Sky {
    type Parts = SkyParts;

    ghost seen = { elim [
      | Sky.Clear ↦ This tt
      | Sky.Cloudy eighths ↦ Next (This eighths)
      | Sky.Storm name wind ↦ Next (Next (This (name, wind)))
    ] };

    fn from_parts(parts: Self::Parts) -> Self {
        match parts {
            Case::This(()) => Sky::Clear,
            Case::Next(Case::This(eighths)) => Sky::Cloudy(eighths),
            Case::Next(Case::Next(Case::This((name, wind)))) => Sky::Storm { name, wind },
            Case::Next(Case::Next(Case::Next(never))) => match never {},
        }
    }
}

impl Shaped for Sky {
    ghost shape = { via ⟦<Sky as FromParts>⟧.seen ⟦<SkyParts as Shaped>⟧.shape };
}

impl Serialize for Sky {
    fn serialize<F: Flavor>(&self, serializer: &mut Serializer<F>) -> Result<()> {
        match self {
            Sky::Clear => write_variant(self, 0, &(), serializer),
            Sky::Cloudy(eighths) => write_variant(self, 1, eighths, serializer),
            Sky::Storm { name, wind } => write_variant(self, 2, &(name, wind), serializer),
        }
    }
}

impl<'de> Deserialize<'de> for Sky {
    fn deserialize<F: DeFlavor>(alloc: Global, d: &mut Deserializer<'de, F>) -> Result<Self> {
        read_parts(alloc, d)
    }
}

impl DeserializeOwned for Sky {
    fn deserialize_owned<F: DeFlavor>(alloc: Global, d: &mut Deserializer<'_, F>) -> Result<Self> {
        Sky::deserialize(alloc, d)
    }
}

/// A report of a weather station.
#[derive(Debug, Drop)]
pub struct Report {
    /// The number of the station.
    pub station: u16,
    /// Hundredths of a degree Celsius.
    pub temperature: i16,
    /// The sky in each hour.
    pub skies: Vec<Sky>,
}

/// The fields of a [`Report`], in a tuple.
type ReportParts = (u16, i16, Vec<Sky>);

impl FromParts for Report {
    type Parts = ReportParts;

    ghost seen = { λ v. (v.station, v.temperature, v.skies) };

    fn from_parts(parts: Self::Parts) -> Self {
        let (station, temperature, skies) = parts;
        Report {
            station,
            temperature,
            skies,
        }
    }
}

impl Shaped for Report {
    ghost shape = { via ⟦<Report as FromParts>⟧.seen ⟦<ReportParts as Shaped>⟧.shape };
}

impl Serialize for Report {
    fn serialize<F: Flavor>(&self, serializer: &mut Serializer<F>) -> Result<()> {
        (self.station, self.temperature, &self.skies).serialize(serializer)
    }
}

impl<'de> Deserialize<'de> for Report {
    fn deserialize<F: DeFlavor>(alloc: Global, d: &mut Deserializer<'de, F>) -> Result<Self> {
        read_parts(alloc, d)
    }
}

impl DeserializeOwned for Report {
    fn deserialize_owned<F: DeFlavor>(alloc: Global, d: &mut Deserializer<'_, F>) -> Result<Self> {
        Report::deserialize(alloc, d)
    }
}

/// Returns a report of three hours.
fn example_report(alloc: Global) -> anyhow::Result<Report> {
    let name = String::from_str(alloc, "Ida")?;
    let mut skies = Vec::new(alloc);
    skies.push(Sky::Clear)?;
    skies.push(Sky::Cloudy(5))?;
    skies.push(Sky::Storm { name, wind: 33 })?;
    Ok(Report {
        station: 300,
        temperature: -250,
        skies,
    })
}

/// Encodes a report, makes a frame of it, reads both, and prints all.
pub fn show(rt: &HostRuntime) -> anyhow::Result<()> {
    let report = example_report(rt.alloc())?;
    let bytes = to_allocvec(rt.alloc(), &report)?;
    println!(rt; "bytes {bytes:?}")?;
    let back: Report = from_bytes(rt.alloc(), &bytes)?;
    println!(rt; "{back:?}")?;

    let mut frame = to_allocvec_cobs(rt.alloc(), &report)?;
    println!(rt; "frame {frame:?}")?;
    let back: Report = from_bytes_cobs(rt.alloc(), &mut frame)?;
    println!(rt; "{back:?}")?;
    Ok(())
}

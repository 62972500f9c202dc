//! What the device reports.

ghost use Rattle.example_described.specs.declared.report.Report.{Report};
ghost use Rattle.postcard_described.specs.{alike};
ghost use Rattle.postcard_shape.specs.Shape.{via};
ghost use Rattle.postcard_shape.specs.declared.cases.Case.TheVariants.{This, Next};

use postcard::ser_flavors::Flavor;
use postcard::{Case, NoCase, Result, Serialize, Serializer, Shaped, write_variant};
use postcard_described::{HasSchema, Schema, enum_schema};
use std::alloc::Global;

/// A report of the device.
#[derive(Drop)]
pub enum Report {
    /// The device started.
    Boot,
    /// A sensor measured a temperature.
    Measured {
        /// The number of the sensor.
        sensor: u16,
        /// The temperature, in hundredths of a degree Celsius.
        temperature: i16,
    },
    /// The device failed.
    Fault {
        /// The number of the fault.
        code: u8,
        /// A description of the fault.
        text: String,
    },
}

/// What the variants of [`Report`] hold, in a row.
type ReportRow = Case<(), Case<(u16, i16), Case<(u8, String), NoCase>>>;

impl Shaped for Report {
    ghost shape = { via (elim [
      | Report.Boot ↦ This tt
      | Report.Measured sensor temperature ↦ Next (This (sensor, temperature))
      | Report.Fault code text ↦ Next (Next (This (code, text)))
    ]) ⟦<ReportRow as Shaped>⟧.shape };
}

impl Serialize for Report {
    fn serialize<F: Flavor>(&self, serializer: &mut Serializer<F>) -> Result<()> {
        match self {
            Report::Boot => write_variant(self, 0, &(), serializer),
            Report::Measured {
                sensor,
                temperature,
            } => write_variant(self, 1, &(sensor, temperature), serializer),
            Report::Fault { code, text } => write_variant(self, 2, &(code, text), serializer),
        }
    }
}

impl HasSchema for Report {
    ghost described = { ⟦<ReportRow as HasSchema>⟧.described };

    fn schema_with(alloc: Global, _names: &[&str]) -> Result<Schema> {
        enum_schema::<ReportRow>(
            alloc,
            &[
                ("Boot", &[]),
                ("Measured", &["sensor", "temperature"]),
                ("Fault", &["code", "text"]),
            ],
        )
    }

    ghost same = { alike };
}

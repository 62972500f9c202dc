//! The messages of a network of weather stations. `pcard impl` wrote the impls at the end of the file.

use std::collections::BTreeMap;

/// Thousandths of a metre.
pub type Millimetres = i32;

/// A station is alive.
#[derive(Debug, Drop)]
pub struct Heartbeat;

/// The number of a station.
#[derive(Debug, Drop)]
pub struct Serial(pub u64);

/// A place on the earth.
#[derive(Debug, Drop)]
pub struct Position {
    /// Degrees north times 10,000,000.
    pub latitude: i32,
    /// Degrees east times 10,000,000.
    pub longitude: i32,
    /// Metres above the sea.
    pub altitude: i16,
}

/// What fell in a number of seconds, if it was measured.
#[derive(Debug, Drop)]
pub struct Rain(pub u32, pub Option<Millimetres>);

/// How urgent a message is.
#[derive(Debug, Drop)]
pub enum Level {
    /// It can wait.
    Low = 1,
    /// It is one of many.
    Normal = 5,
    /// Someone has to see it.
    High = 9,
}

/// The sky over a station.
#[derive(Debug, Drop)]
pub enum Sky {
    /// No cloud.
    Clear,
    /// This many eighths are covered.
    Cloudy(u8),
    /// A storm with a name.
    Storm {
        /// The name of the storm.
        name: String,
        /// The speed of its wind, in metres a second.
        wind: u16,
    },
}

/// What a logger keeps, by names that the impls have for their own variables.
#[derive(Debug, Drop)]
pub enum Taken {
    /// The last of all.
    Last {
        /// No more follow.
        never: bool,
    },
    /// One of many.
    Row {
        /// Bytes that are kept for it.
        alloc: u32,
        /// The day.
        d: u16,
        /// Who wrote it.
        serializer: u8,
        /// Its number.
        row: u32,
        /// How many parts it has.
        parts: u8,
        /// What came out.
        result: u8,
    },
}

/// What a station saw in a day.
#[derive(Debug, Drop)]
pub struct Report {
    /// The station.
    pub station: Serial,
    /// Where it is.
    pub position: Position,
    /// The sky in each hour.
    pub skies: Vec<Sky>,
    /// Remarks, by their hour.
    pub remarks: BTreeMap<u8, Option<String>>,
    /// How urgent the report is.
    pub level: Level,
}

/// What a receiver reports each second.
#[derive(Debug, Drop)]
pub struct Telemetry {
    /// The number of the report.
    pub sequence: u32,
    /// Milliseconds since the start.
    pub uptime: u64,
    /// Millivolts.
    pub voltage: u16,
    /// Milliamperes; negative while the battery is charged.
    pub current: i16,
    /// Hundredths of a degree Celsius.
    pub temperature: i16,
    /// Percent.
    pub humidity: u8,
    /// Pascals.
    pub pressure: u32,
    /// Degrees north times 10,000,000.
    pub latitude: i32,
    /// Degrees east times 10,000,000.
    pub longitude: i32,
    /// Metres above the sea.
    pub altitude: i16,
    /// Tenths of a degree, clockwise from the north.
    pub heading: u16,
    /// Centimetres a second.
    pub speed: u16,
    /// The number of satellites in view.
    pub satellites: u8,
    /// Whether the position is known.
    pub fix: bool,
    /// The name of the receiver.
    pub label: String,
}

/// The value before a change and the one after it.
#[derive(Debug, Drop)]
pub struct Change<T> {
    /// The value before the change.
    pub old: T,
    /// The value after the change.
    pub new: T,
}

/// A request for a setting.
#[derive(Debug, Drop)]
pub enum Request<T> {
    /// Tell it.
    Get,
    /// Take this one.
    Set(T),
    /// Take none outside these two.
    Limit(T, T),
}

/// A text with its values.
#[derive(Debug, Drop)]
pub struct Label<'a> {
    /// The text, borrowed from the message.
    pub text: &'a str,
    /// The values.
    pub values: Vec<u16>,
}

/// A part of a file that is sent.
#[derive(Debug, Drop)]
pub enum Chunk<'a> {
    /// The name of the file.
    Name(&'a str),
    /// Bytes of it.
    Data {
        /// Where in the file they begin.
        start: u32,
        /// The bytes, borrowed from the message.
        bytes: &'a [u8],
    },
    /// The file has no more bytes.
    End,
}

/// A value with the name of its unit.
#[derive(Debug, Drop)]
pub struct Measured<'a, T> {
    /// The unit, borrowed from the message.
    pub unit: &'a str,
    /// The value.
    pub value: T,
}

/// A command to a station.
#[derive(Debug, Drop)]
pub enum Command {
    /// Answer.
    Ping,
    /// Send this report on.
    Forward(Report),
    /// Send these reports on.
    Batch(Vec<Report>),
    /// Change a setting.
    Setting(Request<u32>),
    /// Change some settings.
    Settings(Vec<Request<u32>>),
    /// Go to another place.
    Move {
        /// The place.
        to: Position,
        /// Centimetres a second; negative for backwards.
        speed: i16,
        /// Whether to do so at once.
        now: bool,
    },
    /// Show a fault.
    Fault {
        /// The number of the fault.
        code: u8,
        /// A description of the fault.
        text: String,
    },
}

// pcard impl: the impls of the types of this file. Don't edit them: run it again.

impl postcard::Shaped for Heartbeat {
    ghost use Rattle.postcard_shape.specs.Shape.{via};

    ghost shape = { via (λ v. tt)
        ⟦<() as postcard::Shaped>⟧.shape };
}

impl postcard::Serialize for Heartbeat {
    fn serialize<F: postcard::ser_flavors::Flavor>(
        &self,
        serializer: &mut postcard::Serializer<F>,
    ) -> postcard::Result<()> {
        postcard::Serialize::serialize(&(), serializer)
    }
}

impl<'de> postcard::Deserialize<'de> for Heartbeat {
    fn deserialize<F: postcard::de_flavors::Flavor>(
        alloc: std::alloc::Global,
        d: &mut postcard::Deserializer<'de, F>,
    ) -> postcard::Result<Self> {
        let () = postcard::Deserialize::deserialize(alloc, d)?;
        Ok(Heartbeat)
    }
}

impl postcard::DeserializeOwned for Heartbeat {
    fn deserialize_owned<F: postcard::de_flavors::Flavor>(
        alloc: std::alloc::Global,
        d: &mut postcard::Deserializer<'_, F>,
    ) -> postcard::Result<Self> {
        postcard::Deserialize::deserialize(alloc, d)
    }
}

impl postcard::Shaped for Serial {
    ghost use Rattle.postcard_shape.specs.Shape.{via};

    ghost shape = { via (λ v. v.0)
        ⟦<u64 as postcard::Shaped>⟧.shape };
}

impl postcard::Serialize for Serial {
    fn serialize<F: postcard::ser_flavors::Flavor>(
        &self,
        serializer: &mut postcard::Serializer<F>,
    ) -> postcard::Result<()> {
        postcard::Serialize::serialize(&self.0, serializer)
    }
}

impl<'de> postcard::Deserialize<'de> for Serial {
    fn deserialize<F: postcard::de_flavors::Flavor>(
        alloc: std::alloc::Global,
        d: &mut postcard::Deserializer<'de, F>,
    ) -> postcard::Result<Self> {
        let x0 = postcard::Deserialize::deserialize(alloc, d)?;
        Ok(Serial(x0))
    }
}

impl postcard::DeserializeOwned for Serial {
    fn deserialize_owned<F: postcard::de_flavors::Flavor>(
        alloc: std::alloc::Global,
        d: &mut postcard::Deserializer<'_, F>,
    ) -> postcard::Result<Self> {
        postcard::Deserialize::deserialize(alloc, d)
    }
}

impl postcard::FromParts for Position {
    type Parts = (i32, i32, i16);

    ghost seen = { λ v. (v.latitude, v.longitude, v.altitude) };

    fn from_parts(parts: Self::Parts) -> Self {
        let (latitude, longitude, altitude) = parts;
        Position {
            latitude,
            longitude,
            altitude,
        }
    }
}

impl postcard::Shaped for Position {
    ghost use Rattle.postcard_shape.specs.Shape.{via};

    ghost shape = { via ⟦<Position as postcard::FromParts>⟧.seen
        ⟦<(i32, i32, i16) as postcard::Shaped>⟧.shape };
}

impl postcard::Serialize for Position {
    fn serialize<F: postcard::ser_flavors::Flavor>(
        &self,
        serializer: &mut postcard::Serializer<F>,
    ) -> postcard::Result<()> {
        let parts = (&self.latitude, &self.longitude, &self.altitude);
        postcard::Serialize::serialize(&parts, serializer)
    }
}

impl<'de> postcard::Deserialize<'de> for Position {
    fn deserialize<F: postcard::de_flavors::Flavor>(
        alloc: std::alloc::Global,
        d: &mut postcard::Deserializer<'de, F>,
    ) -> postcard::Result<Self> {
        postcard::read_parts(alloc, d)
    }
}

impl postcard::DeserializeOwned for Position {
    fn deserialize_owned<F: postcard::de_flavors::Flavor>(
        alloc: std::alloc::Global,
        d: &mut postcard::Deserializer<'_, F>,
    ) -> postcard::Result<Self> {
        postcard::Deserialize::deserialize(alloc, d)
    }
}

impl postcard::FromParts for Rain {
    type Parts = (u32, Option<Millimetres>);

    ghost seen = { λ v. (v.0, v.1) };

    fn from_parts(parts: Self::Parts) -> Self {
        let (x0, x1) = parts;
        Rain(x0, x1)
    }
}

impl postcard::Shaped for Rain {
    ghost use Rattle.postcard_shape.specs.Shape.{via};

    ghost shape = { via ⟦<Rain as postcard::FromParts>⟧.seen
        ⟦<(u32, Option<Millimetres>) as postcard::Shaped>⟧.shape };
}

impl postcard::Serialize for Rain {
    fn serialize<F: postcard::ser_flavors::Flavor>(
        &self,
        serializer: &mut postcard::Serializer<F>,
    ) -> postcard::Result<()> {
        let parts = (&self.0, &self.1);
        postcard::Serialize::serialize(&parts, serializer)
    }
}

impl<'de> postcard::Deserialize<'de> for Rain {
    fn deserialize<F: postcard::de_flavors::Flavor>(
        alloc: std::alloc::Global,
        d: &mut postcard::Deserializer<'de, F>,
    ) -> postcard::Result<Self> {
        postcard::read_parts(alloc, d)
    }
}

impl postcard::DeserializeOwned for Rain {
    fn deserialize_owned<F: postcard::de_flavors::Flavor>(
        alloc: std::alloc::Global,
        d: &mut postcard::Deserializer<'_, F>,
    ) -> postcard::Result<Self> {
        postcard::Deserialize::deserialize(alloc, d)
    }
}

/// What the variants of [`Level`] hold, in a row.
type LevelRow = postcard::Case<(), postcard::Case<(), postcard::Case<(), postcard::NoCase>>>;

impl postcard::Shaped for Level {
    ghost use Rattle.example_generated.specs.declared.types.Level.{Level};
    ghost use Rattle.postcard_shape.specs.Shape.{via};
    ghost use Rattle.postcard_shape.specs.declared.cases.Case.TheVariants.{This, Next};

    ghost shape = { via (elim [
      | Level.Low ↦ This tt
      | Level.Normal ↦ Next (This tt)
      | Level.High ↦ Next (Next (This tt))
    ]) ⟦<LevelRow as postcard::Shaped>⟧.shape };
}

impl postcard::Serialize for Level {
    fn serialize<F: postcard::ser_flavors::Flavor>(
        &self,
        serializer: &mut postcard::Serializer<F>,
    ) -> postcard::Result<()> {
        match self {
            Level::Low => postcard::write_variant(self, 0, &(), serializer),
            Level::Normal => postcard::write_variant(self, 1, &(), serializer),
            Level::High => postcard::write_variant(self, 2, &(), serializer),
        }
    }
}

impl<'de> postcard::Deserialize<'de> for Level {
    fn deserialize<F: postcard::de_flavors::Flavor>(
        alloc: std::alloc::Global,
        d: &mut postcard::Deserializer<'de, F>,
    ) -> postcard::Result<Self> {
        use postcard::Case::{Next, This};
        let row: LevelRow = postcard::Deserialize::deserialize(alloc, d)?;
        Ok(match row {
            This(()) => Level::Low,
            Next(This(())) => Level::Normal,
            Next(Next(This(()))) => Level::High,
            Next(Next(Next(never))) => match never {},
        })
    }
}

impl postcard::DeserializeOwned for Level {
    fn deserialize_owned<F: postcard::de_flavors::Flavor>(
        alloc: std::alloc::Global,
        d: &mut postcard::Deserializer<'_, F>,
    ) -> postcard::Result<Self> {
        postcard::Deserialize::deserialize(alloc, d)
    }
}

/// What the variants of [`Sky`] hold, in a row.
type SkyRow = postcard::Case<
    (),
    postcard::Case<u8, postcard::Case<(String, u16), postcard::NoCase>>,
>;

impl postcard::Shaped for Sky {
    ghost use Rattle.example_generated.specs.declared.types.Sky.{Sky};
    ghost use Rattle.postcard_shape.specs.Shape.{via};
    ghost use Rattle.postcard_shape.specs.declared.cases.Case.TheVariants.{This, Next};

    ghost shape = { via (elim [
      | Sky.Clear ↦ This tt
      | Sky.Cloudy x0 ↦ Next (This x0)
      | Sky.Storm x0 x1 ↦ Next (Next (This (x0, x1)))
    ]) ⟦<SkyRow as postcard::Shaped>⟧.shape };
}

impl postcard::Serialize for Sky {
    fn serialize<F: postcard::ser_flavors::Flavor>(
        &self,
        serializer: &mut postcard::Serializer<F>,
    ) -> postcard::Result<()> {
        match self {
            Sky::Clear => postcard::write_variant(self, 0, &(), serializer),
            Sky::Cloudy(x0) => postcard::write_variant(self, 1, x0, serializer),
            Sky::Storm { name, wind } => postcard::write_variant(
                self,
                2,
                &(name, wind),
                serializer,
            ),
        }
    }
}

impl<'de> postcard::Deserialize<'de> for Sky {
    fn deserialize<F: postcard::de_flavors::Flavor>(
        alloc: std::alloc::Global,
        d: &mut postcard::Deserializer<'de, F>,
    ) -> postcard::Result<Self> {
        use postcard::Case::{Next, This};
        let row: SkyRow = postcard::Deserialize::deserialize(alloc, d)?;
        Ok(match row {
            This(()) => Sky::Clear,
            Next(This(x0)) => Sky::Cloudy(x0),
            Next(Next(This((name, wind)))) => Sky::Storm { name, wind },
            Next(Next(Next(never))) => match never {},
        })
    }
}

impl postcard::DeserializeOwned for Sky {
    fn deserialize_owned<F: postcard::de_flavors::Flavor>(
        alloc: std::alloc::Global,
        d: &mut postcard::Deserializer<'_, F>,
    ) -> postcard::Result<Self> {
        postcard::Deserialize::deserialize(alloc, d)
    }
}

/// What the variants of [`Taken`] hold, in a row.
type TakenRow = postcard::Case<bool, postcard::Case<(u32, u16, u8, u32, u8, u8), postcard::NoCase>>;

impl postcard::Shaped for Taken {
    ghost use Rattle.example_generated.specs.declared.types.Taken.{Taken};
    ghost use Rattle.postcard_shape.specs.Shape.{via};
    ghost use Rattle.postcard_shape.specs.declared.cases.Case.TheVariants.{This, Next};

    ghost shape = { via (elim [
      | Taken.Last x0 ↦ This x0
      | Taken.Row x0 x1 x2 x3 x4 x5 ↦ Next (This (x0, x1, x2, x3, x4, x5))
    ]) ⟦<TakenRow as postcard::Shaped>⟧.shape };
}

impl postcard::Serialize for Taken {
    fn serialize<F: postcard::ser_flavors::Flavor>(
        &self,
        serializer: &mut postcard::Serializer<F>,
    ) -> postcard::Result<()> {
        match self {
            Taken::Last { never: x0 } => postcard::write_variant(self, 0, x0, serializer),
            Taken::Row {
                alloc: x0,
                d: x1,
                serializer: x2,
                row: x3,
                parts: x4,
                result: x5,
            } => postcard::write_variant(self, 1, &(x0, x1, x2, x3, x4, x5), serializer),
        }
    }
}

impl<'de> postcard::Deserialize<'de> for Taken {
    fn deserialize<F: postcard::de_flavors::Flavor>(
        alloc: std::alloc::Global,
        d: &mut postcard::Deserializer<'de, F>,
    ) -> postcard::Result<Self> {
        use postcard::Case::{Next, This};
        let row: TakenRow = postcard::Deserialize::deserialize(alloc, d)?;
        Ok(match row {
            This(x0) => Taken::Last { never: x0 },
            Next(This((x0, x1, x2, x3, x4, x5))) => Taken::Row {
                alloc: x0,
                d: x1,
                serializer: x2,
                row: x3,
                parts: x4,
                result: x5,
            },
            Next(Next(never)) => match never {},
        })
    }
}

impl postcard::DeserializeOwned for Taken {
    fn deserialize_owned<F: postcard::de_flavors::Flavor>(
        alloc: std::alloc::Global,
        d: &mut postcard::Deserializer<'_, F>,
    ) -> postcard::Result<Self> {
        postcard::Deserialize::deserialize(alloc, d)
    }
}

impl postcard::Shaped for Report {
    ghost use Rattle.postcard_shape.specs.Shape.{via};

    ghost shape = { via (λ v. (v.station, v.position, v.skies, v.remarks, v.level))
        ⟦<(Serial, Position, Vec<Sky>, BTreeMap<u8, Option<String>>, Level) as postcard::Shaped>⟧.shape };
}

impl postcard::Serialize for Report {
    fn serialize<F: postcard::ser_flavors::Flavor>(
        &self,
        serializer: &mut postcard::Serializer<F>,
    ) -> postcard::Result<()> {
        let parts = (
            &self.station,
            &self.position,
            &self.skies,
            &self.remarks,
            &self.level,
        );
        postcard::Serialize::serialize(&parts, serializer)
    }
}

impl<'de> postcard::Deserialize<'de> for Report {
    fn deserialize<F: postcard::de_flavors::Flavor>(
        alloc: std::alloc::Global,
        d: &mut postcard::Deserializer<'de, F>,
    ) -> postcard::Result<Self> {
        let (station, position, skies, remarks, level) = postcard::Deserialize::deserialize(
            alloc, d,
        )?;
        Ok(Report {
            station,
            position,
            skies,
            remarks,
            level,
        })
    }
}

impl postcard::DeserializeOwned for Report {
    fn deserialize_owned<F: postcard::de_flavors::Flavor>(
        alloc: std::alloc::Global,
        d: &mut postcard::Deserializer<'_, F>,
    ) -> postcard::Result<Self> {
        postcard::Deserialize::deserialize(alloc, d)
    }
}

impl postcard::FromParts for Telemetry {
    type Parts = (
        (u32, u64, u16, i16, i16),
        (u8, u32, i32, i32, i16),
        (u16, u16, u8, bool, String),
    );

    ghost seen = { λ v. ((v.sequence, v.uptime, v.voltage, v.current, v.temperature), (v.humidity, v.pressure, v.latitude, v.longitude, v.altitude), (v.heading, v.speed, v.satellites, v.fix, v.label)) };

    fn from_parts(parts: Self::Parts) -> Self {
        let (
            (sequence, uptime, voltage, current, temperature),
            (humidity, pressure, latitude, longitude, altitude),
            (heading, speed, satellites, fix, label),
        ) = parts;
        Telemetry {
            sequence,
            uptime,
            voltage,
            current,
            temperature,
            humidity,
            pressure,
            latitude,
            longitude,
            altitude,
            heading,
            speed,
            satellites,
            fix,
            label,
        }
    }
}

impl postcard::Shaped for Telemetry {
    ghost use Rattle.postcard_shape.specs.Shape.{via};

    ghost shape = { via ⟦<Telemetry as postcard::FromParts>⟧.seen
        ⟦<((u32, u64, u16, i16, i16), (u8, u32, i32, i32, i16), (u16, u16, u8, bool, String)) as postcard::Shaped>⟧.shape };
}

impl postcard::Serialize for Telemetry {
    fn serialize<F: postcard::ser_flavors::Flavor>(
        &self,
        serializer: &mut postcard::Serializer<F>,
    ) -> postcard::Result<()> {
        let parts = (
            (
                &self.sequence,
                &self.uptime,
                &self.voltage,
                &self.current,
                &self.temperature,
            ),
            (
                &self.humidity,
                &self.pressure,
                &self.latitude,
                &self.longitude,
                &self.altitude,
            ),
            (
                &self.heading,
                &self.speed,
                &self.satellites,
                &self.fix,
                &self.label,
            ),
        );
        postcard::Serialize::serialize(&parts, serializer)
    }
}

impl<'de> postcard::Deserialize<'de> for Telemetry {
    fn deserialize<F: postcard::de_flavors::Flavor>(
        alloc: std::alloc::Global,
        d: &mut postcard::Deserializer<'de, F>,
    ) -> postcard::Result<Self> {
        postcard::read_parts(alloc, d)
    }
}

impl postcard::DeserializeOwned for Telemetry {
    fn deserialize_owned<F: postcard::de_flavors::Flavor>(
        alloc: std::alloc::Global,
        d: &mut postcard::Deserializer<'_, F>,
    ) -> postcard::Result<Self> {
        postcard::Deserialize::deserialize(alloc, d)
    }
}

impl<T: postcard::Shaped> postcard::Shaped for Change<T> {
    ghost use Rattle.postcard_shape.specs.Shape.{via};

    ghost shape = { via (λ v. (v.old, v.new))
        ⟦<(T, T) as postcard::Shaped>⟧.shape };
}

impl<T: postcard::Serialize> postcard::Serialize for Change<T> {
    fn serialize<F: postcard::ser_flavors::Flavor>(
        &self,
        serializer: &mut postcard::Serializer<F>,
    ) -> postcard::Result<()> {
        let parts = (&self.old, &self.new);
        postcard::Serialize::serialize(&parts, serializer)
    }
}

impl<'de, T: postcard::Deserialize<'de>> postcard::Deserialize<'de> for Change<T> {
    fn deserialize<F: postcard::de_flavors::Flavor>(
        alloc: std::alloc::Global,
        d: &mut postcard::Deserializer<'de, F>,
    ) -> postcard::Result<Self> {
        let (old, new) = postcard::Deserialize::deserialize(alloc, d)?;
        Ok(Change { old, new })
    }
}

impl<T: postcard::DeserializeOwned> postcard::DeserializeOwned for Change<T> {
    fn deserialize_owned<F: postcard::de_flavors::Flavor>(
        alloc: std::alloc::Global,
        d: &mut postcard::Deserializer<'_, F>,
    ) -> postcard::Result<Self> {
        let (old, new) = postcard::DeserializeOwned::deserialize_owned(alloc, d)?;
        Ok(Change { old, new })
    }
}

/// What the variants of [`Request`] hold, in a row.
type RequestRow<T> = postcard::Case<
    (),
    postcard::Case<T, postcard::Case<(T, T), postcard::NoCase>>,
>;

impl<T: postcard::Shaped> postcard::Shaped for Request<T> {
    ghost use Rattle.example_generated.specs.declared.types.Request.{Request};
    ghost use Rattle.postcard_shape.specs.Shape.{via};
    ghost use Rattle.postcard_shape.specs.declared.cases.Case.TheVariants.{This, Next};

    ghost shape = { via (elim [
      | Request.Get ↦ This tt
      | Request.Set x0 ↦ Next (This x0)
      | Request.Limit x0 x1 ↦ Next (Next (This (x0, x1)))
    ]) ⟦<RequestRow<T> as postcard::Shaped>⟧.shape };
}

impl<T: postcard::Serialize> postcard::Serialize for Request<T> {
    fn serialize<F: postcard::ser_flavors::Flavor>(
        &self,
        serializer: &mut postcard::Serializer<F>,
    ) -> postcard::Result<()> {
        match self {
            Request::Get => postcard::write_variant(self, 0, &(), serializer),
            Request::Set(x0) => postcard::write_variant(self, 1, x0, serializer),
            Request::Limit(x0, x1) => postcard::write_variant(self, 2, &(x0, x1), serializer),
        }
    }
}

impl<'de, T: postcard::Deserialize<'de>> postcard::Deserialize<'de> for Request<T> {
    fn deserialize<F: postcard::de_flavors::Flavor>(
        alloc: std::alloc::Global,
        d: &mut postcard::Deserializer<'de, F>,
    ) -> postcard::Result<Self> {
        use postcard::Case::{Next, This};
        let row: RequestRow<T> = postcard::Deserialize::deserialize(alloc, d)?;
        Ok(match row {
            This(()) => Request::Get,
            Next(This(x0)) => Request::Set(x0),
            Next(Next(This((x0, x1)))) => Request::Limit(x0, x1),
            Next(Next(Next(never))) => match never {},
        })
    }
}

impl<T: postcard::DeserializeOwned> postcard::DeserializeOwned for Request<T> {
    fn deserialize_owned<F: postcard::de_flavors::Flavor>(
        alloc: std::alloc::Global,
        d: &mut postcard::Deserializer<'_, F>,
    ) -> postcard::Result<Self> {
        use postcard::Case::{Next, This};
        let row: RequestRow<T> = postcard::DeserializeOwned::deserialize_owned(alloc, d)?;
        Ok(match row {
            This(()) => Request::Get,
            Next(This(x0)) => Request::Set(x0),
            Next(Next(This((x0, x1)))) => Request::Limit(x0, x1),
            Next(Next(Next(never))) => match never {},
        })
    }
}

impl<'a> postcard::Shaped for Label<'a> {
    ghost use Rattle.postcard_shape.specs.Shape.{via};

    ghost shape = { via (λ v. (v.text, v.values))
        ⟦<(&'a str, Vec<u16>) as postcard::Shaped>⟧.shape };
}

impl postcard::Serialize for Label<'_> {
    fn serialize<F: postcard::ser_flavors::Flavor>(
        &self,
        serializer: &mut postcard::Serializer<F>,
    ) -> postcard::Result<()> {
        let parts = (&self.text, &self.values);
        postcard::Serialize::serialize(&parts, serializer)
    }
}

impl<'de> postcard::Deserialize<'de> for Label<'de> {
    fn deserialize<F: postcard::de_flavors::Flavor>(
        alloc: std::alloc::Global,
        d: &mut postcard::Deserializer<'de, F>,
    ) -> postcard::Result<Self> {
        let (text, values) = postcard::Deserialize::deserialize(alloc, d)?;
        Ok(Label { text, values })
    }
}

/// What the variants of [`Chunk`] hold, in a row.
type ChunkRow<'a> = postcard::Case<
    &'a str,
    postcard::Case<(u32, &'a [u8]), postcard::Case<(), postcard::NoCase>>,
>;

impl<'a> postcard::Shaped for Chunk<'a> {
    ghost use Rattle.example_generated.specs.declared.types.Chunk.{Chunk};
    ghost use Rattle.postcard_shape.specs.Shape.{via};
    ghost use Rattle.postcard_shape.specs.declared.cases.Case.TheVariants.{This, Next};

    ghost shape = { via (elim [
      | Chunk.Name x0 ↦ This x0
      | Chunk.Data x0 x1 ↦ Next (This (x0, x1))
      | Chunk.End ↦ Next (Next (This tt))
    ]) ⟦<ChunkRow<'a> as postcard::Shaped>⟧.shape };
}

impl postcard::Serialize for Chunk<'_> {
    fn serialize<F: postcard::ser_flavors::Flavor>(
        &self,
        serializer: &mut postcard::Serializer<F>,
    ) -> postcard::Result<()> {
        match self {
            Chunk::Name(x0) => postcard::write_variant(self, 0, x0, serializer),
            Chunk::Data { start, bytes } => postcard::write_variant(
                self,
                1,
                &(start, bytes),
                serializer,
            ),
            Chunk::End => postcard::write_variant(self, 2, &(), serializer),
        }
    }
}

impl<'de> postcard::Deserialize<'de> for Chunk<'de> {
    fn deserialize<F: postcard::de_flavors::Flavor>(
        alloc: std::alloc::Global,
        d: &mut postcard::Deserializer<'de, F>,
    ) -> postcard::Result<Self> {
        use postcard::Case::{Next, This};
        let row: ChunkRow<'de> = postcard::Deserialize::deserialize(alloc, d)?;
        Ok(match row {
            This(x0) => Chunk::Name(x0),
            Next(This((start, bytes))) => Chunk::Data { start, bytes },
            Next(Next(This(()))) => Chunk::End,
            Next(Next(Next(never))) => match never {},
        })
    }
}

impl<'a, T: postcard::Shaped> postcard::Repr for Measured<'a, T> {
    type As = (&'a str, T);

    ghost repr = { λ v. (v.unit, v.value) };
}

impl<T: postcard::Shaped + Drop> postcard::FromRepr for Measured<'_, T> {
    fn from_repr(parts: Self::As) -> Self {
        let (unit, value) = parts;
        Measured { unit, value }
    }
}

impl<T: postcard::Serialize> postcard::SerializeRepr for Measured<'_, T> {
    fn serialize_repr<F: postcard::ser_flavors::Flavor>(
        &self,
        serializer: &mut postcard::Serializer<F>,
    ) -> postcard::Result<()> {
        let parts = (&self.unit, &self.value);
        postcard::Serialize::serialize(&parts, serializer)
    }
}

/// What the variants of [`Command`] hold, in a row.
type CommandRow = postcard::Case<
    (),
    postcard::Case<
        Report,
        postcard::Case<
            Vec<Report>,
            postcard::Case<
                Request<u32>,
                postcard::Case<
                    Vec<Request<u32>>,
                    postcard::Case<
                        (Position, i16, bool),
                        postcard::Case<(u8, String), postcard::NoCase>,
                    >,
                >,
            >,
        >,
    >,
>;

impl postcard::FromParts for Command {
    ghost use Rattle.example_generated.specs.declared.types.Command.{Command};
    ghost use Rattle.postcard_shape.specs.declared.cases.Case.TheVariants.{This, Next};

    type Parts = CommandRow;

    ghost seen = { (elim [
      | Command.Ping ↦ This tt
      | Command.Forward x0 ↦ Next (This x0)
      | Command.Batch x0 ↦ Next (Next (This x0))
      | Command.Setting x0 ↦ Next (Next (Next (This x0)))
      | Command.Settings x0 ↦ Next (Next (Next (Next (This x0))))
      | Command.Move x0 x1 x2 ↦ Next (Next (Next (Next (Next (This (x0, x1, x2))))))
      | Command.Fault x0 x1 ↦ Next (Next (Next (Next (Next (Next (This (x0, x1)))))))
    ]) };

    fn from_parts(row: Self::Parts) -> Self {
        use postcard::Case::{Next, This};
        match row {
            This(()) => Command::Ping,
            Next(This(x0)) => Command::Forward(x0),
            Next(Next(This(x0))) => Command::Batch(x0),
            Next(Next(Next(This(x0)))) => Command::Setting(x0),
            Next(Next(Next(Next(This(x0))))) => Command::Settings(x0),
            Next(Next(Next(Next(Next(This((to, speed, now))))))) => Command::Move {
                to,
                speed,
                now,
            },
            Next(Next(Next(Next(Next(Next(This((code, text)))))))) => Command::Fault { code, text },
            Next(Next(Next(Next(Next(Next(Next(never))))))) => match never {},
        }
    }
}

impl postcard::Shaped for Command {
    ghost use Rattle.postcard_shape.specs.Shape.{via};

    ghost shape = { via ⟦<Command as postcard::FromParts>⟧.seen ⟦<CommandRow as postcard::Shaped>⟧.shape };
}

impl postcard::Serialize for Command {
    fn serialize<F: postcard::ser_flavors::Flavor>(
        &self,
        serializer: &mut postcard::Serializer<F>,
    ) -> postcard::Result<()> {
        match self {
            Command::Ping => postcard::write_variant(self, 0, &(), serializer),
            Command::Forward(x0) => postcard::write_variant(self, 1, x0, serializer),
            Command::Batch(x0) => postcard::write_variant(self, 2, x0, serializer),
            Command::Setting(x0) => postcard::write_variant(self, 3, x0, serializer),
            Command::Settings(x0) => postcard::write_variant(self, 4, x0, serializer),
            Command::Move { to, speed, now } => postcard::write_variant(
                self,
                5,
                &(to, speed, now),
                serializer,
            ),
            Command::Fault { code, text } => postcard::write_variant(
                self,
                6,
                &(code, text),
                serializer,
            ),
        }
    }
}

impl<'de> postcard::Deserialize<'de> for Command {
    fn deserialize<F: postcard::de_flavors::Flavor>(
        alloc: std::alloc::Global,
        d: &mut postcard::Deserializer<'de, F>,
    ) -> postcard::Result<Self> {
        postcard::read_parts(alloc, d)
    }
}

impl postcard::DeserializeOwned for Command {
    fn deserialize_owned<F: postcard::de_flavors::Flavor>(
        alloc: std::alloc::Global,
        d: &mut postcard::Deserializer<'_, F>,
    ) -> postcard::Result<Self> {
        postcard::Deserialize::deserialize(alloc, d)
    }
}
// pcard impl: the end of the impls.

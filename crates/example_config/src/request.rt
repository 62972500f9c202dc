//! Requests for a setting of any type: an enum with a type parameter, read by its parts.

ghost use Rattle.example_config.specs.declared.request.Request.{Request};
ghost use Rattle.postcard_shape.specs.Shape.{via};
ghost use Rattle.postcard_shape.specs.declared.cases.Case.TheVariants.{This, Next};

use postcard::de_flavors::Flavor as DeFlavor;
use postcard::ser_flavors::Flavor;
use postcard::{
    Case, Deserialize, DeserializeOwned, Deserializer, FromParts, NoCase, Result, Serialize,
    Serializer, Shaped, read_parts, read_parts_owned, write_variant,
};
use std::alloc::Global;

/// A request for a setting.
#[derive(Debug, Drop)]
pub enum Request<T> {
    /// Return the setting.
    Get,
    /// Set it to this value.
    Set(T),
    /// Keep it between these two values.
    Limit(T, T),
    /// Change it by a number of steps.
    Step(i16),
}

/// What the variants of [`Request`] hold, in a row.
type Parts<T> = Case<(), Case<T, Case<(T, T), Case<i16, NoCase>>>>;

impl<T: Shaped + Drop> FromParts for Request<T> {
    type Parts = Parts<T>;

    ghost seen = { elim [
      | Request.Get ↦ This tt
      | Request.Set value ↦ Next (This value)
      | Request.Limit least most ↦ Next (Next (This (least, most)))
      | Request.Step steps ↦ Next (Next (Next (This steps)))
    ] };

    fn from_parts(parts: Self::Parts) -> Self {
        match parts {
            Case::This(()) => Request::Get,
            Case::Next(Case::This(value)) => Request::Set(value),
            Case::Next(Case::Next(Case::This((least, most)))) => Request::Limit(least, most),
            Case::Next(Case::Next(Case::Next(Case::This(steps)))) => Request::Step(steps),
            Case::Next(Case::Next(Case::Next(Case::Next(never)))) => match never {},
        }
    }
}

impl<T: Shaped> Shaped for Request<T> {
    // The function of `seen` again, for the prover: a shape can't quote the `seen` of a type with a
    // parameter.
    ghost shape = { via (elim [
      | Request.Get ↦ This tt
      | Request.Set value ↦ Next (This value)
      | Request.Limit least most ↦ Next (Next (This (least, most)))
      | Request.Step steps ↦ Next (Next (Next (This steps)))
    ]) ⟦<Parts<T> as Shaped>⟧.shape };
}

impl<T: Serialize> Serialize for Request<T> {
    fn serialize<F: Flavor>(&self, serializer: &mut Serializer<F>) -> Result<()> {
        match self {
            Request::Get => write_variant(self, 0, &(), serializer),
            Request::Set(value) => write_variant(self, 1, value, serializer),
            Request::Limit(least, most) => write_variant(self, 2, &(least, most), serializer),
            Request::Step(steps) => write_variant(self, 3, steps, serializer),
        }
    }
}

impl<'de, T: Deserialize<'de>> Deserialize<'de> for Request<T> {
    fn deserialize<F: DeFlavor>(alloc: Global, d: &mut Deserializer<'de, F>) -> Result<Self> {
        read_parts(alloc, d)
    }
}

impl<T: DeserializeOwned> DeserializeOwned for Request<T> {
    fn deserialize_owned<F: DeFlavor>(alloc: Global, d: &mut Deserializer<'_, F>) -> Result<Self> {
        read_parts_owned(alloc, d)
    }
}

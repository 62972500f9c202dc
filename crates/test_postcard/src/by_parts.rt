//! A test of the calls for the impls of a user's types. An enum with a type parameter is written by
//! its variants and read by its parts.

ghost use Rattle.test_postcard.specs.declared.by_parts.Step.{Step};
ghost use Rattle.postcard_shape.specs.Shape.{via};
ghost use Rattle.postcard_shape.specs.declared.cases.Case.TheVariants.{This, Next};

use crate::asserts::assert_owned;
use postcard::de_flavors::Flavor as DeFlavor;
use postcard::ser_flavors::Flavor;
use postcard::{
    Case, Deserialize, DeserializeOwned, Deserializer, Error, FromParts, NoCase, Result, Serialize,
    Serializer, Shaped, read_parts, read_parts_owned, write_variant,
};
use std::alloc::Global;

/// A step of a machine.
#[derive(Debug, Drop, PartialEq)]
enum Step<T> {
    Stay,
    Move { x: i16, y: i16, speed: T },
}

/// What the variants of [`Step`] hold, in a row.
type Contents<T> = Case<(), Case<(i16, i16, T), NoCase>>;

impl<T: Shaped + Drop> FromParts for Step<T> {
    type Parts = Contents<T>;

    ghost seen = { elim [
      | Step.Stay ↦ This tt
      | Step.Move x y speed ↦ Next (This (x, y, speed))
    ] };

    fn from_parts(parts: Self::Parts) -> Self {
        match parts {
            Case::This(()) => Step::Stay,
            Case::Next(Case::This((x, y, speed))) => Step::Move { x, y, speed },
            Case::Next(Case::Next(never)) => match never {},
        }
    }
}

impl<T: Shaped> Shaped for Step<T> {
    ghost shape = { via (elim [
      | Step.Stay ↦ This tt
      | Step.Move x y speed ↦ Next (This (x, y, speed))
    ]) ⟦<Contents<T> as Shaped>⟧.shape };
}

impl<T: Serialize> Serialize for Step<T> {
    fn serialize<F: Flavor>(&self, serializer: &mut Serializer<F>) -> Result<()> {
        match self {
            Step::Stay => write_variant(self, 0, &(), serializer),
            Step::Move { x, y, speed } => write_variant(self, 1, &(x, y, speed), serializer),
        }
    }
}

impl<'de, T: Deserialize<'de>> Deserialize<'de> for Step<T> {
    fn deserialize<F: DeFlavor>(alloc: Global, d: &mut Deserializer<'de, F>) -> Result<Self> {
        read_parts(alloc, d)
    }
}

impl<T: DeserializeOwned> DeserializeOwned for Step<T> {
    fn deserialize_owned<F: DeFlavor>(alloc: Global, d: &mut Deserializer<'_, F>) -> Result<Self> {
        read_parts_owned(alloc, d)
    }
}

#[test]
fn an_enum_by_its_parts(rt: HostRuntime) {
    assert_owned(&rt, &[0], Ok(Step::<u16>::Stay));
    let step = Step::Move {
        x: -1,
        y: 2,
        speed: 300u16,
    };
    assert_owned(&rt, &[1, 1, 4, 0xAC, 0x02], Ok(step));
    assert_owned::<Step<u16>>(&rt, &[2], Err(Error::SerdeDeCustom));
    assert_owned::<Step<u16>>(&rt, &[1, 1, 4], Err(Error::DeserializeUnexpectedEnd));
}

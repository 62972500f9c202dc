//! An enum whose variants have no content, so that only the index is written.

ghost use Rattle.test_support.specs.declared.types.basic_enum.BasicEnum.{BasicEnum};

use postcard::ser_flavors::Flavor;
use postcard::{
    Case, FromRepr, NoCase, Repr, Result, SerializeRepr, Serializer, serialize_variant,
};

/// One of three variants.
#[derive(Clone, Debug, Drop, PartialEq)]
pub enum BasicEnum {
    /// The variant with the index 0.
    Bib,
    /// The variant with the index 1.
    Bim,
    /// The variant with the index 2.
    Bap,
}

impl Repr for BasicEnum {
    ghost use Rattle.postcard_shape.specs.declared.cases.Case.TheVariants.{This, Next};

    type As = Case<(), Case<(), Case<(), NoCase>>>;

    ghost repr = { elim [
      | BasicEnum.Bib ↦ This tt
      | BasicEnum.Bim ↦ Next (This tt)
      | BasicEnum.Bap ↦ Next (Next (This tt))
    ] };
}

impl FromRepr for BasicEnum {
    fn from_repr(repr: Self::As) -> Self {
        match repr {
            Case::This(()) => BasicEnum::Bib,
            Case::Next(Case::This(())) => BasicEnum::Bim,
            Case::Next(Case::Next(Case::This(()))) => BasicEnum::Bap,
            Case::Next(Case::Next(Case::Next(never))) => match never {},
        }
    }
}

impl SerializeRepr for BasicEnum {
    fn serialize_repr<F: Flavor>(&self, serializer: &mut Serializer<F>) -> Result<()> {
        match self {
            BasicEnum::Bib => serialize_variant(0, &(), serializer),
            BasicEnum::Bim => serialize_variant(1, &(), serializer),
            BasicEnum::Bap => serialize_variant(2, &(), serializer),
        }
    }
}

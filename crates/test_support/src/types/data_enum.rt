//! An enum with content of every kind, and the struct that is the content of one of its variants.

ghost use Rattle.test_support.specs.declared.types.data_enum.DataEnum.{DataEnum};

use postcard::ser_flavors::Flavor;
use postcard::{
    Case, FromRepr, NoCase, Repr, Result, Serialize, SerializeRepr, Serializer, serialize_variant,
};

/// The struct that is the content of a variant.
#[derive(Clone, Debug, Drop, PartialEq)]
pub struct EnumStruct {
    /// A number of 8 bits.
    pub eight: u8,
    /// A number of 16 bits.
    pub sixt: u16,
}

impl Repr for EnumStruct {
    type As = (u8, u16);

    ghost repr = { λ v. (v.eight, v.sixt) };
}

impl FromRepr for EnumStruct {
    fn from_repr((eight, sixt): Self::As) -> Self {
        EnumStruct { eight, sixt }
    }
}

impl SerializeRepr for EnumStruct {
    fn serialize_repr<F: Flavor>(&self, serializer: &mut Serializer<F>) -> Result<()> {
        (self.eight, self.sixt).serialize(serializer)
    }
}

/// An enum with content of every kind: one value, a struct, and fields with and without names.
#[derive(Clone, Debug, Drop, PartialEq)]
pub enum DataEnum {
    /// A number of 16 bits.
    Bib(u16),
    /// A number of 64 bits.
    Bim(u64),
    /// A number of 8 bits.
    Bap(u8),
    /// A struct.
    Kim(EnumStruct),
    /// Fields with names.
    Chi {
        /// A number of 8 bits.
        a: u8,
        /// A number of 32 bits.
        b: u32,
    },
    /// Fields without names.
    Sho(u16, u8),
}

/// The last three of the six variants.
type Behind = Case<EnumStruct, Case<(u8, u32), Case<(u16, u8), NoCase>>>;

impl Repr for DataEnum {
    ghost use Rattle.postcard_shape.specs.declared.cases.Case.TheVariants.{This, Next};

    type As = Case<u16, Case<u64, Case<u8, Behind>>>;

    ghost repr = { elim [
      | DataEnum.Bib n ↦ This n
      | DataEnum.Bim n ↦ Next (This n)
      | DataEnum.Bap n ↦ Next (Next (This n))
      | DataEnum.Kim v ↦ Next (Next (Next (This v)))
      | DataEnum.Chi a b ↦ Next (Next (Next (Next (This (a, b)))))
      | DataEnum.Sho x y ↦ Next (Next (Next (Next (Next (This (x, y))))))
    ] };
}

impl FromRepr for DataEnum {
    fn from_repr(repr: Self::As) -> Self {
        match repr {
            Case::This(n) => DataEnum::Bib(n),
            Case::Next(Case::This(n)) => DataEnum::Bim(n),
            Case::Next(Case::Next(Case::This(n))) => DataEnum::Bap(n),
            Case::Next(Case::Next(Case::Next(others))) => match others {
                Case::This(v) => DataEnum::Kim(v),
                Case::Next(Case::This((a, b))) => DataEnum::Chi { a, b },
                Case::Next(Case::Next(Case::This((x, y)))) => DataEnum::Sho(x, y),
                Case::Next(Case::Next(Case::Next(never))) => match never {},
            },
        }
    }
}

impl SerializeRepr for DataEnum {
    fn serialize_repr<F: Flavor>(&self, serializer: &mut Serializer<F>) -> Result<()> {
        match self {
            DataEnum::Bib(n) => serialize_variant(0, n, serializer),
            DataEnum::Bim(n) => serialize_variant(1, n, serializer),
            DataEnum::Bap(n) => serialize_variant(2, n, serializer),
            DataEnum::Kim(v) => serialize_variant(3, v, serializer),
            DataEnum::Chi { a, b } => serialize_variant(4, &(*a, *b), serializer),
            DataEnum::Sho(x, y) => serialize_variant(5, &(*x, *y), serializer),
        }
    }
}

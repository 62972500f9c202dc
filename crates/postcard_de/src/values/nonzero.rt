//! Numbers that aren't 0: read as the number, of which 0 is refused with `SerdeDeCustom`.

ghost use Rattle.postcard_de.specs.{DeserializesNode, non_zero_i128_node, non_zero_i16_node};
ghost use Rattle.postcard_de.specs.{non_zero_i32_node, non_zero_i64_node, non_zero_i8_node};
ghost use Rattle.postcard_de.specs.{non_zero_isize_node, non_zero_u128_node, non_zero_u16_node};
ghost use Rattle.postcard_de.specs.{non_zero_u32_node, non_zero_u64_node, non_zero_u8_node};
ghost use Rattle.postcard_de.specs.{non_zero_usize_node};

use crate::deserialize::Deserialize;
use crate::deserializer::Deserializer;
use crate::owned::DeserializeOwned;
use postcard_de_flavors::Flavor;
use postcard_wire::{Error, Result};
use std::alloc::Global;
use std::num::{
    NonZeroI8, NonZeroI16, NonZeroI32, NonZeroI64, NonZeroI128, NonZeroIsize, NonZeroU8,
    NonZeroU16, NonZeroU32, NonZeroU64, NonZeroU128, NonZeroUsize,
};

impl<'de> Deserialize<'de> for NonZeroU8 {
    fn deserialize<F: Flavor>(alloc: Global, d: &mut Deserializer<'de, F>) -> Result<Self>
        ensures { DeserializesNode F.Flavor non_zero_u8_node d.old result d.new }
    {
        let number = u8::deserialize(alloc, d)?;
        match NonZeroU8::new(number) {
            Some(number) => Ok(number),
            None => Err(Error::SerdeDeCustom),
        }
    }
}

impl DeserializeOwned for NonZeroU8 {
    fn deserialize_owned<'de, F: Flavor>(
        alloc: Global,
        d: &mut Deserializer<'de, F>,
    ) -> Result<Self>
        ensures { DeserializesNode F.Flavor non_zero_u8_node d.old result d.new }
    {
        NonZeroU8::deserialize(alloc, d)
    }
}

impl<'de> Deserialize<'de> for NonZeroU16 {
    fn deserialize<F: Flavor>(alloc: Global, d: &mut Deserializer<'de, F>) -> Result<Self>
        ensures { DeserializesNode F.Flavor non_zero_u16_node d.old result d.new }
    {
        let number = u16::deserialize(alloc, d)?;
        match NonZeroU16::new(number) {
            Some(number) => Ok(number),
            None => Err(Error::SerdeDeCustom),
        }
    }
}

impl DeserializeOwned for NonZeroU16 {
    fn deserialize_owned<'de, F: Flavor>(
        alloc: Global,
        d: &mut Deserializer<'de, F>,
    ) -> Result<Self>
        ensures { DeserializesNode F.Flavor non_zero_u16_node d.old result d.new }
    {
        NonZeroU16::deserialize(alloc, d)
    }
}

impl<'de> Deserialize<'de> for NonZeroU32 {
    fn deserialize<F: Flavor>(alloc: Global, d: &mut Deserializer<'de, F>) -> Result<Self>
        ensures { DeserializesNode F.Flavor non_zero_u32_node d.old result d.new }
    {
        let number = u32::deserialize(alloc, d)?;
        match NonZeroU32::new(number) {
            Some(number) => Ok(number),
            None => Err(Error::SerdeDeCustom),
        }
    }
}

impl DeserializeOwned for NonZeroU32 {
    fn deserialize_owned<'de, F: Flavor>(
        alloc: Global,
        d: &mut Deserializer<'de, F>,
    ) -> Result<Self>
        ensures { DeserializesNode F.Flavor non_zero_u32_node d.old result d.new }
    {
        NonZeroU32::deserialize(alloc, d)
    }
}

impl<'de> Deserialize<'de> for NonZeroU64 {
    fn deserialize<F: Flavor>(alloc: Global, d: &mut Deserializer<'de, F>) -> Result<Self>
        ensures { DeserializesNode F.Flavor non_zero_u64_node d.old result d.new }
    {
        let number = u64::deserialize(alloc, d)?;
        match NonZeroU64::new(number) {
            Some(number) => Ok(number),
            None => Err(Error::SerdeDeCustom),
        }
    }
}

impl DeserializeOwned for NonZeroU64 {
    fn deserialize_owned<'de, F: Flavor>(
        alloc: Global,
        d: &mut Deserializer<'de, F>,
    ) -> Result<Self>
        ensures { DeserializesNode F.Flavor non_zero_u64_node d.old result d.new }
    {
        NonZeroU64::deserialize(alloc, d)
    }
}

impl<'de> Deserialize<'de> for NonZeroU128 {
    fn deserialize<F: Flavor>(alloc: Global, d: &mut Deserializer<'de, F>) -> Result<Self>
        ensures { DeserializesNode F.Flavor non_zero_u128_node d.old result d.new }
    {
        let number = u128::deserialize(alloc, d)?;
        match NonZeroU128::new(number) {
            Some(number) => Ok(number),
            None => Err(Error::SerdeDeCustom),
        }
    }
}

impl DeserializeOwned for NonZeroU128 {
    fn deserialize_owned<'de, F: Flavor>(
        alloc: Global,
        d: &mut Deserializer<'de, F>,
    ) -> Result<Self>
        ensures { DeserializesNode F.Flavor non_zero_u128_node d.old result d.new }
    {
        NonZeroU128::deserialize(alloc, d)
    }
}

impl<'de> Deserialize<'de> for NonZeroUsize {
    fn deserialize<F: Flavor>(alloc: Global, d: &mut Deserializer<'de, F>) -> Result<Self>
        ensures { DeserializesNode F.Flavor non_zero_usize_node d.old result d.new }
    {
        let number = usize::deserialize(alloc, d)?;
        match NonZeroUsize::new(number) {
            Some(number) => Ok(number),
            None => Err(Error::SerdeDeCustom),
        }
    }
}

impl DeserializeOwned for NonZeroUsize {
    fn deserialize_owned<'de, F: Flavor>(
        alloc: Global,
        d: &mut Deserializer<'de, F>,
    ) -> Result<Self>
        ensures { DeserializesNode F.Flavor non_zero_usize_node d.old result d.new }
    {
        NonZeroUsize::deserialize(alloc, d)
    }
}

impl<'de> Deserialize<'de> for NonZeroI8 {
    fn deserialize<F: Flavor>(alloc: Global, d: &mut Deserializer<'de, F>) -> Result<Self>
        ensures { DeserializesNode F.Flavor non_zero_i8_node d.old result d.new }
    {
        let number = i8::deserialize(alloc, d)?;
        match NonZeroI8::new(number) {
            Some(number) => Ok(number),
            None => Err(Error::SerdeDeCustom),
        }
    }
}

impl DeserializeOwned for NonZeroI8 {
    fn deserialize_owned<'de, F: Flavor>(
        alloc: Global,
        d: &mut Deserializer<'de, F>,
    ) -> Result<Self>
        ensures { DeserializesNode F.Flavor non_zero_i8_node d.old result d.new }
    {
        NonZeroI8::deserialize(alloc, d)
    }
}

impl<'de> Deserialize<'de> for NonZeroI16 {
    fn deserialize<F: Flavor>(alloc: Global, d: &mut Deserializer<'de, F>) -> Result<Self>
        ensures { DeserializesNode F.Flavor non_zero_i16_node d.old result d.new }
    {
        let number = i16::deserialize(alloc, d)?;
        match NonZeroI16::new(number) {
            Some(number) => Ok(number),
            None => Err(Error::SerdeDeCustom),
        }
    }
}

impl DeserializeOwned for NonZeroI16 {
    fn deserialize_owned<'de, F: Flavor>(
        alloc: Global,
        d: &mut Deserializer<'de, F>,
    ) -> Result<Self>
        ensures { DeserializesNode F.Flavor non_zero_i16_node d.old result d.new }
    {
        NonZeroI16::deserialize(alloc, d)
    }
}

impl<'de> Deserialize<'de> for NonZeroI32 {
    fn deserialize<F: Flavor>(alloc: Global, d: &mut Deserializer<'de, F>) -> Result<Self>
        ensures { DeserializesNode F.Flavor non_zero_i32_node d.old result d.new }
    {
        let number = i32::deserialize(alloc, d)?;
        match NonZeroI32::new(number) {
            Some(number) => Ok(number),
            None => Err(Error::SerdeDeCustom),
        }
    }
}

impl DeserializeOwned for NonZeroI32 {
    fn deserialize_owned<'de, F: Flavor>(
        alloc: Global,
        d: &mut Deserializer<'de, F>,
    ) -> Result<Self>
        ensures { DeserializesNode F.Flavor non_zero_i32_node d.old result d.new }
    {
        NonZeroI32::deserialize(alloc, d)
    }
}

impl<'de> Deserialize<'de> for NonZeroI64 {
    fn deserialize<F: Flavor>(alloc: Global, d: &mut Deserializer<'de, F>) -> Result<Self>
        ensures { DeserializesNode F.Flavor non_zero_i64_node d.old result d.new }
    {
        let number = i64::deserialize(alloc, d)?;
        match NonZeroI64::new(number) {
            Some(number) => Ok(number),
            None => Err(Error::SerdeDeCustom),
        }
    }
}

impl DeserializeOwned for NonZeroI64 {
    fn deserialize_owned<'de, F: Flavor>(
        alloc: Global,
        d: &mut Deserializer<'de, F>,
    ) -> Result<Self>
        ensures { DeserializesNode F.Flavor non_zero_i64_node d.old result d.new }
    {
        NonZeroI64::deserialize(alloc, d)
    }
}

impl<'de> Deserialize<'de> for NonZeroI128 {
    fn deserialize<F: Flavor>(alloc: Global, d: &mut Deserializer<'de, F>) -> Result<Self>
        ensures { DeserializesNode F.Flavor non_zero_i128_node d.old result d.new }
    {
        let number = i128::deserialize(alloc, d)?;
        match NonZeroI128::new(number) {
            Some(number) => Ok(number),
            None => Err(Error::SerdeDeCustom),
        }
    }
}

impl DeserializeOwned for NonZeroI128 {
    fn deserialize_owned<'de, F: Flavor>(
        alloc: Global,
        d: &mut Deserializer<'de, F>,
    ) -> Result<Self>
        ensures { DeserializesNode F.Flavor non_zero_i128_node d.old result d.new }
    {
        NonZeroI128::deserialize(alloc, d)
    }
}

impl<'de> Deserialize<'de> for NonZeroIsize {
    fn deserialize<F: Flavor>(alloc: Global, d: &mut Deserializer<'de, F>) -> Result<Self>
        ensures { DeserializesNode F.Flavor non_zero_isize_node d.old result d.new }
    {
        let number = isize::deserialize(alloc, d)?;
        match NonZeroIsize::new(number) {
            Some(number) => Ok(number),
            None => Err(Error::SerdeDeCustom),
        }
    }
}

impl DeserializeOwned for NonZeroIsize {
    fn deserialize_owned<'de, F: Flavor>(
        alloc: Global,
        d: &mut Deserializer<'de, F>,
    ) -> Result<Self>
        ensures { DeserializesNode F.Flavor non_zero_isize_node d.old result d.new }
    {
        NonZeroIsize::deserialize(alloc, d)
    }
}

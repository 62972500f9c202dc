//! A recursive type: a chain of links, with a limit on their number.

ghost use Rattle.std.specs.Prelude.{OnOk};
ghost use Rattle.postcard_wire.specs.Spelling.{canonical};
ghost use Rattle.postcard_de.specs.Reads.{Deserializes};
ghost use Rattle.postcard_ser.specs.Writing.{Wrote};
ghost use Rattle.example_types.specs.Links.{chain_shape};

use postcard::de_flavors::Flavor as DeFlavor;
use postcard::ser_flavors::Flavor;
use postcard::{
    Deserialize, DeserializeOwned, Deserializer, Error, Result, Serialize, Serializer, Shaped,
    serialize_variant,
};
use std::alloc::Global;

/// A list of numbers. Writing or reading a list of 32 numbers or more fails.
#[derive(Debug, Drop, PartialEq)]
pub enum Chain {
    /// No number.
    End,
    /// A number, and the chain of the numbers after it.
    Link(u16, Box<Chain>),
}

/// Writes a chain of fewer than `limit` links. Fails with `SerdeSerCustom` if it has `limit` links
/// or more, and with `SerializeBufferFull` if the flavor refuses bytes. No part is a printed text,
/// so there is no other error. The bytes that the flavor took before stay in it.
fn write_links<F: Flavor>(chain: &Chain, limit: u32, serializer: &mut Serializer<F>) -> Result<()>
    ensures wrote { Wrote F.Flavor serializer.old.output
        (canonical ((chain_shape limit).tree chain.now)) ((chain_shape limit).refusal chain.now)
        (chain_shape limit).text result serializer.new.output }
    ensures fits { OnOk result ((chain_shape limit).fits chain.now) }
{
    if limit == 0 {
        return Err(Error::ser_custom("too many links"));
    }
    match chain {
        Chain::End => serialize_variant(0, &(), serializer),
        Chain::Link(number, rest) => {
            serializer.serialize_u32(1)?;
            serializer.serialize_u16(*number)?;
            write_links(rest, limit - 1, serializer)
        }
    }
}

/// Reads a chain of fewer than `limit` links. Fails with `SerdeDeCustom` if it has `limit` links or
/// more, or if a variant's index is neither 0 nor 1. Fails with `OutOfMemory` if an allocation
/// fails.
fn read_links<F: DeFlavor>(limit: u32, alloc: Global, d: &mut Deserializer<'_, F>) -> Result<Chain>
    ensures { Deserializes F.Flavor (chain_shape limit) d.old result d.new }
{
    if limit == 0 {
        return Err(Error::de_custom("too many links"));
    }
    match d.deserialize_enum("Chain", &["End", "Link"])? {
        0 => Ok(Chain::End),
        1 => {
            let number = d.deserialize_u16()?;
            let rest = read_links(limit - 1, alloc, d)?;
            match Box::new(alloc, rest) {
                Ok(rest) => Ok(Chain::Link(number, rest)),
                Err(_) => Err(Error::OutOfMemory),
            }
        }
        _ => Err(Error::de_custom("no such variant")),
    }
}

impl Shaped for Chain {
    ghost shape = { chain_shape 32 };
}

impl Serialize for Chain {
    fn serialize<F: Flavor>(&self, serializer: &mut Serializer<F>) -> Result<()> {
        write_links(self, 32, serializer)
    }
}

impl<'de> Deserialize<'de> for Chain {
    fn deserialize<F: DeFlavor>(alloc: Global, d: &mut Deserializer<'de, F>) -> Result<Self> {
        read_links(32, alloc, d)
    }
}

impl DeserializeOwned for Chain {
    fn deserialize_owned<'de, F: DeFlavor>(
        alloc: Global,
        d: &mut Deserializer<'de, F>,
    ) -> Result<Self> {
        Chain::deserialize(alloc, d)
    }
}

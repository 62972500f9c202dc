//! Lists: the number of the elements, a varint, and then the elements.

ghost use Rattle.std.specs.Prelude.{Any, map, OnOk};
ghost use Rattle.postcard_ser.specs.{AllFit, Wrote, canonical_all, trees};

use crate::serialize::Serialize;
use crate::serializer::Serializer;
use postcard_ser_flavors::Flavor;
use postcard_shape::FirstBytes;
use postcard_wire::Result;
use std::collections::{LinkedList, VecDeque};

/// Writes the elements in order, with no count before them. `first_bytes` says which elements come
/// next as one piece of bytes, and which are written one by one.
pub(crate) fn serialize_all<T: Serialize, F: Flavor>(
    items: &[T],
    serializer: &mut Serializer<F>,
) -> Result<()>
    ensures wrote { Wrote F.Flavor serializer.old.output
        (canonical_all (trees (map T.shape.tree items.now)))
        (λ e. Any (λ x. T.shape.refusal x e) items.now) T.shape.text result
        serializer.new.output }
    ensures fits { OnOk result (AllFit T.shape.fits items.now) }
{
    let mut rest = items;
    loop {
        match T::first_bytes(rest) {
            FirstBytes::Whole(bytes) => return serializer.extend(bytes),
            FirstBytes::Block(block, count) => {
                serializer.extend(&block)?;
                rest = &rest[count..];
            }
            FirstBytes::Row(row, row_count) => {
                serializer.extend(&row)?;
                rest = &rest[row_count..];
            }
            FirstBytes::SomeOneByOne(some) => {
                serialize_each(&rest[..some], serializer)?;
                rest = &rest[some..];
            }
            FirstBytes::OneByOne => return serialize_each(rest, serializer),
        }
    }
}

fn serialize_each<T: Serialize, F: Flavor>(
    items: &[T],
    serializer: &mut Serializer<F>,
) -> Result<()>
    ensures wrote { Wrote F.Flavor serializer.old.output
        (canonical_all (trees (map T.shape.tree items.now)))
        (λ e. Any (λ x. T.shape.refusal x e) items.now) T.shape.text result
        serializer.new.output }
    ensures fits { OnOk result (AllFit T.shape.fits items.now) }
{
    for item in items {
        item.serialize(serializer)?;
    }
    Ok(())
}

impl<T: Serialize> Serialize for &[T] {
    fn serialize<F: Flavor>(&self, serializer: &mut Serializer<F>) -> Result<()> {
        serializer.serialize_seq(Some(self.len()))?;
        serialize_all(self, serializer)
    }
}

impl<T: Serialize> Serialize for Vec<T> {
    fn serialize<F: Flavor>(&self, serializer: &mut Serializer<F>) -> Result<()> {
        self.as_slice().serialize(serializer)
    }
}

impl<T: Serialize> Serialize for VecDeque<T> {
    fn serialize<F: Flavor>(&self, serializer: &mut Serializer<F>) -> Result<()> {
        let (front, back) = self.as_slices();
        serializer.serialize_seq(Some(self.len()))?;
        serialize_all(front, serializer)?;
        serialize_all(back, serializer)
    }
}

fn serialize_linked<T: Serialize, F: Flavor>(
    items: &LinkedList<T>,
    serializer: &mut Serializer<F>,
) -> Result<()>
    ensures wrote { Wrote F.Flavor serializer.old.output
        (canonical_all (trees (map T.shape.tree items.now)))
        (λ e. Any (λ x. T.shape.refusal x e) items.now) T.shape.text result
        serializer.new.output }
    ensures fits { OnOk result (AllFit T.shape.fits items.now) }
{
    for element in items {
        element.serialize(serializer)?;
    }
    Ok(())
}

impl<T: Serialize> Serialize for LinkedList<T> {
    fn serialize<F: Flavor>(&self, serializer: &mut Serializer<F>) -> Result<()> {
        let count = self.len();
        serializer.serialize_seq(Some(count))?;
        serialize_linked(self, serializer)
    }
}

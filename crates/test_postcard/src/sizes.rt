//! Tests of the greatest sizes of types that have no rows in `test_vectors`. These are types of a
//! user, those that can only be written, long lists, and types whose greatest size doesn't fit 64
//! bits.

ghost use Rattle.test_postcard.specs.declared.sizes.Choice.{Choice};

use crate::asserts::same;
use arrayvec::ArrayVec;
use postcard::experimental::max_size::sizes::{greater, product, sum, varint_len};
use postcard::experimental::max_size::{MaxSize, MaxSizeRepr, fill_max_size, laws};
use postcard::ser_flavors::Flavor;
use postcard::{
    Case, Error, NoCase, Repr, Result, Serialize, SerializeRepr, Serializer, serialize_variant,
    to_slice,
};
use std::marker::PhantomData;
use std::process::Abort;

/// A type with one value, which is written as the byte 0.
struct One;

impl Repr for One {
    type As = u8;

    ghost repr = { λ v. 0 };
}

impl SerializeRepr for One {
    fn serialize_repr<F: Flavor>(&self, serializer: &mut Serializer<F>) -> Result<()> {
        0u8.serialize(serializer)
    }
}

impl MaxSizeRepr for One {
    fn in_forms_repr(&self) {}
}

/// A struct of fields of at most 3 and 2 bytes.
#[derive(Drop)]
struct Parts {
    number: u16,
    choice: Option<u8>,
}

impl Repr for Parts {
    type As = (u16, Option<u8>);

    ghost repr = { λ v. (v.number, v.choice) };
}

impl SerializeRepr for Parts {
    fn serialize_repr<F: Flavor>(&self, serializer: &mut Serializer<F>) -> Result<()> {
        (self.number, self.choice).serialize(serializer)
    }
}

impl MaxSizeRepr for Parts {
    fn in_forms_repr(&self) {
        (self.number, self.choice).in_forms();
    }
}

/// An enum of variants whose content has at most 3 bytes and 1 byte.
enum Choice {
    Wide(u16),
    Narrow(u8),
}

impl Repr for Choice {
    ghost use Rattle.postcard_shape.specs.declared.cases.Case.TheVariants.{This, Next};

    type As = Case<u16, Case<u8, NoCase>>;

    ghost repr = { elim [
      | Choice.Wide number ↦ This number
      | Choice.Narrow number ↦ Next (This number)
    ] };
}

impl SerializeRepr for Choice {
    fn serialize_repr<F: Flavor>(&self, serializer: &mut Serializer<F>) -> Result<()> {
        match self {
            Choice::Wide(number) => serialize_variant(0, number, serializer),
            Choice::Narrow(number) => serialize_variant(1, number, serializer),
        }
    }
}

impl MaxSizeRepr for Choice {
    fn in_forms_repr(&self) {
        match self {
            Choice::Wide(number) => number.in_forms(),
            Choice::Narrow(number) => number.in_forms(),
        }
    }
}

/// Asserts that the greatest size of the type is that of the buffer, and that the value has this
/// size. It fits in the buffer, and not in one that is a byte shorter.
fn assert_takes<T: Serialize + MaxSize>(rt: &impl Abort, value: &T, buffer: &mut [u8]) {
    let size = buffer.len();
    same(rt, T::postcard_max_size(), Some(size));
    value.in_forms();
    laws::within_max_size(value);
    same(rt, fill_max_size(value, buffer), Ok(size));
    if let Some((_, shorter)) = buffer.split_first_mut() {
        assert_eq!(rt;
            to_slice(value, shorter).err(),
            Some(Error::SerializeBufferFull),
            "{size}"
        );
    }
}

#[test]
fn of_a_user(rt: HostRuntime) {
    let parts = Parts {
        number: u16::MAX,
        choice: Some(1),
    };
    assert_takes(&rt, &parts, &mut [0; 5]);
    assert_takes(&rt, &One, &mut [0; 1]);
    assert_takes(&rt, &Choice::Wide(u16::MAX), &mut [0; 4]);
    same(&rt, fill_max_size(&Choice::Narrow(7), &mut [0; 4]), Ok(2));
}

#[test]
fn of_what_is_not_read(rt: HostRuntime) {
    let mut number = u32::MAX;
    assert_takes(&rt, &PhantomData::<u8>, &mut [0; 0]);
    assert_takes(&rt, &&number, &mut [0; 5]);
    assert_takes(&rt, &&mut number, &mut [0; 5]);
}

#[test]
fn of_long_lists(rt: HostRuntime) {
    same(&rt, ArrayVec::<u8, 16383>::postcard_max_size(), Some(16385));
    same(&rt, ArrayVec::<u8, 16384>::postcard_max_size(), Some(16387));
    same(&rt, ArrayVec::<u8, 16385>::postcard_max_size(), Some(16388));
}

#[test]
fn past_the_greatest_number(rt: HostRuntime) {
    type Most = [One; usize::MAX];
    type Wide = std::result::Result<u8, (Most, One)>;
    same(&rt, Most::postcard_max_size(), Some(usize::MAX));
    same(&rt, <(Most, One)>::postcard_max_size(), None);
    same(&rt, Option::<Most>::postcard_max_size(), None);
    same(&rt, Wide::postcard_max_size(), None);
}

#[test]
fn put_together(rt: HostRuntime) {
    same(&rt, sum(Some(2), Some(3)), Some(5));
    same(&rt, product(2, Some(3)), Some(6));
    same(&rt, greater(Some(2), Some(3)), Some(3));
    same(&rt, varint_len(128), 2);
}

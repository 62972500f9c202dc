//! Tests of writing: values and each call of the serializer, with bytes worked out by hand from the
//! wire format.

ghost use Rattle.std.specs.Prelude.{◌≡◌, ◌%◌, [], ◌∷◌};
ghost use Rattle.postcard_shape.specs.Leaves.{byte};
ghost use Rattle.postcard_shape.specs.Lists.{seq};
ghost use Rattle.postcard_shape.specs.Shape.{via};
ghost use Rattle.postcard_wire.specs.declared.error.Error.TheVariants.{SerdeSerCustom};
ghost use Rattle.postcard_shape.specs.Refusing.{refusing};
ghost use Rattle.test_layers.specs.declared.writing.Event.{Event};

mod calls;
mod printed;
mod values;

use crate::asserts::{same, same_bytes, value};
use postcard_ser::{Serialize, SerializeRepr, Serializer, serialize_variant};
use postcard_ser_flavors::{Flavor, Slice};
use postcard_shape::{Case, NoCase, Repr, Shaped};
use postcard_wire::{Error, Result};
use std::process::Abort;

/// The varint of 2^128 - 1.
const GREATEST_128: [u8; 19] = [
    0xFF, 0xFF, 0xFF, 0xFF, 0xFF, 0xFF, 0xFF, 0xFF, 0xFF, 0xFF, 0xFF, 0xFF, 0xFF, 0xFF, 0xFF, 0xFF,
    0xFF, 0xFF, 0x03,
];

/// A user's struct. It is written as the tuple of its fields, so it needs no proof of its own.
#[derive(Drop)]
struct Reading<'a> {
    name: &'a str,
    value: u32,
}

impl<'a> Repr for Reading<'a> {
    type As = (&'a str, u32);

    ghost repr = { λ v. (v.name, v.value) };
}

impl SerializeRepr for Reading<'_> {
    fn serialize_repr<F: Flavor>(&self, serializer: &mut Serializer<F>) -> Result<()> {
        (&self.name, &self.value).serialize(serializer)
    }
}

/// A user's enum. A variant is written as its index and its content, so it needs no proof of its
/// own.
#[derive(Drop)]
enum Event<'a> {
    Boot,
    Reading(Reading<'a>),
    Fault { code: u8, text: &'a str },
}

impl<'a> Repr for Event<'a> {
    ghost use Rattle.postcard_shape.specs.declared.cases.Case.TheVariants.{This, Next};

    type As = Case<(), Case<Reading<'a>, Case<(u8, &'a str), NoCase>>>;

    ghost repr = { elim [
      | Event.Boot ↦ This tt
      | Event.Reading r ↦ Next (This r)
      | Event.Fault code text ↦ Next (Next (This (code, text)))
    ] };
}

impl SerializeRepr for Event<'_> {
    fn serialize_repr<F: Flavor>(&self, serializer: &mut Serializer<F>) -> Result<()> {
        match self {
            Event::Boot => serialize_variant(0, &(), serializer),
            Event::Reading(reading) => serialize_variant(1, reading, serializer),
            Event::Fault { code, text } => serialize_variant(2, &(*code, *text), serializer),
        }
    }
}

/// A user's list, which calls the serializer itself.
struct Both(u32, u32);

impl Shaped for Both {
    ghost shape = { via (λ v. v.0 ∷ v.1 ∷ []) (seq ⟦<u32 as Shaped>⟧.shape) };
}

impl Serialize for Both {
    fn serialize<F: Flavor>(&self, serializer: &mut Serializer<F>) -> Result<()> {
        serializer.serialize_seq(Some(2))?;
        serializer.serialize_element(&self.0)?;
        serializer.serialize_element(&self.1)?;
        serializer.end()
    }
}

/// A user's type whose odd numbers refuse to be written.
#[derive(Drop)]
struct Even(u8);

impl Shaped for Even {
    ghost shape = { refusing (λ v e. (v.0 % 2 ≡ 1) × (e ≡ SerdeSerCustom))
        (via (λ v. v.0) byte) };
}

impl Serialize for Even {
    fn serialize<F: Flavor>(&self, serializer: &mut Serializer<F>) -> Result<()> {
        if self.0 % 2 == 1 {
            return Err(Error::ser_custom("no"));
        }
        serializer.serialize_u8(self.0)
    }
}

/// Takes `left` pieces, and then fails with an error of its own.
#[derive(Drop)]
struct Pieces<F> {
    inner: F,
    left: usize,
}

impl<F: Flavor + Drop> Pieces<F> {
    fn take(&mut self) -> Result<()>
        ensures { self.new.inner ≡ self.old.inner }
    {
        match self.left.checked_sub(1) {
            Some(left) => {
                self.left = left;
                Ok(())
            }
            None => Err(Error::WontImplement),
        }
    }
}

impl<F: Flavor + Drop> Flavor for Pieces<F> {
    type Output = F::Output;

    ghost appended = { λ s x t. F.appended s.inner x t.inner };

    ghost room = { λ _ _. ⊥ };

    ghost tidy = { ⊥ };

    ghost reaches = { λ s t. F.reaches s.inner t.inner };

    ghost finishes = { λ s output. F.finishes s.inner output };

    ghost lawful = { record {
      appended_none = λ s. F.lawful.appended_none s.inner;
      appended_join = λ s t u x y p q. F.lawful.appended_join s.inner t.inner u.inner x y p q;
      room_front = λ s x y r. r;
      room_rest = λ s t x y r p v. r;
      reaches_self = λ s. F.lawful.reaches_self s.inner;
      reaches_join = λ s t u p q. F.lawful.reaches_join s.inner t.inner u.inner p q;
      reaches_prop = λ s t. F.lawful.reaches_prop s.inner t.inner;
    } };

    fn try_push(&mut self, byte: u8) -> Result<()> {
        match self.take() {
            Ok(()) => self.inner.try_push(byte),
            Err(error) => Err(error),
        }
    }

    fn try_extend(&mut self, bytes: &[u8]) -> Result<()> {
        match self.take() {
            Ok(()) => self.inner.try_extend(bytes),
            Err(error) => Err(error),
        }
    }

    fn finalize(self) -> Result<F::Output> {
        self.inner.finalize()
    }
}

fn written<'a, T: Serialize>(value: &T, buffer: &'a mut [u8]) -> Result<&'a [u8]> {
    let mut serializer = Serializer {
        output: Slice::new(buffer),
    };
    if let Err(error) = value.serialize(&mut serializer) {
        return Err(error);
    }
    match serializer.output.finalize() {
        Ok(front) => {
            let front: &'a [u8] = front;
            Ok(front)
        }
        Err(error) => Err(error),
    }
}

fn assert_written<T: Serialize>(rt: &impl Abort, value: &T, want: &[u8]) {
    let mut buffer = [0xAA; 32];
    same(rt, written(value, &mut buffer), Ok(want));
}

fn assert_holds(rt: &impl Abort, serializer: Serializer<Slice>, want: &[u8]) {
    let (all, used) = serializer.output.into_parts();
    same(rt, all.get(..used), Some(want));
}

/// Asserts that writing the value fails over a flavor that refuses the piece after `pieces`, and
/// that it then holds these bytes.
fn assert_stopped<T: Serialize>(rt: &impl Abort, value: &T, pieces: usize, held: &[u8]) {
    let mut buffer = [0xAA; 32];
    let mut serializer = Serializer {
        output: Pieces {
            inner: Slice::new(&mut buffer),
            left: pieces,
        },
    };
    let answer = value.serialize(&mut serializer);
    same(rt, answer, Err(Error::SerializeBufferFull));
    let (all, used) = serializer.output.inner.into_parts();
    same(rt, all.get(..used), Some(held));
}

#[test]
fn numbers_without_a_sign(rt: HostRuntime) {
    assert_written(&rt, &200u8, &[0xC8]);
    assert_written(&rt, &u16::MAX, &[0xFF, 0xFF, 0x03]);
    assert_written(&rt, &u32::MAX, &[0xFF, 0xFF, 0xFF, 0xFF, 0x0F]);
    assert_written(
        &rt,
        &(1u64 << 63),
        &[0x80, 0x80, 0x80, 0x80, 0x80, 0x80, 0x80, 0x80, 0x80, 0x01],
    );
    assert_written(&rt, &u128::MAX, &GREATEST_128);
}

#[test]
fn numbers_with_a_sign(rt: HostRuntime) {
    assert_written(&rt, &-1i8, &[0xFF]);
    assert_written(&rt, &-128i8, &[0x80]);
    assert_written(&rt, &-1i16, &[0x01]);
    assert_written(&rt, &32767i16, &[0xFE, 0xFF, 0x03]);
    assert_written(&rt, &-32768i16, &[0xFF, 0xFF, 0x03]);
    assert_written(&rt, &64i32, &[0x80, 0x01]);
    assert_written(&rt, &-65i64, &[0x81, 0x01]);
    assert_written(&rt, &i128::MIN, &GREATEST_128);
}

#[test]
fn texts(rt: HostRuntime) {
    assert_written(&rt, &"Hi!", &[0x03, 0x48, 0x69, 0x21]);
    let owned = value(&rt, String::from_str(rt.alloc(), "Hi!"));
    assert_written(&rt, &owned, &[0x03, 0x48, 0x69, 0x21]);
}

#[test]
fn lists(rt: HostRuntime) {
    assert_written(&rt, &[1u32, 300].as_slice(), &[0x02, 0x01, 0xAC, 0x02]);
    let owned = value(&rt, vec![in rt.alloc(); 1u32, 300]);
    assert_written(&rt, &owned, &[0x02, 0x01, 0xAC, 0x02]);
    assert_written(&rt, &Both(1, 300), &[0x02, 0x01, 0xAC, 0x02]);
}

const READING: Reading<'static> = Reading {
    name: "Hi!",
    value: 300,
};

const FAULT: Event<'static> = Event::Fault { code: 7, text: "z" };

#[test]
fn structs_and_enums(rt: HostRuntime) {
    assert_written(&rt, &READING, &[0x03, 0x48, 0x69, 0x21, 0xAC, 0x02]);
    assert_written(&rt, &Event::Boot, &[0x00]);
    assert_written(
        &rt,
        &Event::Reading(READING),
        &[0x01, 0x03, 0x48, 0x69, 0x21, 0xAC, 0x02],
    );
    assert_written(&rt, &FAULT, &[0x02, 0x07, 0x01, 0x7A]);
}

#[test]
fn refused_enums(rt: HostRuntime) {
    assert_stopped(&rt, &FAULT, 0, &[]);
    assert_stopped(&rt, &FAULT, 1, &[0x02]);
    assert_stopped(&rt, &FAULT, 2, &[0x02, 0x07]);
    assert_stopped(&rt, &FAULT, 3, &[0x02, 0x07, 0x01]);
}

#[test]
fn refusals_of_a_slice(rt: HostRuntime) {
    let mut short = [0xAA; 3];
    let refused = written(&"Hi!", &mut short);
    same(&rt, refused, Err(Error::SerializeBufferFull));
    same_bytes(&rt, &short, &[0x03, 0xAA, 0xAA]);
}

#[test]
fn refused_pieces(rt: HostRuntime) {
    assert_stopped(&rt, &"Hi!", 0, &[]);
    assert_stopped(&rt, &"Hi!", 1, &[0x03]);
    assert_stopped(&rt, &[1u32, 300].as_slice(), 0, &[]);
    assert_stopped(&rt, &[1u32, 300].as_slice(), 1, &[0x02]);
    assert_stopped(&rt, &[1u32, 300].as_slice(), 2, &[0x02, 0x01]);
    assert_stopped(&rt, &Even(4), 0, &[]);
}

/// Asserts the result of writing the value into this many bytes, at most one.
fn assert_answer<T: Serialize>(rt: &impl Abort, value: &T, room: usize, want: Result<&[u8]>) {
    let mut buffer = [0xAA; 1];
    let (front, _) = buffer.split_at_mut(room.min(1));
    same(rt, written(value, front), want);
}

#[test]
fn values_that_refuse_themselves(rt: HostRuntime) {
    assert_answer(&rt, &Even(3), 1, Err(Error::SerdeSerCustom));
    assert_answer(&rt, &Even(4), 1, Ok([0x04].as_slice()));
}

/// If several parts fail, the error is that of the first.
#[test]
fn pairs_that_refuse_themselves(rt: HostRuntime) {
    let last = (Even(4), Even(3));
    assert_answer(&rt, &last, 1, Err(Error::SerdeSerCustom));
    assert_answer(&rt, &last, 0, Err(Error::SerializeBufferFull));
    let first = (Even(3), Even(4));
    assert_answer(&rt, &first, 0, Err(Error::SerdeSerCustom));
}

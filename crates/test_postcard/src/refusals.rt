//! Tests of a value that refuses itself: each call that writes it fails with its own error.

use crate::asserts::{OLD, same};
use postcard::experimental::serialized_size;
use postcard::ser_flavors::{Flavor, HVec};
use postcard::{
    Error, Result, Serialize, Serializer, Shaped, serialize_with_flavor, to_allocvec, to_extend,
    to_io, to_slice, to_stdvec, to_vec,
};
use std::alloc::AllocGlobal;
use std::collections::BTreeMap;
use std::process::Abort;

/// A value that refuses itself.
#[derive(Drop)]
struct Unwritable;

impl Shaped for Unwritable {
    ghost use Rattle.std.specs.Prelude.{◌≡◌};
    ghost use Rattle.postcard_wire.specs.declared.error.Error.TheVariants.{SerdeSerCustom};
    ghost use Rattle.postcard_shape.specs.Rows.{none, group};
    ghost use Rattle.postcard_shape.specs.Refusing.{refusing};

    ghost shape = { refusing (λ _ e. e ≡ SerdeSerCustom) (group none) };
}

impl Serialize for Unwritable {
    fn serialize<F: Flavor>(&self, _serializer: &mut Serializer<F>) -> Result<()> {
        Err(Error::ser_custom("no"))
    }
}

/// Asserts that the call failed with the value's own error, `SerdeSerCustom`.
fn assert_own<R: Drop>(rt: &impl Abort, answer: Result<R>) {
    assert!(rt; matches!(answer, Err(Error::SerdeSerCustom)));
}

/// Asserts that each call that writes the value fails with the value's own error.
fn assert_refuses_itself<T: Serialize>(rt: &(impl Abort + AllocGlobal), value: &T) {
    assert_own(rt, serialize_with_flavor(value, HVec::<8>::new()));
    assert_own(rt, to_vec::<_, 8>(value));
    assert_own(rt, to_allocvec(rt.alloc(), value));
    assert_own(rt, to_stdvec(rt.alloc(), value));
    assert_own(rt, to_extend(value, Vec::new(rt.alloc())));
    assert_own(rt, to_io(value, Vec::new(rt.alloc())));
    assert_own(rt, serialized_size(value));
}

#[test]
fn of_each_call(rt: HostRuntime) {
    assert_refuses_itself(&rt, &Unwritable);
    assert_refuses_itself(&rt, &[Unwritable, Unwritable].as_slice());
    assert_refuses_itself(&rt, &Some(Unwritable));
    assert_refuses_itself(&rt, &(1u8, Unwritable));
}

#[test]
fn of_a_map(rt: HostRuntime) {
    let mut map = BTreeMap::new(rt.alloc());
    same(&rt, map.insert(1u8, Unwritable).is_ok(), true);
    assert_refuses_itself(&rt, &map);
}

#[test]
fn of_a_buffer_that_stays_as_it_was(rt: HostRuntime) {
    let mut buffer = [OLD; 4];
    let refused = to_slice(&Unwritable, &mut buffer).err();
    same(&rt, refused, Some(Error::SerdeSerCustom));
    same(&rt, buffer, [OLD; 4]);
}

//! Tests of the bytes around an encoding: those before it in a vector, and those after it in a
//! buffer.

use crate::OLD;
use crate::asserts::{same, same_bytes};
use postcard::ser_flavors::{Flavor, Slice};
use postcard::{Serialize, to_extend, to_slice};
use std::process::Abort;

/// Returns the vector with the value's encoding appended.
fn extended<T: Serialize>(rt: &impl Abort, value: &T, held: Vec<u8>) -> Vec<u8> {
    to_extend(value, held).expect(rt, "a vector grows")
}

#[test]
fn bytes_that_are_zero(rt: HostRuntime) {
    let bytes = extended(&rt, &(0u8, 0u32), Vec::new(rt.alloc()));
    let bytes = extended(&rt, &"\0", bytes);
    let bytes = extended(&rt, &(), bytes);
    let bytes = extended(&rt, &[false, true, false].as_slice(), bytes);
    same_bytes(&rt, bytes.as_slice(), &[0, 0, 1, 0, 3, 0, 1, 0]);
}

#[test]
fn bytes_after_a_slice(rt: HostRuntime) {
    let mut buffer = [OLD; 5];
    let mut slice = Slice::new(&mut buffer);
    same(&rt, slice.try_push(1), Ok(()));
    same(&rt, slice.try_extend(&[2, 3]), Ok(()));
    let front = slice.finalize().expect(&rt, "a slice comes back");
    same_bytes(&rt, &*front, &[1, 2, 3]);
    front.reverse();
    same_bytes(&rt, &buffer, &[3, 2, 1, OLD, OLD]);
    let front = to_slice(&300u16, &mut buffer).expect(&rt, "the number has room");
    front.reverse();
    same_bytes(&rt, &buffer, &[0x02, 0xAC, 1, OLD, OLD]);
}

//! Tests of the random values of each type, each type with a seed of its own.

use crate::calls::comes_back;
use crate::made::Made;
use crate::random::Random;
use crate::streams::arrive;
use arrayvec::{ArrayString, ArrayVec};
use postcard::{DeserializeOwned, Serialize};
use std::alloc::Global;
use std::collections::BTreeMap;
use std::fmt::Debug;
use std::process::Abort;
use std::rc::Rc;
use std::time::Duration;
use test_support::types::{DataEnum, DualTupleStruct, WideU8S};

/// Asserts that five thousand values of a type are read back, and that a thousand arrive in
/// streams.
fn check<T: Made + Serialize + DeserializeOwned + PartialEq + Debug>(
    rt: &impl Abort,
    alloc: Global,
    seed: u64,
) {
    let mut random = Random::new(alloc, seed);
    for _ in 0..5_000 {
        let value = T::made(&mut random).expect(rt, "a value");
        comes_back::<T>(rt, &mut random, &value);
    }
    arrive::<T>(rt, &mut random);
}

#[test]
fn unsigned_numbers(rt: HostRuntime) {
    check::<(u8, (u16, u32), (u64, u128, usize))>(&rt, rt.alloc(), 1);
    check::<Vec<u128>>(&rt, rt.alloc(), 2)
}

#[test]
fn signed_numbers(rt: HostRuntime) {
    check::<(i8, (i16, i32), (i64, i128, isize))>(&rt, rt.alloc(), 3);
    check::<Vec<(i16, i128)>>(&rt, rt.alloc(), 4)
}

#[test]
fn scalars(rt: HostRuntime) {
    check::<(bool, char, ())>(&rt, rt.alloc(), 5);
    check::<Option<Option<(Duration, bool)>>>(&rt, rt.alloc(), 6)
}

#[test]
fn lists(rt: HostRuntime) {
    check::<Vec<Option<u32>>>(&rt, rt.alloc(), 7);
    check::<Vec<Vec<Vec<u8>>>>(&rt, rt.alloc(), 8);
    check::<Vec<[u8; 3]>>(&rt, rt.alloc(), 9)
}

#[test]
fn texts(rt: HostRuntime) {
    check::<(String, (String, char))>(&rt, rt.alloc(), 10);
    check::<Vec<Option<String>>>(&rt, rt.alloc(), 11)
}

#[test]
fn maps(rt: HostRuntime) {
    check::<BTreeMap<u8, Vec<u16>>>(&rt, rt.alloc(), 12);
    check::<BTreeMap<String, Vec<Option<char>>>>(&rt, rt.alloc(), 13)
}

#[test]
fn fixed(rt: HostRuntime) {
    check::<[Option<u16>; 3]>(&rt, rt.alloc(), 14);
    check::<ArrayVec<(u16, bool), 4>>(&rt, rt.alloc(), 15);
    check::<(ArrayString<12>, ArrayVec<Option<u32>, 3>)>(&rt, rt.alloc(), 16)
}

#[test]
fn results_and_pointers(rt: HostRuntime) {
    check::<Result<String, Vec<i64>>>(&rt, rt.alloc(), 17);
    check::<Box<(u8, Box<Option<i64>>, Rc<String>)>>(&rt, rt.alloc(), 18)
}

#[test]
fn of_a_user(rt: HostRuntime) {
    check::<Vec<DataEnum>>(&rt, rt.alloc(), 19);
    check::<(WideU8S, bool)>(&rt, rt.alloc(), 20);
    check::<BTreeMap<u8, Option<DualTupleStruct>>>(&rt, rt.alloc(), 21);
    check::<Result<Option<Box<DataEnum>>, (bool, Vec<WideU8S>)>>(&rt, rt.alloc(), 22)
}

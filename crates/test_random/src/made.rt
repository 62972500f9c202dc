//! The types, and how a value of each is made of its parts. The parts are random, or are decoded
//! from bytes.

use crate::choices::Choices;
use arrayvec::{ArrayString, ArrayVec};
use std::collections::BTreeMap;
use std::rc::Rc;
use std::time::Duration;
use test_support::types::{DataEnum, DualTupleStruct, EnumStruct, WideU8S};

/// A type whose values are made of parts, in the order of the wire format.
pub(crate) trait Made: Drop + Sized {
    /// Returns a value of the next parts, or `None` if they make none.
    fn made<C: Choices>(choices: &mut C) -> Option<Self>;
}

/// Returns a number with a sign. The next number without a sign is its zigzag encoding. The even
/// numbers stand for 0, 1, 2 and so on, the odd ones for -1, -2, -3 and so on.
fn signed<C: Choices>(choices: &mut C, most: u128) -> Option<i128> {
    let code = choices.number(most)?;
    let half = i128::try_from(code / 2).ok()?;
    Some(if code % 2 == 0 { half } else { !half })
}

impl Made for () {
    fn made<C: Choices>(_choices: &mut C) -> Option<()> {
        Some(())
    }
}

impl Made for bool {
    fn made<C: Choices>(choices: &mut C) -> Option<bool> {
        choices.flag()
    }
}

impl Made for u8 {
    fn made<C: Choices>(choices: &mut C) -> Option<u8> {
        choices.byte()
    }
}

impl Made for u16 {
    fn made<C: Choices>(choices: &mut C) -> Option<u16> {
        u16::try_from(choices.number(0xFFFF)?).ok()
    }
}

impl Made for u32 {
    fn made<C: Choices>(choices: &mut C) -> Option<u32> {
        u32::try_from(choices.number(0xFFFF_FFFF)?).ok()
    }
}

impl Made for u64 {
    fn made<C: Choices>(choices: &mut C) -> Option<u64> {
        u64::try_from(choices.number(0xFFFF_FFFF_FFFF_FFFF)?).ok()
    }
}

impl Made for u128 {
    fn made<C: Choices>(choices: &mut C) -> Option<u128> {
        choices.number(u128::MAX)
    }
}

impl Made for usize {
    fn made<C: Choices>(choices: &mut C) -> Option<usize> {
        usize::try_from(choices.number(0xFFFF_FFFF_FFFF_FFFF)?).ok()
    }
}

/// One byte, in two's complement.
impl Made for i8 {
    fn made<C: Choices>(choices: &mut C) -> Option<i8> {
        Some(i8::from_le_bytes([choices.byte()?]))
    }
}

impl Made for i16 {
    fn made<C: Choices>(choices: &mut C) -> Option<i16> {
        i16::try_from(signed(choices, 0xFFFF)?).ok()
    }
}

impl Made for i32 {
    fn made<C: Choices>(choices: &mut C) -> Option<i32> {
        i32::try_from(signed(choices, 0xFFFF_FFFF)?).ok()
    }
}

impl Made for i64 {
    fn made<C: Choices>(choices: &mut C) -> Option<i64> {
        i64::try_from(signed(choices, 0xFFFF_FFFF_FFFF_FFFF)?).ok()
    }
}

impl Made for i128 {
    fn made<C: Choices>(choices: &mut C) -> Option<i128> {
        signed(choices, u128::MAX)
    }
}

impl Made for isize {
    fn made<C: Choices>(choices: &mut C) -> Option<isize> {
        isize::try_from(signed(choices, 0xFFFF_FFFF_FFFF_FFFF)?).ok()
    }
}

impl Made for char {
    fn made<C: Choices>(choices: &mut C) -> Option<char> {
        choices.character()
    }
}

impl Made for String {
    fn made<C: Choices>(choices: &mut C) -> Option<String> {
        choices.text(usize::MAX)
    }
}

impl<const CAP: usize> Made for ArrayString<CAP> {
    fn made<C: Choices>(choices: &mut C) -> Option<ArrayString<CAP>> {
        choices.text(CAP)?.parse().ok()
    }
}

impl Made for Duration {
    fn made<C: Choices>(choices: &mut C) -> Option<Duration> {
        choices.duration()
    }
}

/// A `bool` that says whether there is a value, and the value.
impl<T: Made> Made for Option<T> {
    fn made<C: Choices>(choices: &mut C) -> Option<Option<T>> {
        if choices.flag()? {
            Some(Some(T::made(choices)?))
        } else {
            Some(None)
        }
    }
}

/// The index of `Ok` or `Err`, and its content.
impl<T: Made, E: Made> Made for Result<T, E> {
    fn made<C: Choices>(choices: &mut C) -> Option<Result<T, E>> {
        if choices.variant(2)? == 0 {
            Some(Ok(T::made(choices)?))
        } else {
            Some(Err(E::made(choices)?))
        }
    }
}

impl<T: Made> Made for Box<T> {
    fn made<C: Choices>(choices: &mut C) -> Option<Box<T>> {
        Box::new(choices.alloc(), T::made(choices)?).ok()
    }
}

impl<T: Made> Made for Rc<T> {
    fn made<C: Choices>(choices: &mut C) -> Option<Rc<T>> {
        Rc::new(choices.alloc(), T::made(choices)?).ok()
    }
}

impl<A: Made, B: Made> Made for (A, B) {
    fn made<C: Choices>(choices: &mut C) -> Option<(A, B)> {
        Some((A::made(choices)?, B::made(choices)?))
    }
}

impl<A: Made, B: Made, D: Made> Made for (A, B, D) {
    fn made<C: Choices>(choices: &mut C) -> Option<(A, B, D)> {
        Some((A::made(choices)?, B::made(choices)?, D::made(choices)?))
    }
}

impl<T: Made> Made for [T; 3] {
    fn made<C: Choices>(choices: &mut C) -> Option<[T; 3]> {
        let (a, b, c) = <(T, T, T)>::made(choices)?;
        Some([a, b, c])
    }
}

/// The number of elements, and the elements.
impl<T: Made> Made for Vec<T> {
    fn made<C: Choices>(choices: &mut C) -> Option<Vec<T>> {
        let mut list = Vec::new(choices.alloc());
        for _ in 0..choices.count(usize::MAX)? {
            list.push(T::made(choices)?).ok()?;
        }
        Some(list)
    }
}

impl<T: Made + Default, const CAP: usize> Made for ArrayVec<T, CAP> {
    fn made<C: Choices>(choices: &mut C) -> Option<ArrayVec<T, CAP>> {
        let mut list = ArrayVec::new();
        for _ in 0..choices.count(CAP)? {
            list.try_push(T::made(choices)?).ok()?;
        }
        Some(list)
    }
}

/// The number of entries, and each key before its value. Of two equal keys the later value counts.
impl<K: Made + Ord, V: Made> Made for BTreeMap<K, V> {
    fn made<C: Choices>(choices: &mut C) -> Option<BTreeMap<K, V>> {
        let mut map = BTreeMap::new(choices.alloc());
        for _ in 0..choices.count(usize::MAX)? {
            let (key, value) = <(K, V)>::made(choices)?;
            let _ = map.insert(key, value).ok()?;
        }
        Some(map)
    }
}

impl Made for WideU8S {
    fn made<C: Choices>(choices: &mut C) -> Option<WideU8S> {
        let ((st, ei), (ote, sf, tt)) = Made::made(choices)?;
        Some(WideU8S {
            st,
            ei,
            ote,
            sf,
            tt,
        })
    }
}

impl Made for EnumStruct {
    fn made<C: Choices>(choices: &mut C) -> Option<EnumStruct> {
        let (eight, sixt) = Made::made(choices)?;
        Some(EnumStruct { eight, sixt })
    }
}

impl Made for DataEnum {
    fn made<C: Choices>(choices: &mut C) -> Option<DataEnum> {
        match choices.variant(6)? {
            0 => Some(DataEnum::Bib(u16::made(choices)?)),
            1 => Some(DataEnum::Bim(u64::made(choices)?)),
            2 => Some(DataEnum::Bap(u8::made(choices)?)),
            3 => Some(DataEnum::Kim(EnumStruct::made(choices)?)),
            4 => {
                let (a, b) = Made::made(choices)?;
                Some(DataEnum::Chi { a, b })
            }
            _ => {
                let (sixt, eight) = Made::made(choices)?;
                Some(DataEnum::Sho(sixt, eight))
            }
        }
    }
}

impl Made for DualTupleStruct {
    fn made<C: Choices>(choices: &mut C) -> Option<DualTupleStruct> {
        let (a, b) = Made::made(choices)?;
        Some(DualTupleStruct(a, b))
    }
}

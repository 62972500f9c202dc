//! The front of a slice, alone or with the rest, lent for as long as the whole was.

ghost use Rattle.std.specs.Prelude.{◌≡◌, ◌≤◌, ◌++◌, length, take, drop};
ghost use Rattle.std.specs.Borrow.{sem, Lends, Array, u8};

use std::slice;

/// Returns the first `count` of at least that many bytes. Those after them stay as they are.
pub fn front<'a>(all: &'a mut [u8], count: usize) -> &'a mut [u8]
    requires { count ≤ length all.old }
    ensures* writes_back { sem 𝓛 (Lends (Array u8 0) (Array u8 0) all.entry result
        (λ w. w ++ drop count all.old)) }
    ensures value { result.now ≡ take count all.old }
{
    // SAFETY: `all` has at least `count` bytes, and it is not used again while the result lives.
    unsafe { slice::from_raw_parts_mut(all.as_mut_ptr(), count) }
}

/// Splits at least `at` bytes there, and returns the first `at` of them, which are only read while
/// they are lent, and the rest, which may be changed.
pub fn split_front<'a>(all: &'a mut [u8], at: usize) -> (&'a [u8], &'a mut [u8])
    requires { at ≤ length all.old }
    ensures* writes_back { sem 𝓛 (Lends (Array u8 0) (Array u8 0) all.entry result.1
        (λ w. take at all.old ++ w)) }
    ensures front { result.0.now ≡ take at all.old }
    ensures rest { result.1.now ≡ drop at all.old }
{
    let start = all.as_mut_ptr();
    let len = all.len() - at;
    // SAFETY: `all` has at least `at` bytes and `len` more, and it is not used again while the
    // results live, which have no byte in common.
    unsafe {
        (
            slice::from_raw_parts(start, at),
            slice::from_raw_parts_mut(start.add(at), len),
        )
    }
}

//! Greatest sizes in bytes from those of parts.
//!
//! One is `None` if that of a part is, or if it does not fit `usize`.

ghost use Rattle.std.specs.Prelude.{◌≡◌};
ghost use Rattle.postcard_max.specs.Sizes.{sum_of, times, greater_of, varint_len as len_of};

use postcard_wire::varint::varint_usize;

/// Returns the sum of two sizes.
pub fn sum(first: Option<usize>, second: Option<usize>) -> Option<usize>
    ensures { result ≡ sum_of first second }
{
    match (first, second) {
        (Some(first), Some(second)) => first.checked_add(second),
        _ => None,
    }
}

/// Returns `count` times a size.
pub fn product(count: usize, size: Option<usize>) -> Option<usize>
    ensures { result ≡ times count size }
{
    match size {
        Some(size) => count.checked_mul(size),
        None => None,
    }
}

/// Returns the greater of two sizes.
pub fn greater(first: Option<usize>, second: Option<usize>) -> Option<usize>
    ensures { result ≡ greater_of first second }
{
    match (first, second) {
        (Some(first), Some(second)) => Some(first.max(second)),
        _ => None,
    }
}

/// Returns the number of bytes of `number` as a varint, from 1 to 10.
#[tactic(auto, unfolding(postcard_wire::specs::Number::digits))]
pub fn varint_len(number: usize) -> usize
    ensures { result ≡ len_of number }
{
    varint_usize(number, &mut [0; 10]).len()
}

//! The least and the greatest size of a type without parts, and of others from those of their
//! parts.

ghost use Rattle.std.specs.Prelude.{◌≡◌, Some};
ghost use Rattle.postcard_schema_size.specs.{greater_of, integer_greatest, leaf_greatest};
ghost use Rattle.postcard_schema_size.specs.{leaf_least, lesser_of, repeated, sum_of};

use postcard_max::sizes::{greater, product, sum};
use postcard_schema::{Integer, Leaf};

/// The least and the greatest number of bytes of something. If the least is `None`, it exceeds
/// `usize`. If the greatest is `None`, none is known that fits `usize`.
#[derive(Clone, Copy)]
pub struct Sizes {
    pub least: Option<usize>,
    pub greatest: Option<usize>,
}

/// Returns the sizes of a type each message of which has this number of bytes.
pub fn exactly(size: usize) -> Sizes
    ensures least { result.least ≡ Some size }
    ensures greatest { result.greatest ≡ Some size }
{
    Sizes {
        least: Some(size),
        greatest: Some(size),
    }
}

/// Returns the sizes of a type without parts.
pub fn leaf_sizes(leaf: Leaf) -> Sizes
    ensures least { result.least ≡ Some (leaf_least leaf) }
    ensures greatest { result.greatest ≡ leaf_greatest leaf }
{
    let (least, greatest) = match leaf {
        Leaf::Bool => return exactly(1),
        Leaf::Float(float) => return exactly(float.size()),
        Leaf::Fixed(_, integer) => return exactly(integer.size()),
        Leaf::Integer(integer) => (1, Some(integer_size(integer))),
        Leaf::Char => (2, Some(5)),
        Leaf::Str | Leaf::Bytes => (1, None),
    };
    Sizes {
        least: Some(least),
        greatest,
    }
}

/// Returns the size of the longest varint: one byte for each seven bits. A number of 8 bits is no
/// varint, but a byte.
fn integer_size(integer: Integer) -> usize
    ensures { result ≡ integer_greatest integer }
{
    match integer {
        Integer::U8 | Integer::I8 => 1,
        _ => (8 * integer.size() + 6) / 7,
    }
}

/// Returns the sizes of an array of `count` elements of these sizes. Without elements both are 0,
/// even if those of an element are `None`.
pub fn array_sizes(count: usize, element: Sizes) -> Sizes
    ensures least { result.least ≡ repeated count element.least }
    ensures greatest { result.greatest ≡ repeated count element.greatest }
{
    if count == 0 {
        return exactly(0);
    }
    Sizes {
        least: product(count, element.least),
        greatest: product(count, element.greatest),
    }
}

/// Returns the sizes of two parts together.
pub fn both(first: Sizes, second: Sizes) -> Sizes
    ensures least { result.least ≡ sum_of first.least second.least }
    ensures greatest { result.greatest ≡ sum_of first.greatest second.greatest }
{
    Sizes {
        least: sum(first.least, second.least),
        greatest: sum(first.greatest, second.greatest),
    }
}

/// Returns the sizes of a value that is one of two things: the lesser least and the greater
/// greatest.
pub fn either(first: Sizes, second: Sizes) -> Sizes
    ensures least { result.least ≡ lesser_of first.least second.least }
    ensures greatest { result.greatest ≡ greater_of first.greatest second.greatest }
{
    Sizes {
        least: lesser(first.least, second.least),
        greatest: greater(first.greatest, second.greatest),
    }
}

/// Returns the lesser of two sizes, or one of them if the other is `None`.
fn lesser(first: Option<usize>, second: Option<usize>) -> Option<usize>
    ensures { result ≡ lesser_of first second }
{
    match (first, second) {
        (Some(first), Some(second)) => Some(first.min(second)),
        (Some(first), None) => Some(first),
        (None, second) => second,
    }
}

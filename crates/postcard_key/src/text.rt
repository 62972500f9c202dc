//! Adds the pieces of a type's text to a digest: signs, names and numbers.

ghost use Rattle.std.specs.Fmt.{decimal};
ghost use Rattle.postcard_key.specs.{Continues, leaf_name};

use crc::Digest;
use postcard_schema::Leaf;

/// Adds a text.
pub(crate) fn add(text: &str, digest: &mut Digest<'_, u64>)
    ensures { Continues digest.old text.now digest.new }
{
    digest.update(text.as_bytes());
}

/// Adds the name of a type without parts, such as `u16` or `LE<u16>`.
pub(crate) fn add_leaf(leaf: Leaf, digest: &mut Digest<'_, u64>)
    ensures { Continues digest.old (leaf_name leaf) digest.new }
{
    match leaf {
        Leaf::Bool => add("bool", digest),
        Leaf::Integer(integer) => add(integer.name(), digest),
        Leaf::Float(float) => add(float.name(), digest),
        Leaf::Char => add("char", digest),
        Leaf::Str => add("str", digest),
        Leaf::Bytes => add("bytes", digest),
        Leaf::Fixed(order, integer) => {
            add(order.name(), digest);
            add("<", digest);
            add(integer.name(), digest);
            add(">", digest);
        }
    }
}

/// Adds a number in decimal digits.
pub(crate) fn add_count(count: usize, digest: &mut Digest<'_, u64>)
    ensures { Continues digest.old (decimal count) digest.new }
{
    if count >= 10 {
        add_count(count / 10, digest);
    }
    digest.update(&[b'0' + (count % 10) as u8]);
}

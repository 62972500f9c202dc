//! Values of a flattened type, with a telling value at the end of a way.

ghost use Rattle.std.specs.Prelude.{◌≤◌};

use crate::change::Turn;
use postcard_schema::{Leaf, Named, Schema};
use postcard_value::Value;
use std::alloc::{AllocError, Global};

/// How the parts are filled that aren't on the way.
#[derive(Clone, Copy)]
pub(crate) enum Fill {
    /// The least values: 0, empty, the first variant.
    Least,
    /// 1, one element, the last variant.
    One,
    /// Values of several bytes, two elements, the middle variant.
    Long,
    /// Pseudo-random values.
    Random,
}

pub(crate) const FILLS: [Fill; 4] = [Fill::Least, Fill::One, Fill::Long, Fill::Random];

/// How many telling values a number has.
pub(crate) const TELLING: usize = 24;

/// The bits of telling numbers. They are values that a byte, a varint, a sign, a count or an index
/// tell apart, and the first that a narrower type refuses.
const NUMBERS: [u128; TELLING] = [
    300,
    255,
    150,
    200,
    1,
    128,
    2,
    127,
    u128::MAX,
    0,
    1 << 16,
    1 << 15,
    1 << 32,
    1 << 31,
    1 << 64,
    1 << 63,
    u128::MAX - 299,
    65_535,
    u128::MAX - 55,
    32_767,
    1 << 127,
    3,
    4,
    97,
];

/// The bits of telling floats.
const FLOATS: [u64; 4] = [0x3fc0_0000, 0x3ff8_0000_0000_0000, 0x0101_0101_0101_0101, 1];

/// Telling characters, of one to three bytes.
const CHARS: [char; 4] = ['a', 'é', '\u{1}', '€'];

/// Telling strings, which may be read as lists of bytes, counts and indices.
const TEXTS: [&str; 8] = [
    "a",
    "é",
    "\u{1}",
    "",
    "\0",
    "\u{1}\u{2}",
    "\u{2}\u{1}",
    "abc",
];

/// Makes values of a flattened type.
#[derive(Drop)]
pub(crate) struct Maker {
    pub(crate) alloc: Global,
    /// The state of the pseudo-random numbers.
    pub(crate) random: u64,
    /// How the parts beside the way are filled.
    pub(crate) fill: Fill,
    /// Which telling value the part at the end of the way has.
    pub(crate) telling: usize,
    /// How many more parts the message may have.
    pub(crate) room: usize,
}

impl Maker {
    /// Returns a pseudo-random number below `2^32`.
    fn next(&mut self) -> u64 {
        self.random = self
            .random
            .wrapping_mul(6_364_136_223_846_793_005)
            .wrapping_add(1_442_695_040_888_963_407);
        self.random >> 32
    }

    /// Returns the index with which one of `count` things is filled. It is 0 if there are none.
    fn pick(&mut self, count: usize) -> usize
        ensures { result ≤ count }
    {
        if count == 0 {
            return 0;
        }
        match self.fill {
            Fill::Least => 0,
            Fill::One => count - 1,
            Fill::Long => count / 2,
            Fill::Random => self.next() as usize % count,
        }
    }

    /// Returns how many elements a list is filled with.
    fn elements(&mut self) -> usize {
        match self.fill {
            Fill::Least => 0,
            Fill::One => 1,
            Fill::Long => 2,
            Fill::Random => self.next() as usize % 4,
        }
    }

    /// Returns the bits of a number of this size in bytes, with which it is filled.
    fn bits(&mut self, size: usize) -> u128 {
        match self.fill {
            Fill::Least => 0,
            Fill::One => 1,
            Fill::Long => { if size == 1 { 200 } else { 300 } }
            Fill::Random => {
                let number = self.next();
                match number % 4 {
                    0 => NUMBERS[self.next() as usize % TELLING],
                    1 => u128::from(number / 4 % 8),
                    2 => u128::from(number / 4 % 256),
                    _ => u128::from(self.next()) << 64 | u128::from(number) << 32,
                }
            }
        }
    }
}

/// Returns where the way goes on in the part with this index.
fn onward(way: Option<&[Turn]>, index: usize) -> Option<&[Turn]> {
    match way?.split_first() {
        None => way,
        Some((Turn::Part(part), rest)) => { if *part == index { Some(rest) } else { None } }
        Some(_) => None,
    }
}

/// Returns the index of the variant that a value has, of `count`, and the way in its content.
fn variant_on<'a>(
    maker: &mut Maker,
    way: Option<&'a [Turn]>,
    count: usize,
) -> (usize, Option<&'a [Turn]>) {
    let Some(steps) = way else {
        return (maker.pick(count), None);
    };
    match steps.split_first() {
        Some((Turn::Variant(index), rest)) => (*index, Some(rest)),
        Some((_, rest)) => (1, Some(rest)),
        None => {
            let last = count.saturating_sub(1);
            (last.saturating_sub(maker.telling), None)
        }
    }
}

/// Returns a value of the type with a telling value at the end of the way. Without a way all parts
/// are filled alike. Returns `None` if there is no room for its parts. So do the functions below.
#[cycle(make)]
pub(crate) fn make(
    maker: &mut Maker,
    schema: &Schema,
    way: Option<&[Turn]>,
) -> Result<Option<Value>, AllocError> {
    if maker.room == 0 {
        return Ok(None);
    }
    maker.room -= 1;
    match schema {
        Schema::Leaf(leaf) => Ok(Some(make_leaf(maker, *leaf, way.is_some())?)),
        Schema::Option(content) => make_option(maker, content, way),
        Schema::Seq(element) => make_list(maker, element, way),
        // A flattened type has no maps.
        Schema::Map(_, _) => Ok(None),
        Schema::Array(element, count) => make_array(maker, element, *count, way),
        Schema::Tuple(parts) => make_tuple(maker, parts, way),
        Schema::Struct(fields) => make_struct(maker, fields, way),
        Schema::Enum(variants) => make_variant(maker, variants, way),
    }
}

#[cycle(make)]
fn make_option(
    maker: &mut Maker,
    content: &Schema,
    way: Option<&[Turn]>,
) -> Result<Option<Value>, AllocError> {
    let (index, inner) = variant_on(maker, way, 2);
    if index == 0 {
        return Ok(Some(Value::Absent));
    }
    let Some(value) = make(maker, content, inner)? else {
        return Ok(None);
    };
    Ok(Some(Value::Present(Box::new(maker.alloc, value)?)))
}

#[cycle(make)]
fn make_list(
    maker: &mut Maker,
    element: &Schema,
    way: Option<&[Turn]>,
) -> Result<Option<Value>, AllocError> {
    let mut count = maker.elements();
    let mut first = None;
    if let Some(steps) = way {
        match steps.split_first() {
            Some((_, rest)) => {
                count = count.max(1);
                first = Some(rest);
            }
            None => count = (maker.telling % 4 + 1) % 4,
        }
    }
    match make_elements(maker, element, count, first)? {
        Some(items) => Ok(Some(Value::Seq(items))),
        None => Ok(None),
    }
}

#[cycle(make)]
fn make_array(
    maker: &mut Maker,
    element: &Schema,
    count: usize,
    way: Option<&[Turn]>,
) -> Result<Option<Value>, AllocError> {
    if count > maker.room {
        return Ok(None);
    }
    let first = match way {
        Some(steps) => match steps.split_first() {
            Some((_, rest)) => Some(rest),
            None => way,
        },
        None => None,
    };
    match make_elements(maker, element, count, first)? {
        Some(items) => Ok(Some(Value::Group(items))),
        None => Ok(None),
    }
}

/// Returns the elements of a list or an array. The way leads to the first one.
#[cycle(make)]
fn make_elements(
    maker: &mut Maker,
    element: &Schema,
    count: usize,
    first: Option<&[Turn]>,
) -> Result<Option<Vec<Value>>, AllocError> {
    let mut items = Vec::new(maker.alloc);
    let mut way = first;
    for _ in 0..count {
        let Some(item) = make(maker, element, way)? else {
            return Ok(None);
        };
        items.push(item)?;
        way = None;
    }
    Ok(Some(items))
}

#[cycle(make)]
fn make_tuple(
    maker: &mut Maker,
    parts: &Vec<Schema>,
    way: Option<&[Turn]>,
) -> Result<Option<Value>, AllocError> {
    let mut items = Vec::new(maker.alloc);
    for (index, part) in parts.iter().enumerate() {
        let Some(item) = make(maker, part, onward(way, index))? else {
            return Ok(None);
        };
        items.push(item)?;
    }
    Ok(Some(Value::Group(items)))
}

#[cycle(make)]
fn make_struct(
    maker: &mut Maker,
    fields: &Vec<Named<Schema>>,
    way: Option<&[Turn]>,
) -> Result<Option<Value>, AllocError> {
    let mut items = Vec::new(maker.alloc);
    for (index, field) in fields.iter().enumerate() {
        let Some(item) = make(maker, &field.content, onward(way, index))? else {
            return Ok(None);
        };
        items.push(item)?;
    }
    Ok(Some(Value::Group(items)))
}

#[cycle(make)]
fn make_variant(
    maker: &mut Maker,
    variants: &Vec<Named<Schema>>,
    way: Option<&[Turn]>,
) -> Result<Option<Value>, AllocError> {
    let (index, inner) = variant_on(maker, way, variants.len());
    let Some(variant) = variants.get(index) else {
        return Ok(None);
    };
    let Ok(number) = u32::try_from(index) else {
        return Ok(None);
    };
    let Some(content) = make(maker, &variant.content, inner)? else {
        return Ok(None);
    };
    let held = Box::new(maker.alloc, content)?;
    Ok(Some(Value::Variant(number, held)))
}

fn make_leaf(maker: &mut Maker, leaf: Leaf, is_telling: bool) -> Result<Value, AllocError> {
    match leaf {
        Leaf::Bool => {
            let is_even = chosen(maker, 2, is_telling) % 2 == 0;
            // The first telling value is `true`, and the least value `false`.
            Ok(Value::Bool(is_even == is_telling))
        }
        Leaf::Integer(integer) => {
            let bits = number_bits(maker, integer.size(), is_telling);
            Ok(Value::Integer(integer, bits))
        }
        Leaf::Fixed(order, integer) => {
            let bits = number_bits(maker, integer.size(), is_telling);
            Ok(Value::Fixed(order, integer, bits))
        }
        Leaf::Float(float) => {
            let index = chosen(maker, FLOATS.len(), is_telling);
            Ok(Value::Float(float, telling_float(index)))
        }
        Leaf::Char => {
            let index = chosen(maker, CHARS.len(), is_telling);
            Ok(Value::Char(telling_char(index)))
        }
        Leaf::Str => {
            let index = chosen(maker, TEXTS.len(), is_telling);
            let text = String::from_str(maker.alloc, telling_text(index))?;
            Ok(Value::Str(text))
        }
        // A flattened type has lists of `u8` in place of byte strings.
        Leaf::Bytes => Ok(Value::Bytes(Vec::new(maker.alloc))),
    }
}

fn telling_float(index: usize) -> u64 {
    FLOATS[index % FLOATS.len()]
}

fn telling_char(index: usize) -> char {
    CHARS[index % CHARS.len()]
}

fn telling_text(index: usize) -> &'static str {
    TEXTS[index % TEXTS.len()]
}

/// Returns the number of a telling value, or the index with which one of `count` values is filled.
fn chosen(maker: &mut Maker, count: usize, is_telling: bool) -> usize {
    if is_telling {
        maker.telling
    } else {
        maker.pick(count)
    }
}

/// Returns the bits of a number of this size in bytes.
fn number_bits(maker: &mut Maker, size: usize, is_telling: bool) -> u128 {
    if is_telling {
        NUMBERS[maker.telling % TELLING]
    } else {
        maker.bits(size)
    }
}

//! Texts, lent or copied, and characters, which are written as texts.

ghost use Rattle.postcard_de_nodes.specs.{ReadsNode, char_node, lent_text_node, seen_node};
ghost use Rattle.postcard_de_nodes.specs.{short_text_node, text_node};

use crate::numbers;
use arrayvec::ArrayString;
use postcard_de_flavors::Flavor;
use postcard_wire::{Error, Result, text as wire_text};
use std::alloc::Global;
use std::str;

/// The greatest length in bytes of a character's UTF-8.
const LONGEST_CHAR: usize = 4;

/// Reads a text: its length in bytes as a varint, and that many bytes of UTF-8 (wire format 1.0,
/// "string"). The text borrows from what the source borrows, and stays valid after later calls.
/// Also fails with `DeserializeBadUtf8` if the bytes aren't UTF-8; they are taken then.
#[inline(always)]
pub fn text<'de, F: Flavor>(flavor: &mut F) -> Result<&'de str>
where
    F: 'de,
    ensures { ReadsNode F.Flavor lent_text_node flavor.old result flavor.new }
{
    let count = numbers::count(flavor)?;
    let bytes = flavor.try_take_n(count)?;
    if !wire_text::is_utf8(bytes) {
        return Err(Error::DeserializeBadUtf8);
    }
    Ok(unsafe { str::from_utf8_unchecked(bytes) })
}

/// Reads a text into a new `String`, which is allocated once the bytes were taken and found to be
/// UTF-8. Fails as [`text`], and with `OutOfMemory` if the allocation fails.
pub fn text_copy<F: Flavor>(alloc: Global, flavor: &mut F) -> Result<String>
    ensures { ReadsNode F.Flavor text_node flavor.old result flavor.new }
{
    let count = numbers::count(flavor)?;
    let lent = flavor.try_take_n_temp(count)?;
    if !wire_text::is_utf8(lent) {
        return Err(Error::DeserializeBadUtf8);
    }
    match String::from_str(alloc, unsafe { str::from_utf8_unchecked(lent) }) {
        Ok(copy) => Ok(copy),
        Err(_) => Err(Error::OutOfMemory),
    }
}

/// Reads a text of at most `CAP` bytes into an `ArrayString`. Fails as [`text`], and with
/// `SerdeDeCustom` if the text has more than `CAP` bytes and they are UTF-8; the text is taken
/// then.
pub fn short_text<F: Flavor, const CAP: usize>(flavor: &mut F) -> Result<ArrayString<CAP>>
    ensures { ReadsNode F.Flavor (seen_node (λ v. v.bytes) (short_text_node CAP))
        flavor.old result flavor.new }
{
    let count = numbers::count(flavor)?;
    let bytes = flavor.try_take_n_temp(count)?;
    if !wire_text::is_utf8(bytes) {
        return Err(Error::DeserializeBadUtf8);
    }
    match ArrayString::from(unsafe { str::from_utf8_unchecked(bytes) }) {
        Ok(short) => Ok(short),
        Err(_) => Err(Error::SerdeDeCustom),
    }
}

/// Reads a character: a length of at most 4 as a varint, and that many bytes of UTF-8 (wire format
/// 1.0, "char"). Returns the first character of these, as postcard 1.1.3 does, and ignores others.
/// Also fails with `DeserializeBadChar`: if the length is above 4, which alone is taken then, if it
/// is 0, or if the bytes aren't UTF-8, which are taken too.
pub fn character<F: Flavor>(flavor: &mut F) -> Result<char>
    ensures { ReadsNode F.Flavor char_node flavor.old result flavor.new }
{
    let length = numbers::count(flavor)?;
    if length > LONGEST_CHAR {
        return Err(Error::DeserializeBadChar);
    }
    let bytes = flavor.try_take_n_temp(length)?;
    match wire_text::first_char(bytes) {
        Ok(c) => Ok(c),
        Err(_) => Err(Error::DeserializeBadChar),
    }
}

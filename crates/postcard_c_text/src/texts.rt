//! The exports: the text of a message, the message of a text, and whether bytes are a message.

ghost use Rattle.std.specs.Prelude.{◌≡◌, ◌≢◌, ◌⊎◌, ℕ, List, ◌+◌, ◌≤◌, length, IfOk, IfErr, IfSome};
ghost use Rattle.std.specs.Prelude.{string_bytes};
ghost use Rattle.postcard_c_text.specs.{CopiesOut, Encodes, HasMessage, HasNoMessage, Shows};
ghost use Rattle.postcard_c_text.specs.{SpellsValue, canonical, characters, layout_of, reads};
ghost use Rattle.postcard_c_text.specs.{text_of_tree, tree, type_of};

use crate::copy::copy_out;
use crate::read::{message_of, schema_of};
use postcard_schema::Schema;
use postcard_ser_flavors::AllocVec;
use postcard_value::{Value, to_flavor};
use postcard_value_text::{Shown, TextError, read_text};
use postcard_wire::status::{BAD_TEXT, OUT_OF_MEMORY};
use std::alloc::Global;

/// Prints the value of a type that some bytes begin with, into the front of `text`.
///
/// Writes the number of bytes of the message into `place`, and that of its text into `count`.
///
/// # Errors
///
/// Fails with 17 if `expression` is no type; `place` is then the number of the character where it
/// isn't, counted from 1, or 0 if it is not UTF-8. Fails with the number of an error of reading if no
/// front of the bytes is a message of the type; `place` is then the offset in bytes of the part that
/// can't be read. Fails with 2 if the text has no room; `count` is then the size that it needs, and
/// `place` as after a success. Fails with 16 if an allocation fails. After any error `text` is
/// unchanged.
#[unsafe(no_mangle)]
pub extern "C" fn postcard_to_text(
    alloc: Global,
    expression: &[u8],
    bytes: &[u8],
    text: &mut [u8],
    place: &mut usize,
    count: &mut usize,
) -> u32
    ensures shown { (result ≡ 0) ⊎ (result ≡ 2) → (shown : List ℕ)
        × Shows expression.now bytes.now place.new shown
        × CopiesOut shown text.old text.new count.new result }
    ensures unchanged { result ≢ 0 → text.new ≡ text.old }
    ensures bad_type { result ≡ 17 → place.new ≤ characters expression.now + 1 }
    ensures refused { result ≢ 0 → result ≢ 2 → result ≢ 16 → result ≢ 17
        → HasNoMessage expression.now bytes.now place.new result × (place.new ≤ length bytes.now) }
{
    let schema = match schema_of(alloc, expression, place) {
        Ok(schema) => schema,
        Err(status) => return status,
    };
    let value = match message_of(alloc, &schema, bytes, place) {
        Ok(value) => value,
        Err(status) => return status,
    };
    match text_of(alloc, &schema, &value) {
        Ok(shown) => copy_out(shown.as_bytes(), text, count),
        Err(status) => status,
    }
}

/// Returns the text of a value, or fails with `OUT_OF_MEMORY` if an allocation fails.
fn text_of(alloc: Global, schema: &Schema, value: &Value) -> Result<String, u32>
    ensures printed { IfOk result (λ shown. IfSome (text_of_tree (layout_of schema.now) (tree value.now))
        (λ printed. string_bytes shown ≡ printed)) }
    ensures out_of_memory { IfErr result (λ status. status ≡ 16) }
{
    match format!(in alloc; "{}", Shown { schema, value }) {
        Ok(shown) => Ok(shown),
        Err(_) => Err(OUT_OF_MEMORY),
    }
}

/// Encodes the value of a type that a text spells, into the front of `bytes`.
///
/// Writes the number of bytes of the message into `count`, and 0 into `place`.
///
/// # Errors
///
/// Fails with 17 as [`postcard_to_text`] does, and with 18 if `text` is no value of the type;
/// `place` is then as there. Fails with 2 if the message has no room; `count` is then the size that
/// it needs. Fails with 16 if an allocation fails. After any error `bytes` is unchanged.
#[unsafe(no_mangle)]
pub extern "C" fn postcard_from_text(
    alloc: Global,
    expression: &[u8],
    text: &[u8],
    bytes: &mut [u8],
    place: &mut usize,
    count: &mut usize,
) -> u32
    ensures encoded { (result ≡ 0) ⊎ (result ≡ 2) → (message : List ℕ)
        × Encodes expression.now text.now message
        × CopiesOut message bytes.old bytes.new count.new result }
    ensures unchanged { result ≢ 0 → bytes.new ≡ bytes.old }
    ensures named { (result ≡ 0) ⊎ (result ≡ 2) ⊎ (result ≡ 16) ⊎ (result ≡ 17) ⊎ (result ≡ 18) }
    ensures bad_type { result ≡ 17 → place.new ≤ characters expression.now + 1 }
    ensures bad_text { result ≡ 18 → place.new ≤ characters text.now + 1 }
{
    let schema = match schema_of(alloc, expression, place) {
        Ok(schema) => schema,
        Err(status) => return status,
    };
    let value = match value_of(alloc, &schema, text, place) {
        Ok(value) => value,
        Err(status) => return status,
    };
    match encoded(alloc, &value) {
        Ok(message) => copy_out(message.as_slice(), bytes, count),
        Err(status) => status,
    }
}

/// Reads the value of a type that a text spells. Fails as [`postcard_from_text`] does for the text,
/// with `place` as there.
fn value_of(alloc: Global, schema: &Schema, text: &[u8], place: &mut usize) -> Result<Value, u32>
    ensures value { IfOk result (λ v. reads (type_of schema.now) (tree v)) }
    ensures spelled { IfOk result (λ v. SpellsValue schema.now v text.now) }
    ensures named { IfErr result (λ status. (status ≡ 16) ⊎ (status ≡ 18)) }
    ensures within { IfErr result (λ status. place.new ≤ characters text.now + 1) }
{
    *place = 0;
    let Ok(text) = str::from_utf8(text) else {
        return Err(BAD_TEXT);
    };
    match read_text(alloc, schema, text) {
        Ok(value) => Ok(value),
        Err(TextError::NotAValue { character, .. }) => {
            *place = character;
            Err(BAD_TEXT)
        }
        Err(TextError::OutOfMemory) => Err(OUT_OF_MEMORY),
    }
}

/// Returns the canonical encoding of a value's tree, or fails with `OUT_OF_MEMORY` if an allocation
/// fails.
fn encoded(alloc: Global, value: &Value) -> Result<Vec<u8>, u32>
    ensures gives { IfOk result (λ message. message.items ≡ canonical (tree value.now)) }
    ensures out_of_memory { IfErr result (λ status. status ≡ 16) }
{
    match to_flavor(value, AllocVec::new(alloc)) {
        Ok(message) => Ok(message),
        Err(_) => Err(OUT_OF_MEMORY),
    }
}

/// Returns 0 if some bytes begin with a message of a type, and writes the number of its bytes into
/// `place`.
///
/// # Errors
///
/// Fails as [`postcard_to_text`] does for the type and the bytes.
#[unsafe(no_mangle)]
pub extern "C" fn postcard_check(
    alloc: Global,
    expression: &[u8],
    bytes: &[u8],
    place: &mut usize,
) -> u32
    ensures is_message { result ≡ 0 → HasMessage expression.now bytes.now place.new }
    ensures bad_type { result ≡ 17 → place.new ≤ characters expression.now + 1 }
    ensures refused { result ≢ 0 → result ≢ 16 → result ≢ 17
        → HasNoMessage expression.now bytes.now place.new result × (place.new ≤ length bytes.now) }
{
    let schema = match schema_of(alloc, expression, place) {
        Ok(schema) => schema,
        Err(status) => return status,
    };
    match message_of(alloc, &schema, bytes, place) {
        Ok(_) => 0,
        Err(status) => status,
    }
}

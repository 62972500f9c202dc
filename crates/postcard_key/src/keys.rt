//! The keys of a schema.
//!
//! | Type | Its text for [`key`] | Its text for [`named_key`] |
//! |---|---|---|
//! | `u16`, `LE<u16>`, `f32`, `str` | the same | the same |
//! | `u8?` | `Option<u8>` | `Option<u8>` |
//! | `[u8]`, `[u8; 4]` | `[u8]`, `[u8;4]` | `[u8]`, `[u8;4]` |
//! | `(u8, str)`, `()` | `(u8,str,)`, `()` | `(u8,str,)`, `()` |
//! | `{id: u8, label: str}` | `(u8,str,)` | `{id:u8,label:str,}` |
//! | `{u8 => str}` | `[(u8,str,)]` | `{u8=>str}` |
//! | `Boot \| Reading(u8)` | `<\|()\|u8>` | `(\|Boot(())\|Reading(u8))` |
//! | an enum without variants | `<>` | `(\|)` |
//!
//! The text of a type without enums is a type expression, which `postcard_schema_text::parse`
//! reads. The text with names is one for enums, too. A struct without fields has the text `{}` for
//! [`named_key`].
//!
//! Some types of the same bytes have different texts, and so different keys: `bytes` and `[u8]`,
//! `[u8; 2]` and `(u8, u8)`, `f32` and `[u8; 4]`.
//!
//! These keys are not those of `postcard-rpc`. Nor are they signatures: anyone can make a type with
//! a given key.

ghost use Rattle.postcard_key.specs.{IsKey, IsNamedKey, type_of, view};

use crate::named::add_named;
use crate::shape::add_shape;
use crc::{CRC_64_XZ, Crc};
use postcard_schema::Schema;

/// Returns the key of a type, which depends on the order and the types of its parts. Names don't
/// change it: a struct has the key of the tuple of its fields.
///
/// It allocates nothing. Types of different shapes have different texts. As with any checksum of 64
/// bits, two different texts may have the same key.
///
/// # Examples
///
/// ```text
/// let schema = parse(alloc, "{id: u16, label: str}")?;
/// let host_key = key(&schema);
/// if device_key != host_key {
///     return Err(Failure::OtherVersion);
/// }
/// ```
pub fn key(schema: &Schema) -> u64
    ensures { IsKey (type_of schema.now) result }
{
    let crc = Crc::<u64>::new(&CRC_64_XZ);
    let mut shape = crc.digest();
    add_shape(schema, &mut shape);
    shape.finalize()
}

/// Returns the key of a type with the names of its fields and variants. So a field that is renamed
/// changes it. It allocates nothing.
///
/// Names are taken unchanged. If a name isn't an identifier, such as `a:u8,b`, two types may have
/// the same text. `postcard_schema_text::schema_text` fails for such a name.
///
/// # Examples
///
/// ```text
/// let old = parse(alloc, "{lat: i32, lon: i32}")?;
/// let new = parse(alloc, "{lon: i32, lat: i32}")?;
/// let moved = key(&old) == key(&new) && named_key(&old) != named_key(&new);
/// ```
pub fn named_key(schema: &Schema) -> u64
    ensures { IsNamedKey (view schema.now) result }
{
    let crc = Crc::<u64>::new(&CRC_64_XZ);
    let mut names = crc.digest();
    add_named(schema, &mut names);
    names.finalize()
}

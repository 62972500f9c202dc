//! The key of a static type: [`key_of`].

ghost use Rattle.std.specs.Prelude.{◌≡◌, IfErr, IfOk};
ghost use Rattle.postcard_key.specs.{IsKey};

use crate::schema::HasSchema;
use postcard_key::key;
use postcard_wire::{Error, Result};
use std::alloc::Global;

/// Returns the key of a type, [`postcard_key::key`] of its schema. It allocates the schema, and
/// frees it.
///
/// A type that isn't exact has the key of all messages of its schema. So `NonZeroU8` has the key of
/// `u8`.
///
/// # Errors
///
/// Fails with `OutOfMemory` if an allocation fails.
///
/// # Examples
///
/// ```text
/// let key = key_of::<(u16, Vec<i32>)>(alloc)?;
/// ```
pub fn key_of<T: HasSchema>(alloc: Global) -> Result<u64>
    ensures keyed { IfOk result (IsKey T.described.message) }
    ensures only_out_of_memory { IfErr result (λ e. e ≡ Error.OutOfMemory) }
{
    let schema = T::schema(alloc)?;
    Ok(key(&schema))
}

//! One message, read by its type and by the type's schema.

ghost use Rattle.std.specs.Prelude.{◌≡◌, IfErr, IfOk};
ghost use Rattle.postcard_described_host.specs.{Agree, HostTakes, TakesFromBytes};

use postcard_de::{Deserialize, take_from_bytes};
use postcard_described::HasSchema;
use postcard_value::Value;
use postcard_wire::{Error, Result};
use std::alloc::Global;

/// What a device and a host return for the same bytes: each a value and the bytes after it, or an
/// error.
#[derive(Drop)]
pub struct Readings<'a, T> {
    /// The result of the device, which has the type.
    pub device: Result<(T, &'a [u8])>,
    /// The result of the host, which has only the schema of the type.
    pub host: Result<(Value, &'a [u8])>,
}

/// Reads a value from the start of `bytes` twice: as a device that has the type, and as a host that
/// has only its schema. Returns both results.
///
/// # Errors
///
/// Fails with `OutOfMemory` if the allocation of the schema fails. An error of either reader stands
/// in its field.
pub fn read_as_both<'a, T: Deserialize<'a> + HasSchema>(
    alloc: Global,
    bytes: &'a [u8],
) -> Result<Readings<'a, T>>
    ensures device_reads { IfOk result (λ both. TakesFromBytes T.shape bytes.now both.device) }
    ensures host_reads { IfOk result (λ both. HostTakes T.described.message bytes.now both.host) }
    ensures agree_on_values { IfOk result (λ both.
        IfOk both.device (λ _. Agree T.shape both.device both.host)) }
    ensures agree_if_exact { T.described.exact → IfOk result (λ both.
        Agree T.shape both.device both.host) }
    ensures only_out_of_memory { IfErr result (λ e. e ≡ Error.OutOfMemory) }
{
    let schema = T::schema(alloc)?;
    let device = take_from_bytes::<T>(alloc, bytes);
    let host = postcard_value::take_from_bytes(alloc, &schema, bytes);
    Ok(Readings { device, host })
}

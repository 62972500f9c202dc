//! The theorem of this program: the host, which has only the schema, reads what the device reports.

ghost use Rattle.std.specs.Prelude.{IfOk};
ghost use Rattle.postcard_described.specs.SameBytes.{SameBytes};
ghost use Rattle.postcard_value.specs.Tree.{tree};

use crate::report::Report;
use postcard::{Result, Shaped, to_allocvec};
use postcard_described::HasSchema;
use postcard_described_host::laws::host_reads_written;
use postcard_value::{Value, take_from_bytes};
use std::alloc::Global;

/// Encodes a report as the device does, and decodes it as the host does, with the schema alone. The
/// value that the host gets has the encodings of the report, and no others.
///
/// # Errors
///
/// Fails with `OutOfMemory` if an allocation fails.
pub fn told(alloc: Global, report: &Report) -> Result<Value>
    ensures same_encodings { IfOk result (λ value.
        SameBytes (⟦<Report as Shaped>⟧.shape.tree report.now) (tree value)) }
{
    let message = to_allocvec(alloc, report)?;
    let schema = Report::schema(alloc)?;
    host_reads_written::<Report>();
    let (value, _rest) = take_from_bytes(alloc, &schema, &message)?;
    Ok(value)
}

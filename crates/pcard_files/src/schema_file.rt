//! The schema that a file describes: [`schema_in`].
//!
//! A device sends the type of its messages as a schema message: the list of the schema's nodes
//! (`postcard_schema_message`). A file has the message, or its COBS frame with the zero that ends it.

ghost use Rattle.std.specs.Prelude.{◌≡◌, ◌≢◌, ◌↔◌, [], IfErr, IfNone, IfOk, IfSome, IsTrue, MatchResult};
ghost use Rattle.pcard_files.specs.{Describes, DescribesNone, EndsFrame, IsMessageOf, IsNoMessage};
ghost use Rattle.pcard_files.specs.{IsUnframed, LooksLikeText, Nodes, NodesMemory};

use crate::fault::{SchemaFault, TypeFault};
use pcard_message::data_of;
use postcard_cobs::is_zero_free;
use postcard_de::{Error, take_from_bytes};
use postcard_schema::Schema;
use postcard_schema_message::{Node, Problem, schema_of};
use std::alloc::{AllocError, Global};

/// The least byte of a text. The first byte of a node is below 8.
const LEAST_OF_TEXT: u8 = 9;

/// Returns the schema that the bytes of a file describe: the schema of a message, or else of a
/// message in a COBS frame.
///
/// # Errors
///
/// If the last byte is the only zero, the bytes are taken for a frame. Fails with `NoFrame` if they
/// are none, and with `NoSchemaInFrame` if its data is no schema message. Other bytes fail with
/// `Unnamed` if they look like a text, and else with `NoSchema`. Fails with `OutOfMemory` if an
/// allocation fails.
pub fn schema_in(alloc: Global, bytes: &[u8]) -> Result<Schema, TypeFault>
    ensures described { IfOk result (Describes bytes.now) }
    ensures refused { IfErr result (DescribesNone bytes.now) }
{
    match read_message(alloc, bytes)? {
        Ok(schema) => Ok(schema),
        Err(plain) => schema_in_frame(alloc, bytes, plain),
    }
}

/// Returns the schema that the bytes of a file describe by a message in a COBS frame. They are no
/// message themselves.
fn schema_in_frame(alloc: Global, bytes: &[u8], plain: SchemaFault) -> Result<Schema, TypeFault>
    requires { IsNoMessage bytes.now plain }
    ensures described { IfOk result (Describes bytes.now) }
    ensures refused { IfErr result (DescribesNone bytes.now) }
{
    let Some(frame) = frame_of(bytes) else {
        return Err(unframed(bytes, plain));
    };
    let mut room = Vec::new(alloc);
    let Some(content) = data_of(frame, &mut room)? else {
        return Err(TypeFault::NoFrame(plain));
    };
    match read_message(alloc, content)? {
        Ok(schema) => Ok(schema),
        Err(fault) => Err(TypeFault::NoSchemaInFrame(fault)),
    }
}

/// Returns the bytes before the last, if the last byte is a zero and they have none.
fn frame_of(bytes: &[u8]) -> Option<&[u8]>
    ensures some { IfSome result (λ frame. EndsFrame bytes.now frame.now []) }
    ensures none { IfNone result (IsUnframed bytes.now) }
{
    match bytes.split_last() {
        Some((0, frame)) if is_zero_free(frame) => Some(frame),
        _ => None,
    }
}

/// Returns the fault of bytes that are no schema message and aren't taken for a frame.
fn unframed(bytes: &[u8], plain: SchemaFault) -> TypeFault
    requires no_message { IsNoMessage bytes.now plain }
    requires no_frame { IsUnframed bytes.now }
    ensures { DescribesNone bytes.now result }
{
    if looks_like_text(bytes) {
        return TypeFault::Unnamed;
    }
    TypeFault::NoSchema(plain)
}

/// Returns whether there are bytes, and none of them is one with which a node begins.
fn looks_like_text(bytes: &[u8]) -> bool
    ensures { IsTrue result ↔ LooksLikeText bytes.now }
{
    !bytes.is_empty() && bytes.iter().all(|byte| *byte >= LEAST_OF_TEXT)
}

/// Returns the schema of a message, or why the bytes are none.
///
/// # Errors
///
/// Fails if an allocation fails.
fn read_message(alloc: Global, bytes: &[u8]) -> Result<Result<Schema, SchemaFault>, AllocError>
    ensures { IfOk result (λ read. MatchResult read (IsMessageOf bytes.now)
        (IsNoMessage bytes.now)) }
{
    let (nodes, rest) = match take_from_bytes::<Vec<Node>>(alloc, bytes) {
        Ok(read) => read,
        Err(Error::OutOfMemory) => return Err(AllocError),
        Err(_) => return Ok(Err(SchemaFault::NoNodes)),
    };
    if !rest.is_empty() {
        return Ok(Err(SchemaFault::MoreBytes));
    }
    match schema_of(alloc, nodes) {
        Ok(schema) => Ok(Ok(schema)),
        Err(problem) => Ok(Err(fault_of(problem)?)),
    }
}

/// Returns the fault of nodes that give no schema. Fails if an allocation failed.
fn fault_of(problem: Problem) -> Result<SchemaFault, AllocError>
    ensures { IfOk result (λ fault. (fault ≡ Nodes problem) × (problem ≢ NodesMemory)) }
{
    match problem {
        Problem::OutOfMemory => Err(AllocError),
        _ => Ok(SchemaFault::Nodes(problem)),
    }
}

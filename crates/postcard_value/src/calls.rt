//! Calls for whole messages: decoding from a slice of bytes, and encoding into a flavor.

ghost use Rattle.std.specs.Prelude.{◌≡◌, ℕ, List, ◌++◌, IfOk, IfErr, IsOk, MatchResult};
ghost use Rattle.postcard_value.specs.{Finished, IsReadError, IsTree, ReadsFront, Spells, Value};
ghost use Rattle.postcard_value.specs.{canonical, memory, reads, tree, type_of};
ghost use Rattle.postcard_wire.specs.Tree.{Tree};

use crate::read::read_value;
use crate::value::Value;
use crate::write::write_value;
use postcard_de::{Deserializer, Error, Result};
use postcard_schema::Schema;
use postcard_ser::Serializer;
use postcard_ser_flavors::Flavor;
use std::alloc::Global;

/// Decodes a value of the schema from the start of some bytes, and returns it with the remaining
/// bytes.
///
/// It succeeds if and only if a prefix of the bytes encodes a tree of the schema and no allocation
/// fails. Padded numbers are accepted. There is at most one such prefix.
///
/// # Errors
///
/// Fails as [`read_value`] does.
pub fn take_from_bytes<'a>(
    alloc: Global,
    schema: &Schema,
    bytes: &'a [u8],
) -> Result<(Value, &'a [u8])>
    ensures gives { IfOk result (λ read.
        ReadsFront (reads (type_of schema.now)) IsTree bytes.now read.0 read.1.now) }
    ensures accepts { (t : Tree) (front rest : List ℕ)
        → reads (type_of schema.now) t → Spells t front → bytes.now ≡ front ++ rest →
        MatchResult result (λ read. (t ≡ tree read.0) × (read.1.now ≡ rest))
        (λ e. e ≡ Error.OutOfMemory) }
    ensures reads_back { (v : Value) (rest : List ℕ)
        → reads (type_of schema.now) (tree v) → bytes.now ≡ canonical (tree v) ++ rest →
        MatchResult result (λ read. (tree v ≡ tree read.0) × (read.1.now ≡ rest))
        (λ e. e ≡ Error.OutOfMemory) }
    ensures named_error { IfErr result (IsReadError memory) }
{
    let mut deserializer = Deserializer::from_bytes(bytes);
    let value = read_value(alloc, schema, &mut deserializer)?;
    let rest = deserializer.finalize()?;
    Ok((value, rest))
}

/// Encodes a value into a flavor, ends the flavor, and returns its output. The encoding is the
/// canonical one of the value's tree.
///
/// # Errors
///
/// Fails with `SerializeBufferFull`, and drops the flavor, if the flavor refuses bytes or can't
/// end. It never fails if the flavor has room for the encoding.
pub fn to_flavor<S: Flavor<Output = O> + Drop, O>(value: &Value, storage: S) -> Result<O>
    ensures gives { IfOk result (Finished S.Flavor storage (canonical (tree value.now))) }
    ensures has_room { S.room storage (canonical (tree value.now)) → IsOk result }
    ensures named_error { IfErr result (λ e. e ≡ Error.SerializeBufferFull) }
{
    let mut serializer = Serializer { output: storage };
    write_value(value, &mut serializer)?;
    match serializer.output.finalize() {
        Ok(output) => Ok(output),
        Err(_) => Err(Error::SerializeBufferFull),
    }
}

//! The schema of a node, made of its parts.

ghost use Rattle.std.specs.Prelude.{◌≡◌, ◌∷◌, ◌⊎◌, [], false, true, length, map, IfErr, IfOk};
ghost use Rattle.postcard_schema.specs.Meaning.{entry_of, has_bytes};
ghost use Rattle.postcard_schema.specs.Views.{named};
ghost use Rattle.postcard_schema.specs.declared.schema.Schema.{Schema};
ghost use Rattle.postcard_schema_message.specs.{arity, node_view, texts, type_of, view};
ghost use Rattle.postcard_schema_message.specs.Making.{IsMade, paired};
ghost use Rattle.postcard_schema_message.specs.Nodes.{map_node};

use crate::build::push;
use crate::error::Problem;
use crate::node::Node;
use postcard_schema::{Named, Schema};
use std::alloc::Global;

/// Returns the schema of a node that has these parts, of which there must be as many as its arity.
pub(crate) fn root(alloc: Global, node: Node, parts: Vec<Schema>) -> Result<Schema, Problem>
    requires { length parts.items ≡ arity (node_view node) }
    ensures { IsMade (node_view node) (map view parts.items) result }
{
    match node {
        Node::Leaf(leaf) => Ok(Schema::Leaf(leaf.0)),
        Node::Option => Ok(Schema::Option(content(alloc, parts)?)),
        Node::Seq => Ok(Schema::Seq(element(alloc, parts)?)),
        Node::Map => map_of(alloc, parts),
        Node::Array(count) => Ok(Schema::Array(element(alloc, parts)?, count)),
        Node::Tuple(_) => Ok(Schema::Tuple(parts)),
        Node::Struct(names) => Ok(Schema::Struct(with_names(alloc, names, parts)?)),
        Node::Enum(names) => Ok(Schema::Enum(with_names(alloc, names, parts)?)),
    }
}

/// Returns the only part, in a `Box`.
fn content(alloc: Global, mut parts: Vec<Schema>) -> Result<Box<Schema>, Problem>
    requires { length parts.items ≡ 1 }
    ensures held { IfOk result (λ held. parts.items ≡ held.value ∷ []) }
    ensures only_out_of_memory { IfErr result (λ problem. problem ≡ Problem.OutOfMemory) }
{
    match parts.pop() {
        Some(part) => boxed(alloc, part),
        None => Err(Problem::Malformed),
    }
}

/// Returns the only part, in a `Box`. Fails with `ElementWithoutBytes` if it has no bytes.
fn element(alloc: Global, parts: Vec<Schema>) -> Result<Box<Schema>, Problem>
    requires { length parts.items ≡ 1 }
    ensures held { IfOk result (λ held. (parts.items ≡ held.value ∷ [])
        × (has_bytes (type_of held.value) ≡ true)) }
    ensures refused { IfErr result (λ problem. (problem ≡ Problem.OutOfMemory)
        ⊎ ((part : Schema) × (problem ≡ Problem.ElementWithoutBytes) × (parts.items ≡ part ∷ [])
        × (has_bytes (type_of part) ≡ false))) }
{
    let element = content(alloc, parts)?;
    if !element.has_bytes() {
        return Err(Problem::ElementWithoutBytes);
    }
    Ok(element)
}

/// Returns the map of the two parts, a key and a value. Fails with `ElementWithoutBytes` if neither
/// has bytes.
fn map_of(alloc: Global, mut parts: Vec<Schema>) -> Result<Schema, Problem>
    requires { length parts.items ≡ 2 }
    ensures { IsMade map_node (map view parts.items) result }
{
    let Some(value) = parts.pop() else {
        return Err(Problem::Malformed);
    };
    let key = content(alloc, parts)?;
    if !entry_has_bytes(&key, &value) {
        return Err(Problem::ElementWithoutBytes);
    }
    Ok(Schema::Map(key, boxed(alloc, value)?))
}

/// Returns whether each entry of a map has bytes.
fn entry_has_bytes(key: &Schema, value: &Schema) -> bool
    ensures { result ≡ has_bytes (entry_of (type_of key.now) (type_of value.now)) }
{
    key.has_bytes() || value.has_bytes()
}

fn boxed(alloc: Global, schema: Schema) -> Result<Box<Schema>, Problem>
    ensures held { IfOk result (λ held. held.value ≡ schema) }
    ensures only_out_of_memory { IfErr result (λ problem. problem ≡ Problem.OutOfMemory) }
{
    match Box::new(alloc, schema) {
        Ok(held) => Ok(held),
        Err(_) => Err(Problem::OutOfMemory),
    }
}

/// Returns the parts with these names, of which there must be as many.
fn with_names(
    alloc: Global,
    names: Vec<String>,
    parts: Vec<Schema>,
) -> Result<Vec<Named<Schema>>, Problem>
    requires { length parts.items ≡ length names.items }
    ensures named { IfOk result (λ fields. map (named view) fields.items
        ≡ paired (texts names.items) (map view parts.items)) }
    ensures only_out_of_memory { IfErr result (λ problem. problem ≡ Problem.OutOfMemory) }
{
    let mut fields = Vec::new(alloc);
    let mut left = names.into_iter();
    for content in parts {
        if let Some(name) = left.next() {
            push(Named { name, content }, &mut fields)?;
        }
    }
    Ok(fields)
}

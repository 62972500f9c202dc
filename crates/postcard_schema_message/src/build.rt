//! The schema of some nodes: [`schema_of`].
//!
//! Nodes are read from the last to the first. A node takes its parts from the schemas that are built
//! so far, so no function here calls itself. The parts of a node are those of which the nodes were
//! read last, and they stand at the end of the row.

ghost use Rattle.std.specs.Prelude.{◌≡◌, ◌≤◌, ◌<◌, ◌++◌, ◌∷◌, ◌⊎◌, [], length, map};
ghost use Rattle.std.specs.Prelude.{IfErr, IfOk, OnOk};
ghost use Rattle.postcard_schema.specs.Bounds.{ElementsHaveBytes, depth as depth_of};
ghost use Rattle.postcard_schema.specs.Views.{View};
ghost use Rattle.postcard_schema_message.specs.{IsBounded, Refuses, node_view, node_views, preorder};
ghost use Rattle.postcard_schema_message.specs.{type_of, view};
ghost use Rattle.postcard_schema_message.specs.Building.{AreBuilt, AreParts, Roots, forest};

use crate::error::Problem;
use crate::node::Node;
use crate::root::root;
use postcard_schema::Schema;
use std::alloc::Global;

/// How deep types may be nested. So deep are the types that `postcard_schema_text::parse` returns: it
/// reads 64 brackets in each other, each of which adds at most six levels of types.
pub const MAX_DEPTH: usize = 384;

/// Returns the schema of these nodes, as [`nodes_of`](crate::nodes_of) gave them. Names are not
/// copied.
///
/// The nodes are untrusted. Time and memory are bounded by the number of nodes and names, whatever
/// their counts say.
///
/// # Errors
///
/// Fails with `Malformed` if no schema has these nodes. Fails with `TooDeep` or
/// `ElementWithoutBytes` if a part of the list is a type that is nested too deeply, or that has such
/// elements. Fails with `OutOfMemory` if an allocation fails.
///
/// # Examples
///
/// ```text
/// let nodes: Vec<Node> = from_bytes(alloc, &message)?;
/// let schema = schema_of(alloc, nodes)?;
/// ```
pub fn schema_of(alloc: Global, mut nodes: Vec<Node>) -> Result<Schema, Problem>
    ensures sent { IfOk result (λ schema. preorder (view schema) ≡ node_views nodes.items) }
    ensures elements_have_bytes { IfOk result (λ schema. ElementsHaveBytes (type_of schema)) }
    ensures deep { IfOk result (λ schema. depth_of (type_of schema) ≤ 384) }
    ensures refused { IfErr result (λ problem. Refuses problem (node_views nodes.items)) }
    ensures complete { (v : View) → preorder v ≡ node_views nodes.items → IsBounded v
        → IfErr result (λ problem. problem ≡ Problem.OutOfMemory) }
{
    let mut row = Vec::new(alloc);
    while let Some(node) = nodes.pop() {
        let built = build(alloc, node, &mut row)?;
        push(built, &mut row)?;
    }
    let Some(built) = row.pop() else {
        return Err(Problem::Malformed);
    };
    if !row.is_empty() {
        return Err(Problem::Malformed);
    }
    Ok(built.schema)
}

/// A schema that is built, and how deep it is.
#[derive(Drop)]
struct Built {
    schema: Schema,
    depth: usize,
}

/// Schemas that are the parts of one, in order, and how deep the deepest is.
#[derive(Drop)]
struct Parts {
    schemas: Vec<Schema>,
    depth: usize,
}

/// Builds the schema of a node, whose parts it takes from the end of the row. Fails with
/// `Malformed` if the row has too few.
fn build(alloc: Global, node: Node, row: &mut Vec<Built>) -> Result<Built, Problem>
    requires { AreBuilt row.old.items }
    ensures { Roots (node_view node) row.old.items result row.new.items }
{
    let parts = take_parts(alloc, node.arity(), row)?;
    let depth = parts.depth + node.levels();
    if depth > MAX_DEPTH {
        return Err(Problem::TooDeep);
    }
    let schema = root(alloc, node, parts.schemas)?;
    Ok(Built { schema, depth })
}

/// Takes `count` schemas from the end of the row, the last first. Fails with `Malformed` if there are
/// fewer.
fn take_parts(alloc: Global, count: usize, row: &mut Vec<Built>) -> Result<Parts, Problem>
    requires { AreBuilt row.old.items }
    ensures taken { IfOk result (λ parts. AreParts parts
        × (forest row.old.items ≡ map view parts.schemas.items ++ forest row.new.items)
        × (length parts.schemas.items ≡ count)) }
    ensures kept { OnOk result (AreBuilt row.new.items) }
    ensures refused { IfErr result (λ problem. (problem ≡ Problem.OutOfMemory)
        ⊎ ((problem ≡ Problem.Malformed) × (length (forest row.old.items) < count))) }
{
    let mut schemas = Vec::new(alloc);
    let mut depth = 0;
    for _ in 0..count {
        let Some(built) = row.pop() else {
            return Err(Problem::Malformed);
        };
        depth = built.depth.max(depth);
        push(built.schema, &mut schemas)?;
    }
    Ok(Parts { schemas, depth })
}

/// Appends an item.
pub(crate) fn push<T: Drop>(item: T, items: &mut Vec<T>) -> Result<(), Problem>
    ensures added { OnOk result (items.new.items ≡ items.old.items ++ item ∷ []) }
    ensures only_out_of_memory { IfErr result (λ problem. problem ≡ Problem.OutOfMemory) }
{
    match items.push(item) {
        Ok(()) => Ok(()),
        Err(_) => Err(Problem::OutOfMemory),
    }
}

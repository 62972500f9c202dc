//! The nodes of a schema: [`nodes_of`].

ghost use Rattle.std.specs.Prelude.{◌≡◌, ◌++◌, ◌∷◌, [], map, IfOk, OnOk};
ghost use Rattle.postcard_schema_message.specs.{contents, name_text, node_view, node_views};
ghost use Rattle.postcard_schema_message.specs.{preorder, preorder_all, texts, view};

use crate::leaf::NodeLeaf;
use crate::node::Node;
use postcard_schema::{Named, Schema};
use std::alloc::{AllocError, Global};

/// Returns the nodes of a schema in preorder: each type, followed by its parts.
///
/// Each count fits its node, since both are a `usize`.
///
/// # Errors
///
/// Fails if an allocation fails.
///
/// # Examples
///
/// ```text
/// let nodes = nodes_of(alloc, &Reading::schema(alloc)?)?;
/// let message = to_allocvec(alloc, &nodes)?;
/// ```
pub fn nodes_of(alloc: Global, schema: &Schema) -> Result<Vec<Node>, AllocError>
    ensures { IfOk result (λ nodes. node_views nodes.items ≡ preorder (view schema.now)) }
{
    let mut nodes = Vec::new(alloc);
    push_type(alloc, schema, &mut nodes)?;
    Ok(nodes)
}

/// Appends the nodes of a schema.
#[cycle(push_type)]
fn push_type(alloc: Global, schema: &Schema, nodes: &mut Vec<Node>) -> Result<(), AllocError>
    ensures { OnOk result (node_views nodes.new.items
        ≡ node_views nodes.old.items ++ preorder (view schema.now)) }
{
    match schema {
        Schema::Leaf(leaf) => push(Node::Leaf(NodeLeaf(*leaf)), nodes),
        Schema::Option(content) => {
            push(Node::Option, nodes)?;
            push_type(alloc, content, nodes)
        }
        Schema::Seq(element) => {
            push(Node::Seq, nodes)?;
            push_type(alloc, element, nodes)
        }
        Schema::Map(key, value) => {
            push(Node::Map, nodes)?;
            push_type(alloc, key, nodes)?;
            push_type(alloc, value, nodes)
        }
        Schema::Array(element, count) => {
            push(Node::Array(*count), nodes)?;
            push_type(alloc, element, nodes)
        }
        Schema::Tuple(parts) => {
            push(Node::Tuple(parts.len()), nodes)?;
            push_parts(alloc, parts, nodes)
        }
        Schema::Struct(fields) => {
            push(Node::Struct(names_of(alloc, fields)?), nodes)?;
            push_contents(alloc, fields, nodes)
        }
        Schema::Enum(variants) => {
            push(Node::Enum(names_of(alloc, variants)?), nodes)?;
            push_contents(alloc, variants, nodes)
        }
    }
}

/// Appends the nodes of each part.
#[cycle(push_type)]
fn push_parts(alloc: Global, parts: &Vec<Schema>, nodes: &mut Vec<Node>) -> Result<(), AllocError>
    ensures { OnOk result (node_views nodes.new.items
        ≡ node_views nodes.old.items ++ preorder_all (map view parts.now.items)) }
{
    for part in parts {
        push_type(alloc, part, nodes)?;
    }
    Ok(())
}

/// Appends the nodes of what has each name.
#[cycle(push_type)]
fn push_contents(
    alloc: Global,
    named: &Vec<Named<Schema>>,
    nodes: &mut Vec<Node>,
) -> Result<(), AllocError>
    ensures { OnOk result (node_views nodes.new.items
        ≡ node_views nodes.old.items ++ preorder_all (map view (contents named.now.items))) }
{
    for part in named {
        push_type(alloc, &part.content, nodes)?;
    }
    Ok(())
}

/// Appends a node.
fn push(node: Node, nodes: &mut Vec<Node>) -> Result<(), AllocError>
    ensures { OnOk result (node_views nodes.new.items
        ≡ node_views nodes.old.items ++ node_view node ∷ []) }
{
    nodes.push(node)?;
    Ok(())
}

/// Returns a copy of the names.
fn names_of(alloc: Global, named: &Vec<Named<Schema>>) -> Result<Vec<String>, AllocError>
    ensures { IfOk result (λ names. texts names.items ≡ map name_text named.now.items) }
{
    let mut names = Vec::new(alloc);
    for part in named {
        names.push(String::from_str(alloc, &part.name)?)?;
    }
    Ok(names)
}

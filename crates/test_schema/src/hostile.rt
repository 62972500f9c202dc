//! Lists of nodes that give no schema, and messages that are no list of nodes.

use postcard_de::from_bytes;
use postcard_schema::{Integer, Leaf};
use postcard_schema_message::{MAX_DEPTH, Node, NodeLeaf, Problem, schema_of};
use postcard_wire::Error;
use std::process::Abort;

/// What the list is, its message, and why it gives no schema.
const LISTS: [(&str, &[u8], Problem); 16] = [
    ("no nodes", b"\x00", Problem::Malformed),
    ("an option of nothing", b"\x01\x01", Problem::Malformed),
    (
        "a map without values",
        b"\x02\x03\x00\x00",
        Problem::Malformed,
    ),
    (
        "a tuple with a part too few",
        b"\x02\x05\x02\x00\x00",
        Problem::Malformed,
    ),
    (
        "a tuple of 2^64 - 1 parts, of which one is there",
        b"\x02\x05\xff\xff\xff\xff\xff\xff\xff\xff\xff\x01\x00\x00",
        Problem::Malformed,
    ),
    (
        "a struct with a field too few",
        b"\x02\x06\x02\x01a\x01b\x00\x00",
        Problem::Malformed,
    ),
    (
        "an enum with a variant too many",
        b"\x03\x07\x01\x01A\x05\x00\x05\x00",
        Problem::Malformed,
    ),
    ("two types", b"\x02\x00\x00\x00\x00", Problem::Malformed),
    (
        "a type after the unit",
        b"\x02\x05\x00\x00\x00",
        Problem::Malformed,
    ),
    (
        "a list of units",
        b"\x02\x02\x05\x00",
        Problem::ElementWithoutBytes,
    ),
    (
        "2^63 units",
        b"\x02\x04\x80\x80\x80\x80\x80\x80\x80\x80\x80\x01\x05\x00",
        Problem::ElementWithoutBytes,
    ),
    (
        "an array of no units",
        b"\x02\x04\x00\x05\x00",
        Problem::ElementWithoutBytes,
    ),
    (
        "a list of empty arrays",
        b"\x03\x02\x04\x00\x00\x00",
        Problem::ElementWithoutBytes,
    ),
    (
        "a list of structs without bytes",
        b"\x03\x02\x06\x01\x01a\x05\x00",
        Problem::ElementWithoutBytes,
    ),
    (
        "a map of units",
        b"\x03\x03\x05\x00\x05\x00",
        Problem::ElementWithoutBytes,
    ),
    (
        "a list of units in a tuple",
        b"\x04\x05\x02\x00\x00\x02\x05\x00",
        Problem::ElementWithoutBytes,
    ),
];

/// What is wrong, the message, and the error of reading it.
const MESSAGES: [(&str, &[u8], Error); 5] = [
    ("an unknown node", b"\x01\x08", Error::SerdeDeCustom),
    (
        "an unknown type without parts",
        b"\x01\x00\x24",
        Error::SerdeDeCustom,
    ),
    (
        "an index of 2^32",
        b"\x01\x00\x80\x80\x80\x80\x10",
        Error::DeserializeBadVarint,
    ),
    (
        "a node too few",
        b"\x02\x00\x00",
        Error::DeserializeUnexpectedEnd,
    ),
    (
        "a name that is no text",
        b"\x02\x06\x01\x01\xff\x00\x00",
        Error::DeserializeBadUtf8,
    ),
];

#[test]
fn lists_without_a_schema(rt: HostRuntime) {
    for (what, bytes, problem) in &LISTS {
        let nodes: Vec<Node> = from_bytes(rt.alloc(), bytes).expect(&rt, what);
        let found = schema_of(rt.alloc(), nodes).err();
        assert_eq!(rt; found, Some(*problem), "{what}");
    }
}

#[test]
fn messages_without_nodes(rt: HostRuntime) {
    for (what, bytes, error) in &MESSAGES {
        let found = from_bytes::<Vec<Node>>(rt.alloc(), bytes).err();
        assert_eq!(rt; found.as_ref(), Some(error), "{what}");
    }
}

/// Appends a node.
fn push(rt: &impl Abort, nodes: &mut Vec<Node>, node: Node) {
    nodes.push(node).expect(rt, "a node");
}

fn byte() -> Node {
    Node::Leaf(NodeLeaf(Leaf::Integer(Integer::U8)))
}

/// Returns `levels` options of a byte.
fn options(rt: &(impl Abort + AllocGlobal), levels: usize) -> Vec<Node> {
    let mut nodes = Vec::new(rt.alloc());
    for _ in 0..levels {
        push(rt, &mut nodes, Node::Option);
    }
    push(rt, &mut nodes, byte());
    nodes
}

/// Returns `count` maps, each of which is the value of the one before. Each has two levels.
fn maps(rt: &(impl Abort + AllocGlobal), count: usize) -> Vec<Node> {
    let mut nodes = Vec::new(rt.alloc());
    for _ in 0..count {
        push(rt, &mut nodes, Node::Map);
        push(rt, &mut nodes, byte());
    }
    push(rt, &mut nodes, byte());
    nodes
}

#[test]
fn depths(rt: HostRuntime) {
    let deep = Some(Problem::TooDeep);
    for (nodes, wanted) in [
        (options(&rt, MAX_DEPTH), None),
        (options(&rt, MAX_DEPTH + 1), deep),
        (maps(&rt, MAX_DEPTH / 2), None),
        (maps(&rt, MAX_DEPTH / 2 + 1), deep),
        (options(&rt, 100_000), deep),
    ] {
        let count = nodes.len();
        assert_eq!(rt; schema_of(rt.alloc(), nodes).err(), wanted, "{count} nodes");
    }
}

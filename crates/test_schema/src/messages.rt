//! Types, and the messages of their nodes.

use postcard_de::from_bytes;
use postcard_key::named_key;
use postcard_schema_message::{Node, nodes_of, schema_of};
use postcard_schema_text::parse;
use postcard_ser::{Serialize, Serializer};
use postcard_ser_flavors::{AllocVec, Flavor};
use postcard_wire::Result;
use std::alloc::Global;
use std::process::Abort;

const MESSAGES: [(&str, &[u8]); 37] = [
    ("bool", b"\x01\x00\x00"),
    ("u8", b"\x01\x00\x01"),
    ("u16", b"\x01\x00\x02"),
    ("u32", b"\x01\x00\x03"),
    ("u64", b"\x01\x00\x04"),
    ("u128", b"\x01\x00\x05"),
    ("i8", b"\x01\x00\x06"),
    ("i16", b"\x01\x00\x07"),
    ("i32", b"\x01\x00\x08"),
    ("i64", b"\x01\x00\x09"),
    ("i128", b"\x01\x00\x0a"),
    ("f32", b"\x01\x00\x0b"),
    ("f64", b"\x01\x00\x0c"),
    ("char", b"\x01\x00\x0d"),
    ("str", b"\x01\x00\x0e"),
    ("bytes", b"\x01\x00\x0f"),
    ("LE<u16>", b"\x01\x00\x11"),
    ("LE<i128>", b"\x01\x00\x19"),
    ("BE<u16>", b"\x01\x00\x1b"),
    ("BE<i32>", b"\x01\x00\x21"),
    ("BE<i128>", b"\x01\x00\x23"),
    ("u8?", b"\x02\x01\x00\x01"),
    ("str??", b"\x03\x01\x01\x00\x0e"),
    ("[char]", b"\x02\x02\x00\x0d"),
    ("{u8 => str}", b"\x03\x03\x00\x01\x00\x0e"),
    ("{() => i8}", b"\x03\x03\x05\x00\x00\x06"),
    ("[bool; 0]", b"\x02\x04\x00\x00\x00"),
    ("[u16; 300]", b"\x02\x04\xac\x02\x00\x02"),
    (
        "[[u8; 32]; 18446744073709551615]",
        b"\x03\x04\xff\xff\xff\xff\xff\xff\xff\xff\xff\x01\x04\x20\x00\x01",
    ),
    ("()", b"\x01\x05\x00"),
    ("(u8,)", b"\x02\x05\x01\x00\x01"),
    (
        "((u8, u16), str)",
        b"\x05\x05\x02\x05\x02\x00\x01\x00\x02\x00\x0e",
    ),
    (
        "{id: u16, label: str}",
        b"\x03\x06\x02\x02id\x05label\x00\x02\x00\x0e",
    ),
    (
        "{at: {x: i16, y: i16}, samples: [f32]}",
        b"\x06\x06\x02\x02at\x07samples\x06\x02\x01x\x01y\x00\x07\x00\x07\x02\x00\x0b",
    ),
    ("| Boot", b"\x02\x07\x01\x04Boot\x05\x00"),
    (
        "Boot | Reading(u16, i32) | Fault{code: u8}",
        b"\x07\x07\x03\x04Boot\x07Reading\x05Fault\x05\x00\x05\x02\x00\x02\x00\x08\x06\x01\x04code\x00\x01",
    ),
    (
        "Result<u8, {code: i16}>",
        b"\x04\x07\x02\x02Ok\x03Err\x00\x01\x06\x01\x04code\x00\x07",
    ),
];

/// Returns the message of some nodes.
fn message(alloc: Global, nodes: &Vec<Node>) -> Result<Vec<u8>> {
    let mut serializer = Serializer {
        output: AllocVec::new(alloc),
    };
    nodes.serialize(&mut serializer)?;
    serializer.output.finalize()
}

/// Asserts that the nodes of a type have this message, and that it is read as the same type.
fn is_sent(rt: &(impl Abort + AllocGlobal), text: &str, wanted: &[u8]) {
    let schema = parse(rt.alloc(), text).expect(rt, text);
    let nodes = nodes_of(rt.alloc(), &schema).expect(rt, text);
    let message = message(rt.alloc(), &nodes).expect(rt, text);
    assert_eq!(rt; message.as_slice(), wanted, "{text}");
    let nodes: Vec<Node> = from_bytes(rt.alloc(), wanted).expect(rt, text);
    let back = schema_of(rt.alloc(), nodes).expect(rt, text);
    assert_eq!(rt; named_key(&back), named_key(&schema), "{text}");
}

#[test]
fn messages_of_types(rt: HostRuntime) {
    for (text, bytes) in &MESSAGES {
        is_sent(&rt, text, bytes);
    }
}

//! Tests of type expressions.

use crate::helpers::{check_type, nested};
use crate::same::same;
use postcard_schema_text::parse;
use std::process::Abort;

/// Expressions, each beside the schema that is read from it, printed by `Debug`.
const TYPES: [(&str, &str); 54] = [
    ("u8", "Leaf(Integer(U8))"),
    (" usize ", "Leaf(Integer(U64))"),
    ("u16??", "Option(Option(Leaf(Integer(U16))))"),
    (
        "u8????",
        "Option(Option(Option(Option(Leaf(Integer(U8))))))",
    ),
    ("[ i32 ]", "Seq(Leaf(Integer(I32)))"),
    ("[str; 12]", "Array(Leaf(Str), 12)"),
    ("()", "Tuple([])"),
    ("(bool)", "Leaf(Bool)"),
    ("(bool,)", "Tuple([Leaf(Bool)])"),
    ("(bool , char,)", "Tuple([Leaf(Bool), Leaf(Char)])"),
    (
        "{id:u8}",
        "Struct([Named { name: \"id\", content: Leaf(Integer(U8)) }])",
    ),
    (
        "{u8: i8, _x: (),}",
        "Struct([Named { name: \"u8\", content: Leaf(Integer(I8)) }, Named { name: \"_x\", \
         content: Tuple([]) }])",
    ),
    ("{str => bytes}", "Map(Leaf(Str), Leaf(Bytes))"),
    (
        "A|B",
        "Enum([Named { name: \"A\", content: Tuple([]) }, Named { name: \"B\", content: \
         Tuple([]) }])",
    ),
    (
        "|A(u8)",
        "Enum([Named { name: \"A\", content: Leaf(Integer(U8)) }])",
    ),
    (
        "Boot | Reading(u16, i32) | Fault{code: u8}",
        "Enum([Named { name: \"Boot\", content: Tuple([]) }, Named { name: \"Reading\", \
         content: Tuple([Leaf(Integer(U16)), Leaf(Integer(I32))]) }, Named { name: \
         \"Fault\", content: Struct([Named { name: \"code\", content: \
         Leaf(Integer(U8)) }]) }])",
    ),
    (
        "(A|B)?",
        "Option(Enum([Named { name: \"A\", content: Tuple([]) }, Named { name: \"B\", \
         content: Tuple([]) }]))",
    ),
    ("{() => u8}", "Map(Tuple([]), Leaf(Integer(U8)))"),
    ("[u8; 0]", "Array(Leaf(Integer(U8)), 0)"),
    ("(f32, f64)", "Tuple([Leaf(Float(F32)), Leaf(Float(F64))])"),
    ("Vec<u8>", "Seq(Leaf(Integer(U8)))"),
    ("Vec < Vec<u16> >", "Seq(Seq(Leaf(Integer(U16))))"),
    ("Option<u8>?", "Option(Option(Leaf(Integer(U8))))"),
    ("Box<str>", "Leaf(Str)"),
    ("BTreeMap<u8, bool>", "Map(Leaf(Integer(U8)), Leaf(Bool))"),
    (
        "HashMap<String, Vec<u8>>",
        "Map(Leaf(Str), Seq(Leaf(Integer(U8))))",
    ),
    (
        "Result<(), u8>",
        "Enum([Named { name: \"Ok\", content: Tuple([]) }, Named { name: \"Err\", content: \
         Leaf(Integer(U8)) }])",
    ),
    ("LE<u16>", "Leaf(Fixed(Little, U16))"),
    ("[BE < Box<isize> >]", "Seq(Leaf(Fixed(Big, I64)))"),
    (
        "LE | BE(LE<(i128)>)",
        "Enum([Named { name: \"LE\", content: Tuple([]) }, Named { name: \"BE\", content: \
         Leaf(Fixed(Little, I128)) }])",
    ),
    ("String", "Leaf(Str)"),
    ("[String; 2]", "Array(Leaf(Str), 2)"),
    (
        "{name: String, data: Option<Vec<u8>>}",
        "Struct([Named { name: \"name\", content: Leaf(Str) }, Named { name: \"data\", \
         content: Option(Seq(Leaf(Integer(U8)))) }])",
    ),
    (
        "Vec<A | B>",
        "Seq(Enum([Named { name: \"A\", content: Tuple([]) }, Named { name: \"B\", content: \
         Tuple([]) }]))",
    ),
    (
        "{Vec<u8>=>u8}",
        "Map(Seq(Leaf(Integer(U8))), Leaf(Integer(U8)))",
    ),
    (
        "String | Vec",
        "Enum([Named { name: \"String\", content: Tuple([]) }, Named { name: \"Vec\", \
         content: Tuple([]) }])",
    ),
    (
        "Vec(u8) | Option{a: u8}",
        "Enum([Named { name: \"Vec\", content: Leaf(Integer(U8)) }, Named { name: \
         \"Option\", content: Struct([Named { name: \"a\", content: \
         Leaf(Integer(U8)) }]) }])",
    ),
    (
        "{String: u8}",
        "Struct([Named { name: \"String\", content: Leaf(Integer(U8)) }])",
    ),
    ("&str", "Leaf(Str)"),
    ("&'a str", "Leaf(Str)"),
    ("&'static f32", "Leaf(Float(F32))"),
    ("& '_ bool", "Leaf(Bool)"),
    ("&[u8]", "Seq(Leaf(Integer(U8)))"),
    ("&'a[u16; 2]", "Array(Leaf(Integer(U16)), 2)"),
    ("& ' b2 [i8]", "Seq(Leaf(Integer(I8)))"),
    ("&&'a & u16", "Leaf(Integer(U16))"),
    ("&u8?", "Option(Leaf(Integer(U8)))"),
    ("&'a u8??", "Option(Option(Leaf(Integer(U8))))"),
    ("[&str]", "Seq(Leaf(Str))"),
    ("Option<&'a String>", "Option(Leaf(Str))"),
    (
        "&HashMap<&str, &[u16]>",
        "Map(Leaf(Str), Seq(Leaf(Integer(U16))))",
    ),
    (
        "&(A | B)",
        "Enum([Named { name: \"A\", content: Tuple([]) }, Named { name: \"B\", content: \
         Tuple([]) }])",
    ),
    (
        "A(&str) | B{x: &'a u8}",
        "Enum([Named { name: \"A\", content: Leaf(Str) }, Named { name: \"B\", content: \
         Struct([Named { name: \"x\", content: Leaf(Integer(U8)) }]) }])",
    ),
    (
        "&{name: &'a str, data: &'a [u8]}",
        "Struct([Named { name: \"name\", content: Leaf(Str) }, Named { name: \"data\", \
         content: Seq(Leaf(Integer(U8))) }])",
    ),
];

/// Texts that are no expressions, each beside the error as it is printed.
const REFUSED: [(&str, &str); 87] = [
    (
        "LE<i8>",
        "LE and BE hold u16 to u128 or i16 to i128 at character 4",
    ),
    (
        "[BE< u16?>]",
        "LE and BE hold u16 to u128 or i16 to i128 at character 6",
    ),
    ("LE", "unknown type at character 1"),
    ("BE<>", "expected a type at character 4"),
    ("LE<u16, u16>", "expected `>` at character 7"),
    ("", "expected a type at character 1"),
    ("  ", "expected a type at character 3"),
    ("u9", "unknown type at character 1"),
    ("f16", "unknown type at character 1"),
    ("U8", "unknown type at character 1"),
    ("(u8, Boot)", "unknown type at character 6"),
    ("list-u8", "unknown type at character 1"),
    ("u8 u8", "expected the end of the type at character 4"),
    ("u8 | u16", "expected the end of the type at character 4"),
    ("u8)", "expected the end of the type at character 3"),
    ("[u8", "expected `;` or `]` at character 4"),
    ("[u8, u8]", "expected `;` or `]` at character 4"),
    ("[u8; ]", "expected the count of an array at character 6"),
    ("[u8; x]", "expected the count of an array at character 6"),
    ("[u8; 2", "expected `]` at character 7"),
    (
        "[u8; 18446744073709551616]",
        "this count is too large at character 6",
    ),
    ("[]", "expected a type at character 2"),
    ("[()]", "elements of this type have no bytes at character 2"),
    (
        "[[u8; 0]; 3]",
        "elements of this type have no bytes at character 2",
    ),
    (
        "[{a: ()}]",
        "elements of this type have no bytes at character 2",
    ),
    (
        "{() => ()}",
        "elements of this type have no bytes at character 2",
    ),
    ("(u8", "expected `,` or `)` at character 4"),
    ("(u8 u8)", "expected `,` or `)` at character 5"),
    ("(,)", "expected a type at character 2"),
    ("{}", "expected a type at character 2"),
    ("{a: u8", "expected `,` or `}` at character 7"),
    ("{a: u8, b}", "expected `:` at character 10"),
    ("{a: u8, a: u8}", "this name was used before at character 9"),
    (
        "{a: u8, 2: u8}",
        "expected the name of a field at character 9",
    ),
    ("{a u8}", "expected `:` at character 4"),
    ("{id", "expected `:` at character 4"),
    ("{ id  u32}", "expected `:` at character 7"),
    ("{id = u32}", "expected `:` at character 5"),
    ("{Id u32}", "expected `:` at character 5"),
    ("{id => u32}", "unknown type at character 2"),
    ("{[id] => u32}", "unknown type at character 3"),
    ("{u8 u8}", "expected `=>` at character 5"),
    ("{u8, u8}", "expected `=>` at character 4"),
    ("{u8 => u8", "expected `}` at character 10"),
    ("A | ", "expected the name of a variant at character 5"),
    ("A | b", "expected the name of a variant at character 5"),
    ("A | B | A", "this name was used before at character 9"),
    ("A | B?", "expected the end of the type at character 6"),
    ("A | B(u8", "expected `,` or `)` at character 9"),
    ("u8?????", "nested too deeply at character 7"),
    (
        "(u8, \u{e9}\u{e9}, u9)",
        "expected a letter of ASCII, a digit or `_` at character 6",
    ),
    ("?", "expected a type at character 1"),
    (
        "Vec<()>",
        "elements of this type have no bytes at character 5",
    ),
    (
        "HashMap<(), ()>",
        "elements of this type have no bytes at character 9",
    ),
    ("Vec<u8", "expected `>` at character 7"),
    ("Vec<u8, u8>", "expected `>` at character 7"),
    ("Vec<>", "expected a type at character 5"),
    ("Result<u8>", "expected `,` at character 10"),
    ("Vec", "unknown type at character 1"),
    ("Vec(u8)", "unknown type at character 1"),
    ("Rc<u8>", "unknown type at character 1"),
    ("{Rc<u8> => u8}", "unknown type at character 2"),
    ("u8<u8>", "expected the end of the type at character 3"),
    ("A | Vec<u8>", "expected the end of the type at character 8"),
    ("&", "expected a type at character 2"),
    (" & ", "expected a type at character 4"),
    ("&)", "expected a type at character 2"),
    ("[&]", "expected a type at character 3"),
    ("&?", "expected a type at character 2"),
    ("&u9", "unknown type at character 2"),
    ("&mut u8", "unknown type at character 2"),
    ("&A | B", "unknown type at character 2"),
    ("&'", "expected the name of a lifetime at character 3"),
    ("&' [u8]", "expected the name of a lifetime at character 4"),
    ("&'1a u8", "expected the name of a lifetime at character 3"),
    (
        "[&'\u{e9} u8]",
        "expected a letter of ASCII, a digit or `_` at character 4",
    ),
    ("&'a", "expected a type at character 4"),
    ("&'astr", "expected a type at character 7"),
    ("&'a 'b u8", "expected a type at character 5"),
    ("'a str", "expected a type at character 1"),
    ("u8&", "expected the end of the type at character 3"),
    ("&str str", "expected the end of the type at character 6"),
    (
        "&[()]",
        "elements of this type have no bytes at character 3",
    ),
    ("&u8?????", "nested too deeply at character 8"),
    ("{&str}", "expected `=>` at character 6"),
    ("{&a: u8}", "unknown type at character 3"),
    ("Vec<&>", "expected a type at character 6"),
];

/// Returns the schema of a text, or its error, as it is printed.
fn printed(rt: &(impl Abort + AllocGlobal), text: &str) -> String {
    match parse(rt.alloc(), text) {
        Ok(schema) => format!(in rt.alloc(); "{schema:?}").expect(rt, text),
        Err(error) => format!(in rt.alloc(); "{error}").expect(rt, text),
    }
}

/// Asserts that each text is read as the schema, or refused with the error, that is printed so.
fn check(rt: &(impl Abort + AllocGlobal), rows: &[(&str, &str)]) {
    for (text, wanted) in rows {
        same(rt, printed(rt, text).as_str(), *wanted, *text);
    }
}

#[test]
fn reads_expressions(rt: HostRuntime) {
    check(&rt, &TYPES);
}

#[test]
fn refuses_expressions(rt: HostRuntime) {
    check(&rt, &REFUSED);
}

/// A type within 63 pairs of brackets is read, and within 64 it is refused.
#[test]
fn bounds_the_depth(rt: HostRuntime) {
    check_type(&rt, nested(&rt, 62, "u8").as_str(), true);
    check_type(&rt, nested(&rt, 63, "u8").as_str(), true);
    check_type(&rt, nested(&rt, 64, "u8").as_str(), false);
    check_type(&rt, nested(&rt, 200, "u8").as_str(), false);
}

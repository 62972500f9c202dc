//! Tests of files of declarations: the types that their names stand for, and the errors of files
//! that are refused.

use crate::helpers::same;
use postcard_source::{expression, find};
use std::process::Abort;

/// A file, a name, and the type that it stands for, printed by `Debug`, or the error as it is printed.
type Row<'a> = (&'a str, &'a str, &'a str);

const LONG_FILE: &str = "//! A file.
#![no_std]
use serde::{Deserialize, Serialize};

/// What a sensor sends. /* this is no comment
#[derive(Debug, Serialize)]
#[serde(rename = \"a]\")]
pub(crate) struct Reading {
    /* outer /* inner } */ outer */
    pub id: u32, // id: u8
    #[serde(default)]
    pub(super) is_new: bool,
}

impl Reading {
    fn text(&self) -> &'static str {
        let _brackets = ('{', b'\\'', \"}\\\"}\");
        \"struct Reading(u8);\"
    }
}

const SIZES: [usize; 2] = [1 / 2, 2];
mod other;
";

/// Files with declarations that are read.
const TYPES: [Row; 27] = [
    (
        "struct Gr\u{f6}\u{df}e(u8); struct A(Gr\u{f6}\u{df}e, \u{3bb}); type \u{3bb} = u16;
         impl A { ghost shape = { via (\u{3bb} v. v.0) \u{27e6}A\u{27e7} }; }",
        "A",
        "Tuple([Leaf(Integer(U8)), Leaf(Integer(U16))])",
    ),
    (
        "struct Reading { id: u32, label: String, samples: Vec<i16> }",
        "Reading",
        "Struct([Named { name: \"id\", content: Leaf(Integer(U32)) }, Named { name: \
         \"label\", content: Leaf(Str) }, Named { name: \"samples\", content: \
         Seq(Leaf(Integer(I16))) }])",
    ),
    (
        "struct Pair(u8, u16);",
        "Pair",
        "Tuple([Leaf(Integer(U8)), Leaf(Integer(U16))])",
    ),
    ("struct Unit;", "Unit", "Tuple([])"),
    ("struct Unit {}", "Unit", "Tuple([])"),
    ("struct Unit();", "Unit", "Tuple([])"),
    ("struct Metres(i32);", "Metres", "Leaf(Integer(I32))"),
    ("type Metres = i32;", "Metres", "Leaf(Integer(I32))"),
    (
        "enum Event { Boot, Reading(Reading), Fault { code: u8, text: String }, }
         struct Reading { id: u32 }",
        "Event",
        "Enum([Named { name: \"Boot\", content: Tuple([]) }, Named { name: \"Reading\", \
         content: Struct([Named { name: \"id\", content: Leaf(Integer(U32)) }]) }, Named { \
         name: \"Fault\", content: Struct([Named { name: \"code\", content: Leaf(Integer(U8)) \
         }, Named { name: \"text\", content: Leaf(Str) }]) }])",
    ),
    (
        "enum Level { Low = 1, High = -2 }",
        "Level",
        "Enum([Named { name: \"Low\", content: Tuple([]) }, Named { name: \"High\", content: \
         Tuple([]) }])",
    ),
    (
        "enum One { Only }",
        "One",
        "Enum([Named { name: \"Only\", content: Tuple([]) }])",
    ),
    (
        "enum Empty { A {}, B() }",
        "Empty",
        "Enum([Named { name: \"A\", content: Tuple([]) }, Named { name: \"B\", content: \
         Tuple([]) }])",
    ),
    (
        LONG_FILE,
        "Reading",
        "Struct([Named { name: \"id\", content: Leaf(Integer(U32)) }, Named { name: \
         \"is_new\", content: Leaf(Bool) }])",
    ),
    (
        "struct Log<'a> { text: &'a str, data: &'a [u8] }",
        "Log",
        "Struct([Named { name: \"text\", content: Leaf(Str) }, Named { name: \"data\", \
         content: Seq(Leaf(Integer(U8))) }])",
    ),
    (
        "type Both<'a> = (Log<'a, 'a>, u8); struct Log<'a, 'b>(&'a str, &'b str);",
        "Both",
        "Tuple([Tuple([Leaf(Str), Leaf(Str)]), Leaf(Integer(U8))])",
    ),
    (
        "struct A { a: std::string::String, b: crate::types::B, c: ::std::vec::Vec<B> } struct B(u8);",
        "A",
        "Struct([Named { name: \"a\", content: Leaf(Str) }, Named { name: \"b\", content: \
         Leaf(Integer(U8)) }, Named { name: \"c\", content: Seq(Leaf(Integer(U8))) }])",
    ),
    (
        "type Samples = [i16]; type State = Boot | Fault(u8); struct A(Samples, State?);",
        "A",
        "Tuple([Seq(Leaf(Integer(I16))), Option(Enum([Named { name: \"Boot\", content: \
         Tuple([]) }, Named { name: \"Fault\", content: Leaf(Integer(U8)) }]))])",
    ),
    (
        "enum A { B(B), C } struct B(u8);",
        "A",
        "Enum([Named { name: \"B\", content: Leaf(Integer(U8)) }, Named { name: \"C\", \
         content: Tuple([]) }])",
    ),
    (
        "struct A { a: [B; 2], b: BTreeMap<u8, B>, c: Result<B, ()>, d: Option<Box<B>> } type B = u16;",
        "A",
        "Struct([Named { name: \"a\", content: Array(Leaf(Integer(U16)), 2) }, Named { name: \
         \"b\", content: Map(Leaf(Integer(U8)), Leaf(Integer(U16))) }, Named { name: \"c\", \
         content: Enum([Named { name: \"Ok\", content: Leaf(Integer(U16)) }, Named { name: \
         \"Err\", content: Tuple([]) }]) }, Named { name: \"d\", content: \
         Option(Leaf(Integer(U16))) }])",
    ),
    (
        "struct A { B: B } struct B(bool);",
        "A",
        "Struct([Named { name: \"B\", content: Leaf(Bool) }])",
    ),
    (
        "pub struct A(pub u8, pub(crate) u16);",
        "A",
        "Tuple([Leaf(Integer(U8)), Leaf(Integer(U16))])",
    ),
    (
        "struct A(B, B); struct B(C, C); struct C(u8, u8);",
        "A",
        "Tuple([Tuple([Tuple([Leaf(Integer(U8)), Leaf(Integer(U8))]), \
         Tuple([Leaf(Integer(U8)), Leaf(Integer(U8))])]), Tuple([Tuple([Leaf(Integer(U8)), \
         Leaf(Integer(U8))]), Tuple([Leaf(Integer(U8)), Leaf(Integer(U8))])])])",
    ),
    (
        "struct A { a: LE<u16>, b: postcard::fixint::BE<B> } type B = i32;",
        "A",
        "Struct([Named { name: \"a\", content: Leaf(Fixed(Little, U16)) }, Named { name: \
         \"b\", content: Leaf(Fixed(Big, I32)) }])",
    ),
    ("struct A(u8); struct B<T>(T);", "A", "Leaf(Integer(U8))"),
    ("struct A(u8); struct B(u9);", "A", "Leaf(Integer(U8))"),
    (
        "struct A(pub (u8, u8));",
        "A",
        "Tuple([Leaf(Integer(U8)), Leaf(Integer(U8))])",
    ),
    (
        "struct A{a:u8,b:u8,}struct B;",
        "A",
        "Struct([Named { name: \"a\", content: Leaf(Integer(U8)) }, Named { name: \"b\", \
         content: Leaf(Integer(U8)) }])",
    ),
];

/// Files in which something is wrong.
const REFUSED: [Row; 43] = [
    ("", "A", "line 1, column 1: no declaration has the name"),
    (
        "struct B;\n",
        "A",
        "line 2, column 1: no declaration has the name",
    ),
    (
        "struct A { b: u8",
        "A",
        "line 1, column 10: this bracket isn't closed",
    ),
    ("struct A { b: u9 }", "A", "line 1, column 15: unknown type"),
    (
        "struct A {\n    b: Vec<C>,\n}",
        "A",
        "line 2, column 12: unknown type",
    ),
    (
        "// \u{e9}\nstruct A(u9);",
        "A",
        "line 2, column 10: unknown type",
    ),
    (
        "/* \u{e9} */ struct A(u9);",
        "A",
        "line 1, column 18: unknown type",
    ),
    ("struct A { b u8 }", "A", "line 1, column 14: expected `:`"),
    (
        "struct A { b: u8 c: u8 }",
        "A",
        "line 1, column 18: expected `,` or `}`",
    ),
    (
        "struct A { b: heapless::Vec<u8, 4> }",
        "A",
        "line 1, column 31: a parameter such as a capacity isn't supported",
    ),
    (
        "struct A(String<4>);",
        "A",
        "line 1, column 16: a parameter such as a capacity isn't supported",
    ),
    (
        "type A = [String<4>; 2];",
        "A",
        "line 1, column 17: a parameter such as a capacity isn't supported",
    ),
    (
        "struct A(HashMap<u8, u8, S>);",
        "A",
        "line 1, column 24: a parameter such as a capacity isn't supported",
    ),
    (
        "struct A(Vec<u8 u8>);",
        "A",
        "line 1, column 17: expected `>`",
    ),
    (
        "struct A { b: u8, b: u8 }",
        "A",
        "line 1, column 19: this name was used before",
    ),
    (
        "struct A { b: A }",
        "A",
        "line 1, column 15: this type has itself in it",
    ),
    (
        "struct A(Vec<B>); struct B { a: Option<A> }",
        "A",
        "line 1, column 40: this type has itself in it",
    ),
    (
        "type A = A;",
        "A",
        "line 1, column 10: this type has itself in it",
    ),
    (
        "struct A; struct A;",
        "A",
        "line 1, column 18: this name was declared before",
    ),
    (
        "struct A<T> { b: T }",
        "A",
        "line 1, column 9: types with parameters aren't supported",
    ),
    (
        "enum A {}",
        "A",
        "line 1, column 9: expected the name of a variant",
    ),
    (
        "enum A { b }",
        "A",
        "line 1, column 10: expected the name of a variant",
    ),
    (
        "enum A { B C }",
        "A",
        "line 1, column 12: expected `,` or `)`",
    ),
    (
        "enum A { B, B }",
        "A",
        "line 1, column 13: this name was used before",
    ),
    ("enum A;", "A", "line 1, column 7: expected `{`"),
    (
        "struct A where u8: B { }",
        "A",
        "line 1, column 10: expected `{`, `(` or `;`",
    ),
    ("type A u8;", "A", "line 1, column 8: expected `=`"),
    (
        "type A = u8",
        "A",
        "line 1, column 1: this declaration doesn't end",
    ),
    (
        "type A = {u8 => u8}",
        "A",
        "line 1, column 20: expected `;`",
    ),
    (
        "struct /* A;",
        "A",
        "line 1, column 8: this comment isn't closed",
    ),
    (
        "const A: &str = \"b;",
        "A",
        "line 1, column 17: this literal isn't closed",
    ),
    (
        "struct A { \u{e9}: u8 }",
        "A",
        "line 1, column 12: expected a letter of ASCII, a digit or `_`",
    ),
    (
        "struct A; }",
        "A",
        "line 1, column 11: no bracket is open here",
    ),
    (
        "struct A(u8];",
        "A",
        "line 1, column 12: expected `,` or `)`",
    ),
    (
        "# struct A;",
        "A",
        "line 1, column 12: no declaration has the name",
    ),
    (
        "#[a struct A;",
        "A",
        "line 1, column 2: this bracket isn't closed",
    ),
    ("struct { }", "A", "line 1, column 8: expected a name"),
    (
        "struct A { b: [(); 2] }",
        "A",
        "line 1, column 16: elements of this type have no bytes",
    ),
    (
        "struct A { b: [u8; N] }",
        "A",
        "line 1, column 20: expected the count of an array",
    ),
    (
        "struct A { b: &mut u8 }",
        "A",
        "line 1, column 16: unknown type",
    ),
    ("struct A { b: }", "A", "line 1, column 15: expected a type"),
    ("struct A(Vec<u8);", "A", "line 1, column 16: expected `>`"),
    (
        "struct A { : u8 }",
        "A",
        "line 1, column 12: expected a type",
    ),
];

/// Returns the type that a name of a file stands for, or the error, as it is printed.
fn printed(rt: &(impl Abort + AllocGlobal), file: &str, name: &str) -> String {
    match find(rt.alloc(), file, name) {
        Ok(schema) => format!(in rt.alloc(); "{schema:?}").expect(rt, name),
        Err(error) => format!(in rt.alloc(); "{error}").expect(rt, name),
    }
}

/// Asserts that each name stands for the type, or is refused with the error, that is printed so.
fn check(rt: &(impl Abort + AllocGlobal), rows: &[Row]) {
    for (file, name, wanted) in rows {
        same(rt, printed(rt, file, name).as_str(), *wanted, file);
    }
}

#[test]
fn reads_declarations(rt: HostRuntime) {
    check(&rt, &TYPES);
}

#[test]
fn refuses_files(rt: HostRuntime) {
    check(&rt, &REFUSED);
}

/// The type of a name may be given as a type expression, too.
#[test]
fn spells_types(rt: HostRuntime) {
    let file = "struct A { a: B, b: [&'static str; 2] } enum B { C, D(u8) }";
    let text = expression(rt.alloc(), file, "A").expect(&rt, "A");
    let wanted = "{ a : (| C | D ( u8 ) ) , b : [ & str ; 2 ] } ";
    same(&rt, text.as_str(), wanted, "A");
}

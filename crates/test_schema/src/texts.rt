//! The type expressions of schemas, and the schemas that have none.

use crate::asserts::prints;
use crate::built::{boxed, named};
use postcard_schema::{ByteOrder, Integer, Leaf, Schema};
use postcard_schema_text::{TextError, parse, schema_text};
use std::process::Abort;

/// Expressions, and the text of the type that each denotes.
const TEXTS: [(&str, &str); 23] = [
    ("u8", "u8"),
    ("usize", "u64"),
    ("String", "str"),
    ("f64", "f64"),
    ("bytes", "bytes"),
    ("LE<u16>", "LE<u16>"),
    ("BE< i128 >", "BE<i128>"),
    ("u8?", "Option<u8>"),
    ("str??", "Option<Option<str>>"),
    ("&'a [&str]", "[str]"),
    ("Vec<char>", "[char]"),
    ("[bool; 0x10]", "[bool;16]"),
    ("[u8; 18446744073709551615]", "[u8;18446744073709551615]"),
    ("()", "()"),
    ("(u8)", "u8"),
    ("(u8,)", "(u8,)"),
    ("(u8, (u16, str))", "(u8,(u16,str,),)"),
    ("{id: u16, label: str}", "{id:u16,label:str,}"),
    ("BTreeMap<u8, [i32]>", "{u8=>[i32]}"),
    ("{() => bool?}", "{()=>Option<bool>}"),
    ("| Boot", "(|Boot(()))"),
    (
        "Boot | Reading(u16, i32) | Text(str) | Place{x: i8, y_2: i8}",
        "(|Boot(())|Reading((u16,i32,))|Text(str)|Place({x:i8,y_2:i8,}))",
    ),
    ("[Result<u8, {code: i16}>]", "[(|Ok(u8)|Err({code:i16,}))]"),
];

/// Names that no field has in an expression.
const FIELDS: [&str; 7] = ["", "1st", "a b", "a:u8,b", "a}", "é", "A-1"];

/// Names that no variant has in an expression.
const VARIANTS: [&str; 7] = ["", "boot", "_Boot", "1", "Boot()|Off", "Boot(", "Ä"];

/// The reasons, and their texts.
const REASONS: [(TextError, &str); 7] = [
    (TextError::Name, "a type expression can't have this name"),
    (TextError::NameTwice, "two fields or variants have one name"),
    (
        TextError::Empty,
        "a struct without fields or an enum without variants",
    ),
    (TextError::NoBytes, "elements of this type have no bytes"),
    (
        TextError::NarrowNumber,
        "LE and BE hold u16 to u128 or i16 to i128",
    ),
    (TextError::TooDeep, "nested too deeply"),
    (TextError::OutOfMemory, "out of memory"),
];

fn has_text(rt: &(impl Abort + AllocGlobal), schema: &Schema, wanted: &str) {
    let text = schema_text(rt.alloc(), schema).expect(rt, wanted);
    assert_eq!(rt; text.as_str(), wanted);
}

fn is_refused(rt: &(impl Abort + AllocGlobal), schema: &Schema, wanted: TextError, what: &str) {
    let found = schema_text(rt.alloc(), schema).err();
    assert_eq!(rt; found, Some(wanted), "{what}");
}

fn byte() -> Schema {
    Schema::Leaf(Leaf::Integer(Integer::U8))
}

fn unit(rt: &impl AllocGlobal) -> Schema {
    Schema::Tuple(Vec::new(rt.alloc()))
}

#[test]
fn texts_of_types(rt: HostRuntime) {
    for (expression, wanted) in &TEXTS {
        let schema = parse(rt.alloc(), expression).expect(&rt, expression);
        has_text(&rt, &schema, wanted);
        let back = parse(rt.alloc(), wanted).expect(&rt, wanted);
        has_text(&rt, &back, wanted);
    }
}

/// Returns a struct of bytes with these names.
fn fields(rt: &(impl Abort + AllocGlobal), names: &[&str]) -> Schema {
    let mut fields = Vec::new(rt.alloc());
    for name in names {
        fields.push(named(rt, name, byte())).expect(rt, name);
    }
    Schema::Struct(fields)
}

/// Returns an enum with these variants, each of a byte.
fn variants(rt: &(impl Abort + AllocGlobal), names: &[&str]) -> Schema {
    let mut variants = Vec::new(rt.alloc());
    for name in names {
        variants.push(named(rt, name, byte())).expect(rt, name);
    }
    Schema::Enum(variants)
}

#[test]
fn names_without_a_text(rt: HostRuntime) {
    for name in &FIELDS {
        is_refused(&rt, &fields(&rt, &["a", *name]), TextError::Name, name);
    }
    for name in &VARIANTS {
        is_refused(&rt, &variants(&rt, &["A", *name]), TextError::Name, name);
    }
    let twice = TextError::NameTwice;
    is_refused(&rt, &fields(&rt, &["a", "b", "a"]), twice, "fields");
    is_refused(&rt, &variants(&rt, &["A", "B", "B"]), twice, "variants");
    is_refused(&rt, &fields(&rt, &[]), TextError::Empty, "no fields");
    is_refused(&rt, &variants(&rt, &[]), TextError::Empty, "no variants");
}

#[test]
fn types_without_a_text(rt: HostRuntime) {
    let none = TextError::NoBytes;
    is_refused(&rt, &Schema::Seq(boxed(&rt, unit(&rt))), none, "a list");
    is_refused(
        &rt,
        &Schema::Array(boxed(&rt, unit(&rt)), 3),
        none,
        "an array",
    );
    let map = Schema::Map(boxed(&rt, unit(&rt)), boxed(&rt, unit(&rt)));
    is_refused(&rt, &map, none, "a map");
    let empty = Schema::Array(boxed(&rt, byte()), 0);
    has_text(&rt, &empty, "[u8;0]");
    is_refused(
        &rt,
        &Schema::Seq(boxed(&rt, empty)),
        none,
        "a list of empty arrays",
    );
    let narrow = TextError::NarrowNumber;
    let low = Schema::Leaf(Leaf::Fixed(ByteOrder::Little, Integer::U8));
    is_refused(&rt, &low, narrow, "LE<u8>");
    let high = Schema::Leaf(Leaf::Fixed(ByteOrder::Big, Integer::I8));
    is_refused(&rt, &Schema::Option(boxed(&rt, high)), narrow, "BE<i8>?");
}

/// Returns `levels` options of a type.
fn options(rt: &(impl Abort + AllocGlobal), levels: usize, content: Schema) -> Schema {
    let mut schema = content;
    for _ in 0..levels {
        schema = Schema::Option(boxed(rt, schema));
    }
    schema
}

/// Tests types of 64 and 65 levels. `LE<u16>` has two, and `A(u8)` has three.
#[test]
fn levels(rt: HostRuntime) {
    let wide = Leaf::Fixed(ByteOrder::Little, Integer::U16);
    for (levels, content, wanted) in [
        (63, byte(), None),
        (64, byte(), Some(TextError::TooDeep)),
        (62, Schema::Leaf(wide), None),
        (63, Schema::Leaf(wide), Some(TextError::TooDeep)),
        (61, variants(&rt, &["A"]), None),
        (62, variants(&rt, &["A"]), Some(TextError::TooDeep)),
        (1_000, byte(), Some(TextError::TooDeep)),
    ] {
        let schema = options(&rt, levels, content);
        let found = schema_text(rt.alloc(), &schema).err();
        assert_eq!(rt; found, wanted, "{levels} options");
    }
}

#[test]
fn reasons(rt: HostRuntime) {
    for (reason, printed) in &REASONS {
        prints(&rt, reason, printed);
    }
}

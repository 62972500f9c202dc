//! Tests of reading and printing the texts of values.

use crate::helpers::{check_text, check_texts, type_of, value_of};
use crate::same::same;
use postcard_value::Value;
use std::process::Abort;

/// Types, each beside the text of a value as it is printed.
const PRINTED: [(&str, &str); 30] = [
    ("u8", "255"),
    ("i128", "-170141183460469231731687303715884105728"),
    ("bool", "true"),
    ("char", "'x'"),
    ("char", "'\\''"),
    ("char", "'\u{e9}'"),
    ("char", "'\u{20ac}'"),
    ("char", "'\u{1f600}'"),
    ("str", "\"\""),
    ("str", "\"a \\\"b\\\" \\\\ \\n\\r\\t\\0 \u{fc}\""),
    ("str", "\"\\u{1b}\""),
    ("bytes", "0x"),
    ("bytes", "0x00ff7f"),
    ("u8?", "None"),
    ("u8??", "Some(Some(1))"),
    ("u8??", "Some(None)"),
    ("()", "()"),
    ("(u8,)", "(1,)"),
    ("(u8, (i8, bool))", "(1, (-2, false))"),
    ("[u8]", "[]"),
    ("[[u8]; 2]", "[[1], [2, 3]]"),
    (
        "{id: u32, label: str, samples: [i16]}",
        "{id: 42, label: \"x\", samples: [1, -2]}",
    ),
    ("{u8 => str?}", "{1 => Some(\"a\"), 1 => None}"),
    ("{u8 => u8}", "{}"),
    ("Boot | Reading(u16, i32) | Fault{code: u8}", "Boot"),
    (
        "Boot | Reading(u16, i32) | Fault{code: u8}",
        "Reading(1, -2)",
    ),
    (
        "Boot | Reading(u16, i32) | Fault{code: u8}",
        "Fault{code: 7}",
    ),
    ("|One(u8)", "One(1)"),
    ("|One({u8 => u8})", "One({1 => 2})"),
    ("[A | B(u8?)]", "[A, B(None), B(Some(3))]"),
];

/// Types and texts, each beside the text that is printed of the value.
const READ: [(&str, &str, &str); 27] = [
    ("u8", " +7 ", "7"),
    ("i8", "-0", "0"),
    ("u8", "0x2a", "42"),
    ("u8", " +0x0Ff ", "255"),
    ("u16", "0xBEEF", "48879"),
    (
        "u128",
        "0xffffffffffffffffffffffffffffffff",
        "340282366920938463463374607431768211455",
    ),
    ("i8", "-0x80", "-128"),
    ("i16", "-0x0", "0"),
    ("i64", "0x7fffffffffffffff", "9223372036854775807"),
    (
        "i128",
        "-0x80000000000000000000000000000000",
        "-170141183460469231731687303715884105728",
    ),
    (
        "[(u8, bytes)]",
        "[(0x10, 0x10), (16, 0x)]",
        "[(16, 0x10), (16, 0x)]",
    ),
    ("str", "\"\\u{41}\\'\"", "\"A'\""),
    ("str", "\"\\u{000041}\"", "\"A\""),
    ("char", "'\\u{E9}'", "'\u{e9}'"),
    ("char", "'\\u{20ac}'", "'\u{20ac}'"),
    ("char", "'\\u{1F600}'", "'\u{1f600}'"),
    ("char", "'\"'", "'\"'"),
    ("[u8]", "[ 1 ,2, ]", "[1, 2]"),
    ("(u8,u8)", "( 1,2 , )", "(1, 2)"),
    ("bytes", "0xABcd", "0xabcd"),
    ("{a: u8}", "{ a : 1 , }", "{a: 1}"),
    (
        "{id: u32, label: str}",
        "{\"id\": 42, \"label\": \"x\"}",
        "{id: 42, label: \"x\"}",
    ),
    ("{a: u8, b: u8}", "{ \"a\" : 1, b: 2}", "{a: 1, b: 2}"),
    ("A{x: u8} | B", "A{\"x\": 0x7}", "A{x: 7}"),
    ("{u8 => u8}", "{1=>2,}", "{1 => 2}"),
    ("A|B(u8)", " B ( 2 )", "B(2)"),
    ("u8?", "Some (3)", "Some(3)"),
];

/// Types and texts that are no value of the type, each beside the error as it is printed.
const REFUSED: [(&str, &str, &str); 57] = [
    (
        "u8",
        "256",
        "bad value at character 1: expected a number of u8, 0 to 255",
    ),
    (
        "u8",
        "0x100",
        "bad value at character 1: expected a number of u8, 0 to 255",
    ),
    (
        "u8",
        "0x",
        "bad value at character 1: expected a number of u8, 0 to 255",
    ),
    (
        "u8",
        "2a",
        "bad value at character 1: expected a number of u8, 0 to 255",
    ),
    (
        "u8",
        "0X2a",
        "bad value at character 1: expected a number of u8, 0 to 255",
    ),
    (
        "u8",
        "0x+2a",
        "bad value at character 1: expected a number of u8, 0 to 255",
    ),
    (
        "u8",
        "-0x2a",
        "bad value at character 1: expected a number of u8, 0 to 255",
    ),
    (
        "u8",
        "1.5",
        "bad value at character 1: expected a number of u8, 0 to 255",
    ),
    (
        "i8",
        "0x80",
        "bad value at character 1: expected a number of i8, -128 to 127",
    ),
    (
        "i8",
        "-0x81",
        "bad value at character 1: expected a number of i8, -128 to 127",
    ),
    (
        "u128",
        "0x100000000000000000000000000000000",
        "bad value at character 1: expected a number of u128, 0 to 2^128 - 1",
    ),
    (
        "u8",
        "",
        "bad value at character 1: expected a number of u8, 0 to 255",
    ),
    ("u8", "1 2", "bad value at character 3: expected the end"),
    (
        "bool",
        "yes",
        "bad value at character 1: expected `true` or `false`",
    ),
    (
        "char",
        "'ab'",
        "bad value at character 1: expected a character in single quotes",
    ),
    (
        "char",
        "''",
        "bad value at character 1: expected a character in single quotes",
    ),
    ("str", "\"a", "bad value at character 3: expected `\"`"),
    (
        "str",
        "\"\\q\"",
        "bad value at character 3: expected an escape, as `n` or `u{e9}`",
    ),
    (
        "str",
        "\"\\u{d800}\"",
        "bad value at character 4: expected the code of a character, as `{e9}`",
    ),
    (
        "str",
        "\"\\u{110000}\"",
        "bad value at character 4: expected the code of a character, as `{e9}`",
    ),
    (
        "str",
        "\"\\u{}\"",
        "bad value at character 4: expected the code of a character, as `{e9}`",
    ),
    (
        "char",
        "'\\u{}'",
        "bad value at character 4: expected the code of a character, as `{e9}`",
    ),
    (
        "str",
        "\"\\u{0000041}\"",
        "bad value at character 4: expected the code of a character, as `{e9}`",
    ),
    (
        "str",
        "\"\\u{4g}\"",
        "bad value at character 4: expected the code of a character, as `{e9}`",
    ),
    (
        "str",
        "\"\\u41\"",
        "bad value at character 4: expected the code of a character, as `{e9}`",
    ),
    (
        "str",
        "\"\\u{41",
        "bad value at character 7: expected the code of a character, as `{e9}`",
    ),
    (
        "str",
        "\"\u{e9}\u{20ac}\u{1f600}\\q\"",
        "bad value at character 6: expected an escape, as `n` or `u{e9}`",
    ),
    (
        "str",
        "\"\u{e9}\u{20ac}\u{1f600}\\u{}\"",
        "bad value at character 7: expected the code of a character, as `{e9}`",
    ),
    (
        "str",
        "\"\u{1f600}",
        "bad value at character 3: expected `\"`",
    ),
    (
        "char",
        "'\u{e9}\u{20ac}'",
        "bad value at character 1: expected a character in single quotes",
    ),
    (
        "bytes",
        "0x123",
        "bad value at character 1: expected bytes, as 0x00ff",
    ),
    (
        "bytes",
        "12",
        "bad value at character 1: expected bytes, as 0x00ff",
    ),
    (
        "bytes",
        "0x0g",
        "bad value at character 1: expected bytes, as 0x00ff",
    ),
    (
        "u8?",
        "7",
        "bad value at character 1: expected `None` or `Some`",
    ),
    ("u8?", "Some 7", "bad value at character 6: expected `(`"),
    ("(u8, u8)", "(1)", "bad value at character 3: expected `,`"),
    (
        "(u8, u8)",
        "(1, 2, 3)",
        "bad value at character 8: expected `)`",
    ),
    (
        "[u8; 2]",
        "[1]",
        "bad value at character 2: expected 2 elements",
    ),
    (
        "{a: u8}",
        "{b: 1}",
        "bad value at character 2: expected field `a`",
    ),
    (
        "{a: u8}",
        "{\"b\": 1}",
        "bad value at character 2: expected field `a`",
    ),
    (
        "{a: u8}",
        "{\"a: 1}",
        "bad value at character 2: expected field `a`",
    ),
    (
        "{a: u8}",
        "{\"a \": 1}",
        "bad value at character 2: expected field `a`",
    ),
    (
        "{a: u8}",
        "{'a': 1}",
        "bad value at character 2: expected field `a`",
    ),
    (
        "{a: u8}",
        "{\"a\" 1}",
        "bad value at character 6: expected `:`",
    ),
    (
        "{u8 => u8}",
        "{1: 2}",
        "bad value at character 3: expected `=>`",
    ),
    (
        "A|B",
        "C",
        "bad value at character 1: expected a variant of the enum",
    ),
    (
        "(str, u8)",
        "(\"\u{e9}\u{e9}\", x)",
        "bad value at character 8: expected a number of u8, 0 to 255",
    ),
    (
        "{id: u32, label: str}",
        "{id: 42}",
        "bad value at character 8: expected `,` and field `label`",
    ),
    (
        "{id: u32, label: str}",
        "{label: \"x\"}",
        "bad value at character 2: expected field `id`",
    ),
    (
        "{id: u32, label: str}",
        "{id 42}",
        "bad value at character 5: expected `:`",
    ),
    (
        "{id: u32, label: str}",
        "{id: 42, x: 1}",
        "bad value at character 10: expected field `label`",
    ),
    ("{a: u8}", "(1)", "bad value at character 1: expected `{`"),
    (
        "{a: u8}",
        "{a: 1; }",
        "bad value at character 6: expected `}`",
    ),
    (
        "[u8]",
        "[1 2]",
        "bad value at character 4: expected `,` or `]`",
    ),
    (
        "{u8 => u8}",
        "{1 => 2",
        "bad value at character 8: expected `,` or `}`",
    ),
    (
        "str",
        "x",
        "bad value at character 1: expected a text in double quotes",
    ),
    (
        "i64",
        "x",
        "bad value at character 1: expected a number of i64, -2^63 to 2^63 - 1",
    ),
];

/// Quoted strings with characters of two, three and four bytes of UTF-8, as themselves and as
/// escapes. Each stands with the bytes of the string, and the text as it is printed.
const CHARACTERS: [(&str, &[u8], &str); 7] = [
    ("\"\u{e9}\"", b"\xc3\xa9", "\"\u{e9}\""),
    ("\"\\u{e9}\"", b"\xc3\xa9", "\"\u{e9}\""),
    ("\"\u{20ac}\"", b"\xe2\x82\xac", "\"\u{20ac}\""),
    ("\"\\u{20AC}\"", b"\xe2\x82\xac", "\"\u{20ac}\""),
    ("\"\u{1f600}\"", b"\xf0\x9f\x98\x80", "\"\u{1f600}\""),
    ("\"\\u{01F600}\"", b"\xf0\x9f\x98\x80", "\"\u{1f600}\""),
    (
        "\"a\u{fc}\\n\\u{6f22}\u{1d11e}\\\\\"",
        b"a\xc3\xbc\n\xe6\xbc\xa2\xf0\x9d\x84\x9e\\",
        "\"a\u{fc}\\n\u{6f22}\u{1d11e}\\\\\"",
    ),
];

#[test]
fn prints_what_it_reads(rt: HostRuntime) {
    for (kind, text) in &PRINTED {
        check_text(&rt, kind, text, text);
    }
}

#[test]
fn reads_other_texts(rt: HostRuntime) {
    check_texts(&rt, &READ);
}

#[test]
fn refuses_texts(rt: HostRuntime) {
    check_texts(&rt, &REFUSED);
}

/// Asserts that the quoted text is read as the string with these bytes.
fn check_bytes(rt: &(impl Abort + AllocGlobal), text: &str, bytes: &[u8]) {
    let value = value_of(rt, &type_of(rt, "str"), text);
    match &value {
        Value::Str(held) => same(rt, held.as_bytes(), bytes, text),
        _ => panic!(rt; "{text} is no text"),
    }
}

#[test]
fn reads_characters_outside_ascii(rt: HostRuntime) {
    for (text, bytes, printed) in &CHARACTERS {
        check_bytes(&rt, text, bytes);
        check_text(&rt, "str", text, printed);
    }
}

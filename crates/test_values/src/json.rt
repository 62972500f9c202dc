//! Tests of the JSON of values: written, read, and refused.

use crate::helpers::{text_of, type_of, value_of};
use crate::same::same;
use postcard_value_json::{json_text, to_json};
use postcard_value_json_read::{from_json, read_json};
use serde_json::Value as Json;
use std::process::Abort;

/// Types, each beside the text of a value and its JSON.
const WRITTEN: [(&str, &str, &str); 42] = [
    ("bool", "true", "true"),
    ("u8", "255", "255"),
    ("i8", "-128", "-128"),
    ("u64", "9007199254740991", "9007199254740991"),
    ("u64", "9007199254740992", "\"9007199254740992\""),
    ("i64", "-9007199254740991", "-9007199254740991"),
    ("i64", "-9007199254740992", "\"-9007199254740992\""),
    (
        "u128",
        "340282366920938463463374607431768211455",
        "\"340282366920938463463374607431768211455\"",
    ),
    ("i128", "0", "0"),
    ("f64", "1.5", "1.5"),
    ("f64", "-0.0", "-0.0"),
    ("f64", "5e-324", "5e-324"),
    ("f32", "0.1", "0.10000000149011612"),
    ("f32", "inf", "\"inf\""),
    ("f64", "-inf", "\"-inf\""),
    ("f32", "nan", "\"nan\""),
    ("f32", "nan(0x7fc00001)", "\"nan(0x7fc00001)\""),
    ("f64", "nan", "\"nan\""),
    ("char", "'\u{20ac}'", "\"\u{20ac}\""),
    ("str", "\"a \\\"b\\\"\"", "\"a \\\"b\\\"\""),
    ("bytes", "0x00ff7f", "\"00ff7f\""),
    ("bytes", "0x", "\"\""),
    ("u8?", "None", "null"),
    ("u8?", "Some(1)", "1"),
    ("u8??", "None", "null"),
    ("u8??", "Some(None)", "{\"Some\":null}"),
    ("u8??", "Some(Some(1))", "{\"Some\":1}"),
    ("()?", "Some(())", "{\"Some\":null}"),
    ("()", "()", "null"),
    ("(u8,)", "(1,)", "[1]"),
    ("(u8, (i8, bool))", "(1, (-2, false))", "[1,[-2,false]]"),
    ("[u8]", "[]", "[]"),
    ("[[u8]; 2]", "[[1], [2, 3]]", "[[1],[2,3]]"),
    (
        "{id: u32, label: str, samples: [i16]}",
        "{id: 42, label: \"x\", samples: [1, -2]}",
        "{\"id\":42,\"label\":\"x\",\"samples\":[1,-2]}",
    ),
    ("{b: u8, a: u8}", "{b: 1, a: 2}", "{\"a\":2,\"b\":1}"),
    (
        "{u8 => str?}",
        "{1 => Some(\"a\"), 1 => None}",
        "[[1,\"a\"],[1,null]]",
    ),
    (
        "{str => u8}",
        "{\"b\" => 1, \"a\" => 2}",
        "[[\"b\",1],[\"a\",2]]",
    ),
    ("{u8 => u8}", "{}", "[]"),
    (
        "Boot | Reading(u16, i32) | Fault{code: u8}",
        "Boot",
        "\"Boot\"",
    ),
    (
        "Boot | Reading(u16, i32) | Fault{code: u8}",
        "Reading(1, -2)",
        "{\"Reading\":[1,-2]}",
    ),
    (
        "Boot | Reading(u16, i32) | Fault{code: u8}",
        "Fault{code: 7}",
        "{\"Fault\":{\"code\":7}}",
    ),
    (
        "[A | B(u8?)]",
        "[A, B(None), B(Some(3))]",
        "[\"A\",{\"B\":null},{\"B\":3}]",
    ),
];

/// Types and JSON, each beside the text of the value, or the error as it is printed.
const READ: [(&str, &str, &str); 42] = [
    ("u8", "\"7\"", "7"),
    ("i64", "\"-12\"", "-12"),
    ("u64", "9007199254740993", "9007199254740993"),
    ("u64", "18446744073709551615", "18446744073709551615"),
    ("bytes", "\"ABcd\"", "0xabcd"),
    ("f64", "3", "3.0"),
    ("f64", "\"1.5\"", "1.5"),
    ("f32", "0.1", "0.1"),
    ("f32", "1e300", "inf"),
    ("{a: u8, b: u8}", "{\"b\":2,\"a\":1}", "{a: 1, b: 2}"),
    ("u8", "256", "expected u8"),
    ("u8", "-1", "expected u8"),
    ("u8", "1.5", "expected u8"),
    ("u8", "1.0", "expected u8"),
    ("i8", "128", "expected i8"),
    ("i8", "-129", "expected i8"),
    ("u64", "18446744073709551616", "expected u64"),
    ("u8", "true", "expected u8"),
    ("bool", "1", "expected bool"),
    ("f64", "\"\"", "expected f64"),
    ("f64", "null", "expected f64"),
    ("char", "\"ab\"", "expected char"),
    ("char", "\"\"", "expected char"),
    ("bytes", "\"abc\"", "expected bytes"),
    ("bytes", "\"0g\"", "expected bytes"),
    ("{a: u8, b: u8}", "{\"a\":1}", "b: missing member"),
    ("u8??", "{\"Some\":256}", "Some: expected u8"),
    (
        "u8??",
        "1",
        "expected null or an object with the member Some alone",
    ),
    (
        "u8??",
        "{\"Some\":1,\"a\":2}",
        "expected null or an object with the member Some alone",
    ),
    ("()", "[]", "expected null"),
    ("[u8]", "{}", "expected an array"),
    ("[u8; 2]", "[1]", "expected an array of length 2"),
    ("(u8, u8)", "[1,2,3]", "expected an array of length 2"),
    ("{a: u8}", "{\"a\":1,\"b\":2}", "b: unknown member"),
    ("{a: u8}", "{\"a\":1,\"\u{7f}\":2}", "unknown member"),
    ("{a: u8}", "{\"b\":2}", "a: missing member"),
    ("{a: u8}", "[]", "expected an object with 1 member"),
    ("A | B(u8)", "\"B\"", "expected a variant"),
    ("A | B(u8)", "{\"A\":null}", "expected a variant"),
    ("A | B(u8)", "{\"B\":256}", "B: expected u8"),
    (
        "{samples: [{id: u8}]}",
        "{\"samples\":[{\"id\":1},{\"id\":256}]}",
        "samples[1].id: expected u8",
    ),
    (
        "{u8 => [u8]}",
        "[[1,[2]],[3,[4,-1]]]",
        "[1][1][1]: expected u8",
    ),
];

/// Types and JSON texts, each beside the error as it is printed, or the text of the value.
const TEXTS: [(&str, &str, &str); 16] = [
    ("(u8, str)", " [1, \"a\"]\n", "(1, \"a\")"),
    ("{a: u8}", "{\"a\": 300, \"a\": 1}", "{a: 1}"),
    ("u8", "\n  300", "bad value at character 4: expected u8"),
    (
        "{samples: [{id: u8}]}",
        "{\"samples\": [{\"id\": 1}, {\"id\": 256}]}",
        "bad value at character 32: samples[1].id: expected u8",
    ),
    (
        "(str, u8)",
        "[\"\u{e9}\", 256]",
        "bad value at character 7: [1]: expected u8",
    ),
    (
        "(str, u8)",
        "[\"a\\\"]\", 256]",
        "bad value at character 10: [1]: expected u8",
    ),
    (
        "([[u8]], u8)",
        "[[[1, 2], [3]], 256]",
        "bad value at character 17: [1]: expected u8",
    ),
    (
        "u8??",
        "{\"Some\": 256}",
        "bad value at character 10: Some: expected u8",
    ),
    (
        "{a: u8}",
        "{\"a\": 1, \"a\": 300}",
        "bad value at character 15: a: expected u8",
    ),
    (
        "{a: u8, b: u8}",
        "{\"a\": 1, \"c\": 2}",
        "bad value at character 1: b: missing member",
    ),
    (
        "A | B(u8)",
        "{\"B\": -1}",
        "bad value at character 7: B: expected u8",
    ),
    (
        "{u8 => [u8]}",
        "[[1, []], [2, [3, null]]]",
        "bad value at character 19: [1][1][1]: expected u8",
    ),
    ("[u8]", "[1, 2", "bad value at character 6: expected JSON"),
    ("[u8]", "[1,, 2]", "bad value at character 4: expected JSON"),
    (
        "[u8]",
        "[1,\n 2,\n x]",
        "bad value at character 10: expected JSON",
    ),
    ("[u8]", "", "bad value at character 1: expected JSON"),
];

#[test]
fn writes_and_reads_json(rt: HostRuntime) {
    for (kind, text, json) in &WRITTEN {
        let schema = type_of(&rt, kind);
        let value = value_of(&rt, &schema, text);
        let found = to_json(rt.alloc(), &schema, &value)
            .expect(&rt, "memory")
            .expect(&rt, text);
        let printed = json_text(rt.alloc(), &found).expect(&rt, "memory");
        same(&rt, printed.as_str(), *json, (kind, text));
        check_read(&rt, kind, json, text);
    }
}

#[test]
fn reads_other_json_and_refuses(rt: HostRuntime) {
    for (kind, json, wanted) in &READ {
        check_read(&rt, kind, json, wanted);
    }
}

#[test]
fn reads_json_texts(rt: HostRuntime) {
    for (kind, json, wanted) in &TEXTS {
        let schema = type_of(&rt, kind);
        let printed = match read_json(rt.alloc(), &schema, json) {
            Ok(value) => text_of(&rt, &schema, &value),
            Err(error) => format!(in rt.alloc(); "{error}").expect(&rt, "memory"),
        };
        same(&rt, printed.as_str(), *wanted, (kind, json));
    }
}

/// Asserts that what is read from JSON of a type, a value or an error, is printed as `wanted`.
fn check_read(rt: &(impl Abort + AllocGlobal), kind: &str, json: &str, wanted: &str) {
    let schema = type_of(rt, kind);
    let json = Json::from_str(rt.alloc(), json).expect(rt, "a text is no JSON");
    let printed = match from_json(rt.alloc(), &schema, &json) {
        Ok(value) => text_of(rt, &schema, &value),
        Err(error) => format!(in rt.alloc(); "{error}").expect(rt, "memory"),
    };
    same(rt, printed.as_str(), wanted, (kind, wanted));
}

//! Tests of texts at their limits: lengths, digits, nesting, blanks and long names.

use crate::helpers::{check_text, check_texts, check_type, nested, text_with, type_of};
use crate::same::same;
use postcard_value_text::read_text;
use std::process::Abort;

/// Types and texts, each beside the text that is printed of the value.
const READ: [(&str, &str, &str); 12] = [
    ("[u8]", "[ ]", "[]"),
    ("[u8]", "[1 ]", "[1]"),
    ("[u8]", "\t[\n1 \r, ]", "[1]"),
    ("[u8; 0]", "[]", "[]"),
    ("(u8,)", "(1 )", "(1,)"),
    ("u8?", "Some(1 ) ", "Some(1)"),
    ("{u8 => u8}", "{1 = > 2 }", "{1 => 2}"),
    ("u64", "1234567890123456789", "1234567890123456789"),
    ("u64", "18446744073709551615", "18446744073709551615"),
    ("i8", "-128", "-128"),
    (
        "{abcdefghijk: u8, abcdefghijl: u8}",
        "{abcdefghijk: 1, abcdefghijl: 2}",
        "{abcdefghijk: 1, abcdefghijl: 2}",
    ),
    (
        "Abcdefghijk | Abcdefghijl(u8)",
        "Abcdefghijl(3)",
        "Abcdefghijl(3)",
    ),
];

/// The types of numbers, each with the greatest count of digits `1` that is a number of the type.
const DIGITS: [(&str, usize); 10] = [
    ("u8", 3),
    ("u16", 5),
    ("u32", 10),
    ("u64", 20),
    ("u128", 39),
    ("i8", 3),
    ("i16", 5),
    ("i32", 10),
    ("i64", 19),
    ("i128", 39),
];

/// Asserts that a text with `count` times `part` is read, and printed as it is.
fn check_parts(
    rt: &(impl Abort + AllocGlobal),
    kind: &str,
    before: &str,
    part: &str,
    count: usize,
    after: &str,
) {
    let text = text_with(rt, before, part, count, after);
    check_text(rt, kind, text.as_str(), text.as_str());
}

/// Asserts that texts with `count` parts are read: those of a string, a byte string, a list and a
/// number.
fn check_length(rt: &(impl Abort + AllocGlobal), count: usize) {
    check_parts(rt, "str", "\"", "a", count, "\"");
    check_parts(rt, "bytes", "0x", "5a", count, "");
    check_parts(rt, "[u8]", "[", "1, ", count, "2]");
    check_text(rt, "u8", text_with(rt, "", "0", count, "7").as_str(), "7");
}

/// Asserts whether `count` digits are a number of the type.
fn check_digits(rt: &(impl Abort + AllocGlobal), kind: &str, count: usize, is_number: bool) {
    let text = text_with(rt, "", "1", count, "");
    let is_read = read_text(rt.alloc(), &type_of(rt, kind), text.as_str()).is_ok();
    same(rt, is_read, is_number, (kind, text.as_str()));
}

/// Asserts that texts of 1 to `most` digits are numbers of the type. Texts of no digit, and of more
/// digits up to 40, are refused.
fn check_counts(rt: &(impl Abort + AllocGlobal), kind: &str, most: usize) {
    for count in 0..41 {
        check_digits(rt, kind, count, 0 < count && count <= most);
    }
}

#[test]
fn reads_blanks_and_long_names(rt: HostRuntime) {
    check_texts(&rt, &READ);
}

#[test]
fn reads_each_length(rt: HostRuntime) {
    for count in 0..301 {
        check_length(&rt, count);
    }
}

#[test]
fn reads_each_number_of_digits(rt: HostRuntime) {
    for (kind, most) in &DIGITS {
        check_counts(&rt, kind, *most);
    }
    for count in 0..22 {
        let text = text_with(&rt, "[u8; ", "1", count, "]");
        check_type(&rt, text.as_str(), 0 < count && count <= 20);
    }
}

/// Tests values nested like their types, up to the greatest depth.
#[test]
fn reads_each_depth(rt: HostRuntime) {
    for count in 0..64 {
        let kind = nested(&rt, count, "u8");
        let text = nested(&rt, count, "7");
        check_text(&rt, kind.as_str(), text.as_str(), text.as_str());
    }
}

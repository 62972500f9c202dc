//! A test of the page that `pcard types` prints: each value of its examples is one of the type beside
//! it.

use crate::same::same;
use pcard_calls::syntax::SYNTAX;
use postcard_schema_text::parse;
use postcard_value_text::read_text;
use std::process::Abort;

/// Returns whether the text is a value of the type.
fn is_value(rt: &(impl Abort + AllocGlobal), kind: &str, text: &str) -> bool {
    match parse(rt.alloc(), kind) {
        Ok(schema) => read_text(rt.alloc(), &schema, text).is_ok(),
        Err(_) => false,
    }
}

/// Returns whether the text is a value of the type, or several, parted by commas and the word `or`.
fn are_values(rt: &(impl Abort + AllocGlobal), kind: &str, text: &str) -> bool {
    if is_value(rt, kind, text) {
        return true;
    }
    for part in text.split(" or ") {
        for value in part.split(", ") {
            if !is_value(rt, kind, value) {
                return false;
            }
        }
    }
    true
}

/// Returns whether the text ends with a type, after `, `, of which these are values.
fn ends_with_type(rt: &(impl Abort + AllocGlobal), text: &str, values: &str) -> bool {
    let mut rest = text;
    for _ in 0..text.len() {
        let Some((_, kind)) = rest.split_once(", ") else {
            return false;
        };
        if are_values(rt, kind, values) {
            return true;
        }
        rest = kind;
    }
    false
}

/// Returns whether the example of a line is right: its values, after `: `, are of the type before that, or
/// else of each of the forms at the line's beginning.
fn is_right(rt: &(impl Abort + AllocGlobal), forms: &str, said: &str) -> bool {
    let mut front = said;
    for _ in 0..said.len() {
        let Some((before, _)) = front.rsplit_once(": ") else {
            break;
        };
        let after = said.strip_prefix(before).unwrap_or("");
        let values = after.strip_prefix(": ").unwrap_or("");
        if ends_with_type(rt, before, values) {
            return true;
        }
        front = before;
    }
    let (_, values) = said.split_once(": ").unwrap_or(("", ""));
    for form in forms.split(' ') {
        if !are_values(rt, form.trim_end_matches(','), values) {
            return false;
        }
    }
    true
}

#[test]
fn gives_right_examples(rt: HostRuntime) {
    let mut examples = 0u64;
    for line in SYNTAX.lines() {
        let (forms, said) = line.split_once("  ").unwrap_or(("", line));
        if forms.is_empty() || !said.contains(": ") {
            continue;
        }
        same(&rt, is_right(&rt, forms, said), true, line);
        examples = examples.saturating_add(1);
    }
    same(&rt, examples, 19, "the lines with an example");
}

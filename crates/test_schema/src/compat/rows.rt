//! The rows of the tests of `compare`, and their assertion.

use crate::compat::helpers::same;
use postcard_compat::{Verdict, compare};
use postcard_schema::Schema;
use postcard_schema_text::parse;
use std::process::Abort;

/// Two types, and a result for each direction: first the second type reads the first, and then the
/// other way round. A result is the verdict and the first difference as it is printed, which is
/// empty if there is none.
pub type Row<'a> = (&'a str, &'a str, (Verdict, &'a str), (Verdict, &'a str));

/// Asserts the results of each row.
pub fn check(rt: &(impl Abort + AllocGlobal), rows: &[Row<'_>]) {
    for (old, new, forth, back) in rows {
        let first = parse(rt.alloc(), old).expect(rt, old);
        let second = parse(rt.alloc(), new).expect(rt, new);
        finds(rt, &first, &second, forth, new);
        finds(rt, &second, &first, back, old);
    }
}

/// Asserts the result for two types in one direction.
fn finds(
    rt: &(impl Abort + AllocGlobal),
    old: &Schema,
    new: &Schema,
    want: &(Verdict, &str),
    at: &str,
) {
    let found = compare(rt.alloc(), old, new).expect(rt, "memory");
    let words = match found.differences.get(0) {
        Some(difference) => format!(in rt.alloc(); "{difference}").expect(rt, "memory"),
        None => String::new(rt.alloc()),
    };
    let (verdict, difference) = want;
    same(rt, words.as_str(), *difference, at);
    same(rt, found.verdict, *verdict, at);
}

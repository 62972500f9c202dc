//! Texts that the tests make.

use std::process::Abort;

/// Returns `front` and `back` in one text.
pub fn joined(rt: &(impl Abort + AllocGlobal), front: &str, back: &str) -> String {
    format!(in rt.alloc(); "{front}{back}").expect(rt, "memory")
}

/// Returns `before`, `count` times `part`, and `after`.
pub fn text_with(
    rt: &(impl Abort + AllocGlobal),
    before: &str,
    part: &str,
    count: usize,
    after: &str,
) -> String {
    let parts = part.repeat(rt.alloc(), count).expect(rt, "memory");
    format!(in rt.alloc(); "{before}{parts}{after}").expect(rt, "memory")
}

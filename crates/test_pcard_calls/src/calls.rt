//! Whole calls of `pcard`: what they print, and their exit status. The rows of `test_pcard` have
//! most of them; here are those that no row can write.

use crate::helpers::text_with;
use crate::same::same;
use pcard_calls::run;
use postcard_de_flavors::Reader;
use std::io::Write;
use std::process::Abort;

/// The message of most tests.
pub const SENSOR: &str = "{id: u32, label: str, samples: [i16]}";

/// An offset of 65,536, after which the row has no bytes.
const LARGE_SHOWN: &str = "\
00000000  fd ff 03 61 61 61 61 61 ..  d: 0x61616161616161616161616161616161616..
00010000                              g:
";

/// Returns the words of a call.
fn words(rt: &(impl Abort + AllocGlobal), call: &[&str]) -> Vec<String> {
    let mut words = Vec::new(rt.alloc());
    for word in call {
        let word = String::from_str(rt.alloc(), word).expect(rt, "memory");
        words.push(word).expect(rt, "memory");
    }
    words
}

/// Does the call of these words, and returns its exit status.
pub fn answer<R: Reader, W: Write>(
    rt: &(impl Abort + AllocGlobal),
    call: &[&str],
    input: &mut R,
    output: &mut W,
) -> u8 {
    let words = words(rt, call);
    let mut errors = Vec::new(rt.alloc());
    run(rt.alloc(), words.as_slice(), input, output, &mut errors)
}

/// Asserts that a call over this input prints `printed` and has this status.
pub fn check<R: Reader>(
    rt: &(impl Abort + AllocGlobal),
    call: &[&str],
    input: &mut R,
    printed: &str,
    status: u8,
) {
    let mut output = Vec::new(rt.alloc());
    let found = answer(rt, call, input, &mut output);
    same(rt, output.as_slice(), printed.as_bytes(), call);
    same(rt, found, status, call);
}

/// Asserts the same of a call over some bytes.
pub fn check_over(
    rt: &(impl Abort + AllocGlobal),
    call: &[&str],
    mut input: &[u8],
    printed: &str,
    status: u8,
) {
    check(rt, call, &mut input, printed, status);
}

/// A text of 4,094 bytes is encoded in 4,096 bytes, which `enc` has room for.
#[test]
fn encodes_into_4096_bytes(rt: HostRuntime) {
    let fits = text_with(&rt, "", "a", 4094, "");
    let printed = text_with(&rt, "fe1f", "61", 4094, "\n");
    check_over(
        &rt,
        &["enc", "str", fits.as_str()],
        &[],
        printed.as_str(),
        0,
    );
    let long = text_with(&rt, "", "a", 4095, "");
    let printed = "The serialize buffer is full\n";
    check_over(&rt, &["enc", "str", long.as_str()], &[], printed, 1);
}

/// The input is longer than a mebibyte: a message of 65,536 bytes, and blanks.
#[test]
fn explains_a_large_input(rt: HostRuntime) {
    let digits = text_with(&rt, "fdff03", "61", 65_533, "");
    let input = text_with(&rt, digits.as_str(), " ", 1_048_576, "\n");
    let call = &["explain", "{d: bytes, g: ()}", "-"];
    check_over(&rt, call, input.as_bytes(), LARGE_SHOWN, 0);
}

//! Tests of HEX as it is pasted into a word, with the ends of lines.

use crate::calls::{SENSOR, check_over};

/// A message, as other programs print its bytes.
const MESSAGES: [&str; 7] = [
    "2A 01\t78\r\n020204\n",
    "  0x2a017802\n  0x0204",
    "00000000: 2a01 7802 0204                           *.x...\n",
    "\n00000000: 2a01 7802\r\n00000004: 0204\r\n",
    "00000000  2a 01 78 02 02 04                                 |*.x...|\n00000006\n",
    "00000000  2a 01 78 02 02 04\n",
    "00000000: 2a01  *.\n7802 0204\n",
];

const SHOWN: &str = "{id: 42, label: \"x\", samples: [1, 2]}\n\n";

#[test]
fn reads_pasted_messages(rt: HostRuntime) {
    for hex in &MESSAGES {
        check_over(&rt, &["dec", SENSOR, *hex], &[], SHOWN, 0);
    }
}

/// Eight digits alone are an offset after a line of `hexdump -C`, and else bytes.
#[test]
fn reads_digits_on_a_line(rt: HostRuntime) {
    let call = ["dec", "(u8)", "2a\n00000001"];
    check_over(&rt, &call, &[], "42\n00000001\n", 0);
}

#[test]
fn counts_characters_over_lines(rt: HostRuntime) {
    let call = ["dec", "(u8)", "00000000: 2a  é\nzz"];
    let printed = "at character 17: expected two hex digits: bad hex\n";
    check_over(&rt, &call, &[], printed, 2);
}

/// The text ends within JSON, after a line.
#[test]
fn counts_characters_of_json_over_lines(rt: HostRuntime) {
    let call = ["enc", "--json", "[u8]", "[1,\n 2"];
    let printed = "at character 7: expected JSON: bad value\n";
    check_over(&rt, &call, &[], printed, 2);
}

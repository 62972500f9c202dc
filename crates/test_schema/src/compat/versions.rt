//! Versions of a struct and of an enum, each with the next.

use crate::compat::rows::{Row, check};
use postcard_compat::Verdict::{Differs, Front, Misread, Refuses, Same};

/// The messages of a sensor. A number is widened, a field added, one renamed, and two put into a
/// struct. A list is added, its elements widened, an option added, the option made an enum, and a
/// field moved.
const TELEMETRY: [Row<'static>; 9] = [
    (
        "{id: u16, temp: i16}",
        "{id: u32, temp: i16}",
        (Same, ""),
        (Refuses, "id: u32 is read as u16, which ends at 65535"),
    ),
    (
        "{id: u32, temp: i16}",
        "{id: u32, temp: i16, label: str}",
        (Refuses, "label: str is new"),
        (Front, "label: str is gone"),
    ),
    (
        "{id: u32, temp: i16, label: str}",
        "{id: u32, celsius: i16, label: str}",
        (Same, ""),
        (Same, ""),
    ),
    (
        "{id: u32, celsius: i16, label: str}",
        "{head: {id: u32, celsius: i16}, label: str}",
        (Same, ""),
        (Same, ""),
    ),
    (
        "{head: {id: u32, celsius: i16}, label: str}",
        "{head: {id: u32, celsius: i16}, label: str, samples: [i16]}",
        (Refuses, "samples: list is new"),
        (Front, "samples: list is gone"),
    ),
    (
        "{head: {id: u32, celsius: i16}, label: str, samples: [i16]}",
        "{head: {id: u32, celsius: i16}, label: str, samples: [i32]}",
        (Same, ""),
        (
            Refuses,
            "samples[]: i32 is read as i16, which ends at 32767",
        ),
    ),
    (
        "{head: {id: u32, celsius: i16}, label: str, samples: [i32]}",
        "{head: {id: u32, celsius: i16}, label: str, samples: [i32], battery: u8?}",
        (Refuses, "battery: option is new"),
        (Front, "battery: option is gone"),
    ),
    (
        "{head: {id: u32, celsius: i16}, label: str, samples: [i32], battery: u8?}",
        "{head: {id: u32, celsius: i16}, label: str, samples: [i32], battery: (Unknown | Percent(u8))}",
        (Same, ""),
        (Differs, "battery: enum is read as option"),
    ),
    (
        "{head: {id: u32, celsius: i16}, label: str, samples: [i32], battery: (Unknown | Percent(u8))}",
        "{label: str, head: {id: u32, celsius: i16}, samples: [i32], battery: (Unknown | Percent(u8))}",
        (Misread, "head.id: is read as label"),
        (Misread, "label: is read as head.id"),
    ),
];

/// The messages of a host. A variant is added, a number widened, a variant renamed, one added, and
/// a content made a struct. An option becomes an enum, two variants are moved, a sign is added, and
/// a variant is added.
const COMMANDS: [Row<'static>; 9] = [
    (
        "Stop | SetRate(u16)",
        "Stop | SetRate(u16) | SetMode{mode: u8}",
        (Same, ""),
        (Refuses, "the value: variant SetMode (2) is unknown"),
    ),
    (
        "Stop | SetRate(u16) | SetMode{mode: u8}",
        "Stop | SetRate(u32) | SetMode{mode: u8}",
        (Same, ""),
        (Refuses, "SetRate: u32 is read as u16, which ends at 65535"),
    ),
    (
        "Stop | SetRate(u32) | SetMode{mode: u8}",
        "Halt | SetRate(u32) | SetMode{mode: u8}",
        (Same, ""),
        (Same, ""),
    ),
    (
        "Halt | SetRate(u32) | SetMode{mode: u8}",
        "Halt | SetRate(u32) | SetMode{mode: u8} | Reset(u8?)",
        (Same, ""),
        (Refuses, "the value: variant Reset (3) is unknown"),
    ),
    (
        "Halt | SetRate(u32) | SetMode{mode: u8} | Reset(u8?)",
        "Halt | SetRate{hertz: u32} | SetMode{mode: u8} | Reset(u8?)",
        (Same, ""),
        (Same, ""),
    ),
    (
        "Halt | SetRate{hertz: u32} | SetMode{mode: u8} | Reset(u8?)",
        "Halt | SetRate{hertz: u32} | SetMode{mode: u8} | Reset(Now | After(u8))",
        (Same, ""),
        (Differs, "Reset: enum is read as option"),
    ),
    (
        "Halt | SetRate{hertz: u32} | SetMode{mode: u8} | Reset(Now | After(u8))",
        "Halt | SetMode{mode: u8} | SetRate{hertz: u32} | Reset(Now | After(u8))",
        (Misread, "the value: variant SetRate (1) is read as SetMode"),
        (Misread, "the value: variant SetMode (1) is read as SetRate"),
    ),
    (
        "Halt | SetMode{mode: u8} | SetRate{hertz: u32} | Reset(Now | After(u8))",
        "Halt | SetMode{mode: i8} | SetRate{hertz: u32} | Reset(Now | After(u8))",
        (Misread, "SetMode: u8 is read as i8"),
        (Misread, "SetMode: i8 is read as u8"),
    ),
    (
        "Halt | SetMode{mode: i8} | SetRate{hertz: u32} | Reset(Now | After(u8))",
        "Halt | SetMode{mode: i8} | SetRate{hertz: u32} | Reset(Now | After(u8)) | Log{level: u8, text: str}",
        (Same, ""),
        (Refuses, "the value: variant Log (4) is unknown"),
    ),
];

#[test]
fn compares_telemetry(rt: HostRuntime) {
    check(&rt, &TELEMETRY);
}

#[test]
fn compares_commands(rt: HostRuntime) {
    check(&rt, &COMMANDS);
}

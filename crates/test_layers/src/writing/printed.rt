//! Tests of values that are written as the string that they print. No contract says that this
//! succeeds.

ghost use Rattle.std.specs.Prelude.{◌∷◌, Some};
ghost use Rattle.std.specs.Fmt.{decimal};
ghost use Rattle.postcard_shape.specs.Leaves.{text};
ghost use Rattle.postcard_shape.specs.Shape.{via};
ghost use Rattle.postcard_shape.specs.Refusing.{printed};

use super::{assert_holds, assert_written};
use crate::asserts::same;
use postcard_ser::{Serialize, Serializer};
use postcard_ser_flavors::{Flavor, Slice};
use postcard_shape::Shaped;
use postcard_wire::{Error, Result};
use std::fmt;
use std::fmt::Display;
use std::process::Abort;

/// A value whose printing writes `front` and then fails.
#[derive(Drop)]
struct Broken {
    front: &'static str,
}

impl Display for Broken {
    fn fmt<W: fmt::Write>(&self, f: &mut fmt::Formatter<W>) -> fmt::Result {
        let _ = f.write_str(self.front);
        Err(fmt::Error)
    }
}

/// A user's type that is written as the string that it prints.
#[derive(Drop)]
struct Shown(u32);

impl Display for Shown {
    ghost output = { λ s. Some (61 ∷ decimal s.0) };

    fn fmt<W: fmt::Write>(&self, f: &mut fmt::Formatter<W>) -> fmt::Result {
        write!(f, "={}", self.0)
    }
}

impl Shaped for Shown {
    ghost shape = { printed (via (λ s. 61 ∷ decimal s.0) text) };
}

impl Serialize for Shown {
    fn serialize<F: Flavor>(&self, serializer: &mut Serializer<F>) -> Result<()> {
        serializer.collect_str(self)
    }
}

/// Asserts the result of writing the text of a value into a buffer of `room` bytes, and the bytes
/// that are then written.
fn assert_collected<T: Display>(
    rt: &impl Abort,
    value: &T,
    room: usize,
    answer: Result<()>,
    want: &[u8],
) {
    let mut buffer = [0xAA; 48];
    let (front, _) = buffer.split_at_mut(room.min(48));
    let mut serializer = Serializer {
        output: Slice::new(front),
    };
    same(rt, serializer.collect_str(value), answer);
    assert_holds(rt, serializer, want);
}

#[test]
fn printed_texts(rt: HostRuntime) {
    assert_collected(&rt, &true, 48, Ok(()), &[0x04, 0x74, 0x72, 0x75, 0x65]);
    assert_collected(&rt, &"", 48, Ok(()), &[0x00]);
    assert_collected(
        &rt,
        &i128::MIN,
        48,
        Ok(()),
        b"\x28-170141183460469231731687303715884105728",
    );
    assert_collected(&rt, &12345u32, 6, Ok(()), b"\x0512345");
    assert_written(&rt, &Shown(123), &[0x04, 0x3D, 0x31, 0x32, 0x33]);
}

#[test]
fn refused_texts(rt: HostRuntime) {
    assert_collected(&rt, &12345u32, 0, Err(Error::SerializeBufferFull), &[]);
    assert_collected(&rt, &12345u32, 3, Err(Error::CollectStrError), &[0x05]);
    assert_collected(
        &rt,
        &Broken { front: "" },
        48,
        Err(Error::CollectStrError),
        &[],
    );
    assert_collected(
        &rt,
        &Broken { front: "ab" },
        48,
        Err(Error::CollectStrError),
        &[],
    );
}

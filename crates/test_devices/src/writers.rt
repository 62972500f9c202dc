//! Tests of writing values to writers that are short of room or fail.

ghost use Rattle.std.specs.Prelude.{◌≡◌, IfOk};
ghost use Rattle.postcard_wire.specs.Spelling.{canonical};

use crate::asserts::{same, same_bytes};
use postcard::{Error, Serialize, to_io};
use std::process::Abort;
use test_support::devices::writers::{Bounded, FailingWriter};

/// Writes a value to a writer, and returns the writer. The contract says which bytes it then holds.
pub fn sent<T: Serialize, const N: usize>(value: &T) -> postcard::Result<Bounded<N>>
    ensures { IfOk result (λ writer. writer.held.items ≡ canonical (T.shape.tree value.now)) }
{
    to_io(value, Bounded::new())
}

#[test]
fn short_of_room(rt: HostRuntime) {
    let writer = sent::<_, 4>(&"Hi!").expect(&rt, "the text has room");
    same_bytes(&rt, writer.held.as_slice(), &[0x03, 0x48, 0x69, 0x21]);
    let refused = sent::<_, 3>(&"Hi!").err();
    same(&rt, refused, Some(Error::SerializeBufferFull));
}

/// A string of the length that a writing flavor gathers, so that the flavor writes it at once.
const TEXT: &str = "0123456789abcdef0123456789abcdef0123456789abcdef0123456789abcdef";

/// The encoding of 1 as a `u8`, 10 as a `u32` and [`TEXT`].
const ENCODED: &[u8] =
    b"\x01\x0A\x400123456789abcdef0123456789abcdef0123456789abcdef0123456789abcdef";

/// Writes a tuple to a writer of which one write, or the flush, fails, if the tuple needs it. The
/// bytes before the string take one write, and the string another.
///
/// No clause says that `to_io` flushes its writer: only this and `is_written_or_refused` of
/// `test_refusals` would catch one that doesn't.
fn write_through(rt: &impl Abort, fails_at: usize, flush_fails: bool) {
    let mut writer = FailingWriter {
        inner: Bounded::<67>::new(),
        writes: 0,
        fails_at,
        flush_fails,
        flushed: false,
    };
    let refused = to_io(&(1u8, 10u32, TEXT), &mut writer).err();
    let fails = fails_at < 2 || flush_fails;
    same(rt, refused, fails.then_some(Error::SerializeBufferFull));
    same(rt, writer.flushed, !fails);
    let begun = ENCODED.starts_with(writer.inner.held.as_slice());
    same(rt, begun, true);
    same(rt, writer.writes, fails_at.saturating_add(1).min(2));
}

#[test]
fn each_call_fails_in_turn(rt: HostRuntime) {
    for fails_at in 0..3 {
        write_through(&rt, fails_at, false);
    }
    write_through(&rt, 2, true);
}

//! A test of the writer of `test_support` of which every other call is interrupted.

use crate::asserts::same;
use arrayvec::ArrayVec;
use std::io::Write;
use test_support::devices::writers::InterruptedWriter;

#[test]
fn a_flush_between_interrupted_writes(rt: HostRuntime) {
    let mut writer = InterruptedWriter {
        inner: ArrayVec::<u8, 1>::new(),
        interrupts: true,
    };
    same(&rt, writer.flush().is_ok(), true);
    same(&rt, writer.write(&[7]).is_err(), true);
    same(&rt, writer.flush().is_ok(), true);
    same(&rt, writer.write(&[7]).is_ok(), true);
    same(&rt, writer.inner.as_slice(), [7].as_slice());
}

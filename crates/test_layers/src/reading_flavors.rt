//! Tests of the reading flavors: the source over a slice, and the source over a reader. The latter
//! is tested by what it takes from its reader and from its scratch. The readers read many bytes a
//! call, read one byte a call, or fail. Two of the readers are tested alone, too.

ghost use Rattle.std.specs.Prelude.{◌≡◌, ◌<◌, ◌≤◌, [], ◌++◌, length, take, Some, IsOk, ⊤};
ghost use Rattle.postcard_de_flavors.specs.IOReader.{scratch_of};
ghost use Rattle.std.specs.Io.{ReadsAtMost};
ghost use Rattle.std.specs.Io.KnownBytes.{ReadConsumes};

use crate::asserts::{same, same_bytes};
use postcard_de_flavors::io::io::IOReader;
use postcard_de_flavors::{Flavor, Plain, Reader, Slice};
use postcard_wire::{Error, Result};
use std::io;
use std::io::{ErrorKind, Read};
use std::process::Abort;

const END: Error = Error::DeserializeUnexpectedEnd;

fn assert_popped<F: Flavor>(rt: &impl Abort, source: &mut F, want: Result<u8>) {
    same(rt, source.pop(), want);
}

/// Asserts that these are the next bytes. They are lent until the next call.
fn assert_lent<F: Flavor>(rt: &impl Abort, source: &mut F, want: &[u8]) {
    same(rt, source.try_take_n_temp(want.len()), Ok(want));
}

#[test]
fn a_slice_gives_fronts_until_too_few_bytes_are_left(rt: HostRuntime) {
    let mut source = Slice::new(&[1, 2, 3, 4]);
    same(&rt, source.pop(), Ok(1));
    same(&rt, source.try_take_n(2), Ok([2, 3].as_slice()));
    same(
        &rt,
        source.try_take_n(2),
        Err(Error::DeserializeUnexpectedEnd),
    );
    same(&rt, source.size_hint(), Some(1));
    same(
        &rt,
        source.try_take_n_temp(2),
        Err(Error::DeserializeUnexpectedEnd),
    );
    same(&rt, source.try_take_n_temp(1), Ok([4].as_slice()));
    same(&rt, source.pop(), Err(Error::DeserializeUnexpectedEnd));
    same(&rt, source.finalize(), Ok([].as_slice()));
}

/// Asserts that a source that has given all of these bytes gives no bytes, and no byte.
fn assert_gives_none_at_the_end(rt: &impl Abort, bytes: &[u8]) {
    let mut source = Slice::new(bytes);
    same(rt, source.try_take_n(bytes.len()), Ok(bytes));
    same(rt, source.try_take_n(0), Ok([].as_slice()));
    same(rt, source.try_take_n_temp(0), Ok([].as_slice()));
    same_bytes(rt, source.at_hand(), &[]);
    same(rt, source.size_hint(), Some(0));
    same(rt, source.pop(), Err(Error::DeserializeUnexpectedEnd));
    same(rt, source.finalize(), Ok([].as_slice()));
}

#[test]
fn a_slice_gives_no_bytes_at_the_end(rt: HostRuntime) {
    assert_gives_none_at_the_end(&rt, &[]);
    assert_gives_none_at_the_end(&rt, &[7]);
}

/// Moves the first byte of `bytes` into the first bytes of `buf`, and returns the number of bytes
/// moved: 0 if either is empty.
fn move_first(bytes: &mut &[u8], buf: &mut [u8]) -> usize
    ensures moved { bytes.old.now ≡ take result buf.new ++ bytes.new.now }
    ensures fits { result ≤ length buf.new }
    ensures ends { result ≡ 0 → 0 < length buf.new → bytes.new.now ≡ [] }
{
    if buf.is_empty() {
        return 0;
    }
    let Some((first, rest)) = bytes.split_first() else {
        return 0;
    };
    buf[0] = *first;
    *bytes = rest;
    1
}

/// A steady reader that reads one byte a call.
#[derive(Drop)]
struct OneByte<'a> {
    bytes: &'a [u8],
}

impl Read for OneByte<'_> {
    ghost remaining = { λ s. Some s.bytes.now };

    fn read(&mut self, buf: &mut [u8]) -> io::Result<usize>
        ensures bound { ReadsAtMost result buf.new }
        ensures bytes { ReadConsumes (Some self.old.bytes.now)
            (Some self.new.bytes.now) result buf.new }
        ensures succeeds { IsOk result }
    {
        Ok(move_first(&mut self.bytes, buf))
    }
}

impl Reader for OneByte<'_> {
    ghost steady = { λ _. ⊤ };

    fn read_some(&mut self, buf: &mut [u8]) -> io::Result<usize> {
        self.read(buf)
    }

    fn read_full(&mut self, buf: &mut [u8]) -> io::Result<()> {
        for at in 0..buf.len() {
            let Some((first, rest)) = self.bytes.split_first() else {
                return Err(io::Error::from(ErrorKind::UnexpectedEof));
            };
            buf[at] = *first;
            self.bytes = rest;
        }
        Ok(())
    }
}

/// A reader that reads one byte a call, and fails once no calls are left.
#[derive(Drop)]
struct Failing<'a> {
    bytes: &'a [u8],
    reads: usize,
}

impl Read for Failing<'_> {
    ghost remaining = { λ s. Some s.bytes.now };

    fn read(&mut self, buf: &mut [u8]) -> io::Result<usize> {
        if self.reads == 0 {
            return Err(io::Error::from(ErrorKind::Other));
        }
        self.reads -= 1;
        Ok(move_first(&mut self.bytes, buf))
    }
}

/// Returns whether a take succeeds. It uses up no scratch, and changes nothing if it is too short.
fn looks<T: Reader>(source: &mut IOReader<'_, T>, count: usize) -> bool
    ensures room { length (scratch_of source.new) ≡ length (scratch_of source.old) }
    ensures short { length (scratch_of source.old) < count → source.new ≡ source.old }
{
    source.try_take_n_temp(count).is_ok()
}

trait Over: Reader {
    fn over(bytes: &'static [u8]) -> Self;
}

impl Over for &'static [u8] {
    fn over(bytes: &'static [u8]) -> Self {
        bytes
    }
}

impl Over for OneByte<'static> {
    fn over(bytes: &'static [u8]) -> Self {
        OneByte { bytes }
    }
}

impl Over for Plain<&'static [u8]> {
    fn over(bytes: &'static [u8]) -> Self {
        Plain::new(bytes)
    }
}

fn assert_all_popped<F: Flavor>(rt: &impl Abort, source: &mut F, bytes: &[u8]) {
    for byte in bytes {
        assert_popped(rt, source, Ok(*byte));
    }
}

/// Asserts that a source has just the bytes `unread` left, and `room` bytes of scratch.
fn assert_left<T: Reader>(rt: &impl Abort, source: IOReader<'_, T>, unread: &[u8], room: usize) {
    let Ok((reader, scratch)) = source.finalize() else {
        unreachable!()
    };
    same(rt, scratch.len(), room);
    let mut rest = IOReader::new(reader, &mut []);
    assert_all_popped(rt, &mut rest, unread);
    assert_popped(rt, &mut rest, Err(END));
}

fn assert_room<T: Reader>(rt: &impl Abort, source: IOReader<'_, T>, room: usize) {
    let Ok((_reader, scratch)) = source.finalize() else {
        unreachable!()
    };
    same(rt, scratch.len(), room);
}

fn takes<T: Over>(rt: &impl Abort) {
    let mut memory = [0; 8];
    let mut source = IOReader::new(T::over(&[0xaa, 0xbb, 0xcc, 0xdd, 0xee]), &mut memory);
    same(rt, source.size_hint(), None);
    let first = source.try_take_n(2);
    assert_lent(rt, &mut source, &[0xcc, 0xdd]);
    same(rt, first, Ok([0xaa, 0xbb].as_slice()));
    assert_left(rt, source, &[0xee], 6);
}

/// Takes bytes for good, one piece after the other, until too few are left.
fn takes_for_good<T: Over>(rt: &impl Abort) {
    let mut memory = [0; 8];
    let mut source = IOReader::new(T::over(&[0xaa, 0xbb, 0xcc, 0xdd, 0xee]), &mut memory);
    let first = source.try_take_n(2);
    let second = source.try_take_n(2);
    same(rt, source.try_take_n(2).is_err(), true);
    same(rt, first, Ok([0xaa, 0xbb].as_slice()));
    same(rt, second, Ok([0xcc, 0xdd].as_slice()));
}

/// Takes single bytes, which need no scratch.
fn pops<T: Over>(rt: &impl Abort) {
    let mut source = IOReader::new(T::over(&[0xaa, 0xbb, 0xcc]), &mut []);
    assert_all_popped(rt, &mut source, &[0xaa, 0xbb, 0xcc]);
    assert_popped(rt, &mut source, Err(END));
}

/// Takes for good from too short an input. The take uses up its scratch.
fn input_too_short<T: Over>(rt: &impl Abort) {
    let mut memory = [0; 4];
    let mut source = IOReader::new(T::over(&[1, 2]), &mut memory);
    same(rt, source.try_take_n(3).is_err(), true);
    assert_room(rt, source, 1);
}

/// Takes until the next call from too short an input. The scratch stays whole.
fn input_too_short_to_lend<T: Over>(rt: &impl Abort) {
    let mut memory = [0; 4];
    let mut source = IOReader::new(T::over(&[1, 2]), &mut memory);
    same(rt, source.try_take_n_temp(3).is_err(), true);
    assert_room(rt, source, 4);
}

/// Takes more bytes than the scratch has room for. The reader isn't called.
fn scratch_too_short<T: Over>(rt: &impl Abort) {
    let mut memory = [0; 1];
    let mut source = IOReader::new(T::over(&[1, 2]), &mut memory);
    same(rt, source.try_take_n(2).is_err(), true);
    same(rt, looks(&mut source, 2), false);
    assert_left(rt, source, &[1, 2], 1);
}

fn all_rows<T: Over>(rt: &impl Abort) {
    takes::<T>(rt);
    takes_for_good::<T>(rt);
    pops::<T>(rt);
    input_too_short::<T>(rt);
    input_too_short_to_lend::<T>(rt);
    scratch_too_short::<T>(rt);
}

#[test]
fn a_reader_of_a_slice(rt: HostRuntime) {
    all_rows::<&[u8]>(&rt);
}

#[test]
fn a_reader_of_single_bytes(rt: HostRuntime) {
    all_rows::<OneByte>(&rt);
}

#[test]
fn any_reader(rt: HostRuntime) {
    all_rows::<Plain<&[u8]>>(&rt);
}

/// Takes 3 bytes of a reader that fails after `reads` of its calls. Asserts whether that succeeds,
/// and how many bytes the reader has left.
fn take_three(rt: &impl Abort, reads: usize, succeeds: bool, left: usize) {
    let bytes = [0xaa, 0xbb, 0xcc];
    let mut memory = [0; 4];
    let failing = Failing {
        bytes: &bytes,
        reads,
    };
    let mut source = IOReader::new(Plain::new(failing), &mut memory);
    let taken = source.try_take_n(3);
    same(rt, taken.is_ok(), succeeds);
    let Ok((reader, scratch)) = source.finalize() else {
        unreachable!()
    };
    same(rt, scratch.len(), 1);
    same(rt, reader.into_inner().bytes.len(), left);
}

#[test]
fn a_failing_reader(rt: HostRuntime) {
    take_three(&rt, 0, false, 3);
    take_three(&rt, 1, false, 2);
    take_three(&rt, 2, false, 1);
    take_three(&rt, 3, true, 0);
}

fn assert_gives_two<T: Reader>(rt: &impl Abort, reader: &mut T, want: &[u8]) {
    let mut buf = [0; 2];
    same(rt, reader.read_some(&mut buf).ok(), Some(2));
    same_bytes(rt, &buf, want);
}

fn assert_has_no_two<T: Reader>(rt: &impl Abort, reader: &mut T) {
    let mut buf = [0; 2];
    same(rt, reader.read_full(&mut buf).is_err(), true);
}

/// No clause says what a slice keeps after a read of too many bytes. Only this test would catch a
/// slice that then loses its bytes.
#[test]
fn a_slice_as_a_reader(rt: HostRuntime) {
    let bytes = [1, 2, 3];
    let mut slice = bytes.as_slice();
    assert_gives_two(&rt, &mut slice, &[1, 2]);
    assert_has_no_two(&rt, &mut slice);
    let mut buf = [0; 1];
    same(&rt, slice.read_full(&mut buf).is_ok(), true);
    same_bytes(&rt, &buf, &[3]);
    same(&rt, slice.read_some(&mut buf).ok(), Some(0));
}

#[test]
fn a_plain_reader(rt: HostRuntime) {
    let bytes = [1, 2, 3];
    let mut plain = Plain::new(bytes.as_slice());
    assert_gives_two(&rt, &mut plain, &[1, 2]);
    assert_has_no_two(&rt, &mut plain);
    same(&rt, plain.into_inner().len(), 0);
}

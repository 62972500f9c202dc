//! Tests of readers and writers that fail at each of their calls, with interruptions in between, and
//! of scratch buffers of each length.

use postcard::de_flavors::{Plain, Reader};
use postcard::{Deserialize, DeserializeOwned, Error, Owned, Serialize, from_io, to_io};
use std::alloc::{AllocError, AllocGlobal, Global};
use std::process::Abort;
use test_support::devices::readers::{FailingReader, InterruptedReader, Pieces};
use test_support::devices::writers::{FailingWriter, InterruptedWriter};
use test_support::types::{DataEnum, RefStruct};

const END: Error = Error::DeserializeUnexpectedEnd;

/// Returns a reader of these bytes, one with each read. Every other call is interrupted, and one of
/// the others fails.
fn failing(bytes: &[u8], fails_at: usize) -> InterruptedReader<FailingReader<Pieces<'_>>> {
    InterruptedReader {
        inner: FailingReader {
            inner: Pieces::new(bytes, &[1]),
            reads: 0,
            fails_at,
        },
        interrupts: true,
    }
}

/// Reads a value through interruptions. The read with the number `fails_at` fails. Returns whether
/// the result is right: the value, or a failure if the value needs that read.
fn is_read_or_refused<T: DeserializeOwned + PartialEq>(
    alloc: Global,
    value: &T,
    bytes: &[u8],
    fails_at: usize,
) -> bool {
    let mut scratch = [0; 16];
    let reader = Plain::new(failing(bytes, fails_at));
    match from_io::<Owned<T>, _>(alloc, (reader, &mut scratch)) {
        Ok((Owned(read), _)) => read == *value && bytes.len() <= fails_at,
        Err(e) => e == END && fails_at < bytes.len(),
    }
}

/// Returns whether reading a value from this reader fails with `DeserializeUnexpectedEnd`.
fn ends<T: DeserializeOwned, R: Reader>(alloc: Global, reader: R) -> bool {
    let mut scratch = [0; 16];
    from_io::<Owned<T>, _>(alloc, (reader, &mut scratch)).err() == Some(END)
}

/// Returns whether reading a value fails if the bytes end after the first `end`, over a slice and in
/// pieces.
fn is_cut<T: DeserializeOwned>(alloc: Global, bytes: &[u8], end: usize) -> bool {
    let front = bytes.get(..end).unwrap_or(bytes);
    ends::<T, _>(alloc, front) && ends::<T, _>(alloc, Plain::new(Pieces::new(front, &[3, 1])))
}

/// Returns a writer into a vector. Every other call is interrupted, and one of the others fails.
fn failing_writer(
    alloc: Global,
    fails_at: usize,
    flush_fails: bool,
) -> InterruptedWriter<FailingWriter<Vec<u8>>> {
    InterruptedWriter {
        inner: FailingWriter {
            inner: Vec::new(alloc),
            writes: 0,
            fails_at,
            flush_fails,
            flushed: false,
        },
        interrupts: true,
    }
}

/// Writes a value through interruptions. The write with the number `fails_at` fails. Returns
/// whether the call fails just if that write or the flush does. A prefix of the encoding must then
/// be written.
///
/// No clause says that `to_io` flushes its writer: only this and `write_through` of
/// `test_devices` would catch one that doesn't.
fn is_written_or_refused<T: Serialize>(
    alloc: Global,
    value: &T,
    bytes: &[u8],
    fails_at: usize,
    flush_fails: bool,
) -> bool {
    let mut writer = failing_writer(alloc, fails_at, flush_fails);
    let error = to_io(value, &mut writer).err();
    let device = writer.inner;
    let fails = fails_at < device.writes || flush_fails;
    let whole = device.inner.len() == bytes.len();
    error == fails.then_some(Error::SerializeBufferFull)
        && device.flushed != fails
        && bytes.starts_with(&device.inner)
        && whole == (device.writes <= fails_at)
}

/// Runs these checks with each read and each write failing in turn, and with the bytes cut after
/// each.
fn survives<T: Serialize + DeserializeOwned + PartialEq>(
    rt: &(impl Abort + AllocGlobal),
    value: &T,
    bytes: &[u8],
) {
    let alloc = rt.alloc();
    for place in 0..=bytes.len().saturating_add(1) {
        let right = is_read_or_refused(alloc, value, bytes, place)
            && (bytes.len() <= place || is_cut::<T>(alloc, bytes, place))
            && is_written_or_refused(alloc, value, bytes, place, false)
            && is_written_or_refused(alloc, value, bytes, place, true);
        assert!(rt; right, "{place}");
    }
}

/// Returns a string in memory.
fn text(rt: &(impl Abort + AllocGlobal), text: &str) -> String {
    String::from_str(rt.alloc(), text).expect(rt, "a text")
}

#[test]
fn each_call_fails_in_turn(rt: HostRuntime) {
    let alloc = rt.alloc();
    survives(&rt, &300u16, &[0xAC, 0x02]);
    survives(&rt, &'¢', &[0x02, 0xC2, 0xA2]);
    survives(&rt, &Some(-2i32), &[0x01, 0x03]);
    let variant = DataEnum::Sho(0x6969, 0x07);
    survives(&rt, &variant, &[0x05, 0xE9, 0xD2, 0x01, 0x07]);
    survives(&rt, &text(&rt, "Hi!"), b"\x03Hi!");
    let bytes = vec![in alloc; 1u8, 2, 3].expect(&rt, "a list");
    survives(&rt, &bytes, &[3, 1, 2, 3]);
    let pairs = vec![in alloc; (true, 300u64), (false, 1)].expect(&rt, "a list");
    survives(&rt, &pairs, &[2, 1, 0xAC, 0x02, 0, 1]);
}

/// Returns buffers of each length up to `longest`.
fn buffers_of(alloc: Global, longest: usize) -> Result<Vec<Vec<u8>>, AllocError> {
    let mut all = Vec::new(alloc);
    for length in 0..=longest {
        all.push([0xAA; 16].get(..length).unwrap_or(&[]).to_vec(alloc)?)?;
    }
    Ok(all)
}

/// Returns what [`buffers_of`] does. An allocation that fails ends the test.
fn buffers(rt: &(impl Abort + AllocGlobal), longest: usize) -> Vec<Vec<u8>> {
    buffers_of(rt.alloc(), longest).expect(rt, "buffers")
}

/// Asserts that the value is read with each scratch of at least `needed` bytes, and uses up `kept`
/// of them. With a shorter scratch reading fails.
fn needs_scratch<'a, T: Deserialize<'a> + PartialEq>(
    rt: &(impl Abort + AllocGlobal),
    bytes: &'a [u8],
    scratches: &'a mut [Vec<u8>],
    value: &T,
    (needed, kept): (usize, usize),
) {
    for scratch in scratches {
        let room = scratch.len();
        let right = match from_io::<T, _>(rt.alloc(), (Pieces::new(bytes, &[2, 1]), scratch)) {
            Ok((read, (reader, left))) => {
                read == *value
                    && needed <= room
                    && left.len() == room.saturating_sub(kept)
                    && reader.unread() == [0x99].as_slice()
            }
            Err(e) => e == END && room < needed,
        };
        assert!(rt; right, "{room}");
    }
}

/// The strings "ab" and "c", and a byte after them.
const TEXTS: &[u8] = b"\x02ab\x01c\x99";

#[test]
fn scratch_of_each_length(rt: HostRuntime) {
    let lent = RefStruct {
        bytes: &[0x01, 0x10, 0x02, 0x20],
        str_s: "hElLo",
    };
    let bytes = b"\x04\x01\x10\x02\x20\x05hElLo\x99";
    needs_scratch(&rt, bytes, &mut buffers(&rt, 11), &lent, (9, 9));
    needs_scratch(&rt, TEXTS, &mut buffers(&rt, 5), &("ab", "c"), (3, 3));
    needs_scratch(&rt, TEXTS, &mut buffers(&rt, 5), &("ab", 'c'), (3, 2));
}

#[test]
fn scratch_that_is_given_back(rt: HostRuntime) {
    let texts = (text(&rt, "ab"), text(&rt, "c"));
    needs_scratch(&rt, TEXTS, &mut buffers(&rt, 4), &texts, (2, 0));
    let list = vec![in rt.alloc(); 7u8, 8].expect(&rt, "a list");
    let bytes = b"\x02\x07\x08\x99";
    needs_scratch(&rt, bytes, &mut buffers(&rt, 4), &list, (0, 0));
    needs_scratch(&rt, b"\xAC\x02\x99", &mut buffers(&rt, 2), &300u16, (0, 0));
}

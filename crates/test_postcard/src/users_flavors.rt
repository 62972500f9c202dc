//! Tests of the flavors and the reader of `example_types`, with bytes worked out by hand.

use crate::asserts::same;
use example_types::flavor::Both;
use example_types::limited::Limited;
use example_types::reader::Counted;
use example_types::trailer::Trailed;
use postcard::de_flavors::io::io::IOReader;
use postcard::de_flavors::{Flavor, Slice};
use postcard::ser_flavors::{AllocVec, HVec, Size};
use postcard::{Deserialize, Deserializer, Error, Result, from_io, serialize_with_flavor};

const END: Error = Error::DeserializeUnexpectedEnd;

#[test]
fn two_flavors_at_once(rt: HostRuntime) {
    let both = Both {
        first: Size::default(),
        second: AllocVec::new(rt.alloc()),
    };
    match serialize_with_flavor(&300u16, both) {
        Ok((count, written)) => {
            same(&rt, count, 2);
            same(&rt, written.as_slice(), [0xAC, 0x02].as_slice());
        }
        Err(e) => panic!(rt; "{e}"),
    }
}

#[test]
fn a_byte_at_the_end(rt: HostRuntime) {
    let trailed = Trailed {
        inner: HVec::<3>::new(),
    };
    match serialize_with_flavor(&300u16, trailed) {
        Ok(written) => same(&rt, written.as_slice(), [0xAC, 0x02, 0].as_slice()),
        Err(e) => panic!(rt; "{e}"),
    }
    let short = Trailed {
        inner: HVec::<2>::new(),
    };
    let refused = serialize_with_flavor(&300u16, short).err();
    same(&rt, refused, Some(Error::SerializeBufferFull));
}

#[test]
fn a_source(rt: HostRuntime) {
    let mut scratch = [0; 8];
    let bytes: &[u8] = &[0xAC, 0x02, 9];
    let counted = Counted {
        inner: bytes,
        count: 0,
    };
    match from_io::<u16, _>(rt.alloc(), (counted, &mut scratch)) {
        Ok((value, (reader, _))) => {
            same(&rt, value, 300);
            same(&rt, reader.count, 2);
        }
        Err(e) => panic!(rt; "{e}"),
    }
}

/// The encoding of `(300u16, "ab")`, and a byte after it.
const BYTES: [u8; 6] = [0xAC, 0x02, 2, b'a', b'b', 7];

/// Returns a reading flavor over [`BYTES`] that reads at most `limit` of them.
fn limited(limit: usize) -> Limited<Slice<'static>> {
    Limited {
        inner: Slice::new(&BYTES),
        limit,
    }
}

/// Reads a number and a string.
fn number_and_text(
    rt: &HostRuntime,
    deserializer: &mut Deserializer<'static, Limited<Slice<'static>>>,
) -> Result<(u16, &'static str)> {
    Deserialize::deserialize(rt.alloc(), deserializer)
}

#[test]
fn a_reading_flavor(rt: HostRuntime) {
    let mut deserializer = Deserializer::from_flavor(limited(5));
    let read = number_and_text(&rt, &mut deserializer);
    same(&rt, read, Ok((300, "ab")));
    let refused = u8::deserialize(rt.alloc(), &mut deserializer);
    same(&rt, refused, Err(END));
    same(&rt, deserializer.finalize(), Ok([7].as_slice()));
    let mut deserializer = Deserializer::from_flavor(limited(4));
    let refused = number_and_text(&rt, &mut deserializer);
    same(&rt, refused, Err(END));
    same(&rt, deserializer.finalize(), Ok([b'a', b'b', 7].as_slice()));
}

/// Returns the unread bytes of the reader that a reading flavor leaves.
fn unread<'a>(left: Result<(&'a [u8], &'a mut [u8])>) -> Result<&'a [u8]> {
    match left {
        Ok((reader, _)) => Ok(reader),
        Err(error) => Err(error),
    }
}

#[test]
fn each_call_of_a_reading_flavor(rt: HostRuntime) {
    let mut scratch = [0; 8];
    let reader: &[u8] = &[1, 2, 3, 4, 5, 6];
    let mut limited = Limited {
        inner: IOReader::new(reader, &mut scratch),
        limit: 4,
    };
    same(&rt, limited.size_hint(), None);
    same(&rt, limited.try_take_n(5), Err(END));
    same(&rt, limited.try_take_n_temp(5), Err(END));
    same(&rt, limited.pop(), Ok(1));
    same(&rt, limited.try_take_n(2), Ok([2, 3].as_slice()));
    same(&rt, limited.try_take_n_temp(1), Ok([4].as_slice()));
    same(&rt, limited.limit, 0);
    same(&rt, limited.pop(), Err(END));
    same(&rt, unread(limited.finalize()), Ok([5, 6].as_slice()));
}

/// Returns the hint of a reading flavor over two bytes that reads at most `limit` of them.
fn hint(limit: usize) -> Option<usize> {
    let limited = Limited {
        inner: Slice::new(&[1, 2]),
        limit,
    };
    limited.size_hint()
}

#[test]
fn the_lower_of_two_hints(rt: HostRuntime) {
    same(&rt, hint(1), Some(1));
    same(&rt, hint(9), Some(2));
}

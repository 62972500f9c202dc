//! Tests of the calls that read.

use crate::asserts::{same, taken};
use postcard::from_io;

#[test]
fn a_tuple_from_a_reader(rt: HostRuntime) {
    let bytes = [0x03, 0x48, 0x69, 0x21, 0xAC, 0x02, 0x99];
    let mut scratch = [0; 4];
    match from_io::<(&str, u16), _>(rt.alloc(), (bytes.as_slice(), &mut scratch)) {
        Ok((value, (reader, left))) => {
            same(&rt, value, ("Hi!", 300));
            same(&rt, reader, [0x99].as_slice());
            same(&rt, left.len(), 1);
        }
        Err(e) => panic!(rt; "{e}"),
    }
}

#[test]
fn no_more_memory_than_twice_what_is_read(rt: HostRuntime) {
    let mut bytes = [0x07; 101];
    bytes[0] = 100;
    let (list, rest) = taken::<Vec<u64>>(&rt, &bytes);
    same(&rt, list.as_slice(), [7; 100].as_slice());
    same(&rt, list.capacity() <= 200, true);
    same(&rt, rest.len(), 0);
}

//! Tests with data of each length up to 600 bytes.

use crate::coding::comes_back;
use crate::flavor::pieces_make_the_same_frame;
use crate::reading::list_comes_back;

/// Returns 600 bytes: zeros at the places that leave `rest` when divided by 10, and 11 elsewhere.
fn some_zeros(rest: usize) -> [u8; 600] {
    let mut data = [0x11; 600];
    for place in 0..600 {
        if place % 10 == rest {
            data[place] = 0;
        }
    }
    data
}

#[test]
fn made_frames_come_back(rt: HostRuntime) {
    let zeros = [0; 600];
    let some = some_zeros(9);
    let full = [0x11; 600];
    for len in 0..=600 {
        comes_back(&rt, &zeros[..len], 2);
        comes_back(&rt, &some[..len], 2);
        // A frame has a byte more for each full group.
        comes_back(&rt, &full[..len], 2 + len / 254);
    }
}

#[test]
fn pieces_of_any_length_make_the_same_frame(rt: HostRuntime) {
    let full = [0x11; 600];
    let some = some_zeros(0);
    let zeros = [0; 600];
    for len in 0..=600 {
        pieces_make_the_same_frame(&rt, &full[..len]);
        pieces_make_the_same_frame(&rt, &some[..len]);
        pieces_make_the_same_frame(&rt, &zeros[..len]);
    }
}

#[test]
fn lists_come_back(rt: HostRuntime) {
    let zeros = [0; 600];
    let some = some_zeros(9);
    let full = [0x11; 600];
    for len in 0..=600 {
        list_comes_back(&rt, &zeros[..len]);
        list_comes_back(&rt, &some[..len]);
        list_comes_back(&rt, &full[..len]);
    }
}

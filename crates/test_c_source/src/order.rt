//! Values whose order matters: what is read before it changes, and read again after.

/// A struct of two fields of one type.
#[derive(Clone, Copy)]
struct Two {
    left: u64,
    right: u64,
}

/// An enum of several variants without content.
#[derive(Clone, Copy)]
enum Step {
    North,
    East,
    South,
    West,
}

fn turn_round(two: &mut Two) {
    *two = Two {
        left: two.right,
        right: two.left,
    };
}

/// Returns the fields of a struct after they were swapped, by a local and by a reference.
#[unsafe(no_mangle)]
pub extern "C" fn crossed(a: u64, b: u64) -> u64 {
    let mut two = Two { left: a, right: b };
    two = Two {
        left: two.right ^ 1,
        right: two.left,
    };
    let first = two.left ^ (two.right << 7);
    turn_round(&mut two);
    first ^ (two.left >> 3) ^ (two.right << 1)
}

/// Returns the fields of a struct after each was assigned the other several times.
#[unsafe(no_mangle)]
pub extern "C" fn circled(count: u8, a: u64, b: u64) -> u64 {
    let mut two = Two { left: a, right: b };
    for _ in 0..count {
        two = Two {
            left: two.right ^ 5,
            right: two.left,
        };
    }
    two.left ^ (two.right << 11)
}

/// Returns a sum over values. Each is made of the one before, and used after that one has changed.
#[unsafe(no_mangle)]
pub extern "C" fn chained(count: u8, a: u64, b: u64) -> u64 {
    let mut value = a;
    let mut other = b;
    let mut sum = 0;
    for _ in 0..count {
        let mixed = value ^ b;
        let low = mixed & 0xffff_ffff;
        let next = (value >> 1) ^ 3;
        sum ^= value;
        value = next;
        sum = (sum << 1) ^ low;
        let kept = sum >> 1;
        other = kept;
        other ^= value;
        sum ^= kept ^ (other << 5);
    }
    sum ^ value ^ other
}

fn add_to(n: &mut u64, more: u64) -> u64 {
    let before = *n;
    *n = before ^ more;
    before >> 1
}

/// Calls functions that change a number. Returns their results, joined with the number between the
/// calls.
#[unsafe(no_mangle)]
pub extern "C" fn changed(a: u64, b: u64) -> u64 {
    let mut n = a;
    let first = add_to(&mut n, b);
    let between = n;
    let second = add_to(&mut n, first);
    let after = n;
    (first << 2) ^ (second << 1) ^ between ^ (after << 9)
}

fn step_of(n: u64) -> Step {
    match n & 3 {
        0 => Step::North,
        1 => Step::East,
        2 => Step::South,
        _ => Step::West,
    }
}

/// Returns a number for several variants at once, and what a loop over them left early with.
#[unsafe(no_mangle)]
pub extern "C" fn walked(path: u64, most: u64) -> u64 {
    let mut place = most;
    let mut left = path;
    for _ in 0..32 {
        match step_of(left) {
            Step::North | Step::South => place = place.wrapping_add(3),
            Step::East if place == path => return 7,
            Step::East | Step::West => place ^= 5,
        }
        left >>= 2;
        if left == 0 {
            break;
        }
    }
    place
}

/// Returns how often each comparison of two numbers fails, a bit for each.
#[unsafe(no_mangle)]
pub extern "C" fn failing(a: u64, b: u64) -> u64 {
    let mut failed = 0;
    if a < b {} else {
        failed |= 1;
    }
    if a <= b {} else {
        failed |= 2;
    }
    if a == b {} else {
        failed |= 4;
    }
    if a != b {} else {
        failed |= 8;
    }
    failed
}

/// Copies bytes up by some places within a slice, one after the other from the first on.
#[unsafe(no_mangle)]
pub extern "C" fn repeated(bytes: &mut [u8], shift: u8) {
    let shift = shift as usize;
    if shift > bytes.len() {
        return;
    }
    for i in 0..bytes.len() - shift {
        bytes[shift + i] = bytes[i];
    }
}

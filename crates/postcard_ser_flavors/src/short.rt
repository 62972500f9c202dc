//! Copies of short pieces, by moves of a fixed size.

ghost use Rattle.std.specs.Prelude.{◌≡◌, ◌+◌, ◌≤◌, length};

/// Copies the bytes of a piece to a place of its length. A piece of 1 to 32 bytes takes two moves.
#[inline(always)]
pub fn copy(to: &mut [u8], from: &[u8])
    requires { length to.old ≡ length from.now }
    ensures { to.new ≡ from.now }
{
    match from.len() {
        0 => {}
        1 => to[0] = from[0],
        2..4 => copy_ends::<2>(to, from),
        4..8 => copy_ends::<4>(to, from),
        8..=16 => copy_ends::<8>(to, from),
        17..=32 => copy_ends::<16>(to, from),
        _ => copy_long(to, from),
    }
}

// Inlined, so that a piece whose length is known, such as a row of floats, takes moves, too.
#[inline(always)]
fn copy_long(to: &mut [u8], from: &[u8])
    requires { length to.old ≡ length from.now }
    ensures { to.new ≡ from.now }
{
    to.copy_from_slice(from);
}

/// Copies the first `N` bytes and the last `N`, which are all bytes, and may overlap.
#[inline(always)]
fn copy_ends<const N: usize>(to: &mut [u8], from: &[u8])
    requires same_length { length to.old ≡ length from.now }
    requires in_ends { (N ≤ length from.now) × (length from.now ≤ N + N) }
    ensures { to.new ≡ from.now }
{
    let (Some(first), Some(last)) = (from.first_chunk::<N>(), from.last_chunk::<N>()) else {
        unreachable!()
    };
    if let Some(place) = to.first_chunk_mut::<N>() {
        *place = *first;
    }
    if let Some(place) = to.last_chunk_mut::<N>() {
        *place = *last;
    }
}

//! Tests of the writing flavors and storages through their traits, with bytes worked out by hand.
//! Each takes a piece, and refuses one. Other tests use flavors of a user over others.

ghost use Rattle.std.specs.Prelude.{◌≡◌, ◌∷◌, [], ⊤, length};

use crate::asserts::{same, same_at, same_bytes, value};
use postcard_ser_flavors::io::WriteFlavor;
use postcard_ser_flavors::{
    AllocVec, ExtendBytes, ExtendFlavor, Flavor, HVec, Size, Slice, StdVec, Storage,
};
use postcard_wire::{Error, Result};
use std::alloc::Global;
use std::io;
use std::io::Write;
use std::process::Abort;

/// A piece that a flavor is to take, and the result of that.
type Row<'a> = (&'a [u8], Result<()>);

fn assert_row<F: Flavor>(rt: &impl Abort, flavor: &mut F, piece: &[u8], want: &Result<()>) {
    let result = match piece {
        [byte] => flavor.try_push(*byte),
        _ => flavor.try_extend(piece),
    };
    same_at(rt, &result, want, piece);
}

fn assert_rows<F: Flavor>(rt: &impl Abort, flavor: &mut F, rows: &[Row]) {
    for (piece, want) in rows {
        assert_row(rt, flavor, piece, want);
    }
}

fn end<F: Flavor + Drop>(rt: &impl Abort, flavor: F) -> F::Output {
    flavor.finalize().expect(rt, "the end succeeds")
}

fn vec_of(rt: &impl Abort, alloc: Global, bytes: &[u8]) -> Vec<u8> {
    value(rt, bytes.to_vec(alloc))
}

const ONE_TO_FOUR: [Row<'static>; 3] = [(&[1], Ok(())), (&[2, 3, 4], Ok(())), (&[], Ok(()))];

/// Asserts that a flavor takes 01, then 02 03 04, then nothing. Returns its output.
fn one_to_four<F: Flavor + Drop>(rt: &impl Abort, flavor: F) -> F::Output {
    let mut flavor = flavor;
    assert_rows(rt, &mut flavor, &ONE_TO_FOUR);
    end(rt, flavor)
}

#[test]
fn each_flavor_of_fixed_room_has_the_bytes(rt: HostRuntime) {
    let mut buffer = [0xAA; 6];
    let front: &[u8] = one_to_four(&rt, Slice::new(&mut buffer));
    same_bytes(&rt, front, &[1, 2, 3, 4]);
    let fixed = one_to_four(&rt, HVec::<4>::default());
    same_bytes(&rt, &fixed, &[1, 2, 3, 4]);
    same(&rt, one_to_four(&rt, Size::default()), 4);
}

#[test]
fn each_flavor_that_grows_has_the_bytes(rt: HostRuntime) {
    let grown = one_to_four(&rt, StdVec::new(rt.alloc()));
    same_bytes(&rt, &grown, &[1, 2, 3, 4]);
    let target = vec_of(&rt, rt.alloc(), &[9, 8]);
    let extended = one_to_four(&rt, ExtendFlavor::new(target));
    same_bytes(&rt, &extended, &[9, 8, 1, 2, 3, 4]);
    let target = vec_of(&rt, rt.alloc(), &[9, 8]);
    let written = one_to_four(&rt, WriteFlavor::new(target));
    same_bytes(&rt, &written, &[9, 8, 1, 2, 3, 4]);
}

/// Appends 03 05 07. Then changes the first byte of the storage to 09 by `set`, and the second to
/// 06 by the index. Asserts that the second was `second` before that.
fn change_two<B: Storage>(rt: &impl Abort, storage: &mut B, second: u8) {
    assert!(rt; storage.try_extend(&[3, 5, 7]).is_ok());
    storage.set(0, 9);
    same(rt, (storage[0], storage[1]), (9, second));
    storage[1] = 6;
}

fn assert_held<B: Storage>(rt: &impl Abort, storage: &B, count: usize)
    ensures { length (B.held storage.now) ≡ count }
{
    assert_eq!(rt; storage.held_len(), count);
}

/// Asserts the number of held bytes, before and after pushing 01.
fn assert_counts<B: Storage>(rt: &impl Abort, storage: &mut B, before: usize, after: usize) {
    same(rt, storage.held_len(), before);
    same(rt, storage.try_push(1), Ok(()));
    same(rt, storage.held_len(), after);
}

#[test]
fn a_slice_changes_held_bytes_alone(rt: HostRuntime) {
    let mut buffer = [0xAA; 5];
    let mut slice = Slice::new(&mut buffer);
    slice[4] = 0xBB;
    same(&rt, slice[4], 0xBB);
    change_two(&rt, &mut slice, 5);
    let front: &[u8] = end(&rt, slice);
    same_bytes(&rt, front, &[9, 6, 7]);
    same_bytes(&rt, &buffer, &[9, 6, 7, 0xAA, 0xBB]);
}

#[test]
fn two_buffers_in_turn(rt: HostRuntime) {
    let mut low = [0xAA; 4];
    let mut high = [0xAA; 3];
    let mut low_slice = Slice::new(&mut low);
    let mut high_slice = Slice::new(&mut high);
    low_slice.try_push(1).expect(&rt, "a byte has room");
    let pushed = high_slice.try_extend(&[0xF1, 0xF2]);
    pushed.expect(&rt, "two bytes have room");
    low_slice.try_varint(300).expect(&rt, "two more have room");
    let full = high_slice.try_extend(&[0xF3, 0xF4]);
    let error = full.expect_err(&rt, "two more have no room");
    same(&rt, error, Error::SerializeBufferFull);
    low_slice[0] = 9;
    high_slice[1] = 0xF9;
    let front = low_slice.finalize().expect(&rt, "a slice comes back");
    same_bytes(&rt, &*front, &[9, 0xAC, 0x02]);
    same(&rt, high_slice.try_push(0xF3), Ok(()));
    let front = high_slice.finalize().expect(&rt, "a slice comes back");
    same(&rt, front.len(), 3);
    same_bytes(&rt, &low, &[9, 0xAC, 0x02, 0xAA]);
    same_bytes(&rt, &high, &[0xF1, 0xF9, 0xF3]);
}

#[test]
fn a_fixed_vector_changes_held_bytes_alone(rt: HostRuntime) {
    let mut fixed = HVec::<4>::new();
    assert_counts(&rt, &mut fixed, 0, 1);
    change_two(&rt, &mut fixed, 3);
    same_bytes(&rt, &end(&rt, fixed), &[9, 6, 5, 7]);
}

#[test]
fn a_growing_vector_changes_held_bytes_alone(rt: HostRuntime) {
    let mut grown = AllocVec::new(rt.alloc());
    assert_counts(&rt, &mut grown, 0, 1);
    change_two(&rt, &mut grown, 3);
    same_bytes(&rt, &end(&rt, grown), &[9, 6, 5, 7]);
}

#[test]
fn each_storage_counts_held_bytes(rt: HostRuntime) {
    let mut buffer = [0xAA; 5];
    assert_counts(&rt, &mut Slice::new(&mut buffer), 0, 1);
    let mut grown = AllocVec::from_vec(vec_of(&rt, rt.alloc(), &[9, 8]));
    assert_counts(&rt, &mut grown, 2, 3);
    same_bytes(&rt, &end(&rt, grown), &[9, 8, 1]);
}

fn retry<F: Flavor>(rt: &impl Abort, flavor: &mut F, piece: &[u8]) {
    if flavor.try_extend(piece).is_err() {
        value(rt, flavor.try_extend(piece));
    }
}

/// Writes 231 bytes 07 in three pieces, each of which is written again if it is refused.
fn retried<F: Flavor + Drop>(rt: &impl Abort, flavor: F) -> F::Output {
    let mut flavor = flavor;
    retry(rt, &mut flavor, &[7; 1]);
    retry(rt, &mut flavor, &[7; 30]);
    retry(rt, &mut flavor, &[7; 200]);
    end(rt, flavor)
}

// Also run with `rt try --test --fail-alloc N` for N from 1 on: then a piece is refused, and
// nothing of it is left.
#[test]
fn a_piece_refused_for_want_of_memory_can_be_written_again(rt: HostRuntime) {
    let grown = retried(&rt, AllocVec::new(rt.alloc()));
    same_bytes(&rt, &grown, &[7; 231]);
    let extended = retried(&rt, ExtendFlavor::new(Vec::new(rt.alloc())));
    same_bytes(&rt, &extended, &[7; 231]);
}

#[test]
fn a_vector_extends(rt: HostRuntime) {
    let mut target = vec_of(&rt, rt.alloc(), &[1]);
    same(&rt, ExtendBytes::extend(&mut target, &[2, 3]), Ok(()));
    same_bytes(&rt, &target, &[1, 2, 3]);
}

/// Pieces for a room of six bytes.
const FILLS: [Row<'static>; 2] = [(&[0x03], Ok(())), (b"Hi!", Ok(()))];

#[test]
fn a_slice_fills_from_the_front(rt: HostRuntime) {
    let mut buffer = [0xAA; 6];
    let mut slice = Slice::new(&mut buffer);
    assert_rows(&rt, &mut slice, &FILLS);
    let front: &[u8] = end(&rt, slice);
    same_bytes(&rt, front, &[0x03, 0x48, 0x69, 0x21]);
}

/// Pieces for a room of three bytes.
const WHOLE_OR_NOT: [Row<'static>; 5] = [
    (&[0x03], Ok(())),
    (b"Hi!", Err(Error::SerializeBufferFull)),
    (b"Hi", Ok(())),
    (&[0x21], Err(Error::SerializeBufferFull)),
    (b"", Ok(())),
];

#[test]
fn a_slice_refuses_a_piece_whole(rt: HostRuntime) {
    let mut buffer = [0xAA; 3];
    let mut slice = Slice::new(&mut buffer);
    assert_rows(&rt, &mut slice, &WHOLE_OR_NOT);
    let (all, count) = slice.into_parts();
    same(&rt, count, 3);
    same_bytes(&rt, all, &[0x03, 0x48, 0x69]);
}

const NOTHING: [Row<'static>; 2] = [(&[0x00], Err(Error::SerializeBufferFull)), (b"", Ok(()))];

#[test]
fn a_slice_of_no_bytes_takes_nothing(rt: HostRuntime) {
    let mut none = [0; 0];
    let mut slice = Slice::new(&mut none);
    same(&rt, slice.try_varint(0), Err(Error::SerializeBufferFull));
    same(&rt, slice.try_extend(b"H"), Err(Error::SerializeBufferFull));
    assert_rows(&rt, &mut slice, &NOTHING);
    let front: &[u8] = end(&rt, slice);
    same_bytes(&rt, front, &[]);
}

/// Pieces for a room of four bytes, of which two are taken.
const TWO_OF_FOUR: [Row<'static>; 2] = [
    (&[1, 2], Ok(())),
    (&[3, 4, 5], Err(Error::SerializeBufferFull)),
];

const FOUR_OF_FOUR: [Row<'static>; 2] = [
    (&[3, 4], Ok(())),
    (&[5], Err(Error::SerializeBufferFull)),
];

#[test]
fn a_fixed_vector_takes_a_piece_whole_or_not(rt: HostRuntime) {
    let mut vec = HVec::<4>::new();
    assert_rows(&rt, &mut vec, &TWO_OF_FOUR);
    assert_held(&rt, &vec, 2);
    same(&rt, (vec[0], vec[1]), (1, 2));
    assert_rows(&rt, &mut vec, &FOUR_OF_FOUR);
    assert_held(&rt, &vec, 4);
    vec.set(1, 9);
    same_bytes(&rt, &end(&rt, vec), &[1, 9, 3, 4]);
}

fn pushed(rt: &impl Abort, vec: Vec<u8>) -> Vec<u8> {
    let mut flavor = AllocVec::from_vec(vec);
    value(rt, flavor.try_push(7));
    end(rt, flavor)
}

#[test]
fn a_vector_grows_seldom(rt: HostRuntime) {
    let mut vec: Vec<u8> = Vec::new(rt.alloc());
    let mut growths = 0u16;
    for _ in 0..4000u16 {
        let before = vec.capacity();
        vec = pushed(&rt, vec);
        if vec.capacity() != before {
            growths = growths.saturating_add(1);
        }
    }
    same(&rt, vec.len(), 4000);
    same_at(&rt, growths <= 12, true, growths);
}

/// Takes one byte in each call, after an interruption, and fails in one of the calls or in the
/// flush.
#[derive(Drop)]
struct Fragile {
    taken: Vec<u8>,
    interrupted: bool,
    fails_after: usize,
    flush_fails: bool,
    flushed: bool,
}

impl Write for Fragile {
    fn write(&mut self, buf: &[u8]) -> io::Result<usize> {
        if buf.is_empty() {
            return Ok(0);
        }
        self.interrupted = !self.interrupted;
        if self.interrupted {
            return Err(io::ErrorKind::Interrupted.into());
        }
        if self.taken.len() == self.fails_after {
            return Err(io::ErrorKind::BrokenPipe.into());
        }
        self.taken.push(buf[0])?;
        Ok(1)
    }

    fn flush(&mut self) -> io::Result<()> {
        if self.flush_fails {
            return Err(io::ErrorKind::BrokenPipe.into());
        }
        self.flushed = true;
        Ok(())
    }
}

/// Writes 03, then 48 69 21, and ends.
fn hand<T: Write + Drop>(writer: T) -> Result<T> {
    let mut flavor = WriteFlavor::new(writer);
    if let Err(error) = flavor.try_push(0x03) {
        return Err(error);
    }
    if let Err(error) = flavor.try_extend(b"Hi!") {
        return Err(error);
    }
    flavor.finalize()
}

/// Writes to a writer that fails after `fails_after` bytes, or in its flush. Asserts the result,
/// whether the writer was flushed, and the bytes that it took.
fn assert_handed(
    rt: &impl Abort,
    alloc: Global,
    fails_after: usize,
    flush_fails: bool,
    error: Option<Error>,
    want: &[u8],
) {
    let mut writer = Fragile {
        taken: Vec::new(alloc),
        interrupted: false,
        fails_after,
        flush_fails,
        flushed: false,
    };
    let flushed = error.is_none();
    same(rt, hand(&mut writer).err(), error);
    same(rt, writer.flushed, flushed);
    same_bytes(rt, &writer.taken, want);
}

#[test]
fn a_writer_refuses_where_it_fails(rt: HostRuntime) {
    let alloc = rt.alloc();
    let all = [0x03, 0x48, 0x69, 0x21];
    assert_handed(&rt, alloc, 9, false, None, &all);
    assert_handed(&rt, alloc, 4, false, None, &all);
    assert_handed(&rt, alloc, 9, true, Some(Error::SerializeBufferFull), &all);
    assert_handed(&rt, alloc, 0, false, Some(Error::SerializeBufferFull), &[]);
    assert_handed(
        &rt,
        alloc,
        1,
        false,
        Some(Error::SerializeBufferFull),
        &[0x03],
    );
    assert_handed(
        &rt,
        alloc,
        3,
        false,
        Some(Error::SerializeBufferFull),
        &[0x03, 0x48, 0x69],
    );
}

/// Writes to the first `room` bytes of five, and asserts whether that succeeds, and what the bytes
/// are then.
fn assert_hand_fills(rt: &impl Abort, room: usize, succeeds: bool, want: &[u8; 5]) {
    let mut memory = [0xAA; 5];
    let (front, _) = memory.split_at_mut(room.min(5));
    same(rt, hand(front).is_ok(), succeeds);
    same_bytes(rt, &memory, want);
}

#[test]
fn memory_without_room_refuses(rt: HostRuntime) {
    assert_hand_fills(&rt, 0, false, &[0xAA, 0xAA, 0xAA, 0xAA, 0xAA]);
    assert_hand_fills(&rt, 3, false, &[0x03, 0x48, 0x69, 0xAA, 0xAA]);
    assert_hand_fills(&rt, 4, true, &[0x03, 0x48, 0x69, 0x21, 0xAA]);
    assert_hand_fills(&rt, 5, true, &[0x03, 0x48, 0x69, 0x21, 0xAA]);
}

/// Takes only single bytes, as a user's flavor may, and passes them on.
#[derive(Drop)]
struct Bytewise<F> {
    inner: F,
}

impl<F: Flavor + Drop> Flavor for Bytewise<F> {
    type Output = F::Output;

    ghost appended = { λ s x t. F.appended s.inner x t.inner };

    ghost room = { λ s x. F.room s.inner x };

    ghost tidy = { F.tidy };

    ghost reaches = { λ s t. F.reaches s.inner t.inner };

    ghost finishes = { λ s output. F.finishes s.inner output };

    ghost lawful = { record {
      appended_none = λ s. F.lawful.appended_none s.inner;
      appended_join = λ s t u x y p q. F.lawful.appended_join s.inner t.inner u.inner x y p q;
      room_front = λ s x y r. F.lawful.room_front s.inner x y r;
      room_rest = λ s t x y r p v. F.lawful.room_rest s.inner t.inner x y r p v;
      reaches_self = λ s. F.lawful.reaches_self s.inner;
      reaches_join = λ s t u p q. F.lawful.reaches_join s.inner t.inner u.inner p q;
      reaches_prop = λ s t. F.lawful.reaches_prop s.inner t.inner;
    } };

    fn try_push(&mut self, byte: u8) -> Result<()> {
        self.inner.try_push(byte)
    }

    fn finalize(self) -> Result<F::Output> {
        self.inner.finalize()
    }
}

/// Pieces for a room of four bytes, of which the second is taken in part.
const BYTE_BY_BYTE: [Row<'static>; 2] = [
    (&[1, 0, 3], Ok(())),
    (&[4, 5], Err(Error::SerializeBufferFull)),
];

#[test]
fn a_flavor_without_pieces_takes_them_byte_by_byte(rt: HostRuntime) {
    let mut buffer = [0xAA; 4];
    let mut flavor = Bytewise {
        inner: Slice::new(&mut buffer),
    };
    assert_rows(&rt, &mut flavor, &BYTE_BY_BYTE);
    let (all, count) = flavor.inner.into_parts();
    same(&rt, count, 4);
    same_bytes(&rt, all, &[1, 0, 3, 4]);
}

/// A user's flavor over two others: each piece goes to both, and its output is the two outputs.
#[derive(Drop)]
struct Both<F, G> {
    first: F,
    second: G,
}

impl<F: Flavor + Drop, G: Flavor + Drop> Flavor for Both<F, G>
where
    F::Output: Drop,
{
    type Output = (F::Output, G::Output);

    ghost appended = { λ s x t. F.appended s.first x t.first × G.appended s.second x t.second };

    ghost room = { λ s x. F.room s.first x × G.room s.second x };

    // If the second refuses a piece, the first has it.
    ghost tidy = { ⊥ };

    ghost reaches = { λ s t. F.reaches s.first t.first × G.reaches s.second t.second };

    ghost finishes = { λ s output. F.finishes s.first output.0 × G.finishes s.second output.1 };

    ghost lawful = { record {
      appended_none = λ s. (F.lawful.appended_none s.first, G.lawful.appended_none s.second);
      appended_join = λ s t u x y p q. (
        F.lawful.appended_join s.first t.first u.first x y p.0 q.0,
        G.lawful.appended_join s.second t.second u.second x y p.1 q.1,
      );
      room_front = λ s x y r. (
        F.lawful.room_front s.first x y r.0,
        G.lawful.room_front s.second x y r.1,
      );
      room_rest = λ s t x y r p v. (
        F.lawful.room_rest s.first t.first x y r.0 p.0 v.0,
        G.lawful.room_rest s.second t.second x y r.1 p.1 v.1,
      );
      reaches_self = λ s. (F.lawful.reaches_self s.first, G.lawful.reaches_self s.second);
      reaches_join = λ s t u p q. (
        F.lawful.reaches_join s.first t.first u.first p.0 q.0,
        G.lawful.reaches_join s.second t.second u.second p.1 q.1,
      );
      reaches_prop = λ s t. Prim.hlevel (F.lawful.reaches_prop, G.lawful.reaches_prop);
    } };

    fn try_push(&mut self, byte: u8) -> Result<()> {
        match self.first.try_push(byte) {
            Ok(()) => self.second.try_push(byte),
            Err(error) => Err(error),
        }
    }

    fn try_extend(&mut self, bytes: &[u8]) -> Result<()> {
        match self.first.try_extend(bytes) {
            Ok(()) => self.second.try_extend(bytes),
            Err(error) => Err(error),
        }
    }

    fn finalize(self) -> Result<(F::Output, G::Output)> {
        let Both { first, second } = self;
        match first.finalize() {
            Ok(first) => match second.finalize() {
                Ok(second) => Ok((first, second)),
                Err(error) => Err(error),
            },
            Err(error) => Err(error),
        }
    }
}

#[test]
fn a_user_writes_to_two_flavors(rt: HostRuntime) {
    let both = Both {
        first: Size::default(),
        second: HVec::<4>::new(),
    };
    let (count, vec) = one_to_four(&rt, both);
    same(&rt, count, 4);
    same_bytes(&rt, &vec, &[1, 2, 3, 4]);
}

/// Pieces for a room of three bytes.
const SECOND_REFUSES: [Row<'static>; 2] = [
    (&[1], Ok(())),
    (&[2, 3, 4], Err(Error::SerializeBufferFull)),
];

#[test]
fn the_second_of_two_flavors_refuses(rt: HostRuntime) {
    let mut short = Both {
        first: AllocVec::new(rt.alloc()),
        second: HVec::<3>::new(),
    };
    assert_rows(&rt, &mut short, &SECOND_REFUSES);
}

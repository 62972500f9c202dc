//! Numbers that are varints, read many at a time from bytes that are in memory.

ghost use Rattle.std.specs.Prelude.{◌≡◌, ◌<◌, ◌≤◌, ℕ, List, length, take, IfErr, IfOk, IfSome};
ghost use Rattle.std.specs.Prelude.{OnOk, ◌++◌, refl};
ghost use Rattle.postcard_shape.specs.{Appends, AreValuesOf, IfNone, IsCut, IsNarrow, IsValue};
ghost use Rattle.postcard_shape.specs.{IsVarintOf, inl, inr, int, num, type_size};
ghost use Rattle.postcard_shape.specs.Shape.{Shape};

use postcard_wire::words::{BLOCK, RUN, cut, ends, number_of};
use postcard_wire::zigzag::{
    de_zig_zag_i16, de_zig_zag_i32, de_zig_zag_i64, zig_zag_i16, zig_zag_i32, zig_zag_i64,
};
use postcard_wire::{Error, Result};

/// How many one-byte numbers are read at once. They are called a row.
const ROW: usize = 64;

/// The fewest numbers that are searched for a row. Below this, the search costs more than it saves.
const LEAST: usize = 32;

/// A number that is written as a varint.
pub(crate) trait Varint: Copy + Default {
    ghost width: { ℕ };

    /// The shape of a value, once more: the impls of `Shaped` call [`append`], whose bound can't
    /// lead back to them.
    ghost form: { Shape Self };

    fn bits() -> u32
        ensures bits { result ≡ width }
        ensures narrow { IsNarrow result };

    /// Returns the value whose digits are in a byte each.
    fn of_digits(digits: u64) -> Self
        ensures { (p : List ℕ) → IsCut width p digits → IsValue form p result };

    /// Returns the number whose varint the value is written as: the value, or its zigzag encoding.
    fn to_number(self) -> u64
        ensures { IsVarintOf form result self };
}

impl Varint for u16 {
    ghost width = { 16 };

    ghost form = { num 16 (inl refl) };

    #[inline(always)]
    fn bits() -> u32 {
        u16::BITS
    }

    #[inline(always)]
    fn of_digits(digits: u64) -> u16 {
        (number_of(digits, 16) % 0x1_0000) as u16
    }

    #[inline(always)]
    fn to_number(self) -> u64 {
        u64::from(self)
    }
}

impl Varint for u32 {
    ghost width = { 32 };

    ghost form = { num 32 (inr (inl refl)) };

    #[inline(always)]
    fn bits() -> u32 {
        u32::BITS
    }

    #[inline(always)]
    fn of_digits(digits: u64) -> u32 {
        (number_of(digits, 32) % 0x1_0000_0000) as u32
    }

    #[inline(always)]
    fn to_number(self) -> u64 {
        u64::from(self)
    }
}

impl Varint for u64 {
    ghost width = { 64 };

    ghost form = { num 64 (inr (inr (inl refl))) };

    #[inline(always)]
    fn bits() -> u32 {
        u64::BITS
    }

    #[inline(always)]
    fn of_digits(digits: u64) -> u64 {
        number_of(digits, 64)
    }

    #[inline(always)]
    fn to_number(self) -> u64 {
        self
    }
}

impl Varint for i16 {
    ghost width = { 16 };

    ghost form = { int 16 (inl refl) };

    #[inline(always)]
    fn bits() -> u32 {
        i16::BITS
    }

    #[inline(always)]
    fn of_digits(digits: u64) -> i16 {
        de_zig_zag_i16(u16::of_digits(digits))
    }

    #[inline(always)]
    fn to_number(self) -> u64 {
        u64::from(zig_zag_i16(self))
    }
}

impl Varint for i32 {
    ghost width = { 32 };

    ghost form = { int 32 (inr (inl refl)) };

    #[inline(always)]
    fn bits() -> u32 {
        i32::BITS
    }

    #[inline(always)]
    fn of_digits(digits: u64) -> i32 {
        de_zig_zag_i32(u32::of_digits(digits))
    }

    #[inline(always)]
    fn to_number(self) -> u64 {
        u64::from(zig_zag_i32(self))
    }
}

impl Varint for i64 {
    ghost width = { 64 };

    ghost form = { int 64 (inr (inr (inl refl))) };

    #[inline(always)]
    fn bits() -> u32 {
        i64::BITS
    }

    #[inline(always)]
    fn of_digits(digits: u64) -> i64 {
        de_zig_zag_i64(u64::of_digits(digits))
    }

    #[inline(always)]
    fn to_number(self) -> u64 {
        zig_zag_i64(self)
    }
}

#[inline(always)]
fn row_of_digits<T: Varint>(digits: &[u64; RUN]) -> [T; RUN]
    ensures { AreValuesOf T.width T.form digits.now result }
{
    let mut row = [T::default(); RUN];
    for i in 0..RUN {
        row[i] = T::of_digits(digits[i]);
    }
    row
}

/// Returns the numbers of the first bytes of a block, each of which is one.
#[inline(always)]
fn row_of_bytes<T: Varint>(block: &[u8; BLOCK]) -> [T; ROW]
    ensures { AreValuesOf T.width T.form (take 64 block.now) result }
{
    let mut row = [T::default(); ROW];
    for i in 0..ROW {
        row[i] = T::of_digits(u64::from(block[i]));
    }
    row
}

/// Appends a row to a list. Fails with `OutOfMemory` if there is no room and none is given.
#[inline(always)]
fn push_row<T: Copy>(items: &mut Vec<T>, row: &[T]) -> Result<()>
    ensures appended { OnOk result (items.new.items ≡ items.old.items ++ row.now) }
    ensures only_out_of_memory { IfErr result (λ e. e ≡ Error.OutOfMemory) }
{
    match items.extend_from_slice(row) {
        Ok(()) => Ok(()),
        Err(_) => Err(Error::OutOfMemory),
    }
}

/// Appends some of the next numbers to a list, as `append_at_hand` does, if at least [`LEAST`] are
/// left and the next bytes are as those of most numbers are. Asks for no memory, and so never
/// fails.
#[inline(always)]
pub(crate) fn append<T: Varint>(
    items: &mut Vec<T>,
    bytes: &[u8],
    most: usize,
) -> Result<Option<usize>>
    requires small { type_size T.row ≤ 16 }
    ensures within { IfOk result (λ front. IfSome front
        (λ n. (0 < n) × (n ≤ length bytes.now))) }
    ensures reads { IfOk result (λ front. IfSome front (λ n. Appends T.form.reads T.form.value most
        (take n bytes.now) items.old.items items.new.items)) }
    ensures unchanged_if_none { IfOk result
        (λ front. IfNone front (items.new.items ≡ items.old.items)) }
    ensures only_out_of_memory { IfErr result (λ e. e ≡ Error.OutOfMemory) }
{
    if most < LEAST {
        return Ok(None);
    }
    append_row(items, bytes, most)
}

/// The part of [`append`] for lists that are long enough. It is a function of its own, so that the
/// loop that calls [`append`] stays small.
#[inline(never)]
fn append_row<T: Varint>(items: &mut Vec<T>, bytes: &[u8], most: usize) -> Result<Option<usize>>
    requires small { type_size T.row ≤ 16 }
    ensures within { IfOk result (λ front. IfSome front
        (λ n. (0 < n) × (n ≤ length bytes.now))) }
    ensures reads { IfOk result (λ front. IfSome front (λ n. Appends T.form.reads T.form.value most
        (take n bytes.now) items.old.items items.new.items)) }
    ensures unchanged_if_none { IfOk result
        (λ front. IfNone front (items.new.items ≡ items.old.items)) }
    ensures only_out_of_memory { IfErr result (λ e. e ≡ Error.OutOfMemory) }
{
    let Some(block) = bytes.first_chunk::<BLOCK>() else {
        return Ok(None);
    };
    let bits = T::bits();
    let room = items.capacity().saturating_sub(items.len()).min(most);
    if room < RUN {
        return Ok(None);
    }
    let ends = ends(block);
    if ends == u64::MAX && room >= ROW {
        let row: [T; ROW] = row_of_bytes(block);
        push_row(items, &row)?;
        return Ok(Some(ROW));
    }
    let Some(run) = cut(block, ends, bits) else {
        return Ok(None);
    };
    let row: [T; RUN] = row_of_digits(&run.digits);
    push_row(items, &row)?;
    Ok(Some(run.len))
}

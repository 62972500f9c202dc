//! What a frame asks of its storage: bytes after those that it holds, and code bytes set. A call
//! that pushes bytes fails with `SerializeBufferFull` if the storage fails, by whatever error.

ghost use Rattle.std.specs.Prelude.{◌≡◌, ℕ, ◌+◌, ◌-◌, ◌<◌, ◌≤◌, List, [], ◌∷◌, ◌++◌, length};
ghost use Rattle.std.specs.Prelude.{slice_set, IfOk, IsOkUnless, OnOk, IsOk};
ghost use Rattle.postcard_ser_cobs.specs.{HoldsThen, SetsBelow, changed_from, digits, growth};

use postcard_cobs::{EncoderState, PushResult};
use postcard_ser_flavors::{Flavor, Storage};
use postcard_wire::{Error, Result};

pub(crate) fn push_one<B: Storage>(storage: &mut B, byte: u8) -> Result<()>
    ensures appends { OnOk result (B.held storage.new ≡ B.held storage.old ++ byte ∷ []) }
    ensures has_room { B.free storage.old 1 → IsOk result }
    ensures leaves { B.reaches storage.old storage.new }
    ensures keeps_free { OnOk result
        ((n : ℕ) → B.free storage.old (1 + n) → B.free storage.new n) }
    ensures refuses_by_buffer_full { IsOkUnless result Error.SerializeBufferFull }
{
    match storage.try_push(byte) {
        Ok(()) => Ok(()),
        Err(_) => Err(Error::SerializeBufferFull),
    }
}

pub(crate) fn push_piece<B: Storage>(storage: &mut B, bytes: &[u8]) -> Result<()>
    ensures appends { OnOk result (B.held storage.new ≡ B.held storage.old ++ bytes.now) }
    ensures has_room { B.free storage.old (length bytes.now) → IsOk result }
    ensures leaves { B.reaches storage.old storage.new }
    ensures keeps_free { OnOk result
        ((n : ℕ) → B.free storage.old (length bytes.now + n) → B.free storage.new n) }
    ensures refuses_by_buffer_full { IsOkUnless result Error.SerializeBufferFull }
{
    match storage.try_extend(bytes) {
        Ok(()) => Ok(()),
        Err(_) => Err(Error::SerializeBufferFull),
    }
}

/// Pushes the varint of a number, and returns the number of its bytes.
#[inline(always)]
pub(crate) fn push_varint<B: Storage>(storage: &mut B, n: u64) -> Result<usize>
    ensures appends { OnOk result (B.held storage.new ≡ B.held storage.old ++ digits n) }
    ensures counts { IfOk result (λ len. len ≡ length (digits n)) }
    ensures has_room { B.free storage.old (length (digits n)) → IsOk result }
    ensures leaves { B.reaches storage.old storage.new }
    ensures keeps_free { OnOk result
        ((m : ℕ) → B.free storage.old (length (digits n) + m) → B.free storage.new m) }
    ensures refuses_by_buffer_full { IsOkUnless result Error.SerializeBufferFull }
{
    let before = storage.held_len();
    match storage.try_varint(n) {
        Ok(()) => Ok(storage.held_len() - before),
        Err(_) => Err(Error::SerializeBufferFull),
    }
}

/// Sets a code byte at a place that is counted from the first byte of the frame, which is at the
/// place `start` of the storage.
pub(crate) fn set_code<B: Storage>(storage: &mut B, start: usize, place: usize, code: u8)
    requires { start + place < length (B.held storage.old) }
    ensures sets { B.held storage.new ≡ slice_set (B.held storage.old) (start + place) code }
    ensures leaves { B.reaches storage.old storage.new }
    ensures keeps_free { (n : ℕ) → B.free storage.old n → B.free storage.new n }
{
    // For the prover: the number of bytes held fits a `usize`, and so does each place among them.
    let _held = storage.held_len();
    storage.set(start + place, code);
}

/// Takes a piece of data that the storage already holds at its end, after an open frame: sets the
/// code of each group that a zero of the piece ends. The zero is then the place of the next code.
/// Returns the state of the encoder after the piece.
///
/// The piece must be too short to make a group full, and the frame with it must be countable.
#[inline(always)]
pub(crate) fn set_codes<B: Storage>(
    storage: &mut B,
    start: usize,
    encoder: EncoderState,
    piece: &[u8],
) -> EncoderState
    requires short { length piece.now < 255 - encoder.code }
    requires countable { encoder.code_at + encoder.code + length piece.now ≤ usize.MAX - 2 }
    requires held { start + (encoder.code_at + encoder.code + length piece.now)
        ≤ length (B.held storage.old) }
    ensures opens { (before d : List ℕ)
        → HoldsThen B.held storage.old start encoder before d piece.now
        → HoldsThen B.held storage.new start result before (d ++ piece.now) [] }
    ensures same_length { length (B.held storage.new) ≡ length (B.held storage.old) }
    ensures leaves { B.reaches storage.old storage.new }
    ensures keeps_free { (n : ℕ) → B.free storage.old n → B.free storage.new n }
{
    let mut encoder = encoder;
    for byte in piece {
        if let PushResult::ModifyFromStartAndSkip((place, code)) = encoder.push(*byte) {
            set_code(storage, start, place, code);
        }
    }
    encoder
}

/// Does what the encoder returned for a byte. After a failure the first of two bytes may be
/// appended.
pub(crate) fn take_step<B: Storage>(storage: &mut B, start: usize, step: PushResult) -> Result<()>
    requires { SetsBelow start (length (B.held storage.old)) step }
    ensures changes { OnOk result
        (B.held storage.new ≡ changed_from start (B.held storage.old) step) }
    ensures has_room { B.free storage.old (growth step) → IsOk result }
    ensures leaves { B.reaches storage.old storage.new }
    ensures keeps_free { OnOk result
        ((n : ℕ) → B.free storage.old (growth step + n) → B.free storage.new n) }
    ensures refuses_by_buffer_full { IsOkUnless result Error.SerializeBufferFull }
{
    match step {
        PushResult::AddSingle(byte) => push_one(storage, byte),
        PushResult::ModifyFromStartAndSkip((place, code)) => {
            set_code(storage, start, place, code);
            push_one(storage, 0)
        }
        PushResult::ModifyFromStartAndPushAndSkip((place, code, byte)) => {
            set_code(storage, start, place, code);
            push_one(storage, byte)?;
            push_one(storage, 0)
        }
    }
}

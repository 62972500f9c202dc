//! What holds of the bytes of numbers, as contracts of functions that do nothing.

ghost use Rattle.std.specs.Prelude.{◌≡◌, ◌↔◌, ◌<◌, ◌^◌, ℕ, List, length};
ghost use Rattle.postcard_fixint.specs.{AreNumber, big, canonical, fixed, little};

use crate::number::FixInt;

/// For a number below `256^k` there is exactly one list of `k` bytes whose value in base 256 is the
/// number: with the lowest byte first, and likewise with the highest first.
pub fn base_256()
    ensures lowest_first { (k n : ℕ) (p : List ℕ) → n < 256 ^ k →
        AreNumber little.value k n p ↔ (p ≡ little.spell k n) }
    ensures highest_first { (k n : ℕ) (p : List ℕ) → n < 256 ^ k →
        AreNumber big.value k n p ↔ (p ≡ big.spell k n) }
{}

/// [`crate::LE`] and [`crate::BE`] write exactly the bytes of the number, whose count the type says.
pub fn encoded<T: FixInt>()
    ensures lowest_first { (v : T) → canonical ((fixed little T.width).tree v)
        ≡ little.spell T.width.size (T.width.modulo v) }
    ensures highest_first { (v : T) → canonical ((fixed big T.width).tree v)
        ≡ big.spell T.width.size (T.width.modulo v) }
    ensures little_len { (v : T) → length (canonical ((fixed little T.width).tree v))
        ≡ T.width.size }
    ensures big_len { (v : T) → length (canonical ((fixed big T.width).tree v)) ≡ T.width.size }
{}

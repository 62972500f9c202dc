//! What a checksum says of its message, as contracts of functions that do nothing.
//!
//! A message is read as the bits of its bytes in a row, of each byte the lowest first if `refin`,
//! as a serial line sends them. A checked message is a message and then its checksum in `k` bytes,
//! the lowest first; `refin` and `refout` are true.

ghost use Rattle.std.specs.Prelude.{◌≡◌, ◌+◌, ◌*◌, ◌^◌, ◌<◌, ◌≤◌, ◌++◌, true, ℕ, List, length};
ghost use Rattle.std.specs.Prelude.{bit_xor, IsTrue};
ghost use Rattle.crc.specs.{AreBytes, AreTwo, Congruent, HasOrderFrom, HasParity, IsBurst};
ghost use Rattle.crc.specs.{IsChecked, IsCrc, IsOddDamage, IsSound, Parameters, generator, message};
ghost use Rattle.crc.specs.{product, shows_order};

/// A message has at most one checksum.
pub fn one_checksum()
    ensures { (a : Parameters) → IsSound a → (m : List ℕ) (c d : ℕ)
        → IsCrc a m c → IsCrc a m d → c ≡ d }
{}

/// Two messages of one length and one checksum that differ only within `width` bits in a row are
/// equal.
pub fn burst_in_message()
    ensures { (a : Parameters) → IsSound a → (m n : List ℕ) (c : ℕ)
        → length m ≡ length n → AreBytes m → AreBytes n → IsCrc a m c → IsCrc a n c
        → IsBurst a.width (bit_xor (message a.refin m) (message a.refin n)) → m ≡ n }
{}

/// Two messages of one length and one checksum don't differ in an odd number of bits, if x + 1
/// divides the generator.
pub fn odd_in_message()
    ensures { (a : Parameters) → IsSound a → HasParity a → (m n : List ℕ) (c k : ℕ)
        → length m ≡ length n → IsCrc a m c → IsCrc a n c
        → IsOddDamage k (bit_xor (message a.refin m) (message a.refin n)) → ⊥ }
{}

/// Two messages of one length and one checksum don't differ in just two bits that are less than the
/// order of x modulo the generator apart.
pub fn two_in_message()
    ensures { (a : Parameters) → IsSound a → (k d : ℕ) → HasOrderFrom k a → 0 < d → d < k
        → (m n : List ℕ) (c : ℕ) → length m ≡ length n → IsCrc a m c → IsCrc a n c
        → AreTwo d (bit_xor (message a.refin m) (message a.refin n)) → ⊥ }
{}

/// Two checked messages of one length that differ only within `width` bits in a row, those of their
/// checksums included, are equal.
pub fn burst_in_checked()
    ensures { (a : Parameters) (k i : ℕ) → IsSound a → a.refin ≡ true → a.refout ≡ true
        → a.width + i ≡ 8 * k → (f g : List ℕ) → length f ≡ length g
        → AreBytes f → AreBytes g → IsChecked a k f → IsChecked a k g
        → IsBurst a.width (bit_xor (message a.refin f) (message a.refin g)) → f ≡ g }
{}

/// Two checked messages of one length that differ only in bytes in a row, as many as the checksum
/// has or fewer, are equal.
pub fn bytes_in_checked()
    ensures { (a : Parameters) (k i : ℕ) → IsSound a → a.refin ≡ true → a.refout ≡ true
        → a.width + i ≡ 8 * k → (p x y s : List ℕ) → length x ≡ length y → 8 * length x ≤ a.width
        → AreBytes p → AreBytes x → AreBytes y → AreBytes s
        → IsChecked a k (p ++ x ++ s) → IsChecked a k (p ++ y ++ s) → x ≡ y }
{}

/// Two checked messages of one length don't differ in an odd number of bits, if x + 1 divides the
/// generator.
pub fn odd_in_checked()
    ensures { (a : Parameters) (k i : ℕ) → IsSound a → a.refin ≡ true → a.refout ≡ true
        → a.width + i ≡ 8 * k → HasParity a → (f g : List ℕ) (b : ℕ) → length f ≡ length g
        → IsChecked a k f → IsChecked a k g
        → IsOddDamage b (bit_xor (message a.refin f) (message a.refin g)) → ⊥ }
{}

/// Two checked messages of one length don't differ in just two bits that are less than the order of
/// x modulo the generator apart.
pub fn two_in_checked()
    ensures { (a : Parameters) (k i : ℕ) → IsSound a → a.refin ≡ true → a.refout ≡ true
        → a.width + i ≡ 8 * k → (b d : ℕ) → HasOrderFrom b a → 0 < d → d < b
        → (f g : List ℕ) → length f ≡ length g → IsChecked a k f → IsChecked a k g
        → AreTwo d (bit_xor (message a.refin f) (message a.refin g)) → ⊥ }
{}

/// The order of x modulo a generator is the product of some primes if x to the product is congruent
/// to 1, and not if a prime is left out. The test takes about as many steps as the order has
/// digits, where [`order_from`](crate::order_from) takes as many as the order. The primes are
/// tested by each number up to `k + 1`, and are below `(k + 2)^2`.
pub fn order_by_primes()
    ensures none_below { (a : Parameters) (k : ℕ) (primes : List ℕ)
        → IsTrue (shows_order a.width a.poly k primes) → HasOrderFrom (product primes) a }
    ensures is_order { (a : Parameters) (k : ℕ) (primes : List ℕ)
        → IsTrue (shows_order a.width a.poly k primes)
        → Congruent (generator a) (2 ^ product primes) 1 }
{}

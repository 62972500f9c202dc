//! A generator of random choices, by the method splitmix64.

use crate::choices::Choices;
use std::alloc::Global;
use std::time::Duration;

/// A generator of random choices, which are the same for the same seed.
#[derive(Drop)]
pub(crate) struct Random {
    state: u64,
    alloc: Global,
}

impl Random {
    /// Returns a generator with this seed.
    pub(crate) fn new(alloc: Global, seed: u64) -> Random {
        Random { state: seed, alloc }
    }

    /// Returns the next 64 random bits.
    pub(crate) fn next(&mut self) -> u64 {
        self.state = self.state.wrapping_add(0x9E37_79B9_7F4A_7C15);
        let mut mixed = self.state;
        mixed = (mixed ^ (mixed >> 30)).wrapping_mul(0xBF58_476D_1CE4_E5B9);
        mixed = (mixed ^ (mixed >> 27)).wrapping_mul(0x94D0_49BB_1331_11EB);
        mixed ^ (mixed >> 31)
    }

    /// Returns a random number below `end`, or 0 if `end` is 0.
    pub(crate) fn below(&mut self, end: usize) -> usize {
        let random = self.next() as usize;
        random.checked_rem(end).unwrap_or(0)
    }

    /// Returns `true` in one of `count` cases, at random.
    pub(crate) fn one_in(&mut self, count: usize) -> bool {
        self.below(count) == 0
    }

    /// Returns a number of a random length in bits, or the complement of such a number.
    fn bits(&mut self) -> u128 {
        let all = (u128::from(self.next()) << 64) | u128::from(self.next());
        let number = all >> (self.next() % 128);
        if self.one_in(2) { number } else { !number }
    }

    /// Returns the low 8 bits of a number of a random length.
    pub(crate) fn low_byte(&mut self) -> u8 {
        (self.bits() & 0xFF) as u8
    }

    /// Returns a random character, whose code has a random length in bits.
    fn any_character(&mut self) -> char {
        let code = (self.bits() & 0xFFFF_FFFF) as u32 % 0x11_0000;
        char::from_u32(code).unwrap_or('ß')
    }
}

impl Choices for Random {
    fn alloc(&self) -> Global {
        self.alloc
    }

    fn byte(&mut self) -> Option<u8> {
        Some(self.low_byte())
    }

    fn number(&mut self, most: u128) -> Option<u128> {
        Some(self.bits() & most)
    }

    fn flag(&mut self) -> Option<bool> {
        Some(self.one_in(2))
    }

    fn variant(&mut self, count: u32) -> Option<u32> {
        let random = (self.next() & 0xFFFF_FFFF) as u32;
        random.checked_rem(count)
    }

    fn count(&mut self, most: usize) -> Option<usize> {
        Some(self.below(6).min(most))
    }

    fn character(&mut self) -> Option<char> {
        Some(self.any_character())
    }

    fn text(&mut self, most: usize) -> Option<String> {
        let mut text = String::new(self.alloc);
        for _ in 0..self.below(12) {
            let next = self.any_character();
            if text.len().saturating_add(next.len_utf8()) <= most {
                text.push(next).ok()?;
            }
        }
        Some(text)
    }

    fn duration(&mut self) -> Option<Duration> {
        let nanos = (self.bits() & 0xFFFF_FFFF) as u32 % 1_000_000_000;
        let secs = (self.bits() & 0xFFFF_FFFF_FFFF_FFFF) as u64;
        Some(Duration::new(secs, nanos))
    }
}

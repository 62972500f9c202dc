//! A decoder of frames and of the parts of values, slow and plain, by the definitions of the wire
//! format. It calls nothing of the library.

use crate::choices::Choices;
use std::alloc::Global;
use std::time::Duration;

/// The bytes that weren't read yet.
#[derive(Drop)]
pub(crate) struct Plain<'a> {
    left: &'a [u8],
    alloc: Global,
}

impl<'a> Plain<'a> {
    /// Returns a decoder of values at the start of these bytes.
    pub(crate) fn new(alloc: Global, bytes: &'a [u8]) -> Plain<'a> {
        Plain { left: bytes, alloc }
    }

    /// Takes the next `len` bytes as a string, if they are UTF-8.
    fn utf8(&mut self, len: usize) -> Option<&'a str> {
        let (front, rest) = self.left.split_at_checked(len)?;
        self.left = rest;
        str::from_utf8(front).ok()
    }
}

impl Choices for Plain<'_> {
    fn alloc(&self) -> Global {
        self.alloc
    }

    fn byte(&mut self) -> Option<u8> {
        let (first, rest) = self.left.split_first()?;
        self.left = rest;
        Some(*first)
    }

    /// Takes a varint. The low 7 bits of each byte are a digit, the lowest first. The high bit is
    /// set if another digit follows. There are no more digits than the greatest number needs.
    fn number(&mut self, most: u128) -> Option<u128> {
        let mut number = 0u128;
        let mut unit = 1u128;
        for _ in 0..19 {
            let byte = self.byte()?;
            let digit = u128::from(byte % 128).checked_mul(unit)?;
            number = number.checked_add(digit)?;
            if byte < 128 {
                return if number <= most { Some(number) } else { None };
            }
            unit = unit.saturating_mul(128);
            if unit > most {
                return None;
            }
        }
        None
    }

    /// Takes one byte, 0 or 1.
    fn flag(&mut self) -> Option<bool> {
        match self.byte()? {
            0 => Some(false),
            1 => Some(true),
            _ => None,
        }
    }

    /// Takes a varint of 32 bits.
    fn variant(&mut self, count: u32) -> Option<u32> {
        let index = u32::try_from(self.number(0xFFFF_FFFF)?).ok()?;
        if index < count { Some(index) } else { None }
    }

    /// Takes a varint of 64 bits.
    fn count(&mut self, most: usize) -> Option<usize> {
        let count = usize::try_from(self.number(0xFFFF_FFFF_FFFF_FFFF)?).ok()?;
        if count <= most { Some(count) } else { None }
    }

    /// Takes a string of at most four bytes, and returns its first character.
    fn character(&mut self) -> Option<char> {
        let len = self.count(4)?;
        self.utf8(len)?.chars().next()
    }

    /// Takes the number of bytes, and then the bytes.
    fn text(&mut self, most: usize) -> Option<String> {
        let len = self.count(most)?;
        String::from_str(self.alloc, self.utf8(len)?).ok()
    }

    /// Takes the seconds and the nanoseconds. Each thousand million nanoseconds are one more
    /// second.
    fn duration(&mut self) -> Option<Duration> {
        let secs = u64::try_from(self.number(0xFFFF_FFFF_FFFF_FFFF)?).ok()?;
        let nanos = u32::try_from(self.number(0xFFFF_FFFF)?).ok()?;
        let secs = secs.checked_add(u64::from(nanos / 1_000_000_000))?;
        Some(Duration::new(secs, nanos % 1_000_000_000))
    }
}

/// Returns the data of a frame, given without its zero, or `None` if it is no COBS frame. A group
/// is a code byte `n` and `n - 1` bytes. A zero in the data follows if the code byte isn't 255 and
/// another group comes.
pub(crate) fn data_of(alloc: Global, frame: &[u8]) -> Option<Vec<u8>> {
    let mut data = Vec::new(alloc);
    let mut left = frame;
    for _ in frame {
        let (code, rest) = left.split_first()?;
        let len = usize::from(*code).checked_sub(1)?;
        let (group, later) = rest.split_at_checked(len)?;
        data.extend_from_slice(group).ok()?;
        if later.is_empty() {
            return Some(data);
        }
        if *code < 255 {
            data.push(0).ok()?;
        }
        left = later;
    }
    None
}

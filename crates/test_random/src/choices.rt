//! The parts of which values are made, wherever they come from.

use std::alloc::Global;
use std::time::Duration;

/// A source of values: random choices, or bytes that encode them. Each method returns `None` if
/// there is no such part, or if an allocation fails.
pub(crate) trait Choices {
    /// Returns the allocator for values that allocate.
    fn alloc(&self) -> Global;

    /// Returns a byte.
    fn byte(&mut self) -> Option<u8>;

    /// Returns a number of at most `most`, which is the greatest of its type.
    fn number(&mut self, most: u128) -> Option<u128>;

    /// Returns a `bool`.
    fn flag(&mut self) -> Option<bool>;

    /// Returns the index of one of `count` variants.
    fn variant(&mut self, count: u32) -> Option<u32>;

    /// Returns a number of elements, at most `most`.
    fn count(&mut self, most: usize) -> Option<usize>;

    /// Returns a character.
    fn character(&mut self) -> Option<char>;

    /// Returns a string of at most `most` bytes.
    fn text(&mut self, most: usize) -> Option<String>;

    /// Returns a duration.
    fn duration(&mut self) -> Option<Duration>;
}

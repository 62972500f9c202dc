//! The encodings of the first items of a list, by which many are written at once.

/// The encodings of some first items of a list, one after the other (`Shaped::first_bytes`).
#[derive(Drop)]
pub enum FirstBytes<'a> {
    /// The encodings of all items.
    Whole(&'a [u8]),
    /// The encodings of some first items, which have 16 bytes together, and the number of these
    /// items, which is at least 1.
    Block([u8; 16], usize),
    /// The same of items that have 64 bytes together.
    Row([u8; 64], usize),
    /// The encodings of no items. This many first items, at least 1, are written one by one, and
    /// then the type is asked again.
    SomeOneByOne(usize),
    /// The encodings of no items, which are all written one by one.
    OneByOne,
}

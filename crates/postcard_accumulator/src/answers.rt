//! What a feed of an accumulator returns, and what `read_frames` collects.

/// The result of `feed`, and of `take_in`, where the value is the frame's data. Except for
/// `Consumed`, each has the bytes of the piece that weren't taken in, which may be none. Feed these
/// next.
#[derive(Drop)]
pub enum FeedResult<'a, T> {
    /// All of the piece was consumed, and no frame ended except one that was being skipped.
    Consumed,
    /// A frame has no room in the accumulator. It is dropped through the zero that ends it, which
    /// may come in a later piece.
    OverFull(&'a [u8]),
    /// A frame ended that has no value of the type. It is no COBS frame, or its data doesn't begin
    /// with an accepted encoding of a value, or an allocation for the value failed. The frame is
    /// dropped.
    DeserError(&'a [u8]),
    /// A frame ended, and its value was decoded.
    Success {
        value: T,
        /// The bytes after the frame's zero.
        remaining: &'a [u8],
    },
}

/// The answer to one frame of a stream: a [`FeedResult`] without the rest of the piece.
#[derive(Debug, PartialEq, Eq, Drop)]
pub enum Answer<T> {
    OverFull,
    DeserError,
    Success(T),
}

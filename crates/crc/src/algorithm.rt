//! The parameters of an algorithm.

/// The parameters of an algorithm, after R. Williams, "A painless guide to CRC error detection
/// algorithms", 1993. Its checksums are of the type `W`, `u8` to `u128`.
#[derive(Clone, Copy)]
pub struct Algorithm<W> {
    /// The number of bits of a checksum, from 1 to the number of bits of `W`.
    pub width: u8,
    /// The generator without its highest power: bit `i` is the coefficient of x^i.
    pub poly: W,
    /// What is added to the first bits of a message.
    pub init: W,
    /// Whether the lowest bit of each byte of a message comes first.
    pub refin: bool,
    /// Whether the lowest bit of a checksum is the coefficient of the highest power.
    pub refout: bool,
    /// What is added to the remainder, after `refout`.
    pub xorout: W,
    /// The checksum of the nine bytes of the text `123456789`.
    pub check: W,
    /// The remainder, before `xorout`, of a message with its checksum after it, in the order in
    /// which the algorithm sends them.
    pub residue: W,
}

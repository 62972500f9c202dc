//! Small records: a struct of four fields, written and read as the tuple of its fields.

use postcard::ser_flavors::Flavor;
use postcard::{
    FromRepr, Repr, Result, Serialize, SerializeRepr, Serializer, take_from_bytes, to_allocvec,
    to_slice,
};
use std::alloc::Global;

/// A record whose encoding has some twenty bytes, such as a device sends.
#[derive(Drop)]
pub struct Record<'a> {
    a: u32,
    b: u16,
    c: Option<u8>,
    d: &'a str,
}

impl<'a> Repr for Record<'a> {
    type As = (u32, u16, Option<u8>, &'a str);

    ghost repr = { λ v. (v.a, v.b, v.c, v.d) };
}

impl FromRepr for Record<'_> {
    fn from_repr((a, b, c, d): Self::As) -> Self {
        Record { a, b, c, d }
    }
}

impl SerializeRepr for Record<'_> {
    fn serialize_repr<F: Flavor>(&self, serializer: &mut Serializer<F>) -> Result<()> {
        (self.a, self.b, self.c, self.d).serialize(serializer)
    }
}

impl Record<'_> {
    /// Returns the `i`th record. Its numbers have each length that a varint of their width can
    /// have.
    pub fn numbered(i: u32) -> Record<'static> {
        let mixed = i.wrapping_mul(2_654_435_761);
        let high = mixed >> 16;
        let b = if i % 2 == 0 { high } else { high >> 8 };
        Record {
            a: mixed >> (i % 4 * 8),
            b: b as u16,
            c: if i % 3 == 0 {
                None
            } else {
                Some((i % 256) as u8)
            },
            d: "twelve bytes",
        }
    }

    /// Returns the sum of the record's numbers, with 7 for an absent one, and of the text's length.
    pub fn sum(&self) -> u64 {
        let c = match self.c {
            Some(byte) => u64::from(byte),
            None => 7,
        };
        u64::from(self.a)
            .wrapping_add(u64::from(self.b))
            .wrapping_add(c)
            .wrapping_add(self.d.len() as u64)
    }
}

/// Encodes `count` records, each into the front of `out`. Returns the sum of the lengths and of the
/// last bytes of their encodings.
#[unsafe(no_mangle)]
pub extern "C" fn port_small_encode(count: u32, out: &mut [u8]) -> u64 {
    let mut sum: u64 = 0;
    for i in 0..count {
        let Ok(front) = to_slice(&Record::numbered(i), &mut *out) else {
            return u64::MAX;
        };
        let last = front.last().map_or(0, |byte| u64::from(*byte));
        sum = sum.wrapping_add(front.len() as u64).wrapping_add(last);
    }
    sum
}

/// Encodes the `i`th record into the front of `out`. Returns the number of bytes of its encoding.
#[unsafe(no_mangle)]
pub extern "C" fn port_record(i: u32, out: &mut [u8]) -> u64 {
    match to_slice(&Record::numbered(i), out) {
        Ok(front) => front.len() as u64,
        Err(_) => u64::MAX,
    }
}

/// Encodes `count` records, each into a new vector, which is dropped. Returns the sum of the lengths of their encodings.
#[unsafe(no_mangle)]
pub extern "C" fn port_small_allocate(alloc: Global, count: u32) -> u64 {
    let mut sum: u64 = 0;
    for i in 0..count {
        match to_allocvec(alloc, &Record::numbered(i)) {
            Ok(bytes) => sum = sum.wrapping_add(bytes.len() as u64),
            Err(_) => return u64::MAX,
        }
    }
    sum
}

/// Encodes `count` records into `out`, one after another. Returns the number of bytes of their
/// encodings.
#[unsafe(no_mangle)]
pub extern "C" fn port_small_stream(count: u32, out: &mut [u8]) -> u64 {
    let mut used: usize = 0;
    for i in 0..count {
        let Some(rest) = out.get_mut(used..) else {
            return u64::MAX;
        };
        match to_slice(&Record::numbered(i), rest) {
            Ok(front) => used = used.saturating_add(front.len()),
            Err(_) => return u64::MAX,
        }
    }
    used as u64
}

/// Decodes records until no byte is left. Returns the sum of [`Record::sum`] over them.
#[unsafe(no_mangle)]
pub extern "C" fn port_small_decode(alloc: Global, bytes: &[u8]) -> u64 {
    let mut sum: u64 = 0;
    let mut rest = bytes;
    // A record has at least one byte.
    for _ in 0..bytes.len() {
        if rest.is_empty() {
            break;
        }
        match take_from_bytes::<Record>(alloc, rest) {
            Ok((record, left)) => {
                sum = sum.wrapping_add(record.sum());
                rest = left;
            }
            Err(_) => return u64::MAX,
        }
    }
    sum
}

//! Which types hold no memory of their own.

use crate::form::named;
use crate::item::{Item, Span};
use crate::pieces::name_of;
use postcard_source::declaration::Kind;
use postcard_source::token::{Token, is_at, is_name_at, token_at};

/// Words of types that hold no memory of their own.
const NO_MEMORY: [&[u8]; 44] = [
    b"u8",
    b"u16",
    b"u32",
    b"u64",
    b"u128",
    b"usize",
    b"i8",
    b"i16",
    b"i32",
    b"i64",
    b"i128",
    b"isize",
    b"f32",
    b"f64",
    b"bool",
    b"char",
    b"str",
    b"Option",
    b"Result",
    b"ArrayVec",
    b"ArrayString",
    b"PhantomData",
    b"Wrapping",
    b"Saturating",
    b"Reverse",
    b"Duration",
    b"SystemTime",
    b"Range",
    b"RangeInclusive",
    b"RangeFrom",
    b"RangeTo",
    b"Bound",
    b"Ipv4Addr",
    b"Ipv6Addr",
    b"IpAddr",
    b"SocketAddrV4",
    b"SocketAddrV6",
    b"SocketAddr",
    b"LE",
    b"BE",
    b"NonZeroU8",
    b"NonZeroU16",
    b"NonZeroU32",
    b"NonZeroU64",
];

/// Returns whether an item holds no memory, unless one of its parameters does.
pub(crate) fn is_light(tokens: &[Token], items: &[Item], item: &Item) -> bool {
    let parameters = item.parameters.types.as_slice();
    if item.kind == Kind::Alias {
        return are_light(tokens, items, parameters, item.words);
    }
    for member in &item.members {
        for field in &member.fields {
            if !are_light(tokens, items, parameters, field.words) {
                return false;
            }
        }
    }
    true
}

/// Returns whether these words of a type hold no memory, where the parameters hold none.
pub(crate) fn are_light(
    tokens: &[Token],
    items: &[Item],
    parameters: &[&str],
    words: Span,
) -> bool {
    for at in words.start..words.end {
        let is_last = !is_at(tokens, at.saturating_add(1), b"::");
        if let Some(token) = token_at(tokens, at) {
            if is_name_at(tokens, at) && is_last && !is_light_word(items, parameters, token) {
                return false;
            }
        }
    }
    true
}

fn is_light_word(items: &[Item], parameters: &[&str], token: Token) -> bool {
    if NO_MEMORY.iter().any(|word| token.says(word)) {
        return true;
    }
    if parameters
        .iter()
        .any(|text| token.says(name_of(text).as_bytes()))
    {
        return true;
    }
    match named(items, token) {
        Some(item) => item.found.is_light,
        None => false,
    }
}

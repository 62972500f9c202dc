//! Reading bytes from a pasted text of hexadecimal digits, with separators between the bytes or as
//! the lines of a dump. The functions below [`read`] fail as it does.

ghost use Rattle.std.specs.Prelude.{◌≡◌, ◌==◌, ◌≤◌, ◌+◌, ◌⊎◌, ℕ, List, length, take, true, not};
ghost use Rattle.std.specs.Prelude.{IfOk, IfErr};
ghost use Rattle.pcard_bytes.specs.{AreBytesOf, IsLine, IsWord, IsWrongAt, IsWrongHex};
ghost use Rattle.pcard_bytes.specs.{IsWrongLine, IsWrongWord, SpellsBytes};
ghost use Rattle.pcard_bytes.specs.{begins_blank, begins_with_byte, begins_with_digits};
ghost use Rattle.pcard_bytes.specs.{characters, column_of, digits_of, is_ascii_hexdigit};
ghost use Rattle.pcard_bytes.specs.{is_ascii_whitespace, is_dump, is_lone_offset, is_of_hexdump};
ghost use Rattle.pcard_bytes.specs.{is_of_xxd, is_separator, list_all, position, start_of, up_to};
ghost use Rattle.pcard_bytes.specs.{words_of, wrong_digit};

use crate::digits::decode;
use crate::input::InputError;
use postcard_schema_text::scan::character_of;
use std::alloc::Global;

/// Returns the bytes of a text: those of the words of its lines, in order. In a line that `xxd` or
/// `hexdump -C` printed, the offset and the text after the bytes are skipped. Fails with `BadHex`
/// if a word isn't an even number of digits. A word may begin with `0x`.
pub fn read(alloc: Global, text: &[u8]) -> Result<Vec<u8>, InputError>
    ensures value { IfOk result (λ bytes. SpellsBytes text.now bytes.items) }
    ensures only { IfOk result (λ bytes. (other : List ℕ) → SpellsBytes text.now other
        → other ≡ bytes.items) }
    ensures refused { IfErr result (λ e. ((n : ℕ) × (e ≡ InputError.BadHex n)
        × IsWrongHex text.now n) ⊎ (e ≡ InputError.OutOfMemory)) }
{
    let dump = is_dump(text);
    let mut bytes = Vec::new(alloc);
    let mut rest = text;
    'lines: while let Some(end) = end_of_line(rest) {
        let place = text.len() - rest.len();
        bytes.extend_from_slice(&read_line(alloc, text, place, &rest[..end], dump)?)?;
        rest = &rest[end + 1..];
    }
    let place = text.len() - rest.len();
    bytes.extend_from_slice(&read_line(alloc, text, place, rest, dump)?)?;
    Ok(bytes)
}

/// Returns the bytes of a line, which begins at the index `place` of the text. In a `dump`, eight
/// digits alone are an offset.
fn read_line(
    alloc: Global,
    text: &[u8],
    place: usize,
    line: &[u8],
    dump: bool,
) -> Result<Vec<u8>, InputError>
    requires { place + length line.now ≤ length text.now }
    ensures value { IfOk result (λ bytes. IsLine dump line.now bytes.items) }
    ensures refused { IfErr result (λ e. ((n : ℕ)
        × (e ≡ InputError.BadHex (characters (take (place + n) text.now) + 1))
        × IsWrongLine dump line.now n) ⊎ (e ≡ InputError.OutOfMemory)) }
{
    let (start, column) = column(line, dump);
    read_words(alloc, text, place + start, column)
}

/// Returns the bytes of words, which begin at the index `place` of the text.
fn read_words(alloc: Global, text: &[u8], place: usize, words: &[u8]) -> Result<Vec<u8>, InputError>
    requires { place + length words.now ≤ length text.now }
    ensures value { IfOk result (λ bytes. AreBytesOf IsWord (words_of words.now) bytes.items) }
    ensures refused { IfErr result (λ e. ((n : ℕ)
        × (e ≡ InputError.BadHex (characters (take (place + n) text.now) + 1))
        × IsWrongAt IsWord IsWrongWord (words_of words.now) n)
        ⊎ (e ≡ InputError.OutOfMemory)) }
{
    let mut bytes = Vec::new(alloc);
    let mut rest = words;
    'words: while let Some(end) = end_of_word(rest) {
        let before = words.len() - rest.len();
        bytes.extend_from_slice(&read_word(alloc, text, place + before, &rest[..end])?)?;
        rest = &rest[end + 1..];
    }
    let before = words.len() - rest.len();
    bytes.extend_from_slice(&read_word(alloc, text, place + before, rest)?)?;
    Ok(bytes)
}

/// Returns the bytes of a word, which begins at the index `place` of the text. `BadHex` has the
/// number of the first wrong character of the text, counted from 1.
fn read_word(alloc: Global, text: &[u8], place: usize, word: &[u8]) -> Result<Vec<u8>, InputError>
    requires { place + length word.now ≤ length text.now }
    ensures value { IfOk result (λ bytes. IsWord word.now bytes.items) }
    ensures refused { IfErr result (λ e. ((n : ℕ)
        × (e ≡ InputError.BadHex (characters (take (place + n) text.now) + 1))
        × IsWrongWord word.now n) ⊎ (e ≡ InputError.OutOfMemory)) }
{
    let digits = digits(word);
    match decode(alloc, digits)? {
        Some(bytes) => Ok(bytes),
        None => {
            let wrong = place + (word.len() - digits.len()) + wrong_digit(digits);
            Err(InputError::BadHex(character_of(text, text.len() - wrong)))
        }
    }
}

/// Returns the digits of a word, without a `0x` before them.
fn digits(word: &[u8]) -> &[u8]
    ensures digits { result.now ≡ digits_of word.now }
    ensures within { length result.now ≤ length word.now }
{
    match word {
        [b'0', b'x', digits @ ..] => digits,
        _ => word,
    }
}

/// Returns the index of the first byte that is no digit, or else of the last.
#[tactic(auto, unfolding(crate::specs::Hexadecimal::wrong_digit))]
fn wrong_digit(digits: &[u8]) -> usize
    ensures is { result ≡ wrong_digit digits.now }
    ensures within { result ≤ length digits.now }
{
    match first_other(digits) {
        Some(index) => index,
        None => digits.len().saturating_sub(1),
    }
}

/// Returns the index of the first byte that is no digit, if there is one.
fn first_other(digits: &[u8]) -> Option<usize>
    ensures { result ≡ position (λ b. not (is_ascii_hexdigit b)) digits.now }
{
    digits.iter().position(|byte| !byte.is_ascii_hexdigit())
}

/// Returns the index of the first separator, if there is one.
fn end_of_word(text: &[u8]) -> Option<usize>
    ensures { result ≡ position is_separator text.now }
{
    text.iter().position(|byte| byte.is_ascii_whitespace() || matches!(byte, b':' | b',' | b'-'))
}

/// Returns the index of the first line feed, if there is one.
fn end_of_line(text: &[u8]) -> Option<usize>
    ensures { result ≡ position (λ b. b == 10) text.now }
{
    text.iter().position(|byte| *byte == b'\n')
}

/// Returns whether some line of a text begins as those of `hexdump -C` do.
#[tactic(auto, unfolding(crate::specs::Hexadecimal::is_dump))]
fn is_dump(text: &[u8]) -> bool
    ensures { result ≡ is_dump text.now }
{
    let mut rest = text;
    'lines: while let Some(end) = end_of_line(rest) {
        if is_of_hexdump(&rest[..end]) {
            return true;
        }
        rest = &rest[end + 1..];
    }
    is_of_hexdump(rest)
}

/// Returns the index at which the digits of a line begin, and the digits: the line without its offset
/// and the text after the bytes.
#[tactic(auto, unfolding(crate::specs::Hexadecimal::start_of, crate::specs::Hexadecimal::column_of))]
fn column(line: &[u8], dump: bool) -> (usize, &[u8])
    ensures start { result.0 ≡ start_of line.now }
    ensures column { result.1.now ≡ column_of dump line.now }
    ensures within { result.0 + length result.1.now ≤ length line.now }
{
    if is_of_xxd(line) {
        let column = line[9..].trim_ascii_start();
        (line.len() - column.len(), up_to(column, b"  "))
    } else if is_of_hexdump(line) {
        (8, up_to(&line[8..], b"|"))
    } else if dump && is_lone_offset(line) {
        (0, &[])
    } else {
        (0, line)
    }
}

/// Returns whether a line begins as those of `xxd` do.
#[tactic(auto, unfolding(crate::specs::Hexadecimal::is_of_xxd))]
fn is_of_xxd(line: &[u8]) -> bool
    ensures is { result ≡ is_of_xxd line.now }
    ensures long { result ≡ true → 10 ≤ length line.now }
{
    begins_with_digits(line, 8) && line[8..].starts_with(b": ")
}

/// Returns whether a line begins as those of `hexdump -C` do.
#[tactic(auto, unfolding(crate::specs::Hexadecimal::is_of_hexdump))]
fn is_of_hexdump(line: &[u8]) -> bool
    ensures is { result ≡ is_of_hexdump line.now }
    ensures long { result ≡ true → 10 ≤ length line.now }
{
    begins_with_digits(line, 8) && line[8..].starts_with(b"  ") && begins_with_byte(&line[10..])
}

/// Returns whether a text begins with two digits, and then a blank or nothing.
#[tactic(auto, unfolding(crate::specs::Hexadecimal::begins_with_byte))]
fn begins_with_byte(text: &[u8]) -> bool
    ensures { result ≡ begins_with_byte text.now }
{
    begins_with_digits(text, 2) && begins_blank(&text[2..])
}

/// Returns whether a text begins with a blank, or is empty.
fn begins_blank(text: &[u8]) -> bool
    ensures { result ≡ begins_blank text.now }
{
    match text {
        [] => true,
        [first, ..] => first.is_ascii_whitespace(),
    }
}

/// Returns whether a line is eight digits alone, or with blanks after them.
#[tactic(auto, unfolding(crate::specs::Hexadecimal::is_lone_offset))]
fn is_lone_offset(line: &[u8]) -> bool
    ensures { result ≡ is_lone_offset line.now }
{
    begins_with_digits(line, 8) && are_blank(&line[8..])
}

#[tactic(auto, unfolding(crate::specs::Hexadecimal::begins_with_digits))]
fn begins_with_digits(text: &[u8], count: usize) -> bool
    ensures is { result ≡ begins_with_digits count text.now }
    ensures long { result ≡ true → count ≤ length text.now }
{
    count <= text.len() && are_digits(&text[..count])
}

fn are_digits(text: &[u8]) -> bool
    ensures { result ≡ list_all is_ascii_hexdigit text.now }
{
    text.iter().all(|byte| byte.is_ascii_hexdigit())
}

fn are_blank(text: &[u8]) -> bool
    ensures { result ≡ list_all is_ascii_whitespace text.now }
{
    text.iter().all(|byte| byte.is_ascii_whitespace())
}

/// Returns the text before the first `mark` in it, or the whole text.
fn up_to<'a>(text: &'a [u8], mark: &[u8]) -> &'a [u8]
    ensures before { result.now ≡ up_to mark.now text.now }
    ensures within { length result.now ≤ length text.now }
{
    for end in 0..text.len() {
        if text[end..].starts_with(mark) {
            return &text[..end];
        }
    }
    text
}

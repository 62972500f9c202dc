//! JSON as text: [`json_text`].

ghost use Rattle.std.specs.Prelude.{◌≡◌, ◌<◌, ◌≤◌, IfOk, OnOk, IsTrue, ◌++◌, Some, false};
ghost use Rattle.std.specs.Prelude.{nat_lt, string_bytes};
ghost use Rattle.std.specs.List.{AllPass};
ghost use Rattle.postcard_value_json.specs.{IsInOrder, compact_text, depth, digit_char, escaped};
ghost use Rattle.postcard_value_json.specs.{escaped_char, has_float, max_depth, print, read, tokens};
ghost use Rattle.postcard_value_json.specs.{view};

use serde_json::Value as Json;
use std::alloc::{AllocError, Global};

/// Returns the JSON as text, without blanks. Each control character is escaped, as `\u001b` or
/// `\u009b`, so that none reaches a terminal.
///
/// # Errors
///
/// Fails if an allocation fails.
pub fn json_text(alloc: Global, json: &Json) -> Result<String, AllocError>
    ensures compact { IfOk result (λ text. string_bytes text
        ≡ escaped (print (tokens (string_bytes text)))) }
    ensures exact { IfOk result (λ text. has_float (view json.now) ≡ false
        → string_bytes text ≡ escaped (compact_text (view json.now))) }
    ensures order { IfOk result (λ text. IsInOrder (string_bytes text) (view json.now)) }
    ensures reads_back { IfOk result (λ text. depth (view json.now) ≤ max_depth
        → read (string_bytes text) ≡ Some (view json.now)) }
{
    let printed = json.to_string(alloc)?;
    with_escapes(alloc, &printed)
}

/// Returns whether each byte is below 127, as in most texts, which are copied in one piece.
fn is_plain(bytes: &[u8]) -> bool
    ensures { IsTrue result → AllPass (λ byte. nat_lt byte 127) bytes.now }
{
    bytes.iter().all(|byte| *byte < 127)
}

/// Returns a text with its control characters as escapes.
fn with_escapes(alloc: Global, text: &str) -> Result<String, AllocError>
    ensures { IfOk result (λ shown. string_bytes shown ≡ escaped text.now) }
{
    if is_plain(text.as_bytes()) {
        return String::from_str(alloc, text);
    }
    let mut shown = String::new(alloc);
    for c in text.chars() {
        push_escaped(&mut shown, c)?;
    }
    Ok(shown)
}

/// Appends a character, or its escape if it is a control character.
fn push_escaped(shown: &mut String, c: char) -> Result<(), AllocError>
    ensures { OnOk result (string_bytes shown.new ≡ string_bytes shown.old ++ escaped_char c) }
{
    let code = c as u32;
    if code < 127 || 160 <= code {
        return shown.push(c);
    }
    shown.push_str("\\u00")?;
    shown.push(hex_digit(code / 16))?;
    shown.push(hex_digit(code % 16))
}

fn hex_digit(digit: u32) -> char
    requires { digit < 16 }
    ensures { result ≡ digit_char digit }
{
    char::from_digit(digit, 16).unwrap_or('0')
}

//! Skips the value at the start of a JSON text.

ghost use Rattle.std.specs.Prelude.{◌≡◌, ◌<◌, ◌≤◌, ◌+◌, ◌-◌, List, ℕ, ◌∷◌, ◌++◌, length, true};
ghost use Rattle.std.specs.Prelude.{false};
ghost use Rattle.postcard_value_json_read.specs.{AreQuoted, EndsScalar, IsEndOf, IsNested};
ghost use Rattle.postcard_value_json_read.specs.{IsScalar, IsValue, ends_scalar, is_closing, is_opening};

/// Returns what follows the value at the start of `text`.
pub(crate) fn after_value(text: &[u8]) -> &[u8]
    ensures after { (value : List ℕ) (rest : List ℕ) → IsValue value → EndsScalar rest
        → text.now ≡ value ++ rest → result.now ≡ rest }
    ensures end { IsEndOf text.now result.now }
{
    let Some((byte, _)) = text.split_first() else {
        return text;
    };
    if *byte == b'"' {
        return after_string(text);
    }
    if is_opening(*byte) {
        return after_nested(text);
    }
    after_scalar(text)
}

fn is_opening(byte: u8) -> bool
    ensures { result ≡ is_opening byte }
{
    byte == b'[' || byte == b'{'
}

/// Returns what follows the string at the start of `text`.
pub(crate) fn after_string(text: &[u8]) -> &[u8]
    ensures after { (inside : List ℕ) (rest : List ℕ) → AreQuoted false inside
        → text.now ≡ 34 ∷ (inside ++ 34 ∷ rest) → result.now ≡ rest }
    ensures shorter { length result.now ≤ length text.now - 1 }
    ensures end { IsEndOf text.now result.now }
{
    let Some((_, mut left)) = text.split_first() else {
        return text;
    };
    let mut escaped = false;
    'bytes: while let Some((byte, rest)) = left.split_first() {
        left = rest;
        if escaped {
            escaped = false;
        } else if *byte == b'"' {
            return left;
        } else {
            escaped = *byte == b'\\';
        }
    }
    left
}

/// Returns what follows the array or the object at the start of `text`.
fn after_nested(text: &[u8]) -> &[u8]
    ensures after { (value : List ℕ) (rest : List ℕ) → IsNested value → text.now ≡ value ++ rest
        → result.now ≡ rest }
    ensures end { IsEndOf text.now result.now }
{
    let Some((first, mut left)) = text.split_first() else {
        return text;
    };
    let mut depth = depth_after(0, *first);
    'pieces: while depth != 0 {
        let Some((byte, rest)) = left.split_first() else {
            return left;
        };
        if *byte == b'"' {
            left = after_string(left);
        } else {
            left = rest;
            depth = depth_after(depth, *byte);
        }
    }
    left
}

/// Returns how many brackets are open after a byte.
fn depth_after(depth: usize, byte: u8) -> usize
    ensures opened { is_opening byte ≡ true → depth < usize.MAX → result ≡ depth + 1 }
    ensures closed { is_opening byte ≡ false → is_closing byte ≡ true → result ≡ depth - 1 }
    ensures same { is_opening byte ≡ false → is_closing byte ≡ false → result ≡ depth }
    ensures at_most { result ≤ depth + 1 }
{
    match byte {
        b'[' | b'{' => depth.saturating_add(1),
        b']' | b'}' => depth.saturating_sub(1),
        _ => depth,
    }
}

/// Returns what follows the number, `true`, `false` or `null` at the start of `text`.
fn after_scalar(text: &[u8]) -> &[u8]
    ensures after { (value : List ℕ) (rest : List ℕ) → IsScalar value → EndsScalar rest
        → text.now ≡ value ++ rest → result.now ≡ rest }
    ensures end { IsEndOf text.now result.now }
{
    let mut left = text;
    'bytes: while let Some((byte, rest)) = left.split_first() {
        if ends_scalar(*byte) {
            return left;
        }
        left = rest;
    }
    left
}

/// Returns whether a byte ends a number, `true`, `false` or `null`.
fn ends_scalar(byte: u8) -> bool
    ensures { result ≡ ends_scalar byte }
{
    byte.is_ascii_whitespace() || matches!(byte, b',' | b']' | b'}')
}

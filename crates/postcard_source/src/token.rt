//! The words, signs and literals of a file of declarations.

ghost use Rattle.std.specs.Prelude.{◌≡◌, ◌+◌, Decides, IfSome, IfNone, slice_get};
ghost use Rattle.std.specs.List.{AllPass};
ghost use Rattle.postcard_source.specs.{BeginsName, IsAt, IsBefore, IsName, IsNameAt, Says};
ghost use Rattle.postcard_source.specs.{is_of_word_byte};

use crate::lex::word_front;

/// A word, a sign or a literal of a file.
#[derive(Clone, Copy, Debug)]
pub struct Token<'a> {
    /// Its bytes. A literal has its quotes, and a raw one its prefix and each `#`.
    pub text: &'a [u8],
    /// How many brackets are open around it. A bracket isn't around itself.
    pub depth: usize,
    /// How many bytes of the file there are from its first one on.
    pub left: usize,
}

impl<'a> Token<'a> {
    /// Returns whether the token is this word or sign.
    pub fn says(&self, word: &[u8]) -> bool
        ensures { Decides result (Says word.now self.now) }
    {
        self.text == word
    }
}

/// Returns the token at this index, or `None` past the last token.
pub fn token_at<'a>(tokens: &[Token<'a>], at: usize) -> Option<Token<'a>>
    ensures { result ≡ slice_get tokens.now at }
{
    if at < tokens.len() {
        return Some(tokens[at]);
    }
    None
}

/// Returns whether the token at this index is this word or sign.
pub fn is_at(tokens: &[Token], at: usize, word: &[u8]) -> bool
    ensures { Decides result (IsAt word.now tokens.now at) }
{
    match token_at(tokens, at) {
        Some(token) => token.says(word),
        None => false,
    }
}

/// Returns the index after this word or sign, or `None` if another one is at the index.
pub fn after_word(tokens: &[Token], at: usize, word: &[u8]) -> Option<usize>
    ensures found { IfSome result (λ after. IsAt word.now tokens.now at × (after ≡ at + 1)) }
    ensures none { IfNone result (IsAt word.now tokens.now at → ⊥) }
{
    if at < tokens.len() && tokens[at].says(word) {
        return Some(at + 1);
    }
    None
}

/// Returns whether the token before this index is this word or sign.
pub fn is_before(tokens: &[Token], at: usize, word: &[u8]) -> bool
    ensures { Decides result (IsBefore word.now tokens.now at) }
{
    match at.checked_sub(1) {
        Some(before) => is_at(tokens, before, word),
        None => false,
    }
}

/// Returns whether the token at this index is a word that begins with no digit.
pub fn is_name_at(tokens: &[Token], at: usize) -> bool
    ensures { Decides result (IsNameAt tokens.now at) }
{
    match token_at(tokens, at) {
        Some(token) => is_name(token.text),
        None => false,
    }
}

/// Returns whether a text is a word that begins with no digit.
fn is_name(text: &[u8]) -> bool
    ensures { Decides result (IsName text.now) }
{
    is_word(text) && begins_name(text)
}

fn is_word(text: &[u8]) -> bool
    ensures { Decides result (AllPass is_of_word_byte text.now) }
{
    let (_, rest) = word_front(text);
    rest.is_empty()
}

fn begins_name(text: &[u8]) -> bool
    ensures { Decides result (BeginsName text.now) }
{
    match text.split_first() {
        Some((first, _)) => first.is_ascii_alphabetic() || *first == b'_' || !first.is_ascii(),
        None => false,
    }
}

/// Returns the place of the token at this index: how many bytes of the file there are from it on. It is 0
/// past the last token.
pub fn place_of(tokens: &[Token], at: usize) -> usize {
    match token_at(tokens, at) {
        Some(token) => token.left,
        None => 0,
    }
}

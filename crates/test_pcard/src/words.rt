//! The words of a call, as a shell reads them.

use crate::call_error::CallError;
use std::alloc::Global;

/// What is taken of the words of a call.
#[derive(Drop)]
struct Words {
    /// The words that have ended.
    words: Vec<String>,
    /// The word that hasn't.
    word: String,
    /// Whether it has begun. It may be empty, as `''` is.
    has_begun: bool,
    /// The quote that hasn't ended.
    quote: Option<char>,
}

impl Words {
    /// Takes the next character.
    fn take(&mut self, alloc: Global, c: char) -> Result<(), CallError> {
        if self.quote == Some(c) {
            self.quote = None;
            return Ok(());
        }
        if self.quote.is_none() {
            match c {
                ' ' => return self.end_word(alloc),
                '\'' | '"' => {
                    self.quote = Some(c);
                    self.has_begun = true;
                    return Ok(());
                }
                _ => {}
            }
        }
        self.has_begun = true;
        Ok(self.word.push(c)?)
    }

    /// Ends the word, if it has begun.
    fn end_word(&mut self, alloc: Global) -> Result<(), CallError> {
        if self.has_begun {
            let word = std::mem::replace(&mut self.word, String::new(alloc));
            self.words.push(word)?;
            self.has_begun = false;
        }
        Ok(())
    }
}

/// Returns the words of a call up to the word `<`, and the words after it, in a row.
///
/// A word ends at a blank. Of what stands between two `'` or two `"`, each character stands for itself,
/// and the quotes for nothing. A word `<` begins the input even if it is quoted.
pub fn words_of(alloc: Global, text: &str) -> Result<(Vec<String>, String), CallError> {
    let mut taken = Words {
        words: Vec::new(alloc),
        word: String::new(alloc),
        has_begun: false,
        quote: None,
    };
    for c in text.chars() {
        taken.take(alloc, c)?;
    }
    taken.end_word(alloc)?;
    if taken.quote.is_some() {
        return Err(CallError::Quote);
    }
    let mut words = Vec::new(alloc);
    let mut digits = String::new(alloc);
    let mut is_input = false;
    for word in taken.words {
        if is_input {
            digits.push_str(&word)?;
        } else if word.as_str() == "<" {
            is_input = true;
        } else {
            words.push(word)?;
        }
    }
    Ok((words, digits))
}

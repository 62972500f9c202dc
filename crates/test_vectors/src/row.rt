//! A row of the table.

use crate::row_error::{Reason, RowError};
use hex::FromHexError;
use std::alloc::Global;

/// The result that a row expects for its bytes.
#[derive(Clone, Copy, PartialEq)]
pub enum Mark {
    /// They are read as the value, which is written as the same bytes: `=`.
    Same,
    /// They are read as the value, which is written as other bytes: `reads`.
    Reads,
    /// As `Same`, and no value of the type has a longer encoding: `greatest`.
    Greatest,
    /// They are refused with an error: `error`.
    Refused,
}

/// A row of the table.
#[derive(Drop)]
pub struct Row<'a> {
    /// The type.
    pub name: &'a str,
    /// The bytes of the value, or those that are refused.
    pub spelled: Vec<u8>,
    /// The bytes of the value, and those after them.
    pub bytes: Vec<u8>,
    /// The result that the row expects for them.
    pub mark: Mark,
    /// The result of reading a value, as text.
    pub value: String,
    /// The result of reading a value and the remaining bytes, as text.
    pub taken: String,
    /// Whether the row must fail.
    pub fails: bool,
}

/// Returns the bytes of a text of hexadecimal digits. `-` stands for no bytes.
fn bytes_of(alloc: Global, text: &str) -> Result<Vec<u8>, RowError> {
    if text == "-" {
        return Ok(Vec::new(alloc));
    }
    match hex::decode(alloc, text) {
        Ok(bytes) => Ok(bytes),
        Err(FromHexError::OutOfMemory) => Err(RowError::OutOfMemory),
        Err(_) => Err(RowError::NotARow(Reason::Bytes)),
    }
}

/// Returns the mark that is written as this word.
fn mark_of(word: &str) -> Result<Mark, RowError> {
    match word {
        "=" => Ok(Mark::Same),
        "reads" => Ok(Mark::Reads),
        "greatest" => Ok(Mark::Greatest),
        "error" => Ok(Mark::Refused),
        _ => Err(RowError::NotARow(Reason::Mark)),
    }
}

/// Returns the three parts of `TYPE: BYTES MARK TEXT` after the type, with `TYPE`.
fn parts_of(line: &str) -> Option<(&str, &str, &str, &str)> {
    let (name, others) = line.split_once(": ")?;
    let (bytes, others) = others.split_once(' ')?;
    let (mark, text) = others.split_once(' ')?;
    Some((name, bytes, mark, text))
}

impl<'a> Row<'a> {
    /// Returns the row of this line, or `None` if the line is empty or a comment.
    pub fn read(alloc: Global, line: &'a str) -> Result<Option<Row<'a>>, RowError> {
        if line.is_empty() || line.starts_with('#') {
            return Ok(None);
        }
        let (fails, line) = match line.strip_prefix("not ") {
            Some(line) => (true, line),
            None => (false, line),
        };
        let Some((name, digits, word, text)) = parts_of(line) else {
            return Err(RowError::NotARow(Reason::Form));
        };
        let mark = mark_of(word)?;
        let (front, after) = digits.split_once('+').unwrap_or((digits, "-"));
        let spelled = bytes_of(alloc, front)?;
        let after = bytes_of(alloc, after)?;
        let mut bytes = spelled.clone()?;
        bytes.extend_from_slice(&after)?;
        let (value, taken) = if mark == Mark::Refused {
            let refused = format!(in alloc; "Err({text})")?;
            (refused.clone()?, refused)
        } else {
            let value = format!(in alloc; "Ok({text})")?;
            (value, format!(in alloc; "Ok(({text}, {after:?}))")?)
        };
        Ok(Some(Row {
            name,
            spelled,
            bytes,
            mark,
            value,
            taken,
            fails,
        }))
    }

    /// Returns the outcome of a row, reversed for a row that must fail.
    pub fn judge(&self, outcome: Result<(), RowError>) -> Result<(), RowError> {
        match outcome {
            Ok(()) if self.fails => Err(RowError::Passes),
            Err(RowError::Other { .. }) if self.fails => Ok(()),
            _ => outcome,
        }
    }
}

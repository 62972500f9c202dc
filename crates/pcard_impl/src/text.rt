//! The text of the impls while it is written.

use crate::error::ImplProblemAt;
use std::alloc::{AllocError, Global};

/// A text that others are added to, which keeps its failure for the end.
///
/// Adding returns nothing. If an allocation fails, that text and all later ones are left out, and
/// [`finish`](Text::finish) fails.
#[derive(Drop)]
pub(crate) struct Text {
    /// What was added, up to the first failure.
    added: String,
    /// The first failure, if there was one.
    outcome: Result<(), AllocError>,
}

impl Text {
    pub(crate) fn new(alloc: Global) -> Text {
        Text {
            added: String::new(alloc),
            outcome: Ok(()),
        }
    }

    pub(crate) fn add(&mut self, text: &str) {
        if self.outcome.is_ok() {
            self.outcome = self.added.push_str(text);
        }
    }

    pub(crate) fn add_all(&mut self, texts: &[&str]) {
        for text in texts {
            self.add(text);
        }
    }

    /// Adds a text to the end, `count` times.
    pub(crate) fn add_times(&mut self, text: &str, count: usize) {
        for _ in 0..count {
            self.add(text);
        }
    }

    /// Adds a number to the end, in decimal digits.
    pub(crate) fn add_number(&mut self, number: usize) {
        if self.outcome.is_ok() {
            self.outcome = write!(self.added, "{number}");
        }
    }

    /// Returns all that was added. Fails with `OutOfMemory` if an allocation failed.
    pub(crate) fn finish(self) -> Result<String, ImplProblemAt> {
        self.outcome?;
        Ok(self.added)
    }
}

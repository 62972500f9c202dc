//! The notation of lines: [`Notation`].

/// How lines are written.
#[derive(Clone, Copy, Debug, PartialEq, Eq)]
pub enum Notation {
    /// As text, for people.
    Text,
    /// As JSON, for programs.
    Json,
}

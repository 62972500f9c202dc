//! One call of the program `pcard`: a verb, options and operands.
//!
//! [`Call::parse`] reads the words of a command line. It accepts each combination of options that
//! means something, in any order before the operands. A [`Misuse`] names the word that is wrong,
//! and what would do.
#![tactic(auto)]

pub mod call;
pub mod laws;
pub mod misuse;
pub mod options;
pub mod verb;

pub use call::Call;
pub use misuse::Misuse;
pub use options::{LONGEST, OptionName, Options};
pub use verb::Verb;

//! The text of a list of numbers, as `dec` prints it: [`Joined`].

ghost use Rattle.pcard_calls.specs.{codes, joined, map};

use std::fmt;

/// A list that is printed as its elements with commas between them.
#[derive(Drop)]
pub struct Joined<'a, T>(pub &'a [T]);

impl<T: fmt::Display> fmt::Display for Joined<'_, T> {
    ghost output = { λ list. joined (codes ",") (map T.output list.0.now) };

    fn fmt<W: fmt::Write>(&self, f: &mut fmt::Formatter<W>) -> fmt::Result {
        for (i, item) in self.0.iter().enumerate() {
            let before = if i > 0 { "," } else { "" };
            write!(f, "{before}{item}")?;
        }
        Ok(())
    }
}

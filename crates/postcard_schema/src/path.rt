//! The path of a part in the value around it, such as `samples[1].label`.

ghost use Rattle.std.specs.Prelude.{Some};
ghost use Rattle.postcard_schema.specs.{WritesOnOk, path_text, placed_text, plain_step, step_text};

use std::fmt;

/// A step from a value to one of its parts. Numbers are counted from 0.
#[derive(Clone, Copy, Debug, PartialEq, Eq)]
pub enum Step<'a> {
    /// The field of a struct, or the content of a variant, with this name.
    Name(&'a str),
    /// The part of a tuple with this number. Of an entry of a map, the key is part 0, and the value
    /// part 1.
    Part(usize),
    /// The element of a list or an array, or the entry of a map, with this number.
    Element(u64),
    /// Each element of a list or an array, or each entry of a map.
    Each,
}

/// The steps from a value to one of its parts. It is printed with a `.` before each name and each
/// number of a part, but not before the first step. The number of an element is in brackets. The
/// brackets are empty if the step is to each element. The path of the whole value is empty.
#[derive(Debug, Drop)]
pub struct Path<'a> {
    /// The steps, the outermost first.
    pub steps: Vec<Step<'a>>,
}

impl fmt::Display for Path<'_> {
    ghost output = { λ path. Some (path_text path.steps.items) };

    fn fmt<W: fmt::Write>(&self, f: &mut fmt::Formatter<W>) -> fmt::Result {
        for (i, step) in self.steps.iter().enumerate() {
            write_step(*step, i, f)?;
        }
        Ok(())
    }
}

/// Prints the step at this index of a path, and the sign before it.
fn write_step<W: fmt::Write>(step: Step<'_>, index: usize, f: &mut fmt::Formatter<W>) -> fmt::Result
    ensures { WritesOnOk W.write_str_gives f.old result
        (placed_text index (plain_step step.entry)) f.new }
{
    if index > 0 && !matches!(step, Step::Element(_) | Step::Each) {
        f.write_str(".")?;
    }
    write!(f, "{step}")
}

impl fmt::Display for Step<'_> {
    ghost output = { λ step. Some (step_text (plain_step step)) };

    fn fmt<W: fmt::Write>(&self, f: &mut fmt::Formatter<W>) -> fmt::Result {
        match self {
            Step::Name(name) => f.write_str(name),
            Step::Part(number) => write!(f, "{number}"),
            Step::Element(number) => write!(f, "[{number}]"),
            Step::Each => f.write_str("[]"),
        }
    }
}

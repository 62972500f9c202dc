//! Where a line is in the value: [`Place`], the path of its part.

ghost use Rattle.std.specs.Prelude.{◌≡◌, ◌≤◌, ◌++◌, ◌∷◌, [], ℕ, List, OnOk, map};
ghost use Rattle.pcard_explain.specs.{Follows, IsOn, Line, kind_steps, label_steps, plain_step};
ghost use Rattle.pcard_explain.specs.{steps_in, steps_of};

use postcard_explain::{Label, Line, LineKind};
use postcard_schema::{Path, Step};
use std::alloc::{AllocError, Global};

/// A part that has a line, and that may be around parts with later lines.
#[derive(Drop)]
struct Open {
    depth: usize,
    /// The number of steps of the path around its parts.
    steps: usize,
}

/// The path of a line, and the parts around it.
#[derive(Drop)]
pub(crate) struct Place<'a> {
    /// The path of the line.
    pub path: Path<'a>,
    /// The parts that may be around the next line, the outermost first.
    parts: Vec<Open>,
}

impl<'a> Place<'a> {
    /// Returns the place before the first line.
    pub fn start(alloc: Global) -> Place<'a>
        ensures { Follows result [] }
    {
        let steps = Vec::new(alloc);
        Place {
            path: Path { steps },
            parts: Vec::new(alloc),
        }
    }

    /// Goes to the next line. Fails if an allocation fails.
    pub fn reach(&mut self, line: &Line<'a>) -> Result<(), AllocError>
        ensures { OnOk result ((seen : List Line) → Follows self.old seen
            → IsOn self.new seen line.now) }
    {
        let around = leave(&mut self.parts, line.depth);
        self.path.steps.truncate(around);
        add(step_of(line.label), &mut self.path)?;
        Ok(())
    }

    /// Opens the part of the line, which may be around the next one. Fails if an allocation fails.
    pub fn enter(&mut self, line: &Line<'a>) -> Result<(), AllocError>
        ensures { OnOk result ((seen : List Line) → IsOn self.old seen line.now
            → Follows self.new (line.now ∷ seen)) }
    {
        add(step_into(&line.kind), &mut self.path)?;
        self.parts.push(Open {
            depth: line.depth,
            steps: self.path.steps.len(),
        })?;
        Ok(())
    }
}

/// Removes the parts that are as deep as a line of this depth, or deeper, which can't be around it.
/// Returns the number of steps of the path around the line.
fn leave(parts: &mut Vec<Open>, depth: usize) -> usize
    ensures around { result ≡ steps_in parts.old.items depth }
    ensures same { (d : ℕ) → d ≤ depth → steps_in parts.new.items d ≡ steps_in parts.old.items d }
{
    'parts: while let Some(part) = parts.last() {
        if part.depth < depth {
            return part.steps;
        }
        let _ = parts.pop();
    }
    0
}

/// Returns the step to a part with this label, or `None` for the whole value or its content.
fn step_of<'a>(label: Label<'a>) -> Option<Step<'a>>
    ensures { steps_of result ≡ label_steps label.entry }
{
    match label {
        Label::Whole => None,
        Label::Field(name) => Some(Step::Name(name)),
        Label::Part(number) => Some(Step::Part(number)),
        Label::Element(number) => Some(Step::Element(number)),
    }
}

/// Returns the step from a part to its content: the name of a variant, or else `None`.
fn step_into<'a>(kind: &LineKind<'a>) -> Option<Step<'a>>
    ensures { steps_of result ≡ kind_steps kind.now }
{
    match kind {
        LineKind::Variant(_, name) => Some(Step::Name(name)),
        _ => None,
    }
}

fn add<'a>(step: Option<Step<'a>>, path: &mut Path<'a>) -> Result<(), AllocError>
    ensures { OnOk result (map plain_step path.new.steps.items
        ≡ map plain_step path.old.steps.items ++ steps_of step.entry) }
{
    if let Some(step) = step {
        path.steps.push(step)?;
    }
    Ok(())
}

//! The text of a line of an explanation: [`Told`].

ghost use Rattle.std.specs.Prelude.{◌≡◌, Some};
ghost use Rattle.pcard_explain.specs.{DisplaysOnOk, WritesOnOk, elements_text, expected_text};
ghost use Rattle.pcard_explain.specs.{kind_text, layout_of, separator_text, text, title_text};
ghost use Rattle.pcard_explain.specs.{told_text, tree};

use postcard_explain::{Expected, Label, Line, LineKind};
use postcard_schema::{Leaf, Schema};
use postcard_value::Value;
use postcard_value_text::Shown;
use std::fmt;

/// The text of a line. It is printed as the name of the part, and then its value.
#[derive(Clone, Copy)]
pub(crate) struct Told<'a>(pub &'a Line<'a>);

impl fmt::Display for Told<'_> {
    ghost output = { λ told. told_text told.0.now };

    fn fmt<W: fmt::Write>(&self, f: &mut fmt::Formatter<W>) -> fmt::Result {
        let line = self.0;
        show_title(line.label, f)?;
        f.write_str(separator(line.label, &line.kind))?;
        show_kind(&line.kind, f)
    }
}

fn show_title<W: fmt::Write>(label: Label<'_>, f: &mut fmt::Formatter<W>) -> fmt::Result
    ensures { WritesOnOk W.write_str_gives f.old result (title_text label.entry) f.new }
{
    match label {
        Label::Whole => Ok(()),
        Label::Field(name) => f.write_str(name),
        Label::Part(i) => write!(f, ".{i}"),
        Label::Element(i) => write!(f, "[{i}]"),
    }
}

/// Returns what is printed between the name of a part and its value.
fn separator(label: Label<'_>, kind: &LineKind<'_>) -> &'static str
    ensures { result.now ≡ separator_text label.entry kind.now }
{
    match label {
        Label::Whole => "",
        _ => match kind {
            LineKind::Parts => ":",
            _ => ": ",
        },
    }
}

fn show_kind<W: fmt::Write>(kind: &LineKind<'_>, f: &mut fmt::Formatter<W>) -> fmt::Result
    ensures { DisplaysOnOk W.write_str_gives f.old result (kind_text kind.now) f.new }
{
    match kind {
        LineKind::Value(schema, value) => show_value(schema, value, f),
        LineKind::Absent => f.write_str("None"),
        LineKind::Present => f.write_str("Some"),
        LineKind::Count(count) => {
            let noun = noun(*count);
            write!(f, "{count} {noun}")
        }
        LineKind::Variant(index, name) => write!(f, "{name} (variant {index})"),
        LineKind::Parts => Ok(()),
        LineKind::MoreElements(count) => write!(f, "and {count} more"),
        LineKind::Refused(expected) => {
            let what = Awaited(*expected);
            write!(f, "expected {what}")
        }
        LineKind::AfterValue => f.write_str("after the value"),
    }
}

fn show_value<W: fmt::Write>(
    schema: &Schema,
    value: &Value,
    f: &mut fmt::Formatter<W>,
) -> fmt::Result
    ensures { DisplaysOnOk W.write_str_gives f.old result
        (text (layout_of schema.now) (tree value.now)) f.new }
{
    let shown = Shown { schema, value };
    write!(f, "{shown}")
}

fn noun(count: u64) -> &'static str
    ensures { result.now ≡ elements_text count }
{
    if count == 1 { "element" } else { "elements" }
}

/// The expected part where none can be read. It is printed in a few words.
#[derive(Clone, Copy)]
pub(crate) struct Awaited(pub Expected);

impl fmt::Display for Awaited {
    ghost output = { λ awaited. Some (expected_text awaited.0) };

    fn fmt<W: fmt::Write>(&self, f: &mut fmt::Formatter<W>) -> fmt::Result {
        match self.0 {
            Expected::Leaf(Leaf::Bool) => f.write_str("bool: 00 or 01"),
            Expected::Leaf(leaf) => write!(f, "{leaf}"),
            Expected::Option => f.write_str("an option: 00 or 01"),
            Expected::Count => f.write_str("the number of elements"),
            Expected::Variant => f.write_str("the index of a variant"),
        }
    }
}

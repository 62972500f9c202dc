//! The lines that a walk over bytes adds.
//!
//! A function that adds lines fails with `OutOfMemory` if an allocation fails.

ghost use Rattle.std.specs.Prelude.{◌≡◌, ◌∷◌, ◌++◌, [], ℕ, List, IfErr, IfOk, OnOk};
ghost use Rattle.postcard_explain.specs.{IsAt, IsLast, IsMore, IsReadError, IsRefusal, Line, Opens};
ghost use Rattle.postcard_explain.specs.{Walks, Whole, bytes_of, deeper, memory, plain_label};

use crate::line::{Expected, Label, Line, LineKind};
use postcard_wire::{Error, Result};
use std::alloc::Global;

/// The depth and the label of a part.
#[derive(Clone, Copy)]
pub(crate) struct Place<'a> {
    pub depth: usize,
    pub label: Label<'a>,
}

/// The place of the whole value.
pub(crate) const WHOLE: Place<'static> = Place {
    depth: 0,
    label: Label::Whole,
};

/// The state of a walk over bytes: its parameters and the lines so far.
#[derive(Drop)]
pub(crate) struct Walk<'a> {
    pub alloc: Global,
    pub lines: Vec<Line<'a>>,
}

pub(crate) fn push<'a>(
    walk: &mut Walk<'a>,
    place: Place<'a>,
    kind: LineKind<'a>,
    bytes: &'a [u8],
) -> Result<()>
    ensures added { OnOk result ((line : Line)
        × (walk.new.lines.items ≡ walk.old.lines.items ++ line ∷ [])
        × IsAt place.entry.depth (plain_label place.entry.label) line × (line.kind ≡ kind.entry)
        × (line.bytes.now ≡ bytes.now)) }
    ensures only_out_of_memory { IfErr result (λ e. e ≡ Error.OutOfMemory) }
{
    let line = Line {
        depth: place.depth,
        label: place.label,
        kind,
        bytes,
    };
    match walk.lines.push(line) {
        Ok(()) => Ok(()),
        Err(_) => Err(Error::OutOfMemory),
    }
}

/// Adds the line of the bytes after the value, if there are some.
pub(crate) fn push_rest<'a>(walk: &mut Walk<'a>, rest: &'a [u8]) -> Result<()>
    ensures added { OnOk result ((last : List Line) × IsLast last
        × (walk.new.lines.items ≡ walk.old.lines.items ++ last) × (bytes_of last ≡ rest.now)) }
    ensures only_out_of_memory { IfErr result (λ e. e ≡ Error.OutOfMemory) }
{
    if rest.is_empty() {
        return Ok(());
    }
    push(walk, WHOLE, LineKind::AfterValue, rest)
}

/// Adds one line for `count` elements with these bytes, if there are some.
pub(crate) fn push_more<'a>(
    walk: &mut Walk<'a>,
    place: Place<'a>,
    count: u64,
    bytes: &'a [u8],
) -> Result<()>
    ensures added { OnOk result ((more : List Line)
        × IsMore place.entry.depth (plain_label place.entry.label) count bytes.now more
        × (walk.new.lines.items ≡ walk.old.lines.items ++ more)) }
    ensures only_out_of_memory { IfErr result (λ e. e ≡ Error.OutOfMemory) }
{
    if count == 0 {
        return Ok(());
    }
    push(walk, place, LineKind::MoreElements(count), bytes)
}

/// Adds the line of a part that can't be read, with all remaining bytes, and fails with the error.
pub(crate) fn refuse<'a>(
    walk: &mut Walk<'a>,
    expected: Expected,
    place: Place<'a>,
    bytes: &'a [u8],
    error: Error,
) -> Result<&'a [u8]>
    requires { IsReadError memory error }
    ensures { Walks (λ lines. ⊥)
        (IsRefusal place.entry.depth (plain_label place.entry.label) expected bytes.now error)
        walk.old.lines.items bytes.now walk.new.lines.items result }
{
    if error != Error::OutOfMemory {
        push(walk, place, LineKind::Refused(expected), bytes)?;
    }
    Err(error)
}

/// Adds the line before the parts of a value, and returns the depth of the parts. Before those of
/// the whole value there is no line.
pub(crate) fn open_parts<'a>(walk: &mut Walk<'a>, place: Place<'a>) -> Result<usize>
    ensures added { IfOk result (λ inner. (head : List Line)
        × Opens place.entry.depth (plain_label place.entry.label) inner head
        × (walk.new.lines.items ≡ walk.old.lines.items ++ head)) }
    ensures only_out_of_memory { IfErr result (λ e. e ≡ Error.OutOfMemory) }
{
    match place.label {
        Label::Whole => Ok(place.depth),
        _ => {
            push(walk, place, LineKind::Parts, &[])?;
            Ok(place.depth.saturating_add(1))
        }
    }
}

/// Returns the bytes before `rest`, the last of the bytes.
pub(crate) fn front_of<'a>(bytes: &'a [u8], rest: &[u8]) -> &'a [u8]
    ensures { (front : List ℕ) → bytes.now ≡ front ++ rest.now → result.now ≡ front }
{
    let count = bytes.len().saturating_sub(rest.len());
    &bytes[..count]
}

/// Returns the place of the content of an option or a variant at this place.
pub(crate) fn inside<'a>(place: Place<'a>) -> Place<'a>
    ensures depth { result.depth ≡ deeper place.entry.depth }
    ensures label { result.label ≡ Whole }
{
    Place {
        depth: place.depth.saturating_add(1),
        label: Label::Whole,
    }
}

//! Pieces of the text of impls: parameters, and tuples of a type's fields.

use crate::item::{Field, Item, Member, Style};
use crate::text::Text;

/// How many fields one tuple has at most. More stand in tuples of [`GROUP`].
const TUPLE: usize = 6;

/// How many fields a tuple in a tuple has.
const GROUP: usize = 5;

/// What stands for a field in a tuple.
#[derive(Clone, Copy)]
pub(crate) enum Piece {
    /// Its type, as `u8`.
    Type,
    /// The field of the prover's `v`, as `v.name`.
    OfValue,
    /// The prover's variable in the row of a variant, as `x0`.
    InRow,
    /// A reference to the field of `self`, as `&self.name`.
    Borrowed,
    /// The variable that has its value, as `name`.
    Variable,
}

fn add_piece(out: &mut Text, field: &Field, piece: Piece) {
    let name = field.name.as_str();
    match piece {
        Piece::Type => add_type(out, field.text),
        Piece::OfValue => out.add_all(&["v.", name]),
        Piece::InRow => add_row_variable(out, field),
        Piece::Borrowed => out.add_all(&["&self.", name]),
        Piece::Variable => out.add(field.variable.as_str()),
    }
}

/// Adds the prover's variable for a field of a variant.
pub(crate) fn add_row_variable(out: &mut Text, field: &Field) {
    out.add("x");
    out.add_number(field.number);
}

/// Adds the text of a type, with one blank where it has several or the end of a line.
pub(crate) fn add_type(out: &mut Text, text: &str) {
    let mut is_first = true;
    for word in text.split_whitespace() {
        if !is_first {
            out.add(" ");
        }
        out.add(word);
        is_first = false;
    }
}

/// Adds the tuple of the fields: nothing in brackets for none, of one itself, and past six a tuple of
/// tuples of five.
pub(crate) fn add_tuple(out: &mut Text, fields: &[Field], piece: Piece) {
    if fields.len() <= TUPLE {
        add_group(out, fields, piece);
        return;
    }
    let mut is_first = true;
    for group in fields.chunks(GROUP) {
        out.add(if is_first { "(" } else { ", " });
        add_group(out, group, piece);
        is_first = false;
    }
    out.add(")");
}

fn add_group(out: &mut Text, fields: &[Field], piece: Piece) {
    match fields {
        [] => out.add(empty(piece)),
        [field] => add_piece(out, field, piece),
        _ => add_several(out, fields, piece),
    }
}

fn add_several(out: &mut Text, fields: &[Field], piece: Piece) {
    let mut separator = "(";
    for field in fields {
        out.add(separator);
        add_piece(out, field, piece);
        separator = ", ";
    }
    out.add(")");
}

fn empty(piece: Piece) -> &'static str {
    match piece {
        Piece::OfValue | Piece::InRow => "tt",
        Piece::Borrowed => "&()",
        Piece::Type | Piece::Variable => "()",
    }
}

/// Adds the struct or the variant with the values of these variables. `path` is its name, and of a variant
/// that of its enum before it.
pub(crate) fn add_value(out: &mut Text, path: &[&str], member: &Member) {
    out.add_all(path);
    let (opening, closing) = match member.style {
        Style::Unit => return,
        Style::Tuple => ("(", ")"),
        Style::Named if member.fields.is_empty() => (" {", "}"),
        Style::Named => (" { ", " }"),
    };
    out.add(opening);
    let mut separator = "";
    for field in &member.fields {
        out.add(separator);
        add_field_value(out, member.style, field);
        separator = ", ";
    }
    out.add(closing);
}

/// Adds the variable with the value of a field, after the field's name if it has another.
fn add_field_value(out: &mut Text, style: Style, field: &Field) {
    let name = field.name.as_str();
    let variable = field.variable.as_str();
    if style == Style::Named && name != variable {
        out.add_all(&[name, ": "]);
    }
    out.add(variable);
}

/// Which lifetimes stand in the parameters of a type.
#[derive(Clone, Copy, PartialEq, Eq)]
pub(crate) enum Lifetimes {
    /// Its own.
    Own,
    /// `'_` for each.
    Any,
    /// That of what is read, `'de`, for each.
    Read,
}

/// Adds the parameters of a type, in `<` and `>`, or nothing if it has none.
pub(crate) fn add_arguments(out: &mut Text, item: &Item, lifetimes: Lifetimes) {
    let mut separator = "<";
    for lifetime in &item.parameters.lifetimes {
        let text = match lifetimes {
            Lifetimes::Own => *lifetime,
            Lifetimes::Any => "'_",
            Lifetimes::Read => "'de",
        };
        out.add_all(&[separator, text]);
        separator = ", ";
    }
    for parameter in &item.parameters.types {
        out.add_all(&[separator, name_of(parameter)]);
        separator = ", ";
    }
    close(out, separator);
}

/// Adds what an impl declares, in `<` and `>`, or nothing: the lifetime `'de` if the impl reads, the type's
/// own lifetimes if it names them, and its parameters, each with `bound`.
pub(crate) fn add_declared(out: &mut Text, item: &Item, lifetimes: Lifetimes, bound: &str) {
    let mut separator = "<";
    if lifetimes == Lifetimes::Read {
        out.add("<'de");
        separator = ", ";
    }
    if lifetimes == Lifetimes::Own {
        for lifetime in &item.parameters.lifetimes {
            out.add_all(&[separator, lifetime]);
            separator = ", ";
        }
    }
    for parameter in &item.parameters.types {
        let joint = if parameter.contains(':') { " + " } else { ": " };
        out.add_all(&[separator, parameter, joint, bound]);
        separator = ", ";
    }
    close(out, separator);
}

fn close(out: &mut Text, separator: &str) {
    if separator != "<" {
        out.add(">");
    }
}

/// Returns the name of a parameter, without its bounds.
pub(crate) fn name_of(parameter: &str) -> &str {
    match parameter.split_once(':') {
        Some((name, _)) => name.trim(),
        None => parameter,
    }
}

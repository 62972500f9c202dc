//! The impls of an enum, via its variants in a row.

use crate::form::Form;
use crate::heads::{
    DESERIALIZE, DESERIALIZE_OWNED, SERIALIZES, Trait, USE_VIA, add_head, add_owned,
    add_parts_body, add_seen_name, quotes_seen,
};
use crate::home::Home;
use crate::item::{Item, Member};
use crate::pieces::{Lifetimes, Piece, add_arguments, add_row_variable, add_tuple, add_value};
use crate::text::Text;

/// The `ghost use` line of the prover's words for a row.
const USE_ROW: &str =
    "    ghost use Rattle.postcard_shape.specs.declared.cases.Case.TheVariants.{This, Next};\n";

/// The line of a function that brings the words of a row into its scope.
const USE_CASES: &str = "        use postcard::Case::{Next, This};\n";

/// The call of a `serialize` that writes a variant, up to its index.
const WRITE_VARIANT: &str = "postcard::write_variant(self, ";

/// The call of a `serialize_repr` that does.
const SERIALIZE_VARIANT: &str = "postcard::serialize_variant(";

pub(crate) fn add_enum(out: &mut Text, home: Home, item: &Item, form: Form) {
    add_row_type(out, item);
    if form == Form::Seen {
        add_seen(out, home, item);
        return;
    }
    if form == Form::ByParts {
        add_from_row(out, home, item);
    }
    add_shape(out, home, item, form);
    add_head(out, item, Trait::Serialize);
    out.add_all(&["    fn serialize", SERIALIZES]);
    add_serialize_body(out, item, WRITE_VARIANT);
    add_reads(out, item, form);
}

fn add_shape(out: &mut Text, home: Home, item: &Item, form: Form) {
    add_head(out, item, Trait::Shaped);
    if quotes_seen(item, form) {
        out.add_all(&[USE_VIA, "\n    ghost shape = { via "]);
        add_seen_name(out, item);
    } else {
        add_enum_use(out, home, item);
        out.add_all(&[USE_VIA, USE_ROW, "\n    ghost shape = { via "]);
        add_rows(out, item);
    }
    out.add_all(&[" ⟦<", item.name, "Row"]);
    add_arguments(out, item, Lifetimes::Own);
    out.add(" as postcard::Shaped>⟧.shape };\n}\n");
}

fn add_row_type(out: &mut Text, item: &Item) {
    out.add_all(&["\n/// What the variants of [`", item.name]);
    out.add_all(&["`] hold, in a row.\ntype ", item.name, "Row"]);
    add_arguments(out, item, Lifetimes::Own);
    out.add(" = ");
    for member in &item.members {
        out.add("postcard::Case<");
        add_tuple(out, member.fields.as_slice(), Piece::Type);
        out.add(", ");
    }
    out.add("postcard::NoCase");
    out.add_times(">", item.members.len());
    out.add(";\n");
}

fn add_enum_use(out: &mut Text, home: Home, item: &Item) {
    out.add_all(&["    ghost use Rattle.", home.library, ".specs.declared"]);
    if !home.is_root() {
        for module in home.module.split('/') {
            out.add_all(&[".", module]);
        }
    }
    out.add_all(&[".", item.name, ".{", item.name, "};\n"]);
}

/// Adds the prover's function from the enum to its row.
fn add_rows(out: &mut Text, item: &Item) {
    out.add("(elim [\n");
    let mut index: usize = 0;
    for member in &item.members {
        add_row(out, item, member, index);
        index = index.saturating_add(1);
    }
    out.add("    ])");
}

fn add_row(out: &mut Text, item: &Item, member: &Member, index: usize) {
    out.add_all(&["      | ", item.name, ".", member.name]);
    for field in &member.fields {
        out.add(" ");
        add_row_variable(out, field);
    }
    out.add(" ↦ ");
    out.add_times("Next (", index);
    out.add("This ");
    add_tuple(out, member.fields.as_slice(), Piece::InRow);
    out.add_times(")", index);
    out.add("\n");
}

/// Adds the body of a function that writes the value, each variant by `call`, and the end of its impl.
fn add_serialize_body(out: &mut Text, item: &Item, call: &str) {
    out.add("        match self {\n");
    let mut index: usize = 0;
    for member in &item.members {
        add_serialize_arm(out, item, member, index, call);
        index = index.saturating_add(1);
    }
    out.add("        }\n    }\n}\n");
}

fn add_serialize_arm(out: &mut Text, item: &Item, member: &Member, index: usize, call: &str) {
    let fields = member.fields.as_slice();
    out.add("            ");
    add_value(out, &[item.name, "::", member.name], member);
    out.add_all(&[" => ", call]);
    out.add_number(index);
    out.add(if fields.len() == 1 { ", " } else { ", &" });
    add_tuple(out, fields, Piece::Variable);
    out.add(", serializer),\n");
}

/// Adds the `match` that makes the enum of its row.
fn add_match(out: &mut Text, item: &Item) {
    out.add("match row {\n");
    let mut index: usize = 0;
    for member in &item.members {
        add_arm(out, item, member, index);
        index = index.saturating_add(1);
    }
    out.add("            ");
    out.add_times("Next(", index);
    out.add("never");
    out.add_times(")", index);
    out.add(" => match never {},\n        }");
}

fn add_arm(out: &mut Text, item: &Item, member: &Member, index: usize) {
    out.add("            ");
    out.add_times("Next(", index);
    out.add("This(");
    add_tuple(out, member.fields.as_slice(), Piece::Variable);
    out.add_times(")", index);
    out.add(") => ");
    add_value(out, &[item.name, "::", member.name], member);
    out.add(",\n");
}

fn add_from_row(out: &mut Text, home: Home, item: &Item) {
    add_head(out, item, Trait::FromParts);
    add_enum_use(out, home, item);
    out.add_all(&[USE_ROW, "\n    type Parts = ", item.name, "Row"]);
    add_arguments(out, item, Lifetimes::Own);
    out.add(";\n\n    ghost seen = { ");
    add_rows(out, item);
    out.add(" };\n\n    fn from_parts(row: Self::Parts) -> Self {\n");
    out.add_all(&[USE_CASES, "        "]);
    add_match(out, item);
    out.add("\n    }\n}\n");
}

fn add_reads(out: &mut Text, item: &Item, form: Form) {
    add_head(out, item, Trait::Deserialize);
    out.add(DESERIALIZE);
    add_read_body(out, item, form, Lifetimes::Read, "Deserialize::deserialize");
    if !item.parameters.lifetimes.is_empty() {
        return;
    }
    if item.parameters.types.is_empty() {
        add_owned(out, item);
        return;
    }
    add_head(out, item, Trait::DeserializeOwned);
    out.add(DESERIALIZE_OWNED);
    let call = "DeserializeOwned::deserialize_owned";
    add_read_body(out, item, form, Lifetimes::Any, call);
}

/// Adds the body of a function that reads the row by `call`, and the end of its impl.
fn add_read_body(out: &mut Text, item: &Item, form: Form, lifetimes: Lifetimes, call: &str) {
    if form == Form::ByParts {
        add_parts_body(out, lifetimes);
        return;
    }
    out.add_all(&[USE_CASES, "        let row: ", item.name, "Row"]);
    add_arguments(out, item, lifetimes);
    out.add_all(&[" = postcard::", call, "(alloc, d)?;\n        Ok("]);
    add_match(out, item);
    out.add(")\n    }\n}\n");
}

fn add_seen(out: &mut Text, home: Home, item: &Item) {
    add_head(out, item, Trait::Repr);
    add_enum_use(out, home, item);
    out.add_all(&[USE_ROW, "\n    type As = ", item.name, "Row"]);
    add_arguments(out, item, Lifetimes::Own);
    out.add(";\n\n    ghost repr = { ");
    add_rows(out, item);
    out.add(" };\n}\n");
    add_head(out, item, Trait::FromRepr);
    out.add_all(&[
        "    fn from_repr(row: Self::As) -> Self {\n",
        USE_CASES,
        "        ",
    ]);
    add_match(out, item);
    out.add("\n    }\n}\n");
    add_head(out, item, Trait::SerializeRepr);
    out.add_all(&["    fn serialize_repr", SERIALIZES]);
    add_serialize_body(out, item, SERIALIZE_VARIANT);
}

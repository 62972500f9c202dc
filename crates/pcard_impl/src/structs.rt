//! The impls of a struct, via the tuple of its fields.

use crate::form::Form;
use crate::heads::{
    DESERIALIZE, DESERIALIZE_OWNED, SERIALIZES, Trait, USE_VIA, add_head, add_owned,
    add_parts_body, add_seen_name, quotes_seen,
};
use crate::item::{Item, Member};
use crate::pieces::{Lifetimes, Piece, add_tuple, add_value};
use crate::text::Text;

pub(crate) fn add_struct(out: &mut Text, item: &Item, form: Form) {
    let Some(member) = item.members.first() else {
        return;
    };
    if form == Form::Seen {
        add_seen(out, item, member);
        return;
    }
    if form == Form::ByParts {
        add_from_parts(out, item, member);
    }
    add_shape(out, item, member, form);
    add_head(out, item, Trait::Serialize);
    out.add_all(&["    fn serialize", SERIALIZES]);
    add_serialize_body(out, member);
    add_reads(out, item, member, form);
}

fn add_shape(out: &mut Text, item: &Item, member: &Member, form: Form) {
    let fields = member.fields.as_slice();
    add_head(out, item, Trait::Shaped);
    out.add_all(&[USE_VIA, "\n    ghost shape = { via "]);
    if quotes_seen(item, form) {
        add_seen_name(out, item);
    } else {
        out.add("(λ v. ");
        add_tuple(out, fields, Piece::OfValue);
        out.add(")");
    }
    out.add("\n        ⟦<");
    add_tuple(out, fields, Piece::Type);
    out.add(" as postcard::Shaped>⟧.shape };\n}\n");
}

fn add_from_parts(out: &mut Text, item: &Item, member: &Member) {
    let fields = member.fields.as_slice();
    add_head(out, item, Trait::FromParts);
    out.add("    type Parts = ");
    add_tuple(out, fields, Piece::Type);
    out.add(";\n\n    ghost seen = { λ v. ");
    add_tuple(out, fields, Piece::OfValue);
    out.add(" };\n\n    fn from_parts(parts: Self::Parts) -> Self {\n        let ");
    add_tuple(out, fields, Piece::Variable);
    out.add(" = parts;\n        ");
    add_value(out, &[item.name], member);
    out.add("\n    }\n}\n");
}

fn add_serialize_body(out: &mut Text, member: &Member) {
    let fields = member.fields.as_slice();
    if fields.len() < 2 {
        out.add("        postcard::Serialize::serialize(");
        add_tuple(out, fields, Piece::Borrowed);
        out.add(", serializer)\n    }\n}\n");
        return;
    }
    out.add("        let parts = ");
    add_tuple(out, fields, Piece::Borrowed);
    out.add(";\n        postcard::Serialize::serialize(&parts, serializer)\n    }\n}\n");
}

fn add_reads(out: &mut Text, item: &Item, member: &Member, form: Form) {
    add_head(out, item, Trait::Deserialize);
    out.add(DESERIALIZE);
    add_read_body(out, item, member, form, Lifetimes::Read);
    if !item.parameters.lifetimes.is_empty() {
        return;
    }
    if item.parameters.types.is_empty() {
        add_owned(out, item);
        return;
    }
    add_head(out, item, Trait::DeserializeOwned);
    out.add(DESERIALIZE_OWNED);
    add_read_body(out, item, member, form, Lifetimes::Any);
}

/// Adds the body of a function that reads the parts, with the lifetime of what is read or with none, and the
/// end of its impl.
fn add_read_body(out: &mut Text, item: &Item, member: &Member, form: Form, lifetimes: Lifetimes) {
    if form == Form::ByParts {
        add_parts_body(out, lifetimes);
        return;
    }
    let call = match lifetimes {
        Lifetimes::Read => "Deserialize::deserialize",
        _ => "DeserializeOwned::deserialize_owned",
    };
    out.add("        let ");
    add_tuple(out, member.fields.as_slice(), Piece::Variable);
    out.add_all(&[" = postcard::", call, "(alloc, d)?;\n        Ok("]);
    add_value(out, &[item.name], member);
    out.add(")\n    }\n}\n");
}

fn add_seen(out: &mut Text, item: &Item, member: &Member) {
    let fields = member.fields.as_slice();
    add_head(out, item, Trait::Repr);
    out.add("    type As = ");
    add_tuple(out, fields, Piece::Type);
    out.add(";\n\n    ghost repr = { λ v. ");
    add_tuple(out, fields, Piece::OfValue);
    out.add(" };\n}\n");
    add_head(out, item, Trait::FromRepr);
    out.add("    fn from_repr(parts: Self::As) -> Self {\n        let ");
    add_tuple(out, fields, Piece::Variable);
    out.add(" = parts;\n        ");
    add_value(out, &[item.name], member);
    out.add("\n    }\n}\n");
    add_head(out, item, Trait::SerializeRepr);
    out.add_all(&["    fn serialize_repr", SERIALIZES]);
    add_serialize_body(out, member);
}

//! The text of all impls of a file, those of one type after those of another.

use crate::enums::add_enum;
use crate::error::ImplProblemAt;
use crate::form::Form;
use crate::home::Home;
use crate::item::Item;
use crate::structs::add_struct;
use crate::text::Text;
use postcard_source::declaration::Kind;
use std::alloc::Global;

/// Returns the impls of these items, which have these forms.
pub(crate) fn impls(
    alloc: Global,
    home: Home,
    items: &[Item],
    forms: &[Form],
) -> Result<String, ImplProblemAt> {
    let mut out = Text::new(alloc);
    for (item, form) in items.iter().zip(forms) {
        match item.kind {
            Kind::Struct => add_struct(&mut out, item, *form),
            Kind::Enum => add_enum(&mut out, home, item, *form),
            Kind::Alias => {}
        }
    }
    out.finish()
}

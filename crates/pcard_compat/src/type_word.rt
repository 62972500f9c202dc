//! The type that an argument stands for: [`type_of_word`].

ghost use Rattle.std.specs.Prelude.{IfErr, IfOk};
ghost use Rattle.pcard_compat.specs.{IsExpression, IsNoType, IsTypeOf, TypeFails};

use pcard_files::{Files, TypeFault, TypeName};
use pcard_message::{Failure, schema_of};
use postcard_schema::Schema;
use std::alloc::Global;

/// Why an argument stands for no type.
#[derive(Debug, Drop)]
pub enum NoType<'a> {
    /// The file with this name has no such type, or isn't read.
    File(&'a str, TypeFault),
    /// The expression is refused.
    Expression(Failure<'static>),
}

/// Returns the type that an argument stands for. `@FILE:NAME` stands for the type that FILE
/// declares with this name, and `@FILE` for the type that FILE has as a schema message. Any other
/// argument is a type expression.
///
/// # Errors
///
/// Fails with the reason if there is no such type. An allocation that fails is a fault of the file,
/// or the failure `Library(OutOfMemory)`.
pub fn type_of_word<'a, F: Files>(
    alloc: Global,
    word: &'a str,
    files: &F,
) -> Result<Schema, NoType<'a>>
    ensures found { IfOk result (IsTypeOf (F.gives files.now) word.now) }
    ensures refused { IfErr result (IsNoType (F.gives files.now) (F.lacks files.now) word.now) }
{
    let Some(name) = TypeName::from_word(word) else {
        return match schema_of(alloc, word) {
            Ok(schema) => Ok(schema),
            Err(failure) => Err(NoType::Expression(failure)),
        };
    };
    let text = match name.expression(alloc, files) {
        Ok(text) => text,
        Err(fault) => return Err(NoType::File(name.file, fault)),
    };
    match schema_of(alloc, text.as_str()) {
        Ok(schema) => Ok(schema),
        Err(failure) => Err(NoType::Expression(failure)),
    }
}

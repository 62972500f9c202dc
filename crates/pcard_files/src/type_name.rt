//! The name of a type in a file, as the word TYPE has it: `@FILE:NAME` or `@FILE`.

ghost use Rattle.std.specs.Prelude.{◌≡◌, ◌<◌, ◌≤◌, ℕ, List, Option, length, IfSome, IfNone, IfOk};
ghost use Rattle.std.specs.Prelude.{IfErr, string_bytes};
ghost use Rattle.pcard_files.specs.{HasExpression, IsFaultBy, IsFaultIn, IsFaultOf, IsNameWord};
ghost use Rattle.pcard_files.specs.{IsTextIn, IsTextFault, TooLong, bytes_of};

use crate::fault::TypeFault;
use crate::files::{Files, ReadError};
use crate::schema_file::schema_in;
use crate::written::written;
use postcard_schema_text::{Problem, TextError};
use postcard_source::{FileError, FileProblem, expression};
use std::alloc::Global;

/// The most bytes of a file of types.
pub const LONGEST_FILE: usize = 1_048_576;

/// The name of a type in a file.
#[derive(Clone, Copy, Debug, PartialEq, Eq)]
pub struct TypeName<'a> {
    /// The name of the file.
    pub file: &'a str,
    /// The name with which the file declares the type. With `None` the file is a schema message, as
    /// a device sends it, or the COBS frame of one.
    pub name: Option<&'a str>,
}

impl<'a> TypeName<'a> {
    /// Returns the name that a word is: `@` and the name of the file, and after a `:` the name of
    /// the type. The last `:` counts. `None` for another word.
    pub fn from_word(word: &'a str) -> Option<TypeName<'a>>
        ensures found { IfSome result (λ found.
            IsNameWord word.now found.file.now (bytes_of found.name)) }
        ensures none { IfNone result
            ((file : List ℕ) (name : Option (List ℕ)) → IsNameWord word.now file name → ⊥) }
    {
        let Some(inner) = word.strip_prefix('@') else {
            return None;
        };
        match inner.rsplit_once(':') {
            Some((file, name)) => Some(TypeName {
                file,
                name: Some(name),
            }),
            None => Some(TypeName {
                file: inner,
                name: None,
            }),
        }
    }

    /// Returns a type expression of the type.
    ///
    /// # Errors
    ///
    /// Fails with `Unreadable` if the file can't be read, and with `TooLong`. With a name it fails
    /// with `NoText`, and with `Wrong` if [`expression`] refuses the name. Without one it fails as
    /// [`schema_in`] does, and with `NoExpression` if the schema has no expression. Fails with
    /// `OutOfMemory` if an allocation fails.
    pub fn expression<F: Files>(self, alloc: Global, files: &F) -> Result<String, TypeFault>
        ensures found { IfOk result (λ text. HasExpression (F.gives files.now)
            self.entry.file.now (bytes_of self.entry.name) (string_bytes text)) }
        ensures refused { IfErr result (IsFaultOf (F.gives files.now) (F.lacks files.now)
            self.entry.file.now (bytes_of self.entry.name)) }
    {
        let bytes = self.bytes(alloc, files)?;
        match self.name {
            Some(name) => declared(alloc, bytes.as_slice(), name),
            None => described(alloc, bytes.as_slice()),
        }
    }

    /// Returns the bytes of the file. Fails with `Unreadable`, `TooLong` and `OutOfMemory`, as
    /// [`expression`](TypeName::expression) does.
    fn bytes<F: Files>(self, alloc: Global, files: &F) -> Result<Vec<u8>, TypeFault>
        ensures given { IfOk result (λ bytes. F.gives files.now self.entry.file.now bytes.items) }
        ensures refused { IfErr result (IsFaultOf (F.gives files.now) (F.lacks files.now)
            self.entry.file.now (bytes_of self.entry.name)) }
    {
        match files.read(alloc, self.file, LONGEST_FILE + 1) {
            Ok(bytes) => checked(bytes),
            Err(ReadError::Failed) => Err(TypeFault::Unreadable),
            Err(ReadError::OutOfMemory) => Err(TypeFault::OutOfMemory),
        }
    }
}

/// Returns the bytes. Fails with `TooLong` if they are more than a file of types may have.
fn checked(bytes: Vec<u8>) -> Result<Vec<u8>, TypeFault>
    ensures same { IfOk result
        (λ same. (same.items ≡ bytes.items) × (length bytes.items ≤ 1048576)) }
    ensures long { IfErr result (λ e. (e ≡ TooLong) × (1048576 < length bytes.items)) }
{
    if bytes.len() > LONGEST_FILE {
        return Err(TypeFault::TooLong);
    }
    Ok(bytes)
}

/// Returns an expression of the type that a file with these bytes declares with this name.
fn declared(alloc: Global, bytes: &[u8], name: &str) -> Result<String, TypeFault>
    ensures found { IfOk result (λ text. IsTextIn bytes.now (Some name.now) (string_bytes text)) }
    ensures refused { IfErr result (IsFaultIn bytes.now (Some name.now)) }
{
    let Ok(text) = str::from_utf8(bytes) else {
        return Err(TypeFault::NoText);
    };
    match expression(alloc, text, name) {
        Ok(expression) => Ok(expression),
        Err(error) => Err(fault_of(error)),
    }
}

/// Returns an expression of the type that a file with these bytes describes by a schema message.
fn described(alloc: Global, bytes: &[u8]) -> Result<String, TypeFault>
    ensures found { IfOk result (λ text. IsTextIn bytes.now None (string_bytes text)) }
    ensures refused { IfErr result (IsFaultIn bytes.now None) }
{
    let schema = schema_in(alloc, bytes)?;
    match written(alloc, &schema) {
        Ok(text) => Ok(text),
        Err(error) => Err(fault_of_text(error)),
    }
}

fn fault_of(error: FileError) -> TypeFault
    ensures { IsFaultBy error result }
{
    match error.problem {
        FileProblem::Expression(Problem::OutOfMemory) => TypeFault::OutOfMemory,
        _ => TypeFault::Wrong(error),
    }
}

fn fault_of_text(error: TextError) -> TypeFault
    ensures { IsTextFault error result }
{
    match error {
        TextError::OutOfMemory => TypeFault::OutOfMemory,
        _ => TypeFault::NoExpression(error),
    }
}

//! Copies of schemas: [`Schema::try_clone`].

ghost use Rattle.std.specs.Prelude.{◌≡◌, IfOk};
ghost use Rattle.postcard_schema.specs.{contents, named_views, type_of, types_of, view, views};

use crate::schema::{Named, Schema};
use std::alloc::{AllocError, Global};

impl Schema {
    /// Returns a copy: a schema of the same type, with the same names.
    ///
    /// # Errors
    ///
    /// Fails if an allocation fails.
    pub fn try_clone(&self, alloc: Global) -> Result<Schema, AllocError>
        ensures same { IfOk result (λ copy. view copy ≡ view self.now) }
        ensures same_type { IfOk result (λ copy. type_of copy ≡ type_of self.now) }
    {
        copy(alloc, self)
    }
}

#[cycle(copy)]
fn copy(alloc: Global, schema: &Schema) -> Result<Schema, AllocError>
    ensures same { IfOk result (λ copy. view copy ≡ view schema.now) }
    ensures same_type { IfOk result (λ copy. type_of copy ≡ type_of schema.now) }
{
    match schema {
        Schema::Leaf(leaf) => Ok(Schema::Leaf(*leaf)),
        Schema::Option(content) => Ok(Schema::Option(boxed(alloc, content)?)),
        Schema::Seq(element) => Ok(Schema::Seq(boxed(alloc, element)?)),
        Schema::Map(key, value) => {
            let key = boxed(alloc, key)?;
            Ok(Schema::Map(key, boxed(alloc, value)?))
        }
        Schema::Array(element, count) => Ok(Schema::Array(boxed(alloc, element)?, *count)),
        Schema::Tuple(parts) => Ok(Schema::Tuple(all(alloc, parts)?)),
        Schema::Struct(fields) => Ok(Schema::Struct(all_named(alloc, fields)?)),
        Schema::Enum(variants) => Ok(Schema::Enum(all_named(alloc, variants)?)),
    }
}

#[cycle(copy)]
fn boxed(alloc: Global, schema: &Schema) -> Result<Box<Schema>, AllocError>
    ensures same { IfOk result (λ copy. view copy.value ≡ view schema.now) }
    ensures same_type { IfOk result (λ copy. type_of copy.value ≡ type_of schema.now) }
{
    let copy = copy(alloc, schema)?;
    Ok(Box::new(alloc, copy)?)
}

#[cycle(copy)]
fn all(alloc: Global, parts: &Vec<Schema>) -> Result<Vec<Schema>, AllocError>
    ensures same { IfOk result (λ copies. views copies.items ≡ views parts.now.items) }
    ensures same_type { IfOk result (λ copies. types_of copies.items ≡ types_of parts.now.items) }
{
    let mut copies = Vec::with_capacity(alloc, parts.len())?;
    for part in parts {
        copies.push(copy(alloc, part)?)?;
    }
    Ok(copies)
}

#[cycle(copy)]
fn all_named(alloc: Global, named: &Vec<Named<Schema>>) -> Result<Vec<Named<Schema>>, AllocError>
    ensures same { IfOk result (λ copies. named_views copies.items ≡ named_views named.now.items) }
    ensures same_type { IfOk result
        (λ copies. types_of (contents copies.items) ≡ types_of (contents named.now.items)) }
{
    let mut copies = Vec::with_capacity(alloc, named.len())?;
    for part in named {
        let name = String::from_str(alloc, &part.name)?;
        let content = copy(alloc, &part.content)?;
        copies.push(Named { name, content })?;
    }
    Ok(copies)
}

//! The parts of a type that have no greatest size: [`endless_parts`]. The functions below it fail
//! as it does. Their parameter `here` has the steps to the current part. It is unchanged when they
//! return `Ok`.

ghost use Rattle.std.specs.Prelude.{◌≡◌, ◌++◌, ◌∷◌, [], if◌then◌else◌, IfErr, IfOk, OnOk, map};
ghost use Rattle.postcard_schema_size.specs.{after, endless, in_named, in_parts};
ghost use Rattle.postcard_schema_size.specs.{is_endless_leaf, plain_path, plain_step};

use postcard_schema::{Leaf, Named, Path, Schema, Step};
use postcard_wire::{Error, Result};
use std::alloc::Global;

/// Returns the paths of the parts of a type that have no greatest size, in order: its strings, byte
/// strings, lists and maps. The path of the type as a whole is empty.
///
/// [`Step::Each`] stands for each element of a list or an array, and each entry of a map. An array
/// without elements has no parts.
///
/// # Errors
///
/// Fails with `OutOfMemory` if an allocation fails.
pub fn endless_parts<'a>(alloc: Global, schema: &'a Schema) -> Result<Vec<Path<'a>>>
    ensures listed { IfOk result (λ paths. map plain_path paths.items ≡ endless schema.now) }
    ensures only_out_of_memory { IfErr result (λ e. e ≡ Error.OutOfMemory) }
{
    let mut here = Vec::new(alloc);
    let mut paths = Vec::new(alloc);
    push_endless(alloc, schema, &mut here, &mut paths)?;
    Ok(paths)
}

/// Appends the paths of the parts without a greatest size of the type of the part at `here`.
#[cycle(endless)]
fn push_endless<'a>(
    alloc: Global,
    schema: &'a Schema,
    here: &mut Vec<Step<'a>>,
    paths: &mut Vec<Path<'a>>,
) -> Result<()>
    ensures added { OnOk result (map plain_path paths.new.items ≡ map plain_path paths.old.items
        ++ after (map plain_step here.old.items) (endless schema.now)) }
    ensures back { OnOk result (here.new.items ≡ here.old.items) }
    ensures only_out_of_memory { IfErr result (λ e. e ≡ Error.OutOfMemory) }
{
    match schema {
        Schema::Leaf(leaf) => push_leaf(alloc, *leaf, here, paths),
        Schema::Option(content) => push_endless(alloc, content, here, paths),
        Schema::Seq(element) => {
            push_here(alloc, here, paths)?;
            push_within(alloc, element, Step::Each, here, paths)
        }
        Schema::Map(key, value) => {
            push_here(alloc, here, paths)?;
            here.push(Step::Each)?;
            push_within(alloc, key, Step::Part(0), here, paths)?;
            push_within(alloc, value, Step::Part(1), here, paths)?;
            here.pop();
            Ok(())
        }
        Schema::Array(element, count) => {
            if *count == 0 {
                return Ok(());
            }
            push_within(alloc, element, Step::Each, here, paths)
        }
        Schema::Tuple(parts) => push_in_parts(alloc, parts, here, paths),
        Schema::Struct(fields) => push_in_named(alloc, fields, here, paths),
        Schema::Enum(variants) => push_in_named(alloc, variants, here, paths),
    }
}

fn push_leaf<'a>(
    alloc: Global,
    leaf: Leaf,
    here: &Vec<Step<'a>>,
    paths: &mut Vec<Path<'a>>,
) -> Result<()>
    ensures added { OnOk result (map plain_path paths.new.items ≡ map plain_path paths.old.items
        ++ (if is_endless_leaf leaf then map plain_step here.now.items ∷ [] else [])) }
    ensures only_out_of_memory { IfErr result (λ e. e ≡ Error.OutOfMemory) }
{
    match leaf {
        Leaf::Str | Leaf::Bytes => push_here(alloc, here, paths),
        _ => Ok(()),
    }
}

/// Appends the path of the current part.
fn push_here<'a>(alloc: Global, here: &Vec<Step<'a>>, paths: &mut Vec<Path<'a>>) -> Result<()>
    ensures added { OnOk result (map plain_path paths.new.items ≡ map plain_path paths.old.items
        ++ map plain_step here.now.items ∷ []) }
    ensures only_out_of_memory { IfErr result (λ e. e ≡ Error.OutOfMemory) }
{
    let steps = Vec::from_slice(alloc, here)?;
    paths.push(Path { steps })?;
    Ok(())
}

/// Appends the paths in the part that is one step further.
#[cycle(endless)]
fn push_within<'a>(
    alloc: Global,
    part: &'a Schema,
    step: Step<'a>,
    here: &mut Vec<Step<'a>>,
    paths: &mut Vec<Path<'a>>,
) -> Result<()>
    ensures added { OnOk result (map plain_path paths.new.items ≡ map plain_path paths.old.items
        ++ after (map plain_step here.old.items ++ plain_step step.entry ∷ []) (endless part.now)) }
    ensures back { OnOk result (here.new.items ≡ here.old.items) }
    ensures only_out_of_memory { IfErr result (λ e. e ≡ Error.OutOfMemory) }
{
    here.push(step)?;
    push_endless(alloc, part, here, paths)?;
    here.pop();
    Ok(())
}

#[cycle(endless)]
fn push_in_parts<'a>(
    alloc: Global,
    parts: &'a Vec<Schema>,
    here: &mut Vec<Step<'a>>,
    paths: &mut Vec<Path<'a>>,
) -> Result<()>
    ensures added { OnOk result (map plain_path paths.new.items ≡ map plain_path paths.old.items
        ++ after (map plain_step here.old.items) (in_parts 0 (map endless parts.now.items))) }
    ensures back { OnOk result (here.new.items ≡ here.old.items) }
    ensures only_out_of_memory { IfErr result (λ e. e ≡ Error.OutOfMemory) }
{
    for (number, part) in parts.iter().enumerate() {
        push_within(alloc, part, Step::Part(number), here, paths)?;
    }
    Ok(())
}

/// Appends the paths in the fields of a struct, or in the contents of variants.
#[cycle(endless)]
fn push_in_named<'a>(
    alloc: Global,
    named: &'a Vec<Named<Schema>>,
    here: &mut Vec<Step<'a>>,
    paths: &mut Vec<Path<'a>>,
) -> Result<()>
    ensures added { OnOk result (map plain_path paths.new.items ≡ map plain_path paths.old.items
        ++ after (map plain_step here.old.items) (in_named endless named.now.items)) }
    ensures back { OnOk result (here.new.items ≡ here.old.items) }
    ensures only_out_of_memory { IfErr result (λ e. e ≡ Error.OutOfMemory) }
{
    for part in named {
        push_within(alloc, &part.content, Step::Name(&part.name), here, paths)?;
    }
    Ok(())
}

//! Whether a new version of a type reads what the old version wrote: [`compare`].

ghost use Rattle.std.specs.Prelude.{◌≡◌, IfOk, IfSome, true};
ghost use Rattle.postcard_compat.specs.{HasMove, IsCompared, IsExample, Means, NeverMisreads};
ghost use Rattle.postcard_compat.specs.{Relates, Shows, type_of};

use crate::candidates::{Messages, candidates};
use crate::change::Difference;
use crate::common::{both, join};
use crate::example::{Example, Reading, example_of};
use crate::flat::{flattened, named_row};
use crate::front::serves_front;
use crate::serves;
use crate::walk::{Changes, differences};
use crate::word::{same_words, words};
use postcard_schema::{Named, Schema};
use std::alloc::{AllocError, Global};

/// Whether a new version of a type reads what the old version wrote.
#[derive(Clone, Copy, Debug, PartialEq, Eq)]
pub enum Verdict {
    /// The new type reads each message of the old one as the same.
    Same,
    /// Each message of the old type begins with one of the new type that says the same. Bytes are
    /// left after it.
    Front,
    /// The new type refuses some messages of the old one, and misreads none.
    Refuses,
    /// The new type reads some message of the old one as another value, or a field or a variant by
    /// another one's name.
    Misread,
    /// None of the other verdicts is known to hold.
    Differs,
}

/// How two versions of a type differ, and what follows for messages.
#[derive(Debug, Drop)]
pub struct Comparison {
    /// Whether the new type reads the messages of the old one.
    pub verdict: Verdict,
    /// The parts that the new type may not read as the same, in the order of a message.
    pub differences: Vec<Difference>,
    /// The other changes.
    pub notes: Vec<Difference>,
    /// A message that the new type doesn't read as the same, if one was found.
    pub example: Option<Example>,
}

/// The relation of two types, as it is known without an example.
#[derive(Clone, Copy)]
enum Relation {
    /// The new type reads each message of the old one as the same.
    Same,
    /// Each message of the old type begins with one of the new type that says the same.
    Front,
    /// The new type misreads no message of the old one.
    Refuses,
    Unknown,
}

/// The meaning of an example. The later ones are better examples.
#[derive(Clone, Copy)]
enum Outcome {
    /// Bytes are left.
    Left,
    /// The new type refuses the message.
    Refused,
    /// The new type reads the whole message as the same.
    Whole,
    /// The new type reads the whole message as something else.
    Other,
}

/// Compares two versions of a type. It says whether the new one reads what the old one writes, and
/// lists how they differ. It also searches for a message that shows a difference.
///
/// The search is bounded. If it finds no message, `example` is `None`. Types with lists or arrays of
/// elements without bytes, such as `[()]`, aren't searched.
///
/// # Errors
///
/// Fails if an allocation fails.
///
/// # Examples
///
/// ```rust
/// let old = parse(rt.alloc(), "Stop | Go(u8)").expect(&rt, "a type");
/// let new = parse(rt.alloc(), "Stop | Go(u8) | Reset").expect(&rt, "a type");
/// assert_eq!(rt; compare(rt.alloc(), &old, &new)?.verdict, Verdict::Same);
/// assert_eq!(rt; compare(rt.alloc(), &new, &old)?.verdict, Verdict::Refuses);
/// ```
pub fn compare(alloc: Global, old: &Schema, new: &Schema) -> Result<Comparison, AllocError>
    ensures { IfOk result (IsCompared (type_of old.now) (type_of new.now)) }
{
    let flat_old = flattened(alloc, old)?;
    let flat_new = flattened(alloc, new)?;
    let relation = relation_of(alloc, &flat_old, &flat_new)?;
    let old_row = named_row(alloc, old)?;
    let new_row = named_row(alloc, new)?;
    let Changes { differences, notes } = differences(alloc, &old_row, &new_row)?;
    let example = example_for(alloc, old, new, relation, &old_row, &differences)?;
    let verdict = verdict_of(alloc, old, new, relation, &differences, &example)?;
    Ok(Comparison {
        verdict,
        differences,
        notes,
        example,
    })
}

/// Returns what is known of two flattened types.
fn relation_of(alloc: Global, old: &Schema, new: &Schema) -> Result<Relation, AllocError>
    ensures { IfOk result (Relates (type_of new.now) (type_of old.now)) }
{
    if serves(old, new) {
        return Ok(Relation::Same);
    }
    if serves_front(old, new) {
        return Ok(Relation::Front);
    }
    if never_misreads(alloc, old, new)? {
        return Ok(Relation::Refuses);
    }
    Ok(Relation::Unknown)
}

/// Returns `true` if a type was found that serves the old type, and also serves the new type or
/// reads a prefix of its messages.
fn never_misreads(alloc: Global, old: &Schema, new: &Schema) -> Result<bool, AllocError>
    ensures { IfOk result
        (λ yes. yes ≡ true → NeverMisreads (type_of new.now) (type_of old.now)) }
{
    let found = both(alloc, old, new)?;
    if let Some(_both) = found {
        return Ok(true);
    }
    let joined = join(alloc, old, new)?;
    if !serves(old, &joined) {
        return Ok(false);
    }
    Ok(serves_front(new, &joined))
}

/// Returns `true` if a name stands at another place of the new type.
fn has_move(differences: &Vec<Difference>) -> bool
    ensures { result ≡ true → HasMove differences.now.items }
{
    for difference in differences {
        if difference.what.is_move() {
            return true;
        }
    }
    false
}

/// Returns the verdict on two types, by what is known of them and an example.
fn verdict_of(
    alloc: Global,
    old: &Schema,
    new: &Schema,
    relation: Relation,
    differences: &Vec<Difference>,
    example: &Option<Example>,
) -> Result<Verdict, AllocError>
    requires { Relates (type_of new.now) (type_of old.now) relation }
    ensures { IfOk result (Means (type_of old.now) (type_of new.now) differences.now.items
        example.now) }
{
    if has_move(differences) {
        return moved_verdict(alloc, old, new, differences, example);
    }
    match relation {
        Relation::Same => return Ok(Verdict::Same),
        Relation::Front => return Ok(Verdict::Front),
        Relation::Refuses | Relation::Unknown => {}
    }
    let Some(found) = example else {
        return Ok(Verdict::Differs);
    };
    match (outcome_of(alloc, old, new, found)?, relation) {
        (Outcome::Other, _) => Ok(Verdict::Misread),
        (Outcome::Refused, Relation::Refuses) => Ok(Verdict::Refuses),
        _ => Ok(Verdict::Differs),
    }
}

/// Returns the verdict on two types in which a name stands at another place, by an example.
fn moved_verdict(
    alloc: Global,
    old: &Schema,
    new: &Schema,
    differences: &Vec<Difference>,
    example: &Option<Example>,
) -> Result<Verdict, AllocError>
    requires { HasMove differences.now.items }
    ensures { IfOk result (Means (type_of old.now) (type_of new.now) differences.now.items
        example.now) }
{
    let Some(found) = example else {
        return Ok(Verdict::Differs);
    };
    match outcome_of(alloc, old, new, found)? {
        Outcome::Other | Outcome::Whole => Ok(Verdict::Misread),
        Outcome::Refused | Outcome::Left => Ok(Verdict::Differs),
    }
}

/// Returns what an example shows.
fn outcome_of(
    alloc: Global,
    old: &Schema,
    new: &Schema,
    example: &Example,
) -> Result<Outcome, AllocError>
    ensures { IfOk result (Shows (type_of old.now) (type_of new.now) example.now) }
{
    match &example.reading {
        Reading::Refused { .. } => Ok(Outcome::Refused),
        Reading::Read { value, left } => {
            if *left > 0 {
                return Ok(Outcome::Left);
            }
            let old_words = words(alloc, old, &example.value)?;
            let new_words = words(alloc, new, value)?;
            if same_words(&old_words, &new_words) {
                Ok(Outcome::Whole)
            } else {
                Ok(Outcome::Other)
            }
        }
    }
}

/// Returns an example of two types, for the row of the old one. Returns `None` if the new type reads
/// each message as the same, or if none is found.
fn example_for(
    alloc: Global,
    old: &Schema,
    new: &Schema,
    relation: Relation,
    old_row: &Schema,
    differences: &Vec<Difference>,
) -> Result<Option<Example>, AllocError>
    ensures { IfOk result (λ found. IfSome found (IsExample (type_of old.now) (type_of new.now))) }
{
    let moved = has_move(differences);
    if matches!(relation, Relation::Same) && !moved {
        return Ok(None);
    }
    let messages = candidates(alloc, old_row, differences)?;
    search(alloc, old, new, &messages, moved, wanted(relation, moved))
}

/// Returns the best example among some messages. Stops after those that lead to a difference, once
/// an example is as good as wanted.
fn search(
    alloc: Global,
    old: &Schema,
    new: &Schema,
    found: &Messages,
    moved: bool,
    wanted: usize,
) -> Result<Option<Example>, AllocError>
    ensures { IfOk result (λ found. IfSome found (IsExample (type_of old.now) (type_of new.now))) }
{
    let mut best = None;
    if has_empty_elements(old) || has_empty_elements(new) {
        return Ok(best);
    }
    let mut best_rank = 0;
    for (index, message) in found.messages.iter().enumerate() {
        if index >= found.directed && best_rank >= wanted {
            return Ok(best);
        }
        let Some(example) = example_of(alloc, old, new, message)? else {
            return Ok(best);
        };
        let outcome = outcome_of(alloc, old, new, &example)?;
        let rank = rank_of(outcome, moved);
        if rank > best_rank || rank == best_rank && is_shorter(&example, &best, outcome) {
            best_rank = rank;
            best = Some(example);
        }
    }
    Ok(best)
}

/// Returns how good an example is. If no name moved, a message that the new type reads as the same
/// is no example.
fn rank_of(outcome: Outcome, moved: bool) -> usize {
    match outcome {
        Outcome::Left => 1,
        Outcome::Refused => 2,
        Outcome::Whole => { if moved { 3 } else { 0 } }
        Outcome::Other => 4,
    }
}

/// Returns how good an example has to be to end the search.
fn wanted(relation: Relation, moved: bool) -> usize {
    if moved {
        return 3;
    }
    match relation {
        Relation::Same => 0,
        Relation::Front => 1,
        Relation::Refuses => 2,
        Relation::Unknown => 4,
    }
}

/// Returns `true` if the example has fewer bytes. Of the examples that are read as the same, the
/// first one is kept, since it leads to a name that moved.
fn is_shorter(example: &Example, best: &Option<Example>, outcome: Outcome) -> bool {
    let Some(best) = best else {
        return false;
    };
    !matches!(outcome, Outcome::Whole) && example.bytes.len() < best.bytes.len()
}

/// Returns `true` if the type has a list, a map or an array of elements without bytes. A few bytes
/// may then encode more elements than can be read.
#[cycle(empty)]
fn has_empty_elements(schema: &Schema) -> bool {
    match schema {
        Schema::Leaf(_) => false,
        Schema::Option(content) => has_empty_elements(content),
        Schema::Seq(element) | Schema::Array(element, _) => {
            !element.has_bytes() || has_empty_elements(element)
        }
        Schema::Map(key, value) => {
            !key.has_bytes() && !value.has_bytes()
                || has_empty_elements(key)
                || has_empty_elements(value)
        }
        Schema::Tuple(parts) => parts_have(parts),
        Schema::Struct(named) | Schema::Enum(named) => contents_have(named),
    }
}

/// Returns `true` if one of the parts has such a list, map or array.
#[cycle(empty)]
fn parts_have(parts: &Vec<Schema>) -> bool {
    for part in parts {
        if has_empty_elements(part) {
            return true;
        }
    }
    false
}

/// Returns `true` if one of the contents has such a list, map or array.
#[cycle(empty)]
fn contents_have(named: &Vec<Named<Schema>>) -> bool {
    for each in named {
        if has_empty_elements(&each.content) {
            return true;
        }
    }
    false
}

//! Types of Rust that have types in `<` and `>`, such as `Vec<T>`, and their schemas. The place of
//! an error is the first byte of `start`. Each function fails with `OutOfMemory` if an allocation
//! fails.

ghost use Rattle.std.specs.Prelude.{◌≡◌, IfOk, IfErr, IfSome, IfNone};
ghost use Rattle.postcard_schema.specs.{type_of};
ghost use Rattle.postcard_schema.specs.declared.leaf.Integer.{Integer};
ghost use Rattle.postcard_schema_text.specs.{IsHolderOf, IsPairOf, IsRefusal, IsWide, MayHold};
ghost use Rattle.postcard_schema_text.specs.{MayPair};
ghost use Rattle.postcard_schema_text.specs.declared.angled.Pair.TheVariants as pairs;

use crate::error::Problem;
use crate::scan::{ProblemAt, boxed, named, problem_at, push};
use postcard_schema::{ByteOrder, Integer, Leaf, Schema};
use std::alloc::Global;

/// A type that has types in `<` and `>`.
#[derive(Clone, Copy, Debug, PartialEq, Eq)]
pub enum Angled {
    /// A type of one type.
    Holder(Holder),
    /// A type of two types.
    Pair(Pair),
}

/// A type of one type `T`.
#[derive(Clone, Copy, Debug, PartialEq, Eq)]
pub enum Holder {
    /// `Box<T>`, which is the type `T` itself.
    Itself,
    /// `Vec<T>`: a list.
    List,
    /// `Option<T>`: no value, or a value of `T`.
    Option,
    /// `LE<T>` or `BE<T>`: the number `T` at its full width.
    Fixed(ByteOrder),
}

impl Holder {
    /// Returns the schema of the type where `T` is the type of `inner`. Also fails with `NoBytes`
    /// if it is a list and `T` has no bytes. Fails with `NumberExpected` if it is `LE` or `BE` and
    /// `T` is no number of 16 to 128 bits.
    pub fn of_type(self, alloc: Global, inner: Schema, start: &[u8]) -> Result<Schema, ProblemAt>
        ensures made { IfOk result (λ schema. MayHold self (type_of inner)
            × IsHolderOf self inner schema) }
        ensures refused { IfErr result (λ found.
            IsRefusal found.problem (MayHold self (type_of inner))) }
    {
        match self {
            Holder::Itself => Ok(inner),
            Holder::List if !inner.has_bytes() => Err(problem_at(Problem::NoBytes, start)),
            Holder::List => Ok(Schema::Seq(boxed(alloc, inner, start)?)),
            Holder::Option => Ok(Schema::Option(boxed(alloc, inner, start)?)),
            Holder::Fixed(order) => match wide_integer(&inner) {
                Some(integer) => Ok(Schema::Leaf(Leaf::Fixed(order, integer))),
                None => Err(problem_at(Problem::NumberExpected, start)),
            },
        }
    }
}

/// Returns the type of integers that a schema is, if it has 16 bits or more.
fn wide_integer(schema: &Schema) -> Option<Integer>
    ensures found { IfSome result (λ integer. IsWide integer (type_of schema.now)) }
    ensures none { IfNone result ((integer : Integer) → IsWide integer (type_of schema.now) → ⊥) }
{
    match schema {
        Schema::Leaf(Leaf::Integer(integer)) if integer.size() > 1 => Some(*integer),
        _ => None,
    }
}

/// A type of two types.
#[derive(Clone, Copy, Debug, PartialEq, Eq)]
pub enum Pair {
    /// `BTreeMap<K, V>` or `HashMap<K, V>`: a map.
    Map,
    /// `Result<T, E>`: the enum `Ok(T) | Err(E)`.
    Result,
}

impl Pair {
    /// Returns the schema of the type where these are its two types, in order. Also fails with
    /// `NoBytes` if it is a map and its entries have no bytes.
    pub fn of_types(
        self,
        alloc: Global,
        first: Schema,
        second: Schema,
        start: &[u8],
    ) -> Result<Schema, ProblemAt>
        ensures made { IfOk result (λ schema. MayPair self (type_of first) (type_of second)
            × IsPairOf self first second schema) }
        ensures refused { IfErr result (λ found.
            IsRefusal found.problem (MayPair self (type_of first) (type_of second))) }
    {
        match self {
            Pair::Map => map_of(alloc, first, second, start),
            Pair::Result => result_of(alloc, first, second, start),
        }
    }
}

/// Returns a [`Schema::Map`] of the types of key and value. Also fails with `NoBytes` if its
/// entries have no bytes.
pub fn map_of(alloc: Global, key: Schema, value: Schema, start: &[u8]) -> Result<Schema, ProblemAt>
    ensures made { IfOk result (λ schema. MayPair pairs.Map (type_of key) (type_of value)
        × IsPairOf pairs.Map key value schema) }
    ensures refused { IfErr result (λ found.
        IsRefusal found.problem (MayPair pairs.Map (type_of key) (type_of value))) }
{
    if !key.has_bytes() && !value.has_bytes() {
        return Err(problem_at(Problem::NoBytes, start));
    }
    let key = boxed(alloc, key, start)?;
    Ok(Schema::Map(key, boxed(alloc, value, start)?))
}

/// Returns the enum `Ok(T) | Err(E)`, where `T` and `E` are these types.
fn result_of(alloc: Global, value: Schema, error: Schema, start: &[u8]) -> Result<Schema, ProblemAt>
    ensures made { IfOk result (λ schema. IsPairOf pairs.Result value error schema) }
    ensures only_out_of_memory { IfErr result (λ found. found.problem ≡ Problem.OutOfMemory) }
{
    let mut variants = Vec::new(alloc);
    push(&mut variants, named(alloc, b"Ok", value, start)?, start)?;
    push(&mut variants, named(alloc, b"Err", error, start)?, start)?;
    Ok(Schema::Enum(variants))
}

//! The names of types: what a word stands for.

ghost use Rattle.std.specs.Prelude.{IfSome, IfNone};
ghost use Rattle.postcard_schema.specs.declared.leaf.Integer.{Integer};
ghost use Rattle.postcard_schema.specs.declared.leaf.Leaf.{Leaf};
ghost use Rattle.postcard_schema_text.specs.declared.angled.Angled.{Angled};
ghost use Rattle.postcard_schema_text.specs.{IsAngledName, IsIntegerName, IsNameOf, IsTypeName};
ghost use Rattle.postcard_schema_text.specs.{TypeName};

use crate::angled::{Angled, Holder, Pair};
use postcard_schema::{ByteOrder, Float, Integer, Leaf};

/// What the name of a type stands for.
#[derive(Clone, Copy, Debug, PartialEq, Eq)]
pub enum TypeName {
    /// A type without parts, such as `u16`.
    Leaf(Leaf),
    /// A type that has types in `<` and `>`, such as `Vec`.
    Angled(Angled),
}

impl TypeName {
    /// Returns what the word stands for, or `None` if it names no type.
    pub fn from_word(word: &[u8]) -> Option<TypeName>
        ensures found { IfSome result (λ name. IsTypeName word.now name) }
        ensures none { IfNone result ((name : TypeName) → IsTypeName word.now name → ⊥) }
    {
        if let Some(leaf) = leaf_of_word(word) {
            return Some(TypeName::Leaf(leaf));
        }
        match angled_of_word(word) {
            Some(angled) => Some(TypeName::Angled(angled)),
            None => None,
        }
    }
}

/// Returns the type without parts that the word names.
fn leaf_of_word(word: &[u8]) -> Option<Leaf>
    ensures found { IfSome result (λ leaf. IsNameOf word.now leaf) }
    ensures none { IfNone result ((leaf : Leaf) → IsNameOf word.now leaf → ⊥) }
{
    if let Some(integer) = integer_of_word(word) {
        return Some(Leaf::Integer(integer));
    }
    match word {
        b"bool" => Some(Leaf::Bool),
        b"f32" => Some(Leaf::Float(Float::F32)),
        b"f64" => Some(Leaf::Float(Float::F64)),
        b"char" => Some(Leaf::Char),
        b"str" | b"String" => Some(Leaf::Str),
        b"bytes" => Some(Leaf::Bytes),
        _ => None,
    }
}

/// Returns the type of integers that the word names.
fn integer_of_word(word: &[u8]) -> Option<Integer>
    ensures found { IfSome result (λ integer. IsIntegerName word.now integer) }
    ensures none { IfNone result ((integer : Integer) → IsIntegerName word.now integer → ⊥) }
{
    match word {
        b"u8" => Some(Integer::U8),
        b"u16" => Some(Integer::U16),
        b"u32" => Some(Integer::U32),
        b"u64" | b"usize" => Some(Integer::U64),
        b"u128" => Some(Integer::U128),
        b"i8" => Some(Integer::I8),
        b"i16" => Some(Integer::I16),
        b"i32" => Some(Integer::I32),
        b"i64" | b"isize" => Some(Integer::I64),
        b"i128" => Some(Integer::I128),
        _ => None,
    }
}

/// Returns the type with types in `<` and `>` that the word names.
fn angled_of_word(word: &[u8]) -> Option<Angled>
    ensures found { IfSome result (λ angled. IsAngledName word.now angled) }
    ensures none { IfNone result ((angled : Angled) → IsAngledName word.now angled → ⊥) }
{
    match word {
        b"Box" => Some(Angled::Holder(Holder::Itself)),
        b"Vec" => Some(Angled::Holder(Holder::List)),
        b"Option" => Some(Angled::Holder(Holder::Option)),
        b"LE" => Some(Angled::Holder(Holder::Fixed(ByteOrder::Little))),
        b"BE" => Some(Angled::Holder(Holder::Fixed(ByteOrder::Big))),
        b"BTreeMap" | b"HashMap" => Some(Angled::Pair(Pair::Map)),
        b"Result" => Some(Angled::Pair(Pair::Result)),
        _ => None,
    }
}

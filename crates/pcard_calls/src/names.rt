//! What TYPE of `enc` and `dec` stands for where it may be a name.

ghost use Rattle.std.specs.Prelude.{◌≡◌, ◌≢◌, IfNone, IfSome};
ghost use Rattle.pcard_calls.specs.{IsWordOf, TypeWord, ValueType, begins_expression};
ghost use Rattle.pcard_calls.specs.{looks_like_expression, name_of};

/// The types that have a name.
#[derive(Clone, Copy, Debug, PartialEq, Eq)]
pub enum ValueType {
    U8,
    U16,
    U32,
    U64,
    U128,
    I8,
    I16,
    I32,
    I64,
    I128,
    Bool,
    Char,
    Str,
    ListU8,
    ListU32,
}

impl ValueType {
    /// Returns the type with this name, if there is one.
    pub fn from_name(name: &str) -> Option<ValueType>
        ensures found { IfSome result (λ kind. name.now ≡ name_of kind) }
        ensures none { IfNone result ((kind : ValueType) → name.now ≢ name_of kind) }
    {
        match name {
            "u8" => Some(ValueType::U8),
            "u16" => Some(ValueType::U16),
            "u32" => Some(ValueType::U32),
            "u64" => Some(ValueType::U64),
            "u128" => Some(ValueType::U128),
            "i8" => Some(ValueType::I8),
            "i16" => Some(ValueType::I16),
            "i32" => Some(ValueType::I32),
            "i64" => Some(ValueType::I64),
            "i128" => Some(ValueType::I128),
            "bool" => Some(ValueType::Bool),
            "char" => Some(ValueType::Char),
            "str" => Some(ValueType::Str),
            "list-u8" => Some(ValueType::ListU8),
            "list-u32" => Some(ValueType::ListU32),
            _ => None,
        }
    }
}

/// Returns whether a word counts as a type expression. It does if it is `f32` or `f64`, begins with
/// `(`, `[`, `{` or `&`, ends with `?` or `>`, or has a `|` in it. No name of a type does.
pub fn is_expression(word: &str) -> bool
    ensures { result ≡ looks_like_expression word.now }
{
    let bytes = word.as_bytes();
    opens_expression(bytes)
        || bytes.ends_with(b"?")
        || bytes.ends_with(b">")
        || bytes.contains(&b'|')
        || bytes == b"f32".as_slice()
        || bytes == b"f64".as_slice()
}

fn opens_expression(word: &[u8]) -> bool
    ensures { result ≡ begins_expression word.now }
{
    word.starts_with(b"(")
        || word.starts_with(b"[")
        || word.starts_with(b"{")
        || word.starts_with(b"&")
}

/// What the word TYPE stands for.
#[derive(Clone, Copy, Debug, PartialEq, Eq)]
pub enum TypeWord {
    /// A type by its name.
    Named(ValueType),
    /// A type expression, which isn't read yet.
    Expression,
}

impl TypeWord {
    /// Returns what a word stands for, or `None` if it is neither a name nor an expression.
    pub fn from_word(word: &str) -> Option<TypeWord>
        ensures found { IfSome result (λ kind. IsWordOf word.now kind) }
        ensures none { IfNone result ((kind : TypeWord) → IsWordOf word.now kind → ⊥) }
    {
        if is_expression(word) {
            return Some(TypeWord::Expression);
        }
        match ValueType::from_name(word) {
            Some(kind) => Some(TypeWord::Named(kind)),
            None => None,
        }
    }
}

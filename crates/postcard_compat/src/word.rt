//! What a message says, as a list: [`words`].

mod leaf;

ghost use Rattle.std.specs.Prelude.{◌≡◌, IfOk, IfSome, OnOk, false};
ghost use Rattle.postcard_compat.specs.{Appends, IsPair, array_said, choice_said, contents};
ghost use Rattle.postcard_compat.specs.{group_said, list_said, option_said, said};
ghost use Rattle.postcard_compat.specs.{said_all, said_at, tree, type_of, types_of, word_kind};
ghost use Rattle.postcard_compat.specs.{word_of, words_of};

pub(crate) use leaf::greatest_bits;
use leaf::say_leaf;
use postcard_schema::{Float, Named, Schema};
use postcard_value::Value;
use std::alloc::{AllocError, Global};

/// One thing that a message says. Groups and names say nothing of their own, and a number has no
/// width.
#[derive(Drop)]
pub enum Word {
    /// A `bool`.
    Truth(bool),
    /// An integer from 0 on.
    Natural(u128),
    /// The integer `-1 - n` for this `n`.
    Negative(u128),
    /// A float, by its type and its bits.
    Float(Float, u64),
    /// A `char`.
    Letter(char),
    /// A string.
    Phrase(String),
    /// The number of elements of a list, of entries of a map, or of bytes.
    Count(usize),
    /// The index of a variant. An option has the index 0 without a value and 1 with one.
    Index(u32),
    /// The end of an element of a list, of a variant's content, or of an option.
    End,
}

/// Returns what a message says: its values without parts, in order. If two messages say the same,
/// their lists are equal, whatever their types.
///
/// # Errors
///
/// Fails if an allocation fails, or if the value isn't built as
/// [`take_from_bytes`](postcard_value::take_from_bytes) builds the values of the schema.
///
/// # Examples
///
/// ```rust
/// let schema = parse(rt.alloc(), "(u16, bool)").expect(&rt, "a type");
/// let (value, _) = take_from_bytes(rt.alloc(), &schema, &[0xAC, 0x02, 0x01])?;
/// let said = words(rt.alloc(), &schema, &value)?;
/// assert!(rt; matches!(said.as_slice(), [Word::Natural(300), Word::Truth(true)]));
/// ```
pub fn words(alloc: Global, schema: &Schema, value: &Value) -> Result<Vec<Word>, AllocError>
    ensures { IfOk result
        (λ found. words_of found.items ≡ said (type_of schema.now) (tree value.now)) }
{
    let mut words = Vec::new(alloc);
    say(alloc, schema, value, &mut words)?;
    Ok(words)
}

/// Returns `true` if the two lists say the same.
pub fn same_words(words: &Vec<Word>, others: &Vec<Word>) -> bool
    ensures { result ≡ false → words_of words.now.items ≡ words_of others.now.items → ⊥ }
{
    if words.len() != others.len() {
        return false;
    }
    for (index, word) in words.iter().enumerate() {
        let Some(other) = others.get(index) else {
            return true;
        };
        if !same_word(word, other) {
            return false;
        }
    }
    true
}

/// Returns `true` if the two words are equal.
fn same_word(word: &Word, other: &Word) -> bool
    ensures { result ≡ false → word_of word.now ≡ word_of other.now → ⊥ }
{
    match (word, other) {
        (Word::Truth(x), Word::Truth(y)) => x == y,
        (Word::Natural(n), Word::Natural(m)) => n == m,
        (Word::Negative(n), Word::Negative(m)) => n == m,
        (Word::Float(float, bits), Word::Float(other, more)) => {
            float.size() == other.size() && bits == more
        }
        (Word::Letter(c), Word::Letter(d)) => c == d,
        (Word::Phrase(text), Word::Phrase(other)) => text.as_str() == other.as_str(),
        (Word::Count(n), Word::Count(m)) => n == m,
        (Word::Index(i), Word::Index(j)) => i == j,
        _ => kind_of(word) == kind_of(other),
    }
}

/// Returns a number that tells words of different kinds apart.
fn kind_of(word: &Word) -> u8
    ensures { result ≡ word_kind (word_of word.now) }
{
    match word {
        Word::Truth(_) => 0,
        Word::Natural(_) => 1,
        Word::Negative(_) => 2,
        Word::Float(_, _) => 3,
        Word::Letter(_) => 4,
        Word::Phrase(_) => 5,
        Word::Count(_) => 6,
        Word::Index(_) => 7,
        Word::End => 8,
    }
}

/// Appends what the message says. The functions below do the same for one kind of type. They fail
/// as [`words`] does.
#[cycle(say)]
fn say(
    alloc: Global,
    schema: &Schema,
    value: &Value,
    words: &mut Vec<Word>,
) -> Result<(), AllocError>
    ensures { OnOk result (Appends words.old.items words.new.items
        (said (type_of schema.now) (tree value.now))) }
{
    match schema {
        Schema::Leaf(leaf) => say_leaf(alloc, *leaf, value, words),
        Schema::Option(content) => say_option(alloc, content, value, words),
        Schema::Seq(element) => say_list(alloc, element, value, words),
        Schema::Map(key, content) => {
            let Value::Seq(entries) = value else {
                return Err(AllocError);
            };
            words.push(Word::Count(entries.len()))?;
            for entry in entries {
                let Some((first, second)) = pair_of(entry) else {
                    return Err(AllocError);
                };
                say(alloc, key, first, words)?;
                say(alloc, content, second, words)?;
                words.push(Word::End)?;
            }
            Ok(())
        }
        Schema::Array(element, _) => say_array(alloc, element, value, words),
        Schema::Tuple(parts) => say_tuple(alloc, parts, value, words),
        Schema::Struct(fields) => say_struct(alloc, fields, value, words),
        Schema::Enum(variants) => say_variant(alloc, variants, value, words),
    }
}

#[cycle(say)]
fn say_option(
    alloc: Global,
    content: &Schema,
    value: &Value,
    words: &mut Vec<Word>,
) -> Result<(), AllocError>
    ensures { OnOk result (Appends words.old.items words.new.items
        (option_said (said (type_of content.now)) (tree value.now))) }
{
    match value {
        Value::Absent => {
            words.push(Word::Index(0))?;
            words.push(Word::End)?;
            Ok(())
        }
        Value::Present(held) => {
            words.push(Word::Index(1))?;
            say(alloc, content, held, words)?;
            words.push(Word::End)?;
            Ok(())
        }
        _ => Err(AllocError),
    }
}

#[cycle(say)]
fn say_list(
    alloc: Global,
    element: &Schema,
    value: &Value,
    words: &mut Vec<Word>,
) -> Result<(), AllocError>
    ensures { OnOk result (Appends words.old.items words.new.items
        (list_said (said (type_of element.now)) (tree value.now))) }
{
    let Value::Seq(items) = value else {
        return Err(AllocError);
    };
    words.push(Word::Count(items.len()))?;
    for item in items {
        say(alloc, element, item, words)?;
        words.push(Word::End)?;
    }
    Ok(())
}

#[cycle(say)]
fn say_array(
    alloc: Global,
    element: &Schema,
    value: &Value,
    words: &mut Vec<Word>,
) -> Result<(), AllocError>
    ensures { OnOk result (Appends words.old.items words.new.items
        (array_said (said (type_of element.now)) (tree value.now))) }
{
    let Value::Group(items) = value else {
        return Err(AllocError);
    };
    for item in items {
        say(alloc, element, item, words)?;
    }
    Ok(())
}

#[cycle(say)]
fn say_tuple(
    alloc: Global,
    parts: &Vec<Schema>,
    value: &Value,
    words: &mut Vec<Word>,
) -> Result<(), AllocError>
    ensures { OnOk result (Appends words.old.items words.new.items
        (group_said (said_all (types_of parts.now.items)) (tree value.now))) }
{
    let Value::Group(items) = value else {
        return Err(AllocError);
    };
    for (index, part) in parts.iter().enumerate() {
        let Some(item) = items.get(index) else {
            return Err(AllocError);
        };
        say(alloc, part, item, words)?;
    }
    Ok(())
}

#[cycle(say)]
fn say_struct(
    alloc: Global,
    fields: &Vec<Named<Schema>>,
    value: &Value,
    words: &mut Vec<Word>,
) -> Result<(), AllocError>
    ensures { OnOk result (Appends words.old.items words.new.items
        (group_said (said_all (types_of (contents fields.now.items))) (tree value.now))) }
{
    let Value::Group(items) = value else {
        return Err(AllocError);
    };
    for (index, field) in fields.iter().enumerate() {
        let Some(item) = items.get(index) else {
            return Err(AllocError);
        };
        say(alloc, &field.content, item, words)?;
    }
    Ok(())
}

#[cycle(say)]
fn say_variant(
    alloc: Global,
    variants: &Vec<Named<Schema>>,
    value: &Value,
    words: &mut Vec<Word>,
) -> Result<(), AllocError>
    ensures { OnOk result (Appends words.old.items words.new.items
        (choice_said (said_at (types_of (contents variants.now.items))) (tree value.now))) }
{
    let Value::Variant(index, content) = value else {
        return Err(AllocError);
    };
    let Some(variant) = variants.get(*index as usize) else {
        return Err(AllocError);
    };
    words.push(Word::Index(*index))?;
    say(alloc, &variant.content, content, words)?;
    words.push(Word::End)?;
    Ok(())
}

/// Returns the key and the value of an entry of a map.
fn pair_of(entry: &Value) -> Option<(&Value, &Value)>
    ensures { IfSome result (λ pair. IsPair (tree entry.now) (tree pair.0.now) (tree pair.1.now)) }
{
    let Value::Group(parts) = entry else {
        return None;
    };
    match (parts.get(0), parts.get(1)) {
        (Some(key), Some(value)) => Some((key, value)),
        _ => None,
    }
}

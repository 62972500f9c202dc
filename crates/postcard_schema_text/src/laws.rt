//! What the text of a schema means for [`crate::parse`]. Each law is the contract of a function that
//! does nothing.

ghost use Rattle.std.specs.Prelude.{◌≡◌, ℕ, List};
ghost use Rattle.postcard_schema.specs.{type_of};
ghost use Rattle.postcard_schema.specs.declared.schema.Schema.{Schema};
ghost use Rattle.postcard_schema_text.specs.{IsExpressible, IsExpression, named_text, view};

/// The text of a schema that has an expression is an expression of the schema. So
/// `postcard_key::named_key` is the checksum of an expression.
pub fn text_denotes()
    ensures expression { (s : Schema) → IsExpressible (view s)
        → IsExpression s (named_text (view s)) }
{}

/// `parse` reads the text of a schema as a schema of the same type. The third premise is what
/// `parse` says of the schema that it returns.
pub fn comes_back()
    ensures same_type { (s back : Schema) (text : List ℕ) → IsExpressible (view s)
        → text ≡ named_text (view s)
        → ((other : Schema) → IsExpression other text → type_of other ≡ type_of back)
        → type_of s ≡ type_of back }
{}

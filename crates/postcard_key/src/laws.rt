//! What equal keys imply for their types. Each law is the contract of a function that does nothing.

ghost use Rattle.std.specs.Prelude.{◌≡◌, bit_xor, length, true, ℕ};
ghost use Rattle.crc.specs.{IsBurst, message};
ghost use Rattle.postcard_schema.specs.Meaning.{MessageType, type_of};
ghost use Rattle.postcard_schema.specs.declared.schema.Schema.{Schema};
ghost use Rattle.postcard_key.specs.{CountsFit, IsKey, shape_text};

/// Schemas of one type have equal keys. A struct and a tuple of the same parts are of one type.
pub fn same_type_same_key()
    ensures { (s t : Schema) → type_of s ≡ type_of t
        → (j k : ℕ) → IsKey (type_of s) j → IsKey (type_of t) k → j ≡ k }
{}

/// Types with one text are equal, if the counts of their arrays are below 2^64, as those of a
/// schema are.
pub fn one_text_one_type()
    ensures { (t u : MessageType) → CountsFit t → CountsFit u → shape_text t ≡ shape_text u → t ≡ u }
{}

/// Types with one key whose texts have one length, and differ only within 64 bits in a row, are
/// equal.
pub fn near_texts_differ()
    ensures { (t u : MessageType) (k : ℕ) → CountsFit t → CountsFit u → IsKey t k → IsKey u k
        → length (shape_text t) ≡ length (shape_text u)
        → IsBurst 64 (bit_xor (message true (shape_text t)) (message true (shape_text u)))
        → t ≡ u }
{}

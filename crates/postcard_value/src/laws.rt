//! Laws of every type that is known only at run time. Each law is the contract of a function that
//! does nothing.

ghost use Rattle.std.specs.Prelude.{◌≡◌, ◌<◌, ℕ, List, length, true};
ghost use Rattle.postcard_value.specs.{IsDelimited, MessageType, ReadsWellFormed, Spells, has_bytes};
ghost use Rattle.postcard_value.specs.{reads};
ghost use Rattle.postcard_wire.specs.Tree.{Tree};

/// The encodings of each type are prefix-free: at most one prefix of any bytes encodes a tree of
/// the type, and it encodes only one.
#[tactic(auto, using(crate::specs::TypeLaws::type_delimited))]
pub fn prefix_free()
    ensures { (t : MessageType) → IsDelimited (reads t) }
{}

/// Every tree of a type is well formed: each number is in its range, and each string is UTF-8.
#[tactic(auto, using(crate::specs::TypeLaws::type_well_formed))]
pub fn well_formed()
    ensures { (t : MessageType) → ReadsWellFormed (reads t) }
{}

/// If [`Schema::has_bytes`] returns `true` for a type, each of its messages has at least one byte.
///
/// [`Schema::has_bytes`]: postcard_schema::Schema::has_bytes
#[tactic(auto, using(crate::proofs::Bytes::type_some))]
pub fn at_least_one_byte()
    ensures { (t : MessageType) → has_bytes t ≡ true → (s : Tree) (p : List ℕ)
        → reads t s → Spells s p → 0 < length p }
{}

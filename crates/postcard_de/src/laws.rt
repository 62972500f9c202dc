//! Laws of every type that is read, as contracts of functions that do nothing.

ghost use Rattle.std.specs.Prelude.{◌≡◌, ℕ, List, ◌++◌};
ghost use Rattle.postcard_de.specs.{HasOne, IsDelimited, Spells, Tree, canonical};

use crate::deserialize::Deserialize;

/// The encodings of a type are prefix-free: at most one front of any bytes spells a tree that the
/// type reads, and it spells one such tree. Two values of one tree look alike.
pub fn one_message<'de, T: Deserialize<'de>>()
    ensures delimited { IsDelimited T.shape.reads }
    ensures one_value { HasOne T.shape.value T.shape.same }
{}

/// The canonical encoding of a tree that the type reads spells that tree. Whatever bytes follow it,
/// no other front spells such a tree.
pub fn read_again<'de, T: Deserialize<'de>>()
    ensures spelled { (t : Tree) → T.shape.reads t → Spells t (canonical t) }
    ensures no_other_front { (t s : Tree) (p rest left : List ℕ) → T.shape.reads t →
        T.shape.reads s → Spells s p → p ++ left ≡ canonical t ++ rest →
        (s ≡ t) × (p ≡ canonical t) × (left ≡ rest) }
{}

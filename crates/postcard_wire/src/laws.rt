//! Laws of bytes and of spellings, as contracts of functions that do nothing. A law over any set of
//! trees is about a type that names the set.

ghost use Rattle.std.specs.Prelude.{◌≡◌, ℕ, ℤ, ◌+◌, ◌-◌, ◌≤◌, ◌*◌, ◌%◌, ◌^◌, ◌<◌, ◌⊎◌, ◌++◌, ◌∷◌};
ghost use Rattle.std.specs.Prelude.{[], List, length, slice_index};
ghost use Rattle.postcard_wire.specs.{AreDelimited, InRange, IsArray, IsBoolean, IsByte, IsChar};
ghost use Rattle.postcard_wire.specs.{IsDelimited, IsEnd, IsGroup, IsInt, IsNum, IsOption, IsSeq};
ghost use Rattle.postcard_wire.specs.{IsText, IsThen, IsVariant, IsWidth, Num, PartsWellFormed};
ghost use Rattle.postcard_wire.specs.{ReadsNum, ReadsWellFormed, RefusesNum, Spells, Trees};
ghost use Rattle.postcard_wire.specs.{WellFormed, canonical, max_digits, number, zigzag};
ghost use Rattle.postcard_wire.specs.Tree.{Tree};
ghost use Rattle.postcard_wire.specs.declared.error.Error.{Error};

/// A set of trees.
pub trait TreeSet {
    ghost has: { Tree → Type 0 };
}

/// A set of trees in a row.
pub trait PartsSet {
    ghost have: { Trees → Type 0 };
}

/// A set of trees for the content of each index of an enum.
pub trait ContentSet {
    ghost holds: { ℕ → Tree → Type 0 };
}

/// Returns the same slice, each of whose elements is below 256.
pub fn in_range(bytes: &[u8]) -> &[u8]
    ensures same { result.now ≡ bytes.now }
    ensures range { (k : ℕ) → slice_index bytes.now k < 256 }
{
    bytes
}

/// Each well-formed tree has one shortest spelling, and every other is longer.
pub fn shortest()
    ensures spelled { (t : Tree) → WellFormed t → Spells t (canonical t) }
    ensures shortest_or_longer { (t : Tree) (p : List ℕ) → Spells t p
        → (p ≡ canonical t) ⊎ (length (canonical t) < length p) }
{}

/// The spellings of the nodes of one kind are prefix-free: none is a proper prefix of another.
pub fn self_delimiting()
    ensures byte { IsDelimited IsByte }
    ensures boolean { IsDelimited IsBoolean }
    ensures num { (w : ℕ) → IsDelimited (IsNum w) }
    ensures int { (w : ℕ) → IsDelimited (IsInt w) }
    ensures character { IsDelimited IsChar }
    ensures text { IsDelimited IsText }
{}

/// The spellings of options, lists and arrays are prefix-free if those of their elements are.
pub fn self_delimiting_containers<S: TreeSet>()
    ensures option { IsDelimited S.has → IsDelimited (IsOption S.has) }
    ensures list { IsDelimited S.has → IsDelimited (IsSeq S.has) }
    ensures array { (n : ℕ) → IsDelimited S.has → IsDelimited (IsArray n S.has) }
{}

/// The spellings of parts in a row, and of their group, are prefix-free if those of the first part
/// and of the parts after it are.
pub fn self_delimiting_parts<S: TreeSet, P: PartsSet>()
    ensures end { AreDelimited IsEnd }
    ensures then { IsDelimited S.has → AreDelimited P.have → AreDelimited (IsThen S.has P.have) }
    ensures group { AreDelimited P.have → IsDelimited (IsGroup P.have) }
{}

/// The spellings of an enum are prefix-free if those of the content of each index are.
pub fn self_delimiting_variants<C: ContentSet>()
    ensures { ((i : ℕ) → IsDelimited (C.holds i)) → IsDelimited (IsVariant C.holds) }
{}

/// The spellings of a set of trees are prefix-free if those of a larger set are.
pub fn self_delimiting_subsets<S: TreeSet, T: TreeSet>()
    ensures { ((t : Tree) → S.has t → T.has t) → IsDelimited T.has → IsDelimited S.has }
{}

/// The nodes of each kind are well formed.
pub fn well_formed()
    ensures byte { ReadsWellFormed IsByte }
    ensures boolean { ReadsWellFormed IsBoolean }
    ensures num { (w : ℕ) → IsWidth w → ReadsWellFormed (IsNum w) }
    ensures int { (w : ℕ) → IsWidth w → ReadsWellFormed (IsInt w) }
    ensures character { ReadsWellFormed IsChar }
    ensures text { ReadsWellFormed IsText }
{}

/// Options, lists and arrays are well formed if their elements are.
pub fn well_formed_containers<S: TreeSet>()
    ensures option { ReadsWellFormed S.has → ReadsWellFormed (IsOption S.has) }
    ensures list { ReadsWellFormed S.has → ReadsWellFormed (IsSeq S.has) }
    ensures array { (n : ℕ) → ReadsWellFormed S.has → ReadsWellFormed (IsArray n S.has) }
{}

/// Parts in a row, and their group, are well formed if the first part and the parts after it are.
pub fn well_formed_parts<S: TreeSet, P: PartsSet>()
    ensures end { PartsWellFormed IsEnd }
    ensures then { ReadsWellFormed S.has
        → PartsWellFormed P.have → PartsWellFormed (IsThen S.has P.have) }
    ensures group { PartsWellFormed P.have → ReadsWellFormed (IsGroup P.have) }
{}

/// An enum is well formed if the content of each index is.
pub fn well_formed_variants<C: ContentSet>()
    ensures { ((i : ℕ) → ReadsWellFormed (C.holds i)) → ReadsWellFormed (IsVariant C.holds) }
{}

/// A set of trees is well formed if a larger set is.
pub fn well_formed_subsets<S: TreeSet, T: TreeSet>()
    ensures { ((t : Tree) → S.has t → T.has t) → ReadsWellFormed T.has → ReadsWellFormed S.has }
{}

/// What is written is read again. If bytes begin with the shortest spelling of a tree of the set,
/// that is the only front that spells a tree of the set, and it spells only that tree.
pub fn read_again<S: TreeSet>()
    ensures { IsDelimited S.has → ReadsWellFormed S.has → (t s : Tree) (p rest left : List ℕ)
        → S.has t → S.has s → Spells s p → p ++ left ≡ canonical t ++ rest
        → (p ≡ canonical t) × (s ≡ t) × (left ≡ rest) }
{}

/// Bytes that are refused as a number of a width don't begin with a number of that width.
pub fn refused()
    ensures { (w n : ℕ) (bytes rest : List ℕ) (e : Error)
        → RefusesNum w bytes e → ReadsNum w bytes n rest → ⊥ }
{}

/// The value of a list of digits: each digit counts by its place. No two signed numbers have the
/// same zigzag encoding.
pub fn numbers()
    ensures none { number [] ≡ 0 }
    ensures by_place { (p : List ℕ) (b : ℕ)
        → number (p ++ b ∷ []) ≡ number p + b % 128 * 128 ^ length p }
    ensures folded { (y z : ℤ) → zigzag y ≡ zigzag z → y ≡ z }
{}

/// Zigzag maps the signed numbers of a width to the unsigned ones of that width, one to one and
/// onto, so that each direction undoes the other.
pub fn zigzags()
    ensures within { (w : ℕ) (z : ℤ) → IsWidth w → InRange w z → zigzag z < 2 ^ w }
    ensures onto { (w n : ℕ) → IsWidth w → n < 2 ^ w → (z : ℤ) × InRange w z × (zigzag z ≡ n) }
    ensures one_to_one { (y z : ℤ) → zigzag y ≡ zigzag z → y ≡ z }
{}

/// No number takes more bytes than its width allows, and the greatest takes just that many.
pub fn lengths()
    ensures most { (w n : ℕ) → IsWidth w → n < 2 ^ w → length (canonical (Num w n)) ≤ max_digits w }
    ensures reached { (w : ℕ) → IsWidth w → length (canonical (Num w (2 ^ w - 1))) ≡ max_digits w }
{}

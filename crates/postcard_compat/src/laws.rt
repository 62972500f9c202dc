//! What follows if a type serves another one. Each law is the contract of a function that does
//! nothing.

ghost use Rattle.std.specs.Prelude.{◌≡◌, ◌++◌, ℕ, List};
ghost use Rattle.postcard_compat.specs.{AllServeFront, MessageType, MessageTypes, Serves};
ghost use Rattle.postcard_compat.specs.{ServesFront, Spells, canonical, group, no_types, reads};
ghost use Rattle.postcard_compat.specs.{said, then_type};
ghost use Rattle.postcard_wire.specs.Tree.{Tree};

/// Serving is reflexive and transitive. So it is enough to compare each version with the next.
pub fn transitive()
    ensures reflexive { (a : MessageType) → Serves a a }
    ensures transitive { (a b c : MessageType) → Serves c b → Serves b a → Serves c a }
{}

/// The canonical encoding of an old message encodes a message of the new type that says the same.
/// Whatever bytes follow it, the new type reads just that message.
pub fn read_whole()
    ensures { (new old : MessageType) → Serves new old → (t : Tree) (rest : List ℕ) → reads old t
        → (s : Tree) × reads new s × (said new s ≡ said old t) × Spells s (canonical t)
        × ((u : Tree) (q x : List ℕ) → reads new u → Spells u q → q ++ x ≡ canonical t ++ rest
        → (q ≡ canonical t) × (u ≡ s)) }
{}

/// If one type serves both versions, the new version misreads no message of the old one. Whatever
/// it reads of an old message is the whole message, and says the same.
pub fn never_misread()
    ensures { (both new old : MessageType) → Serves both old → Serves both new → (t s : Tree)
        (p q x y : List ℕ) → reads old t → reads new s → Spells t p → Spells s q
        → p ++ x ≡ q ++ y → (p ≡ q) × (said new s ≡ said old t) }
{}

/// If each new part serves the old part at its place, each old message begins with a new message.
/// The old row may be longer. The new message says the beginning of what the old one says.
pub fn fronts()
    ensures none { (os : MessageTypes) → AllServeFront no_types os }
    ensures more { (n o : MessageType) (ns os : MessageTypes) → Serves n o → AllServeFront ns os
        → AllServeFront (then_type n ns) (then_type o os) }
    ensures grouped { (ns os : MessageTypes) → AllServeFront ns os
        → ServesFront (group ns) (group os) }
{}

//! Laws of calls, as contracts of functions that do nothing.

ghost use Rattle.std.specs.Prelude.{◌≡◌, ℕ, List};
ghost use Rattle.pcard_call.specs.{Given, IsCall, IsMisuse, Misuse, Verb};

/// Words are one call at most.
pub fn one_call()
    ensures { (words operands others : List (List ℕ)) (verb other : Verb) (given more : Given)
        → IsCall words verb given operands → IsCall words other more others
        → (verb ≡ other) × (given ≡ more) × (operands ≡ others) }
{}

/// Words that are a call are not misused.
pub fn call_or_misuse()
    ensures { (words operands : List (List ℕ)) (verb : Verb) (given : Given) (misuse : Misuse)
        → IsCall words verb given operands → IsMisuse words misuse → ⊥ }
{}

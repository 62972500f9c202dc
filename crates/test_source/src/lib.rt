//! Tests of the types that a file declares, and of the impls that are written for them. Expected
//! values were worked out by hand.
#![tactic(auto)]

#[cfg(test)]
mod declarations;
#[cfg(test)]
mod failing;
#[cfg(test)]
mod helpers;
#[cfg(test)]
mod impls;

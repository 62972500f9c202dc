//! Tests of types known only at run time: expressions, messages, the texts and the JSON of values,
//! and the lines that explain them. Expected values were worked out by hand.
#![tactic(auto)]

#[cfg(test)]
mod expressions;
#[cfg(test)]
mod floats;
#[cfg(test)]
mod helpers;
#[cfg(test)]
mod json;
#[cfg(test)]
mod limits;
#[cfg(test)]
mod random;
#[cfg(test)]
mod refused;
#[cfg(test)]
mod same;
#[cfg(test)]
mod texts;
#[cfg(test)]
mod vectors;

//! Tests of the calls of `postcard`, besides the rows of `test_vectors`. Each call is made at a
//! concrete type. So are the calls of a `Deserializer`, and those for the impls of a user's types.
//! They also test numbers at their full width, greatest sizes, the examples of the pages, and the
//! types, flavors and theorems of `example_types`.
#![tactic(auto)]

#[cfg(test)]
mod asserts;
#[cfg(test)]
mod by_parts;
#[cfg(test)]
mod deserializer;
#[cfg(test)]
mod devices;
#[cfg(test)]
mod examples;
#[cfg(test)]
mod fixint;
#[cfg(test)]
mod long_tuples;
#[cfg(test)]
mod reading;
#[cfg(test)]
mod refusals;
#[cfg(test)]
mod sizes;
#[cfg(test)]
mod users_flavors;
#[cfg(test)]
mod users_types;
#[cfg(test)]
mod writing;

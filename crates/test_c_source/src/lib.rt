//! Functions for the tests of `tools/c-source`. They use each construct of the MIR that the
//! translator knows. The compiled library and the translated source must return the same results.
//!
//! The contracts say what safety needs, and nothing more. The results have no meaning of their own.
//! `c/constructs.h` declares the exports, and `c/constructs.c` compares them.
//!
//! In reading order: `unsigned`, `signed`, `wide`, `casts`, `choices`, `loops`, `generic`, `memory`,
//! `order`.
#![tactic(auto)]

mod casts;
mod choices;
mod generic;
mod loops;
mod memory;
mod order;
mod signed;
mod unsigned;
mod wide;

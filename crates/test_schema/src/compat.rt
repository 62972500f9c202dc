//! Which types are recognized as versions of a type, and how two versions differ.

mod changes;
mod examples;
mod flattened;
mod helpers;
mod recognized;
mod rows;
mod versions;

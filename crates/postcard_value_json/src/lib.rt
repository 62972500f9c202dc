//! JSON of values whose type is known only at run time: [`to_json`]. [`json_text`] prints JSON
//! without control characters. `docs/PCARD.md` has a table of the JSON of each type.
//!
//! An integer from 2^53 on is a string of its decimal digits, since many readers of JSON keep no
//! greater numbers. A float that is no finite number is a string in the notation of
//! `postcard_value_text`. An option is `null` or its content, and `{"Some": content}` if the
//! content itself may be `null`. A map is an array of arrays of a key and a value: an object would
//! keep neither their order nor equal keys. A variant is its name, `"Boot"`, or an object of its
//! name and its content, `{"Reading": [1, -2]}`.
//!
//! By its contract, [`to_json`] returns the JSON that `json_of` gives for the value's tree. No
//! clause says that a value of the schema has JSON.
#![tactic(auto)]

mod leaf;
pub mod print;
pub mod write;

pub use print::json_text;
pub use write::to_json;

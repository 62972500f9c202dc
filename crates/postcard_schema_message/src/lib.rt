//! A schema as a Postcard message. A device sends the type of its messages once, and a host that has
//! no types reads them all.
//!
//! A [`Schema`](postcard_schema::Schema) refers to itself, so it has no shape of its own. It is sent
//! as the list of its [`Node`]s in preorder: each type stands before its parts. [`nodes_of`] returns
//! the list of a schema, and [`schema_of`] the schema of a list. [`laws`] say that the host gets the
//! schema that was sent.
//!
//! # Examples
//!
//! `{id: u16, label: str}` has three nodes: a struct with two names, `u16` and `str`. The message is a
//! `Vec<Node>` of 16 bytes:
//!
//! ```text
//! 03                    three nodes
//! 06                    Node::Struct
//! 02                    two names
//! 02 69 64              "id"
//! 05 6C 61 62 65 6C     "label"
//! 00 02                 Node::Leaf, u16
//! 00 0E                 Node::Leaf, str
//! ```
#![tactic(auto)]

pub mod build;
pub mod error;
pub mod laws;
pub mod leaf;
pub mod node;
pub mod nodes;
mod parts;
mod root;

pub use build::{MAX_DEPTH, schema_of};
pub use error::Problem;
pub use leaf::NodeLeaf;
pub use node::Node;
pub use nodes::nodes_of;

//! A node of a schema, and how it is written and read.

ghost use Rattle.std.specs.Prelude.{◌≡◌, ◌≤◌};
ghost use Rattle.postcard_schema_message.specs.{arity, levels, node_view, row_of, via};
ghost use Rattle.postcard_shape.specs.declared.cases.Case.TheVariants.{Next};

use crate::leaf::NodeLeaf;
use crate::parts::{FromRow, read_row, write_variant};
use postcard_de::{Deserialize, DeserializeOwned, Deserializer};
use postcard_de_flavors::Flavor as DeFlavor;
use postcard_ser::{Serialize, Serializer};
use postcard_ser_flavors::Flavor;
use postcard_shape::{Case, NoCase, Shaped};
use postcard_wire::Result;
use std::alloc::Global;

/// A type, without its parts. They are the next nodes of the list, each followed by its own parts.
///
/// It is written as an enum: the index of the variant, 0 to 7 in this order, and then its content.
#[derive(Debug, Drop)]
pub enum Node {
    /// A type without parts.
    Leaf(NodeLeaf),
    /// `T?`. The part is `T`.
    Option,
    /// `[T]`. The part is `T`.
    Seq,
    /// `{K => V}`. The parts are `K` and `V`.
    Map,
    /// `[T; N]`, where the content is `N`. The part is `T`.
    Array(usize),
    /// A tuple with this number of parts.
    Tuple(usize),
    /// A struct whose fields have these names. The parts are the types of the fields.
    Struct(Vec<String>),
    /// An enum whose variants have these names. The parts are the types of their contents.
    Enum(Vec<String>),
}

impl Node {
    /// Returns the number of parts.
    pub fn arity(&self) -> usize
        ensures { result ≡ arity (node_view self.now) }
    {
        match self {
            Node::Leaf(_) => 0,
            Node::Option | Node::Seq | Node::Array(_) => 1,
            Node::Map => 2,
            Node::Tuple(count) => *count,
            Node::Struct(names) => names.len(),
            Node::Enum(names) => names.len(),
        }
    }

    /// Returns how many levels the type is deeper than its deepest part. A map has two: it is a list
    /// of entries, which are tuples.
    pub fn levels(&self) -> usize
        ensures levels { result ≡ levels (node_view self.now) }
        ensures few { result ≤ 2 }
    {
        match self {
            Node::Leaf(_) => 0,
            Node::Map => 2,
            _ => 1,
        }
    }
}

/// What the variants of [`Node`] hold, in a row.
type NodeRow = Case<NodeLeaf, Case<(), Case<(), Case<(), CountedRow>>>>;

/// Those with a count or with names.
type CountedRow = Case<usize, Case<usize, Case<Vec<String>, Case<Vec<String>, NoCase>>>>;

impl FromRow for Node {
    type Row = NodeRow;

    ghost seen = { row_of };

    fn from_row(row: Self::Row) -> Self {
        use Case::{Next, This};
        match row {
            This(leaf) => Node::Leaf(leaf),
            Next(This(())) => Node::Option,
            Next(Next(This(()))) => Node::Seq,
            Next(Next(Next(This(())))) => Node::Map,
            Next(Next(Next(Next(row)))) => counted(row),
        }
    }
}

/// Makes a node with a count or with names.
fn counted(row: CountedRow) -> Node
    ensures { row_of result ≡ Next (Next (Next (Next row))) }
{
    use Case::{Next, This};
    match row {
        This(count) => Node::Array(count),
        Next(This(count)) => Node::Tuple(count),
        Next(Next(This(names))) => Node::Struct(names),
        Next(Next(Next(This(names)))) => Node::Enum(names),
        Next(Next(Next(Next(never)))) => match never {},
    }
}

impl Shaped for Node {
    ghost shape = { via row_of ⟦<NodeRow as Shaped>⟧.shape };
}

impl Serialize for Node {
    fn serialize<F: Flavor>(&self, serializer: &mut Serializer<F>) -> Result<()> {
        match self {
            Node::Leaf(leaf) => write_variant(self, 0, leaf, serializer),
            Node::Option => write_variant(self, 1, &(), serializer),
            Node::Seq => write_variant(self, 2, &(), serializer),
            Node::Map => write_variant(self, 3, &(), serializer),
            Node::Array(count) => write_variant(self, 4, count, serializer),
            Node::Tuple(count) => write_variant(self, 5, count, serializer),
            Node::Struct(names) => write_variant(self, 6, names, serializer),
            Node::Enum(names) => write_variant(self, 7, names, serializer),
        }
    }
}

/// Reading fails with `SerdeDeCustom` if the index is above 7.
impl<'de> Deserialize<'de> for Node {
    fn deserialize<F: DeFlavor>(alloc: Global, d: &mut Deserializer<'de, F>) -> Result<Self> {
        read_row(alloc, d)
    }
}

impl DeserializeOwned for Node {
    fn deserialize_owned<'de, F: DeFlavor>(
        alloc: Global,
        d: &mut Deserializer<'de, F>,
    ) -> Result<Self> {
        Node::deserialize(alloc, d)
    }
}

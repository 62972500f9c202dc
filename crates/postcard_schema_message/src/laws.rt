//! What the nodes of a schema say of it, as contracts of functions that do nothing.

ghost use Rattle.std.specs.Prelude.{◌≡◌, Vec};
ghost use Rattle.std.specs.declared.alloc.Global.{Global};
ghost use Rattle.postcard_schema.specs.Views.{View};
ghost use Rattle.postcard_schema.specs.declared.schema.Schema.{Schema};
ghost use Rattle.postcard_schema_message.specs.{message_type, node_views, preorder, type_of, view};
ghost use Rattle.postcard_schema_message.specs.declared.node.Node.{Node as NodeType};

use crate::node::Node;
use postcard_shape::Shaped;

/// Schemas with the same nodes are the same, names included. So the schema that a host builds is the
/// one that the device sent.
pub fn one_schema()
    ensures { (v w : View) → preorder v ≡ preorder w → v ≡ w }
{}

/// The view of a schema has the schema's type. So bounds on the type of a view are bounds on that of
/// the schema.
pub fn view_has_type()
    ensures { (s : Schema) → message_type (view s) ≡ type_of s }
{}

/// A host builds the schema that the device sent, names included. The device sent the nodes of `s`,
/// and the host read nodes that look like these, as `postcard::laws::comes_back` says. Then the
/// schema that the host builds from them has the view of `s`.
pub fn comes_back()
    ensures same_schema { (s back : Schema) (sent read : Vec NodeType Global)
        → node_views sent.items ≡ preorder (view s)
        → ⟦<Vec<Node> as Shaped>⟧.shape.same read sent
        → preorder (view back) ≡ node_views read.items → view back ≡ view s }
{}

//! Equality of two lists of objects. The comparison allocates nothing, and its time grows with the
//! shorter list.

ghost use Rattle.std.specs.Prelude.{◌≡◌, ◌↔◌, IsTrue};

use crate::node::{Node, Nodes};

/// Whether two lists have equal nodes in the same order.
#[cycle(same)]
pub(crate) fn are_same(one: &Nodes, other: &Nodes) -> bool
    ensures { IsTrue result ↔ (one.now ≡ other.now) }
{
    let nodes = one.get();
    let others = other.get();
    if nodes.len() != others.len() {
        return false;
    }
    for (place, node) in nodes.iter().enumerate() {
        if !is_same(node, &others[place]) {
            return false;
        }
    }
    true
}

/// Whether two nodes are equal, including the nodes inside them.
#[cycle(same)]
pub(crate) fn is_same(one: &Node, other: &Node) -> bool
    ensures { IsTrue result ↔ (one.now ≡ other.now) }
{
    match (one, other) {
        (Node::Filler, Node::Filler) => true,
        (
            Node::Primitive { tag, form, value },
            Node::Primitive {
                tag: other_tag,
                form: other_form,
                value: other_value,
            },
        ) => tag == other_tag && form == other_form && value == other_value,
        (
            Node::Constructed { tag, form, nodes },
            Node::Constructed {
                tag: other_tag,
                form: other_form,
                nodes: other_nodes,
            },
        ) => tag == other_tag && form == other_form && are_same(nodes, other_nodes),
        _ => false,
    }
}

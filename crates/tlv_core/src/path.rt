//! Finding objects by a path of tags.

ghost use Rattle.std.specs.Prelude.{◌≡◌, ◌∷◌, []};
ghost use Rattle.std.specs.Option.{option_copied};
ghost use Rattle.tlv_core.specs.Parts.{first_on};
ghost use Rattle.tlv_core.specs.Own.{own_tag_is};

use crate::forest::Forest;
use crate::node::{Node, Nodes};
use crate::tag::Tag;

/// Finds the first object on a path of tags. A path of one tag finds the first object of the forest with that
/// tag. A longer path goes through the objects with its first tag in order, and looks for the rest of the path
/// in their nodes. The result is `None` if no object is on the path, or if the path is empty.
pub fn first<'a>(forest: &'a Forest, path: &[Tag]) -> Option<&'a Node>
    ensures { option_copied result ≡ first_on path.now forest.now }
{
    first_in(forest.nodes(), path)
}

/// Finds the first object on a path that begins in this list.
fn first_in<'a>(nodes: &'a Nodes, path: &[Tag]) -> Option<&'a Node>
    ensures { option_copied result ≡ first_on path.now nodes.now }
{
    match path {
        [] => None,
        [tag] => with_tag(nodes, tag),
        [tag, rest @ ..] => {
            for node in nodes.get() {
                if let Node::Constructed {
                    tag: own,
                    form: _,
                    nodes,
                } = node
                {
                    if *tag == *own {
                        let found = first_in(nodes, rest);
                        if found.is_some() {
                            return found;
                        }
                    }
                }
            }
            None
        }
    }
}

/// Returns the first object of a list with this tag.
fn with_tag<'a>(nodes: &'a Nodes, tag: &Tag) -> Option<&'a Node>
    ensures { option_copied result ≡ first_on (tag.now ∷ []) nodes.now }
{
    for node in nodes.get() {
        if has_tag(node, tag) {
            return Some(node);
        }
    }
    None
}

/// Whether a node is an object with this tag.
fn has_tag(node: &Node, tag: &Tag) -> bool
    ensures { result ≡ own_tag_is tag.now node.now }
{
    match node {
        Node::Filler => false,
        Node::Primitive { tag: own, .. } => *tag == *own,
        Node::Constructed { tag: own, .. } => *tag == *own,
    }
}

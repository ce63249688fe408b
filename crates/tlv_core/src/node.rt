//! Lists of data objects and fillers.

ghost use Rattle.std.specs.Prelude.{◌≡◌};

use crate::form::Form;
use crate::same::{are_same, is_same};
use crate::tag::Tag;
use octet_core::Octets;
use std::fmt::{self, Debug, Formatter, Write};
use std::marker::Model;

/// A list of data objects and fillers. Contracts see it as a tree: its first item and the rest.
#[derive(Drop)]
#[cycle(tree)]
pub struct Nodes {
    list: Vec<Node>,
}

impl Model for Nodes {
    ghost use Rattle.tlv_core.specs.Tree.{Tree, tree_size};
    ghost use Rattle.tlv_core.specs.TreeCode.{tree_code};

    ghost Value = { Tree };

    ghost coded = { tree_code };

    ghost use Rattle.tlv_core.specs.Nodes.{tree_of};

    ghost view = { λ nodes. tree_of nodes.list.items };

    ghost size = { tree_size };

    ghost use Rattle.tlv_core.specs.NodesFall.{falls};

    ghost size_decreases = { λ nodes h. falls nodes };
}

impl Nodes {
    ghost use Rattle.tlv_core.specs.Nodes.{tree_of};

    /// Makes a list of the nodes in a vector.
    pub fn of(list: Vec<Node>) -> Nodes
        ensures { result ≡ tree_of list.items }
    {
        Self { list }
    }

    /// Borrows the nodes.
    pub fn get(&self) -> &[Node]
        ensures { tree_of result.now ≡ self.now }
    {
        self.list.as_slice()
    }

    /// Returns the vector with the nodes.
    pub fn into_inner(self) -> Vec<Node>
        ensures { tree_of result.items ≡ self }
    {
        let Nodes { list } = self;
        list
    }
}

/// A filler octet 00, or a data object with its tag, the form of its length field, and its value.
#[derive(Debug, Drop)]
#[cycle(tree)]
pub enum Node {
    /// An octet 00 between objects, without a meaning.
    Filler,
    /// An object whose value is octets.
    Primitive { tag: Tag, form: Form, value: Octets },
    /// An object whose value is objects and fillers.
    Constructed { tag: Tag, form: Form, nodes: Nodes },
}

impl PartialEq for Nodes {
    ghost use Rattle.tlv_core.specs.Same.{same_tree, tree_equiv};
    ghost use Rattle.std.specs.Cmp.{partial_equiv_from_equiv};

    ghost eq = { same_tree };

    ghost laws = { partial_equiv_from_equiv tree_equiv };

    fn eq(&self, other: &Self) -> bool {
        are_same(self, other)
    }
}

impl Eq for Nodes {
    ghost use Rattle.tlv_core.specs.Same.{tree_equiv};

    ghost laws = { tree_equiv };
}

impl PartialEq for Node {
    ghost use Rattle.tlv_core.specs.Same.{same_node, node_equiv};
    ghost use Rattle.std.specs.Cmp.{partial_equiv_from_equiv};

    ghost eq = { same_node };

    ghost laws = { partial_equiv_from_equiv node_equiv };

    fn eq(&self, other: &Self) -> bool {
        is_same(self, other)
    }
}

impl Eq for Node {
    ghost use Rattle.tlv_core.specs.Same.{node_equiv};

    ghost laws = { node_equiv };
}

/// Shows how many nodes the list has, but not those inside them, nor any octet of a value.
impl Debug for Nodes {
    fn fmt<W: Write>(&self, f: &mut Formatter<W>) -> fmt::Result {
        f.debug_struct("Nodes")
            .field("nodes", &self.list.len())
            .finish()
    }
}

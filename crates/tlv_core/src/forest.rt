//! Forests.

ghost use Rattle.std.specs.Prelude.{◌≡◌, IfOk, IfErr};

use crate::node::Nodes;
use crate::survey::{Fault, has_fault, octets_of};
use octet_core::Named;
use std::error::Error;
use std::fmt::{self, Display, Formatter, Write};
use std::marker::Model;

/// The greatest number of octets of a forest.
pub const LARGEST_FOREST: usize = 1_048_576;

/// Why a list of nodes isn't a forest.
#[derive(Clone, Copy, Debug, PartialEq, Eq)]
pub enum Improper {
    /// An object is inside one of depth 16.
    Depth,
    /// Bit 6 of a tag disagrees with the kind of its object.
    Tag,
    /// A length is too large for the form of its length field.
    Form,
    /// There are more than 1,048,576 octets.
    Size,
}

impl Named for Improper {
    ghost use Rattle.tlv_core.specs.Names.{improper_name};

    ghost text = { improper_name };

    fn name(self) -> &'static str {
        match self {
            Improper::Depth => "Depth",
            Improper::Tag => "Tag",
            Improper::Form => "Form",
            Improper::Size => "Size",
        }
    }
}

/// Writes the reason's name.
impl Display for Improper {
    ghost use Rattle.std.specs.Prelude.{Some};
    ghost use Rattle.tlv_core.specs.Names.{improper_name};

    ghost output = { λ reason. Some (improper_name reason) };

    fn fmt<W: Write>(&self, f: &mut Formatter<W>) -> fmt::Result {
        f.write_str(self.name())
    }
}

impl Error for Improper {}

/// A list of data objects and fillers with an encoding of at most 1,048,576 octets. Its outermost objects
/// have depth 1, and no object is deeper than 16.
#[derive(Debug, Drop)]
pub struct Forest {
    nodes: Nodes,
}

impl Model for Forest {
    ghost use Rattle.tlv_core.specs.Tree.{Tree};
    ghost use Rattle.tlv_core.specs.TreeCode.{tree_code};

    ghost Value = { Tree };

    ghost coded = { tree_code };

    ghost use Rattle.tlv_core.specs.Forest.{HasSpelling, largest};
    ghost use Rattle.tlv_core.specs.Improper.{IsFirstImproper};

    ghost view = { λ forest. forest.nodes };

    ghost invariant = { λ forest. HasSpelling largest forest.nodes };
}

impl PartialEq for Forest {
    ghost use Rattle.tlv_core.specs.Same.{same_tree, tree_equiv};
    ghost use Rattle.std.specs.Cmp.{partial_equiv_from_equiv};

    ghost eq = { same_tree };

    ghost laws = { partial_equiv_from_equiv tree_equiv };

    fn eq(&self, other: &Self) -> bool {
        self.nodes() == other.nodes()
    }
}

impl Eq for Forest {
    ghost use Rattle.tlv_core.specs.Same.{tree_equiv};

    ghost laws = { tree_equiv };
}

impl Forest {
    ghost use Rattle.tlv_core.specs.Forest.{HasSpelling, largest};
    ghost use Rattle.tlv_core.specs.Improper.{IsFirstImproper};

    /// Makes a forest of a list of nodes. The error returns the list, with the first of these reasons that
    /// holds anywhere in it: `Depth`, `Tag`, `Form`, `Size`.
    pub fn new(nodes: Nodes) -> Result<Forest, (Nodes, Improper)>
        ensures forest { IfOk result (λ forest. (forest ≡ nodes) × HasSpelling largest forest) }
        ensures refused { IfErr result
            (λ refused. (refused.0 ≡ nodes) × IsFirstImproper largest nodes refused.1) }
    {
        if has_fault(Fault::Depth, &nodes, 1) {
            return Err((nodes, Improper::Depth));
        }
        if has_fault(Fault::Tag, &nodes, 1) {
            return Err((nodes, Improper::Tag));
        }
        if has_fault(Fault::Form, &nodes, 1) {
            return Err((nodes, Improper::Form));
        }
        if octets_of(&nodes) > LARGEST_FOREST {
            return Err((nodes, Improper::Size));
        }
        Ok(Forest { nodes })
    }

    /// Makes a forest of nodes that have an encoding.
    pub(crate) fn of(nodes: Nodes) -> Forest
        requires { HasSpelling largest nodes }
        ensures { result ≡ nodes }
    {
        Forest { nodes }
    }

    /// Borrows the list of nodes.
    pub fn nodes(&self) -> &Nodes
        ensures list { result.now ≡ self.now }
        ensures spelled { HasSpelling largest result.now }
    {
        &self.nodes
    }
}

//! The shortest encoding of a forest's objects, which this project calls its tidy form.

ghost use Rattle.std.specs.Prelude.{◌≡◌, length, IfOk};
ghost use Rattle.tlv_core.specs.Form.{shortest};
ghost use Rattle.tlv_core.specs.declared.node.Node.TheVariants.{Primitive};
ghost use Rattle.tlv_core.specs.Tidy.{tidy as tidy_form};

use crate::forest::Forest;
use crate::form::Form;
use crate::node::{Node, Nodes};
use crate::survey::octets_of;
use crate::tag::Tag;
use octet_core::Octets;
use std::alloc::{AllocError, Global};

/// Returns the tidy form of a forest: the same objects without fillers, each in the shortest form of
/// its length. The nodes of an object are tidied before its length is computed. No forest with the
/// same objects has fewer octets.
///
/// The error is a failed allocation.
pub fn tidy(alloc: Global, forest: &Forest) -> Result<Forest, AllocError>
    ensures { IfOk result (λ tidied. tidied ≡ tidy_form forest.now) }
{
    let nodes = tidy_nodes(alloc, forest.nodes())?;
    Ok(Forest::of(nodes))
}

/// Returns the same nodes, tidied.
fn tidy_nodes(alloc: Global, nodes: &Nodes) -> Result<Nodes, AllocError>
    ensures { IfOk result (λ tidied. tidied ≡ tidy_form nodes.now) }
{
    let mut list = Vec::new(alloc);
    for node in nodes.get() {
        match node {
            Node::Filler => {}
            Node::Primitive {
                tag,
                form: _,
                value,
            } => list.push(primitive(alloc, *tag, value.get())?)?,
            Node::Constructed {
                tag,
                form: _,
                nodes,
            } => {
                let nodes = tidy_nodes(alloc, nodes)?;
                let form = Form::shortest(octets_of(&nodes));
                list.push(Node::Constructed {
                    tag: *tag,
                    form,
                    nodes,
                })?;
            }
        }
    }
    Ok(Nodes::of(list))
}

/// Returns a primitive object with a copy of the value, in the shortest form.
fn primitive(alloc: Global, tag: Tag, value: &[u8]) -> Result<Node, AllocError>
    ensures { IfOk result (λ node. node ≡ Primitive tag (shortest (length value.now)) value.now) }
{
    let copy = Vec::from_slice(alloc, value)?;
    Ok(Node::Primitive {
        tag,
        form: Form::shortest(value.len()),
        value: Octets::of(copy),
    })
}

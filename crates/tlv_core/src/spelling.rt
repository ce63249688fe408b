//! Encoding of forests.

ghost use Rattle.std.specs.Prelude.{◌≡◌, ℕ, ◌<◌, ◌≤◌, ◌++◌, length, OnOk, IfOk};
ghost use Rattle.tlv_core.specs.Form.{capacity};
ghost use Rattle.tlv_core.specs.Tag.{header_of};
ghost use Rattle.tlv_core.specs.Forest.{spelling, largest, IsForest, IsProper};

use crate::forest::Forest;
use crate::form::Form;
use crate::node::{Node, Nodes};
use crate::survey::octets_of;
use crate::tag::Tag;
use std::alloc::{AllocError, Global};

/// Encodes the forest. The error is a failed allocation.
pub fn encode(alloc: Global, forest: &Forest) -> Result<Vec<u8>, AllocError>
    ensures { IfOk result (λ octets. IsForest largest forest.now octets.items) }
{
    let mut out = Vec::new(alloc);
    append_nodes(&mut out, forest.nodes())?;
    Ok(out)
}

/// Appends the encoding of a list of nodes.
fn append_nodes(out: &mut Vec<u8>, nodes: &Nodes) -> Result<(), AllocError>
    requires proper { (depth : ℕ) × IsProper depth nodes.now }
    requires size { length (spelling nodes.now) ≤ largest }
    ensures { OnOk result (out.new.items ≡ out.old.items ++ spelling nodes.now) }
{
    for node in nodes.get() {
        match node {
            Node::Filler => out.push(0)?,
            Node::Primitive { tag, form, value } => {
                append_header(out, tag, *form, value.get().len())?;
                out.extend_from_slice(value.get())?;
            }
            Node::Constructed { tag, form, nodes } => {
                append_header(out, tag, *form, octets_of(nodes))?;
                append_nodes(out, nodes)?;
            }
        }
    }
    Ok(())
}

/// Appends the header of an object whose value has `len` octets.
fn append_header(out: &mut Vec<u8>, tag: &Tag, form: Form, len: usize) -> Result<(), AllocError>
    requires { len < capacity form }
    ensures { OnOk result (out.new.items ≡ out.old.items ++ header_of tag.now form len) }
{
    out.extend_from_slice(tag.octets())?;
    out.extend_from_slice(form.field(len).as_slice())
}

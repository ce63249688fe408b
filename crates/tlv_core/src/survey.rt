//! Surveys of a list of nodes at every depth: its encoded length, and what is improper in it.

ghost use Rattle.std.specs.Prelude.{◌≡◌, ℕ, ◌+◌, ◌-◌, ◌^◌, ◌↔◌, IsTrue, length, min};
ghost use Rattle.octet_core.specs.Octets.{AreOctets};
ghost use Rattle.tlv_core.specs.Forest.{spelling};
ghost use Rattle.tlv_core.specs.Improper.{AreObjects, SomeObject, HasFault, IsDeep, IsOtherKind, IsUnfit};
ghost use Rattle.tlv_core.specs.Own.{OwnIs};
ghost use Rattle.tlv_core.specs.Form.{further};
ghost use Rattle.tlv_core.specs.Tag.{IsTag};

use crate::form::Form;
use crate::node::{Node, Nodes};
use crate::progress::DEEPEST;
use crate::tag::Tag;
use octet_core::Octets;

/// Returns the number of octets that encode the list, or the greatest `usize` if there are more.
pub(crate) fn octets_of(nodes: &Nodes) -> usize
    ensures count { result ≡ min (length (spelling nodes.now)) (2 ^ 64 - 1) }
    ensures objects { AreObjects nodes.now }
{
    let mut total: usize = 0;
    for node in nodes.get() {
        let octets = match node {
            Node::Filler => 1,
            Node::Primitive { tag, form, value } => octets_with(tag, *form, value_len(value)),
            Node::Constructed { tag, form, nodes } => octets_with(tag, *form, octets_of(nodes)),
        };
        total = total.saturating_add(octets);
    }
    total
}

/// Returns the number of octets of a value.
fn value_len(value: &Octets) -> usize
    ensures count { result ≡ length value.now }
    ensures octets { AreOctets value.now }
{
    let held = value.get();
    held.len()
}

/// Returns the number of octets of an object whose value has `len` octets, at most the greatest
/// `usize`.
fn octets_with(tag: &Tag, form: Form, len: usize) -> usize
    ensures count { result ≡ min (length tag.now + 1 + further form + len) (2 ^ 64 - 1) }
    ensures tag { IsTag tag.now }
{
    let header = tag.octets().len() + 1 + usize::from(form.further());
    len.saturating_add(header)
}

/// What is wrong with an object.
#[derive(Clone, Copy)]
pub(crate) enum Fault {
    /// It is inside one of depth 16.
    Depth,
    /// Bit 6 of its tag disagrees with its kind.
    Tag,
    /// Its length is too large for the form of its length field.
    Form,
}

/// Whether an object of the list, at any depth, has this fault. The list is at `depth`.
pub(crate) fn has_fault(fault: Fault, nodes: &Nodes, depth: usize) -> bool
    ensures { IsTrue result ↔ SomeObject (HasFault fault) depth nodes.now }
{
    for node in nodes.get() {
        if is_faulty(fault, node, depth) {
            return true;
        }
        if let Node::Constructed {
            tag: _,
            form: _,
            nodes,
        } = node
        {
            if has_fault(fault, nodes, depth.saturating_add(1)) {
                return true;
            }
        }
    }
    false
}

/// Whether the node at this depth is an object with this fault.
fn is_faulty(fault: Fault, node: &Node, depth: usize) -> bool
    ensures { IsTrue result ↔ OwnIs (HasFault fault) depth node.now }
{
    match fault {
        Fault::Depth => is_deep(node, depth),
        Fault::Tag => is_other_kind(node),
        Fault::Form => is_unfit(node),
    }
}

/// Whether the node at this depth is an object that is too deep.
fn is_deep(node: &Node, depth: usize) -> bool
    ensures { IsTrue result ↔ OwnIs IsDeep depth node.now }
{
    match node {
        Node::Filler => false,
        Node::Primitive { .. } | Node::Constructed { .. } => depth > DEEPEST,
    }
}

/// Whether bit 6 of the node's tag disagrees with its kind.
fn is_other_kind(node: &Node) -> bool
    ensures { (d : ℕ) → IsTrue result ↔ OwnIs IsOtherKind d node.now }
{
    match node {
        Node::Filler => false,
        Node::Primitive {
            tag,
            form: _,
            value: _,
        } => tag.is_constructed(),
        Node::Constructed {
            tag,
            form: _,
            nodes: _,
        } => !tag.is_constructed(),
    }
}

/// Whether the length of the node is too large for its form.
fn is_unfit(node: &Node) -> bool
    ensures { (d : ℕ) → IsTrue result ↔ OwnIs IsUnfit d node.now }
{
    match node {
        Node::Filler => false,
        Node::Primitive {
            tag: _,
            form,
            value,
        } => value.get().len() >= form.capacity(),
        Node::Constructed {
            tag: _,
            form,
            nodes,
        } => octets_of(nodes) >= form.capacity(),
    }
}

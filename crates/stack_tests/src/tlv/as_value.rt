//! Values of the tests, and calls that tests make, without what their contracts say. So the checker doesn't carry
//! their contracts through a test.

use octet_core::Octets;
use std::alloc::Global;
use std::process::Abort;
use tlv_core::{FlatForest, Forest, Form, LARGEST_FOREST, Node, Nodes, Tag, decode};

/// Returns the tag with these octets.
pub(super) fn tag(rt: &impl Abort, octets: &[u8]) -> Tag {
    Tag::new(octets).expect(rt, "a tag")
}

/// Makes a primitive object whose value is this many octets 12.
pub(super) fn primitive(
    rt: &impl Abort,
    alloc: Global,
    tag: Tag,
    form: Form,
    count: usize,
) -> Node {
    let value = vec![in alloc; 0x12u8; count].expect(rt, "octets");
    Node::Primitive {
        tag,
        form,
        value: Octets::of(value),
    }
}

/// Makes an object with this many objects around it.
pub(super) fn deep(
    rt: &impl Abort,
    alloc: Global,
    form: Form,
    innermost: Node,
    around: u32,
) -> Node {
    let tag = tag(rt, &[0x70]);
    let mut node = innermost;
    for _ in 0..around {
        let nodes = nodes_of(rt, alloc, node);
        node = Node::Constructed { tag, form, nodes };
    }
    node
}

/// Makes a list of one node.
pub(super) fn nodes_of(rt: &impl Abort, alloc: Global, node: Node) -> Nodes {
    Nodes::of(Vec::from_array(alloc, [node]).ok().expect(rt, "a list"))
}

/// Decodes a forest.
pub(super) fn forest(rt: &impl Abort, alloc: Global, octets: &[u8]) -> Forest {
    decode(alloc, octets, LARGEST_FOREST).expect(rt, "a forest")
}

/// Reads the parts of a forest, with their values.
pub(super) fn flat<'a>(rt: &impl Abort, alloc: Global, octets: &'a [u8]) -> FlatForest<'a> {
    FlatForest::read(alloc, octets, LARGEST_FOREST)
        .ok()
        .expect(rt, "a forest")
}

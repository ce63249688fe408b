//! The tree of a forest that comes in pieces.

ghost use Rattle.std.specs.Prelude.{◌≡◌, ◌≢◌, ℕ, ◌+◌, ◌<◌, ◌≤◌, List, [], ◌∷◌, ◌++◌, length, take, None, IfOk, OnOk, vec_len, vec_capacity};
ghost use Rattle.tlv_core.specs.declared.node.Node.TheVariants as node;
ghost use Rattle.tlv_core.specs.Tree.{End};
ghost use Rattle.tlv_core.specs.Nodes.{tree_of};
ghost use Rattle.tlv_core.specs.Reasons.{Kept};
ghost use Rattle.tlv_core.specs.Steps.{after_next};
ghost use Rattle.tlv_core.specs.Grown.{HasGrown, Closing};

use crate::header::{Next, ObjectHeader};
use crate::node::{Node, Nodes};
use crate::progress::DEEPEST;
use crate::short::ShortHeader;
use octet_core::Octets;
use std::alloc::{AllocError, Global};
use std::mem;

/// An open object: its header, and the list before it, which has room for one more node.
#[derive(Drop)]
pub(crate) struct OpenObject {
    before: Vec<Node>,
    header: ObjectHeader,
    ghost room: { vec_len before < vec_capacity before },
}

/// A primitive object whose value is being read: its header, and the octets of the value so far.
#[derive(Drop)]
pub(crate) struct OpenValue {
    header: ObjectHeader,
    octets: Vec<u8>,
}

/// The tree of a forest's octets so far: the open objects, outermost first, the innermost list, and
/// the value that is being read after it, if any.
#[derive(Drop)]
pub(crate) struct Partial {
    alloc: Global,
    opened: Vec<OpenObject>,
    list: Vec<Node>,
    value: Option<OpenValue>,
    ghost levels: { 16 ≤ vec_capacity opened },
    ghost room: { value ≢ None → vec_len list < vec_capacity list },
}

impl Partial {
    ghost use Rattle.std.specs.Prelude.{Some, map, IfErr, OnErr};
    ghost use Rattle.tlv_core.specs.declared.header.Next.TheVariants as next;
    ghost use Rattle.tlv_core.specs.Read.{opened_of, grown_of, entering, extended, TakesNext, TakesShort, IsWholeNode};
    ghost use Rattle.tlv_core.specs.Short.{after_short, taken_of, value_in};

    /// Starts before the first octet, and allocates the stack.
    pub(crate) fn new(alloc: Global) -> Result<Self, AllocError>
        ensures { IfOk result (λ tree.
            grown_of tree ≡ record { opened = []; list = End; value = None }) }
    {
        Ok(Partial {
            alloc,
            opened: Vec::with_capacity(alloc, DEEPEST)?,
            list: Vec::new(alloc),
            value: None,
        })
    }

    /// Makes room for one more node in the innermost list.
    pub(crate) fn reserve(&mut self) -> Result<(), AllocError>
        ensures same { grown_of self.new ≡ grown_of self.old }
        ensures room { OnOk result (vec_len self.new.list < vec_capacity self.new.list) }
    {
        self.list.reserve(1)
    }

    /// Takes what an octet made of the header. After it `level` objects are open.
    pub(crate) fn take(&mut self, next: &Next, level: usize)
        requires room { vec_len self.old.list < vec_capacity self.old.list }
        requires step { (b : List ℕ) × (k : Kept) × (x : ℕ)
            × TakesNext b k x next.now (grown_of self.old) }
        ensures { (b : List ℕ) (k : Kept) (x : ℕ) → TakesNext b k x next.now (grown_of self.old)
            → length (after_next k next.now).rooms ≡ level
            → HasGrown (b ++ x ∷ []) (after_next k next.now) (grown_of self.new) }
    {
        match next {
            Next::Filler => self.add(Node::Filler, level),
            Next::Under(_) => {}
            Next::Object(header) => self.enter(*header, level),
        }
    }

    /// Enters an object whose header is whole.
    fn enter(&mut self, header: ObjectHeader, level: usize)
        requires room { vec_len self.old.list < vec_capacity self.old.list }
        requires step { (b : List ℕ) × (k : Kept) × (x : ℕ)
            × TakesNext b k x (next.Object header) (grown_of self.old) }
        ensures { (b : List ℕ) (k : Kept) (x : ℕ)
            → TakesNext b k x (next.Object header) (grown_of self.old)
            → length (after_next k (next.Object header)).rooms ≡ level
            → HasGrown (b ++ x ∷ []) (after_next k (next.Object header)) (grown_of self.new) }
    {
        if header.len == 0 {
            let node = self.whole(header, Vec::new(self.alloc));
            self.add(node, level);
        } else if header.tag.is_constructed() {
            self.open(header);
        } else {
            self.value = Some(OpenValue {
                header,
                octets: Vec::new(self.alloc),
            });
        }
    }

    /// Copies the octets of a value into memory of exactly their size.
    pub(crate) fn copied(&self, octets: &[u8]) -> Result<Vec<u8>, AllocError>
        ensures { IfOk result (λ copy. copy.items ≡ octets.now) }
    {
        Vec::from_slice(self.alloc, octets)
    }

    /// Takes an object with a short header: a primitive one with `value`, or the header of a
    /// constructed one. After it `level` objects are open.
    pub(crate) fn take_short(&mut self, short: ShortHeader, value: Vec<u8>, level: usize)
        requires room { vec_len self.old.list < vec_capacity self.old.list }
        requires step { (b octets : List ℕ) × (k : Kept)
            × TakesShort b k octets short (grown_of self.old) }
        ensures { (b octets : List ℕ) (k : Kept) → TakesShort b k octets short (grown_of self.old)
            → value.items ≡ value_in octets short → length (after_short k short).rooms ≡ level
            → HasGrown (b ++ take (taken_of short) octets) (after_short k short) (grown_of self.new) }
    {
        let header = short.object();
        match short.opens() {
            Some(_) => self.open(header),
            None => {
                let node = self.whole(header, value);
                self.add(node, level);
            }
        }
    }

    /// Opens a constructed object after the innermost list.
    fn open(&mut self, header: ObjectHeader)
        requires idle { self.old.value ≡ None }
        requires room { vec_len self.old.list < vec_capacity self.old.list }
        requires shallow { length self.old.opened.items < 16 }
        ensures { grown_of self.new ≡ entering (grown_of self.old) header }
    {
        let before = mem::replace(&mut self.list, Vec::new(self.alloc));
        self.opened.push_reserved(OpenObject { before, header });
    }

    /// Returns a whole object: a primitive one with this value, or an empty constructed one.
    fn whole(&self, header: ObjectHeader, value: Vec<u8>) -> Node
        ensures { IsWholeNode header value.items result }
    {
        if header.tag.is_constructed() {
            Node::Constructed {
                tag: header.tag,
                form: header.form,
                nodes: Nodes::of(Vec::new(self.alloc)),
            }
        } else {
            Node::Primitive {
                tag: header.tag,
                form: header.form,
                value: Octets::of(value),
            }
        }
    }

    /// Appends octets to the value that is being read. A failed allocation leaves the value as it was.
    pub(crate) fn extend(&mut self, octets: &[u8]) -> Result<(), AllocError>
        ensures ok { OnOk result (grown_of self.new ≡ extended (grown_of self.old) octets.now) }
        ensures err { OnErr result (grown_of self.new ≡ grown_of self.old) }
    {
        match &mut self.value {
            Some(value) => value.octets.extend_from_slice(octets),
            None => Ok(()),
        }
    }

    /// Ends the value that is being read. After it `level` objects are open.
    pub(crate) fn end_value(&mut self, level: usize)
        ensures idle { self.new.value ≡ None }
        ensures closed { (value : OpenValue) (b rooms : List ℕ) (closed : ℕ)
            → self.old.value ≡ Some value → length rooms ≡ level
            → Closing b rooms closed (map opened_of self.old.opened.items) (tree_of (self.old.list.items ++ node.Primitive value.header.tag value.header.form value.octets.items ∷ []))
            → Closing b rooms 0 (map opened_of self.new.opened.items) (tree_of self.new.list.items) }
    {
        if let Some(OpenValue { header, octets }) = self.value.take() {
            let node = Node::Primitive {
                tag: header.tag,
                form: header.form,
                value: Octets::of(octets),
            };
            self.add(node, level);
        }
    }

    /// Adds a node after the innermost list, and closes objects until `level` of them are open.
    fn add(&mut self, node: Node, level: usize)
        requires idle { self.old.value ≡ None }
        requires room { vec_len self.old.list < vec_capacity self.old.list }
        ensures idle { self.new.value ≡ None }
        ensures closed { (b rooms : List ℕ) (closed : ℕ) → length rooms ≡ level
            → Closing b rooms closed (map opened_of self.old.opened.items) (tree_of (self.old.list.items ++ node ∷ []))
            → Closing b rooms 0 (map opened_of self.new.opened.items) (tree_of self.new.list.items) }
    {
        self.list.push_reserved(node);
        while self.opened.len() > level {
            let OpenObject { before, header } = self.opened.pop().unwrap();
            let nodes = mem::replace(&mut self.list, before);
            self.list.push_reserved(Node::Constructed {
                tag: header.tag,
                form: header.form,
                nodes: Nodes::of(nodes),
            });
        }
    }

    /// Returns the innermost list, which is the whole list if no object is open.
    pub(crate) fn into_nodes(self) -> Nodes
        ensures { result ≡ (grown_of self).list }
    {
        Nodes::of(self.list)
    }
}

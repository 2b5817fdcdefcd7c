//! A form that was read.
ghost use Rattle.std.specs.Prelude.{◌≡◌, ◌↔◌, IfSome, IsTrue, IsUtf8, bytes_eq, option_copied, List};
ghost use Rattle.std.specs.List.{list_any};
ghost use Rattle.ph_form.specs.Order.{IsWhole};
ghost use Rattle.ph_form.specs.Readers.{has_below, node_at, text_at};
ghost use Rattle.ph_form.specs.declared.leaf.Leaf.{Leaf as OneLeaf};

use crate::leaf::{Leaf, are_same};
use crate::names::is_below;
use crate::node::Node;
use std::marker::Model;

/// A form, which contracts see as the list of its leaves in byte order of their names. No leaf has the name of another
/// or lies below one, so the list is a finite map, and two forms are equal where their leaves are.
#[derive(Drop, Debug)]
pub struct Form {
    leaves: Vec<Leaf>,
}

impl Model for Form {
    ghost Value = { List OneLeaf };

    ghost view = { λ f. f.leaves.items };

    ghost invariant = { λ f. IsWhole f.leaves.items };
}

impl Form {
    /// The form of leaves that stand in order.
    pub(crate) fn new(leaves: Vec<Leaf>) -> Self
        requires { IsWhole leaves.items }
        ensures { result ≡ leaves.items }
    {
        Form { leaves }
    }

    /// The leaves, in byte order of their names.
    pub fn leaves(&self) -> &[Leaf]
        ensures leaves { result.now ≡ self.now }
        ensures whole { IsWhole result.now }
    {
        &self.leaves
    }

    /// The text under a name, as `metadata[order]`.
    pub fn text(&self, name: &[u8]) -> Option<&[u8]>
        ensures text { option_copied result ≡ text_at name.now self.now }
        ensures utf8 { IfSome result (λ text. IsUtf8 text.now) }
    {
        text_in(self.leaves(), name)
    }

    /// Whether something lies below a name: a map stands there.
    pub fn has_below(&self, name: &[u8]) -> bool
        ensures { result ≡ has_below name.now self.now }
    {
        has_below(self.leaves(), name)
    }

    /// What stands at a name.
    pub fn node(&self, name: &[u8]) -> Node
        ensures { result ≡ node_at name.now self.now }
    {
        if has_text(self.leaves(), name) {
            Node::Text
        } else if self.has_below(name) {
            Node::Map
        } else {
            Node::Absent
        }
    }

    /// Whether another form is equal, in whatever order the pairs of the two came.
    pub fn is_same(&self, other: &Form) -> bool
        ensures { IsTrue result ↔ (self.now ≡ other.now) }
    {
        are_same(self.leaves(), other.leaves())
    }
}

fn text_in<'a>(leaves: &'a [Leaf], name: &[u8]) -> Option<&'a [u8]>
    requires { IsWhole leaves.now }
    ensures text { option_copied result ≡ text_at name.now leaves.now }
    ensures utf8 { IfSome result (λ text. IsUtf8 text.now) }
{
    for leaf in leaves {
        if leaf.name.as_slice() == name {
            return Some(leaf.text.as_slice());
        }
    }
    None
}

fn has_text(leaves: &[Leaf], name: &[u8]) -> bool
    ensures { result ≡ list_any (λ leaf. bytes_eq leaf.name name.now) leaves.now }
{
    for leaf in leaves {
        if leaf.name.as_slice() == name {
            return true;
        }
    }
    false
}

fn has_below(leaves: &[Leaf], name: &[u8]) -> bool
    ensures { result ≡ has_below name.now leaves.now }
{
    for leaf in leaves {
        if is_below(name, leaf.name.as_slice()) {
            return true;
        }
    }
    false
}

//! The plain flavour: a node owns its children.

use crate::children::{OwnedChildren, Parts};
use crate::prefix::Prefix;
use crate::reading::{RadixNode, TKey, TValue};
use std::alloc::Global;
use std::marker::Model;

/// A radix tree that owns all its nodes. Contracts see it as a tree of prefixes, values and
/// children, which is always canonical.
///
/// Its drop and most calls use stack for each level. There is at most one level more than the
/// longest key has components, and no more levels than keys. A single long key is one level.
#[derive(Drop)]
pub struct RadixTree<K: TKey, V: TValue> {
    prefix: Prefix<K>,
    value: Option<V>,
    children: Vec<RadixTree<K, V>>,
}

impl<K: TKey, V: TValue> Model for RadixTree<K, V> {
    ghost use Rattle.std.proofs.Common.{arith};
    ghost use Rattle.vc_tree_model.specs.Tree.{Tree, made, nodes};
    ghost use Rattle.vc_tree_model.specs.TreeCode.{tree_code, most_le-nodes};
    ghost use Rattle.vc_tree_model.specs.Canonical.{IsCanonical};

    ghost Value = { Tree K V };

    ghost coded = { tree_code K.code V.code };

    ghost view = { λ a. made a.prefix a.value a.children.items };

    ghost invariant = { λ a. IsCanonical K.cmp (made a.prefix a.value a.children.items) };

    ghost size = { nodes };

    ghost size_decreases = { λ a h. omega (arith, most_le-nodes a.children.items) };
}

impl<K: TKey, V: TValue> RadixTree<K, V> {
    ghost use Rattle.std.specs.Prelude.{◌≡◌, map};
    ghost use Rattle.vc_tree_model.specs.Tree.{made, no_tree};
    ghost use Rattle.vc_tree_model.specs.Canonical.{IsCanonical};
    ghost use Rattle.vc_tree_nodes.specs.Children.{listed, seen};

    /// The empty tree.
    pub(crate) fn bare(alloc: Global) -> Self
        ensures is { result ≡ no_tree }
        ensures canonical { IsCanonical K.cmp result }
    {
        RadixTree {
            prefix: Prefix::new(alloc),
            value: None,
            children: Vec::new(alloc),
        }
    }

    /// The parts of the root.
    pub(crate) fn into_parts(self) -> Parts<Prefix<K>, V, OwnedChildren<RadixTree<K, V>>>
        ensures prefix { result.prefix ≡ self.prefix }
        ensures value { result.value ≡ self.value }
        ensures children { seen (λ t. t) (listed (λ own. own.list.items) result.children)
            ≡ self.children }
        ensures canonical { IsCanonical K.cmp self }
    {
        let RadixTree {
            prefix,
            value,
            children,
        } = self;
        Parts {
            prefix,
            value,
            children: Some(OwnedChildren { list: children }),
        }
    }

    /// The tree of these parts.
    pub(crate) fn from_parts(
        prefix: Prefix<K>,
        value: Option<V>,
        children: Option<OwnedChildren<RadixTree<K, V>>>,
    ) -> Self
        requires { IsCanonical K.cmp
            (made prefix value (map (λ t. t) (listed (λ own. own.list.items) children))) }
        ensures { result ≡ made prefix value
            (map (λ t. t) (listed (λ own. own.list.items) children)) }
    {
        let children = match children {
            Some(own) => own.list,
            None => Vec::new(prefix.allocator()),
        };
        RadixTree {
            prefix,
            value,
            children,
        }
    }
}

impl<K: TKey, V: TValue> RadixNode<K, V> for RadixTree<K, V> {
    ghost tree = { λ t. t };

    fn prefix(&self) -> &[K] {
        self.prefix.as_slice()
    }

    fn value(&self) -> Option<&V> {
        self.value.as_ref()
    }

    fn children(&self) -> &[Self] {
        self.children.as_slice()
    }

    fn allocator(&self) -> Global {
        self.prefix.allocator()
    }
}

//! The shared flavour: several trees may hold the children of one node, and a write copies children
//! that are shared.

ghost use Rattle.std.specs.Prelude.{◌≡◌, ◌↔◌, IfOk, IsTrue};
ghost use Rattle.std.specs.Option.{option_copied};
ghost use Rattle.vc_tree_model.specs.Equal.{same_tree};
ghost use Rattle.vc_tree_model.specs.Map.{lookup, IsEqualMap};
ghost use Rattle.vc_tree_model.specs.Same.{IsSame};
ghost use Rattle.vc_tree_model.specs.Value.{Copies, IsKept};
ghost use Rattle.vc_tree_nodes.specs.Children.{listed};
ghost use Rattle.vc_tree_nodes.specs.SameTests.{same_tree-partial, same_tree-equivalence};

use crate::body::Body;
use crate::children::{Fragment, Parts, SharedChildren};
use crate::comparing::is_equal;
use crate::copying::clone_value;
use crate::prefix::Prefix;
use crate::reading::{RadixNode, TKey, TValue, canonical};
use std::alloc::{AllocError, Global};
use std::marker::Model;
use std::rc::Rc;

/// A radix tree whose clone shares its children, so that a clone is a snapshot. Contracts see it as
/// a tree of prefixes, values and children, which is always canonical.
///
/// Its drop and most calls use stack for each level. There is at most one level more than the
/// longest key has components, and no more levels than keys. A single long key is one level.
#[derive(Drop)]
pub struct ArcRadixTree<K: TKey, V: TValue> {
    prefix: Prefix<K>,
    body: Body<V, Rc<Vec<ArcRadixTree<K, V>>>>,
}

impl<K: TKey, V: TValue> Model for ArcRadixTree<K, V> {
    ghost use Rattle.std.specs.Prelude.{refl};
    ghost use Rattle.vc_tree_model.specs.Tree.{Tree, node, shared_forest, nodes};
    ghost use Rattle.vc_tree_model.specs.TreeCode.{tree_code};
    ghost use Rattle.vc_tree_model.specs.Canonical.{IsCanonical};
    ghost use Rattle.vc_tree_nodes.specs.Body.{body_value, body_children, body_falls};

    ghost Value = { Tree K V };

    ghost coded = { tree_code K.code V.code };

    ghost view = { λ a. node a.prefix (body_value a.body)
        (shared_forest (λ rc. rc.value.items) (body_children a.body)) };

    ghost invariant = { λ a. IsCanonical K.cmp (node a.prefix (body_value a.body)
        (shared_forest (λ rc. rc.value.items) (body_children a.body))) };

    ghost size = { nodes };

    ghost size_decreases = { λ a h. body_falls (λ rc. rc.value.items)
        (λ o. child_size (record a { body = o }))
        refl (λ v. refl) (λ r. refl) (λ v r. refl) a.body };
}

impl<K: TKey, V: TValue> ArcRadixTree<K, V> {
    ghost use Rattle.std.specs.Prelude.{map};
    ghost use Rattle.vc_tree_model.specs.Tree.{made, no_tree};
    ghost use Rattle.vc_tree_model.specs.Canonical.{IsCanonical};
    ghost use Rattle.vc_tree_nodes.specs.Children.{listed, seen};

    /// The empty tree.
    pub(crate) fn bare(alloc: Global) -> Self
        ensures is { result ≡ no_tree }
        ensures canonical { IsCanonical K.cmp result }
    {
        ArcRadixTree {
            prefix: Prefix::new(alloc),
            body: Body::Neither,
        }
    }

    /// The parts of the root.
    pub(crate) fn into_parts(self) -> Parts<Prefix<K>, V, SharedChildren<ArcRadixTree<K, V>>>
        ensures prefix { result.prefix ≡ self.prefix }
        ensures value { result.value ≡ self.value }
        ensures children { seen (λ t. t) (listed (λ held. held.shared.value.items) result.children)
            ≡ self.children }
        ensures canonical { IsCanonical K.cmp self }
    {
        let ArcRadixTree { prefix, body } = self;
        let (value, children) = body.into_parts();
        let children = match children {
            Some(shared) => Some(SharedChildren { shared }),
            None => None,
        };
        Parts {
            prefix,
            value,
            children,
        }
    }

    /// The tree of these parts.
    pub(crate) fn from_parts(
        prefix: Prefix<K>,
        value: Option<V>,
        children: Option<SharedChildren<ArcRadixTree<K, V>>>,
    ) -> Self
        requires { IsCanonical K.cmp (made prefix value
            (map (λ t. t) (listed (λ held. held.shared.value.items) children))) }
        ensures { result ≡ made prefix value
            (map (λ t. t) (listed (λ held. held.shared.value.items) children)) }
    {
        let children = match children {
            Some(held) => some_unless_empty(held.shared),
            None => None,
        };
        ArcRadixTree {
            prefix,
            body: Body::of(value, children),
        }
    }
}

/// The children, or `None` where there are none.
fn some_unless_empty<T: Drop>(list: Rc<Vec<T>>) -> Option<Rc<Vec<T>>>
    ensures { listed (λ rc. rc.value.items) result ≡ list.value.items }
{
    if list.is_empty() { None } else { Some(list) }
}

/// One more owner of the children, if there are some.
fn share<T: Drop>(children: Option<&Rc<T>>) -> Result<Option<Rc<T>>, AllocError>
    ensures { IfOk result (IsKept (λ a b. b.value ≡ a.value) (option_copied children.entry)) }
{
    match children {
        Some(shared) => Ok(Some(shared.clone()?)),
        None => Ok(None),
    }
}

impl<K: TKey, V: TValue> ArcRadixTree<K, V> {
    ghost use Rattle.vc_tree_model.specs.Canonical.{IsCanonical};
    ghost use Rattle.vc_tree_model.specs.Snapshot.{IsSnapshot};

    /// A snapshot: an independent tree with the same prefix, a clone of the root's value, and the
    /// same children, which both trees share. A later change of either tree copies what it writes,
    /// and the other tree is unchanged.
    ///
    /// Clones only the root's value. Fails where memory or that clone is refused.
    pub fn clone(&self) -> Result<Self, AllocError>
        ensures snapshot { IfOk result (IsSnapshot V.is_clone self.now) }
        ensures map { IfOk result (λ copy.
            IsEqualMap (Copies V.is_clone) (lookup K.cmp self.now) (lookup K.cmp copy)) }
        ensures canonical { IfOk result (IsCanonical K.cmp) }
    {
        self.snapshot()
    }

    /// One more tree with the same children.
    fn snapshot(&self) -> Result<Self, AllocError>
        ensures snapshot { IfOk result (IsSnapshot V.is_clone self.now) }
        ensures canonical { IfOk result (IsCanonical K.cmp) }
    {
        let prefix = Prefix::from_slice(self.prefix.allocator(), self.prefix.as_slice())?;
        let value = clone_value(self.body.value())?;
        let children = share(self.body.children())?;
        let copy = ArcRadixTree {
            prefix,
            body: Body::of(value, children),
        };
        canonical(&copy);
        Ok(copy)
    }
}

impl<K: TKey, V: TValue> Clone for ArcRadixTree<K, V> {
    ghost use Rattle.vc_tree_model.specs.Snapshot.{IsSnapshot};

    ghost is_clone = { IsSnapshot V.is_clone };

    fn clone(&self) -> Result<Self, AllocError> {
        ArcRadixTree::clone(self)
    }
}

impl<K: TKey, V: TValue> RadixNode<K, V> for ArcRadixTree<K, V> {
    ghost tree = { λ t. t };

    fn prefix(&self) -> &[K] {
        self.prefix.as_slice()
    }

    fn value(&self) -> Option<&V> {
        self.body.value()
    }

    fn children(&self) -> &[Self] {
        match self.body.children() {
            None => &[],
            Some(shared) => shared.as_ref().as_slice(),
        }
    }

    fn allocator(&self) -> Global {
        self.prefix.allocator()
    }
}

/// Trees are equal exactly where their maps are, whether or not they share children.
impl<K: TKey, V: TValue + PartialEq> PartialEq for ArcRadixTree<K, V> {
    ghost eq = { same_tree K.cmp V.eq };

    ghost laws = { same_tree-partial K.cmp V.eq K.total V.laws };

    fn eq(&self, other: &Self) -> bool
        ensures value { result ≡ same_tree K.cmp V.eq self.now other.now }
        ensures same { IsTrue result ↔ IsSame K.cmp (λ v w. IsTrue (V.eq v w)) self.now other.now }
        ensures maps { IsTrue result ↔ IsEqualMap (λ v w. IsTrue (V.eq v w)) (lookup K.cmp self.now)
            (lookup K.cmp other.now) }
    {
        is_equal(self, other)
    }
}

impl<K: TKey, V: TValue + Eq> Eq for ArcRadixTree<K, V> {
    ghost laws = { same_tree-equivalence K.cmp V.eq K.total V.Eq.laws };
}

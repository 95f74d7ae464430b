//! How trees are copied: one of any type into a flavour, and one of a flavour as cheaply as that
//! flavour can.

ghost use Rattle.std.specs.Prelude.{◌≡◌, ◌≤◌, ◌++◌, ◌∷◌, [], IfOk, OnOk, length};
ghost use Rattle.std.specs.Option.{option_copied};
ghost use Rattle.vc_tree_model.specs.Canonical.{IsCanonical};
ghost use Rattle.vc_tree_model.specs.Map.{IsEqualMap, lookup};
ghost use Rattle.vc_tree_model.specs.Tree.{shortened};
ghost use Rattle.vc_tree_model.specs.Value.{Copies, IsKept};
ghost use Rattle.vc_tree_model.specs.Same.{IsAlike, IsAlikeIn};
ghost use Rattle.vc_tree_model.specs.Snapshot.{clones_copied, snapshot_copied};
ghost use Rattle.vc_tree_nodes.specs.Children.{seen};

use crate::building::{Build, Seal};
use crate::children::Fragment;
use crate::making::children_of;
use crate::plain::RadixTree;
use crate::reading::{RadixNode, TKey, TValue, canonical};
use crate::shared::ArcRadixTree;
use std::alloc::{AllocError, Global};

/// A clone of the value, if there is one.
pub fn clone_value<V: Clone>(value: Option<&V>) -> Result<Option<V>, AllocError>
    ensures { IfOk result (IsKept V.is_clone (option_copied value.entry)) }
{
    match value {
        Some(v) => Ok(Some(v.clone()?)),
        None => Ok(None),
    }
}

/// A copy of the tree without the first `from` components of its prefix, with a clone of each
/// value. Allocates once for each list of children.
pub fn copy_shortened<K: TKey, V: TValue, S: RadixNode<K, V>, T: Build<K, V>>(
    alloc: Global,
    tree: &S,
    from: usize,
) -> Result<T, AllocError>
    requires { from ≤ length (S.tree tree.now).prefix }
    ensures alike { IfOk result
        (λ copy. IsAlike V.is_clone (shortened from (S.tree tree.now)) (T.tree copy)) }
    ensures canonical { IsCanonical K.cmp (S.tree tree.now) }
    ensures copy_canonical { IfOk result (λ copy. IsCanonical K.cmp (T.tree copy)) }
{
    let prefix = T::Prefix::from_slice(alloc, &tree.prefix()[from..])?;
    let value = clone_value(tree.value())?;
    let copies = copy_list::<K, V, S, T>(alloc, tree.children())?;
    let children = children_of::<K, V, T>(copies)?;
    let copy = T::assemble(prefix, value, children, Seal::new());
    canonical(&copy);
    Ok(copy)
}

/// Appends a copy of the tree without the first `from` components of its prefix to a list. What
/// `copy_shortened` returns would be moved once more.
#[cycle(copying)]
pub fn copy_onto<K: TKey, V: TValue, S: RadixNode<K, V>, T: Build<K, V>>(
    alloc: Global,
    tree: &S,
    from: usize,
    copies: &mut Vec<T>,
) -> Result<(), AllocError>
    requires { from ≤ length (S.tree tree.now).prefix }
    ensures alike { OnOk result ((copy : T) × (copies.new.items ≡ copies.old.items ++ (copy ∷ []))
        × IsAlike V.is_clone (shortened from (S.tree tree.now)) (T.tree copy)) }
    ensures canonical { IsCanonical K.cmp (S.tree tree.now) }
{
    let prefix = T::Prefix::from_slice(alloc, &tree.prefix()[from..])?;
    let value = clone_value(tree.value())?;
    let below = copy_list::<K, V, S, T>(alloc, tree.children())?;
    let children = children_of::<K, V, T>(below)?;
    copies.reserve(1)?;
    copies.push_reserved(T::assemble(prefix, value, children, Seal::new()));
    Ok(())
}

/// Copies of the trees of a list.
#[cycle(copying)]
fn copy_list<K: TKey, V: TValue, S: RadixNode<K, V>, T: Build<K, V>>(
    alloc: Global,
    list: &[S],
) -> Result<Vec<T>, AllocError>
    ensures { IfOk result
        (λ copies. IsAlikeIn V.is_clone (seen S.tree list.now) (seen T.tree copies.items)) }
{
    let mut copies = Vec::with_capacity(alloc, list.len())?;
    for tree in list {
        copy_onto(alloc, tree, 0, &mut copies)?;
    }
    Ok(copies)
}

impl<K: TKey, V: TValue> RadixTree<K, V> {
    /// An independent tree with the same nodes and a clone of each value.
    ///
    /// Fails where memory is refused, or the clone of a value.
    pub fn clone(&self) -> Result<Self, AllocError>
        ensures alike { IfOk result (IsAlike V.is_clone self.now) }
        ensures map { IfOk result
            (λ copy. IsEqualMap V.is_clone (lookup K.cmp self.now) (lookup K.cmp copy)) }
        ensures canonical { IfOk result (IsCanonical K.cmp) }
    {
        copy_shortened(self.allocator(), self, 0)
    }
}

impl<K: TKey, V: TValue> Clone for RadixTree<K, V> {
    ghost is_clone = { IsAlike V.is_clone };

    fn clone(&self) -> Result<Self, AllocError> {
        RadixTree::clone(self)
    }
}

/// A flavour of tree whose clone has the same nodes. The plain flavour copies each node; the shared
/// one copies the root and shares its children.
pub trait CloneTree<K: TKey, V: TValue>: Build<K, V> + Clone {
    ghost clones_alike: { (t c : Self) → Self.is_clone t c
        → IsAlike (Copies V.is_clone) (Self.tree t) (Self.tree c) };
}

impl<K: TKey, V: TValue> CloneTree<K, V> for RadixTree<K, V> {
    ghost clones_alike = { λ t c h. clones_copied V.is_clone t c h };
}

impl<K: TKey, V: TValue> CloneTree<K, V> for ArcRadixTree<K, V> {
    ghost clones_alike = { λ t c h. snapshot_copied V.is_clone t c h };
}

/// A copy of the tree, whose values are the same or clones of them.
pub fn copy_tree<K: TKey, V: TValue, T: CloneTree<K, V>>(tree: &T) -> Result<T, AllocError>
    ensures { IfOk result (λ copy. IsAlike (Copies V.is_clone) (T.tree tree.now) (T.tree copy)) }
{
    tree.clone()
}

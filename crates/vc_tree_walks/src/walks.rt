//! The walks of a tree: of all pairs, of those under a prefix, and of the values.

ghost use Rattle.std.specs.Prelude.{◌≡◌, IfOk, map};
ghost use Rattle.vc_tree_model.specs.Map.{lookup};
ghost use Rattle.vc_tree_model.specs.Under.{under};
ghost use Rattle.vc_tree_model.specs.Walk.{IsWalk, walk};
ghost use Rattle.vc_tree_walks.specs.Bounds.{below, not_below};
ghost use Rattle.vc_tree_walks.specs.IterLeft.{pairs_left};
ghost use Rattle.vc_tree_walks.specs.OwnedLeft.{held_left};
ghost use Rattle.vc_tree_walks.specs.Prefixes.{bound_prefixes};
ghost use Rattle.vc_tree_walks.specs.PrefixesLeft.{prefixes_left};
ghost use Rattle.vc_tree_walks.specs.RangeLeft.{range_left};
ghost use Rattle.vc_tree_walks.specs.ValuesLeft.{values_left};

use crate::iter::Iter;
use crate::owned::ObjAndIter;
use crate::prefixes::Prefixes;
use crate::range::Range;
use crate::scan::find_under;
use crate::values::Values;
use std::alloc::AllocError;
use vc_tree_nodes::reading::{RadixNode, TKey, TValue, canonical};

/// All pairs of the tree.
pub fn iter<'a, K: TKey, V: TValue, T: RadixNode<K, V>>(tree: &'a T) -> Iter<'a, K, V, T>
    ensures all { pairs_left T.tree result ≡ walk (T.tree tree.now) }
    ensures ascending { IsWalk K.cmp (lookup K.cmp (T.tree tree.now)) (pairs_left T.tree result) }
{
    canonical(tree);
    Iter::new(tree.allocator(), Some((&[], tree)))
}

/// The pairs of the tree whose keys start with the prefix.
pub fn scan_prefix<'a, K: TKey, V: TValue, T: RadixNode<K, V>>(
    tree: &'a T,
    prefix: &'a [K],
) -> Iter<'a, K, V, T>
    ensures { IsWalk K.cmp (under K.cmp (lookup K.cmp (T.tree tree.now)) prefix.now)
        (pairs_left T.tree result) }
{
    Iter::new(tree.allocator(), find_under(tree, prefix))
}

/// The pairs of the tree whose keys do not come before the key.
pub fn iter_from<'a, K: TKey, V: TValue, T: RadixNode<K, V>>(
    tree: &'a T,
    key: &[K],
) -> Result<Iter<'a, K, V, T>, AllocError>
    ensures { IfOk result (λ walk. IsWalk K.cmp
        (not_below K.cmp (lookup K.cmp (T.tree tree.now)) key.now) (pairs_left T.tree walk)) }
{
    Iter::seek(tree, key)
}

/// The pairs of the tree whose keys are not less than `from` and less than `to`.
pub fn range<'a, K: TKey, V: TValue, T: RadixNode<K, V>>(
    tree: &'a T,
    from: &[K],
    to: &'a [K],
) -> Result<Range<'a, K, V, T>, AllocError>
    ensures { let f = not_below K.cmp (lookup K.cmp (T.tree tree.now)) from.now in
        IfOk result (λ walk. IsWalk K.cmp (below K.cmp f to.now) (range_left K.cmp T.tree walk)) }
{
    Range::new(tree, from, to)
}

/// The keys of the tree that are prefixes of the path, the shortest first.
pub fn prefixes_of<'a, K: TKey, V: TValue, T: RadixNode<K, V>>(
    tree: &'a T,
    path: &'a [K],
) -> Prefixes<'a, K, V, T>
    ensures { prefixes_left K.cmp T.tree result
        ≡ bound_prefixes (lookup K.cmp (T.tree tree.now)) path.now }
{
    Prefixes::new(tree, path)
}

/// The values of the tree.
pub fn values<'a, K: TKey, V: TValue, T: RadixNode<K, V>>(tree: &'a T) -> Values<'a, K, V, T>
    ensures { values_left T.tree result ≡ map (λ b. b.1) (walk (T.tree tree.now)) }
{
    Values::new(tree)
}

/// All pairs of the tree, which the iterator holds.
pub fn into_iter<K: TKey, V: TValue, T: RadixNode<K, V> + Drop>(tree: T) -> ObjAndIter<K, V, T>
    ensures all { held_left T.tree result ≡ walk (T.tree tree) }
    ensures ascending { IsWalk K.cmp (lookup K.cmp (T.tree tree)) (held_left T.tree result) }
{
    canonical(&tree);
    ObjAndIter::new(tree)
}

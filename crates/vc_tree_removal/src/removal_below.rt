//! How all keys that begin with a prefix are removed from a tree.

ghost use Rattle.std.specs.Prelude.{◌≡◌, IfOk, IsOk, List, MatchOption, None, Ok, OnOk, OnErr};
ghost use Rattle.vc_tree_model.specs.Map.{HaveEqualMaps, IsEqualMap, lookup};
ghost use Rattle.vc_tree_model.specs.Canonical.{IsCanonical};
ghost use Rattle.vc_tree_model.specs.Same.{IsAlike};
ghost use Rattle.vc_tree_model.specs.Tree.{no_tree};
ghost use Rattle.vc_tree_model.specs.Under.{under};
ghost use Rattle.vc_tree_removal.specs.Without.{AllBegin, IsWithoutBelow};
ghost use Rattle.vc_tree_removal.specs.Taking.{IsFoundUnder};

use crate::removal::{Extent, goes_wholly, remove_from, remove_met, take_root, with_prefix};
use std::alloc::AllocError;
use vc_tree_nodes::building::{Build, Seal};
use vc_tree_nodes::children::Fragment;
use vc_tree_nodes::reading::{RadixNode, TKey, TValue, canonical, is_empty};
use vc_tree_walks::scan::find_under;

/// Removes all keys that begin with `prefix`, with their values. The other keys keep theirs.
///
/// Where no key begins with it, the call only walks down: it takes no memory, and nothing is
/// copied. The same holds where all keys begin with it. Fails only where memory is refused, or the
/// clone of a value in copied children. Memory may be needed for the merged prefix of a node that
/// is left with one child, and for the copy of shared children. On failure the tree has the same
/// nodes, and binds what it bound.
///
/// Compares each component of the prefix at most once, except for two halving searches among the
/// children of each node on the way.
#[tactic(auto, using(crate::proofs::Going::refused))]
pub fn remove_below<K: TKey, V: TValue, T: Build<K, V>>(
    tree: &mut T,
    prefix: &[K],
) -> Result<(), AllocError>
    ensures ok { OnOk result (IsWithoutBelow K.cmp T.keeps prefix.now
        (lookup K.cmp (T.tree tree.old)) (lookup K.cmp (T.tree tree.new))) }
    ensures absent { let f = lookup K.cmp (T.tree tree.old) in
        ((k : List K) → under K.cmp f prefix.now k ≡ None)
        → (result ≡ Ok tt) × (T.tree tree.new ≡ T.tree tree.old) }
    ensures all { AllBegin K.cmp prefix.now (lookup K.cmp (T.tree tree.old)) → IsOk result }
    ensures err { OnErr result (HaveEqualMaps K.cmp T.keeps (T.tree tree.old) (T.tree tree.new)) }
    ensures err_nodes { OnErr result (IsAlike T.keeps (T.tree tree.old) (T.tree tree.new)) }
    ensures canonical { IsCanonical K.cmp (T.tree tree.new) }
{
    canonical(tree);
    if found_under(tree, prefix).is_none() {
        return Ok(());
    }
    remove_met(tree, prefix, Extent::Below)?;
    Ok(())
}

/// Removes all keys that begin with `prefix`, with their values, and answers them as a separate
/// tree, with their whole keys; the empty tree where no key begins so. The other keys keep their
/// values.
///
/// The keys are below one node, which is moved with a longer prefix: nothing below it is touched.
/// The components before the node's own prefix are those of `prefix`.
///
/// Where no key begins with it, the call only walks down: it takes no memory, and nothing is
/// copied. The same holds where all keys begin with it. Fails only where memory is refused, or the
/// clone of a value in copied children. Memory may be needed for the prefix of the answer's root,
/// where that has more than 16 components, for the merged prefix of a node that is left with one
/// child, and for the copy of shared children. On failure the tree has the same nodes, and binds
/// what it bound.
///
/// Compares each component of the prefix at most once, except for two halving searches among the
/// children of each node on the way.
#[tactic(auto, using(crate::proofs::Going::refused))]
pub fn split_below<K: TKey, V: TValue, T: Build<K, V>>(
    tree: &mut T,
    prefix: &[K],
) -> Result<T, AllocError>
    ensures made { IfOk result (λ made. IsEqualMap T.keeps
        (under K.cmp (lookup K.cmp (T.tree tree.old)) prefix.now) (lookup K.cmp (T.tree made))) }
    ensures made_canonical { IfOk result (λ made. IsCanonical K.cmp (T.tree made)) }
    ensures ok { OnOk result (IsWithoutBelow K.cmp T.keeps prefix.now
        (lookup K.cmp (T.tree tree.old)) (lookup K.cmp (T.tree tree.new))) }
    ensures absent { let f = lookup K.cmp (T.tree tree.old) in
        ((k : List K) → under K.cmp f prefix.now k ≡ None)
        → IsOk result × (T.tree tree.new ≡ T.tree tree.old) }
    ensures all { AllBegin K.cmp prefix.now (lookup K.cmp (T.tree tree.old)) → IsOk result }
    ensures err { OnErr result (HaveEqualMaps K.cmp T.keeps (T.tree tree.old) (T.tree tree.new)) }
    ensures err_nodes { OnErr result (IsAlike T.keeps (T.tree tree.old) (T.tree tree.new)) }
    ensures canonical { IsCanonical K.cmp (T.tree tree.new) }
{
    let alloc = tree.allocator();
    canonical(tree);
    let Some((front, node)) = found_under(tree, prefix) else {
        return Ok(T::blank(alloc, Seal::new()));
    };
    if goes_wholly(tree, prefix, Extent::Below) {
        return Ok(take_root(alloc, tree));
    }
    let joined = T::Prefix::joined(alloc, front, node.prefix())?;
    let done = remove_from(alloc, tree, prefix, Extent::Below);
    canonical(tree);
    let taken = done?;
    Ok(with_prefix(joined, taken))
}

/// The node that has all keys of the tree that begin with the prefix, and the part of the prefix
/// before the node's own. `None` where no key begins so.
fn found_under<'a, K: TKey, V: TValue, T: RadixNode<K, V>>(
    tree: &'a T,
    prefix: &'a [K],
) -> Option<(&'a [K], &'a T)>
    ensures { let f = lookup K.cmp (T.tree tree.now) in MatchOption result
        ((k : List K) → under K.cmp f prefix.now k ≡ None)
        (λ found. IsFoundUnder K.cmp prefix.now f found.0.now (T.tree found.1.now)) }
{
    let Some((front, node)) = find_under(tree, prefix) else {
        return None;
    };
    canonical(node);
    if is_empty(node) {
        return None;
    }
    Some((front, node))
}

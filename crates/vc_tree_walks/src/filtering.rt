//! The tree of the keys that start with a prefix.

ghost use Rattle.std.specs.Prelude.{◌≡◌, IfOk, IsOk, List, None};
ghost use Rattle.vc_tree_model.specs.Canonical.{IsCanonical};
ghost use Rattle.vc_tree_model.specs.Map.{lookup, IsEqualMap};
ghost use Rattle.vc_tree_model.specs.Under.{under};
ghost use Rattle.vc_tree_model.specs.Value.{Copies};

use crate::scan::find_under;
use std::alloc::AllocError;
use vc_tree_nodes::building::Seal;
use vc_tree_nodes::copying::{CloneTree, copy_tree};
use vc_tree_nodes::making::new_joined;
use vc_tree_nodes::reading::{TKey, TValue, canonical, is_empty};

/// The keys of a tree that start with the prefix, in full, with their values.
pub fn filter_prefix<K: TKey, V: TValue, T: CloneTree<K, V>>(
    tree: &T,
    prefix: &[K],
) -> Result<T, AllocError>
    ensures made { IfOk result (λ made. IsEqualMap (Copies V.is_clone)
        (under K.cmp (lookup K.cmp (T.tree tree.now)) prefix.now) (lookup K.cmp (T.tree made))) }
    ensures absent { let f = lookup K.cmp (T.tree tree.now) in
        ((k : List K) → under K.cmp f prefix.now k ≡ None) → IsOk result }
    ensures canonical { IfOk result (λ made. IsCanonical K.cmp (T.tree made)) }
{
    let made = copy_under(tree, prefix)?;
    canonical(&made);
    Ok(made)
}

/// A copy of the node that has the keys that start with the prefix, with the part of the prefix
/// that comes before it.
fn copy_under<K: TKey, V: TValue, T: CloneTree<K, V>>(
    tree: &T,
    prefix: &[K],
) -> Result<T, AllocError>
    ensures made { IfOk result (λ made. IsEqualMap (Copies V.is_clone)
        (under K.cmp (lookup K.cmp (T.tree tree.now)) prefix.now) (lookup K.cmp (T.tree made))) }
    ensures absent { let f = lookup K.cmp (T.tree tree.now) in
        ((k : List K) → under K.cmp f prefix.now k ≡ None) → IsOk result }
{
    let alloc = tree.allocator();
    let Some((front, node)) = find_under(tree, prefix) else {
        return Ok(T::blank(alloc, Seal::new()));
    };
    canonical(node);
    if is_empty(node) {
        return Ok(T::blank(alloc, Seal::new()));
    }
    new_joined(alloc, front, copy_tree(node)?)
}

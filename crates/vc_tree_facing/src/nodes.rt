//! The nodes where the prefixes of two trees diverge: the value there, and the node that is made of
//! it and of the children built below.

ghost use Rattle.std.specs.Prelude.{◌≡◌, ◌≤◌, ◌++◌, [], IfOk, drop, length, map, option_map};
ghost use Rattle.std.specs.List.{cons_option};
ghost use Rattle.std.specs.Option.{option_copied};
ghost use Rattle.vc_tree_model.specs.Tree.{shortened};
ghost use Rattle.vc_tree_model.specs.Canonical.{AreChildren};
ghost use Rattle.vc_tree_model.specs.Child.{solid_child, value_at as node_value};
ghost use Rattle.vc_tree_nodes.specs.Children.{seen};

use std::alloc::{AllocError, Global};
use vc_tree_nodes::building::Build;
use vc_tree_nodes::making::{new_joined, new_node};
use vc_tree_nodes::reading::{RadixNode, TKey, TValue};

/// The value of the node that the prefix reaches `front` components after its first `from`, or none
/// where the prefix is longer.
pub fn value_at<K: TKey, V: TValue, T: RadixNode<K, V>>(
    tree: &T,
    from: usize,
    front: usize,
) -> Option<&V>
    requires from { from ≤ length (T.tree tree.now).prefix }
    requires front { front ≤ length (drop from (T.tree tree.now).prefix) }
    ensures { option_copied result ≡ node_value (shortened from (T.tree tree.now))
        (drop front (drop from (T.tree tree.now).prefix)) }
{
    if front == tree.prefix().len() - from {
        tree.value()
    } else {
        None
    }
}

/// The node of these parts as a child: `None` where it binds no key, and merged with its only child
/// where it has no value.
pub fn finish<K: TKey, V: TValue, M: Build<K, V>>(
    alloc: Global,
    prefix: &[K],
    value: Option<V>,
    mut kids: Vec<M>,
) -> Result<Option<M>, AllocError>
    requires { AreChildren K.cmp (seen M.tree kids.items) }
    ensures { IfOk result
        (λ made. option_map M.tree made ≡ solid_child prefix.now value (seen M.tree kids.items)) }
{
    if value.is_none() && kids.len() < 2 {
        return match kids.pop() {
            Some(kid) => Ok(Some(new_joined(alloc, prefix, kid)?)),
            None => Ok(None),
        };
    }
    Ok(Some(new_node(alloc, prefix, value, kids)?))
}

/// Appends a tree to the list, if there is one.
#[inline(always)]
pub fn keep<K: TKey, V: TValue, M: Build<K, V>>(
    kids: &mut Vec<M>,
    kid: Option<M>,
) -> Result<(), AllocError>
    ensures { IfOk result (λ _. map M.tree kids.new.items
        ≡ map M.tree kids.old.items ++ cons_option (option_map M.tree kid) []) }
{
    if let Some(kid) = kid {
        kids.push(kid)?;
    }
    Ok(())
}

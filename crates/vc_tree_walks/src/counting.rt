//! How many keys a tree has, and how many of them start with a prefix.

ghost use Rattle.std.specs.Prelude.{◌≡◌, ◌-◌, ◌^◌, length, min};
ghost use Rattle.vc_tree_model.specs.Map.{lookup};
ghost use Rattle.vc_tree_model.specs.Tree.{forest_key_count, key_count};
ghost use Rattle.vc_tree_model.specs.Under.{under};
ghost use Rattle.vc_tree_model.specs.Walk.{IsWalk};
ghost use Rattle.vc_tree_nodes.specs.Children.{seen};

use crate::scan::find_under;
use vc_tree_nodes::reading::{RadixNode, TKey, TValue};

/// How many keys the tree has, or the greatest number where it has more.
#[cycle(counting)]
pub fn len<K: TKey, V: TValue, T: RadixNode<K, V>>(tree: &T) -> usize
    ensures { result ≡ min (key_count (T.tree tree.now)) (2 ^ 64 - 1) }
{
    let below = len_of_list::<K, V, T>(tree.children());
    match tree.value() {
        Some(_) => below.saturating_add(1),
        None => below,
    }
}

/// How many keys of the tree start with the prefix, or the greatest number where more do.
pub fn len_below<K: TKey, V: TValue, T: RadixNode<K, V>>(tree: &T, prefix: &[K]) -> usize
    ensures { (pairs : _)
        × IsWalk K.cmp (under K.cmp (lookup K.cmp (T.tree tree.now)) prefix.now) pairs
        × (result ≡ min (length pairs) (2 ^ 64 - 1)) }
{
    match find_under(tree, prefix) {
        Some((_, node)) => len(node),
        None => 0,
    }
}

/// How many keys the trees of a list have, or the greatest number where they have more.
#[cycle(counting)]
fn len_of_list<K: TKey, V: TValue, T: RadixNode<K, V>>(list: &[T]) -> usize
    ensures { result ≡ min (forest_key_count (seen T.tree list.now)) (2 ^ 64 - 1) }
{
    let mut count = 0usize;
    for tree in list {
        count = count.saturating_add(len(tree));
    }
    count
}

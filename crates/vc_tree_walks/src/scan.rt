//! The part of a tree that a prefix leads to.

ghost use Rattle.std.specs.Prelude.{◌≡◌, IsSome, List, MatchBool, None};
ghost use Rattle.vc_tree_model.specs.Map.{lookup};
ghost use Rattle.vc_tree_model.specs.Under.{under};
ghost use Rattle.vc_tree_model.specs.Walk.{IsWalk};
ghost use Rattle.vc_tree_walks.specs.IterLeft.{pairs_from};

use vc_merge::merge::Uncounted;
use vc_tree_nodes::parting::{Parting, find_parting};
use vc_tree_nodes::places::child_at;
use vc_tree_nodes::reading::{RadixNode, TKey, TValue, canonical, is_empty};

/// The node below which all keys of the tree stand that start with the prefix, and the part of the
/// prefix that stands before the node's own. None where no key starts so.
pub fn find_under<'a, K: TKey, V: TValue, T: RadixNode<K, V>>(
    tree: &'a T,
    prefix: &'a [K],
) -> Option<(&'a [K], &'a T)>
    ensures { IsWalk K.cmp (under K.cmp (lookup K.cmp (T.tree tree.now)) prefix.now)
        (pairs_from T.tree result) }
{
    let mut node = tree;
    let mut used = 0;
    let mut known = 0;
    loop {
        let (front, rest) = prefix.split_at(used);
        let own = node.prefix();
        match find_parting(own, rest, known, &mut Uncounted) {
            Parting::Behind => {}
            Parting::Inside(_) => return Some((front, node)),
            _ => return None,
        }
        let (here, left) = rest.split_at(own.len());
        let Some(first) = left.first() else {
            return Some((front, node));
        };
        node = child_at(node.children(), first, &mut Uncounted)?;
        used += here.len();
        known = 1;
    }
}

/// Whether some key of the tree starts with the prefix.
pub fn contains_prefix<K: TKey, V: TValue, T: RadixNode<K, V>>(tree: &T, prefix: &[K]) -> bool
    ensures { let f = under K.cmp (lookup K.cmp (T.tree tree.now)) prefix.now in
        MatchBool result ((k : List K) × IsSome (f k)) ((k : List K) → f k ≡ None) }
{
    let Some((_, node)) = find_under(tree, prefix) else {
        return false;
    };
    canonical(node);
    !is_empty(node)
}

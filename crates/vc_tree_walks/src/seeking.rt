//! Where a key is among those of a node.

ghost use Rattle.vc_tree_nodes.specs.Parting.{Agree};
ghost use Rattle.vc_tree_walks.specs.Standing.{StandsSo};

use vc_merge::merge::Uncounted;
use vc_tree_nodes::parting::{Parting, find_parting};
use vc_tree_nodes::places::child_place;
use vc_tree_nodes::reading::{RadixNode, TKey, TValue};

/// The place of a key among those of a node.
#[derive(Clone, Copy)]
pub(crate) enum Standing<'a, T> {
    /// Before all of them.
    Before,
    /// At the node's own key, before those of its children.
    Own,
    /// After the node's own key and those of the first children, and before those of the others.
    Between(&'a [T], &'a [T]),
    /// The same, except that the key may be among those of the first of the others.
    Into(&'a [T], &'a [T]),
    /// After all of them.
    Behind,
}

/// The place of the key among those of the node. The first `known` components of the key and of the
/// prefix are known to agree. Compares each further one once, and then searches the first
/// components of the children by halves.
pub(crate) fn stand<'a, K: TKey, V: TValue, T: RadixNode<K, V>>(
    node: &'a T,
    key: &[K],
    known: usize,
) -> Standing<'a, T>
    requires { Agree K.cmp (T.tree node.now).prefix key.now known }
    ensures { StandsSo K.cmp T.tree (T.tree node.now) key.now result }
{
    let own = node.prefix();
    match find_parting(own, key, known, &mut Uncounted) {
        Parting::Inside(_) => return Standing::Before,
        Parting::Higher(_) => return Standing::Before,
        Parting::Lower(_) => return Standing::Behind,
        Parting::Behind => {}
    }
    let (_, left) = key.split_at(own.len());
    let Some(first) = left.first() else {
        return Standing::Own;
    };
    let children = node.children();
    match child_place(children, first, &mut Uncounted) {
        Ok(place) => {
            let (lower, row) = children.split_at(place);
            Standing::Into(lower, row)
        }
        Err(place) => {
            let (lower, upper) = children.split_at(place);
            Standing::Between(lower, upper)
        }
    }
}

//! The keys of a tree that are prefixes of a path.

ghost use Rattle.std.specs.Prelude.{◌≡◌, ◌<◌, ◌≤◌, drop, length};

use std::marker::PhantomData;
use vc_merge::merge::Uncounted;
use vc_tree_nodes::parting::{Parting, find_parting};
use vc_tree_nodes::places::child_at;
use vc_tree_nodes::reading::{RadixNode, TKey, TValue, canonical};

/// The keys of a tree that are prefixes of a path, the shortest first: of each how many components
/// of the path it is, and a reference to its value.
///
/// A step takes no memory.
pub struct Prefixes<'a, K, V, T> {
    path: &'a [K],
    /// The node that is next, whose key is a prefix of the path.
    node: Option<&'a T>,
    /// How many components of the path that key is.
    used: usize,
    values: PhantomData<V>,
    ghost within: { used ≤ length path.now },
}

impl<'a, K, V, T> Drop for Prefixes<'a, K, V, T> {
    fn drop(self) {
        let Prefixes {
            path: _,
            node: _,
            used: _,
            values: _,
        } = self;
    }
}

impl<'a, K: TKey, V: TValue, T: RadixNode<K, V>> Prefixes<'a, K, V, T> {
    ghost use Rattle.vc_tree_model.specs.Map.{lookup, lookup_in};
    ghost use Rattle.vc_tree_model.specs.Tree.{nodes};
    ghost use Rattle.vc_tree_nodes.specs.Parting.{Agree};
    ghost use Rattle.vc_tree_walks.specs.Prefixes.{bound_prefixes};
    ghost use Rattle.vc_tree_walks.specs.PrefixesLeft.{along, prefixes_left, prefixes_work};

    /// Those of a tree. Takes no memory.
    pub(crate) fn new(tree: &'a T, path: &'a [K]) -> Self
        ensures { prefixes_left K.cmp T.tree result
            ≡ bound_prefixes (lookup K.cmp (T.tree tree.now)) path.now }
    {
        let mut walk = Prefixes {
            path,
            node: None,
            used: 0,
            values: PhantomData,
        };
        walk.enter(tree, 0);
        walk
    }

    /// Goes to a node, where what is left of the path begins with its prefix, or else to none. The
    /// first `known` components of both are known to agree.
    fn enter(&mut self, node: &'a T, known: usize)
        requires { Agree K.cmp (T.tree node.now).prefix (drop self.old.used self.old.path.now)
            known }
        ensures left { prefixes_left K.cmp T.tree self.new ≡ along self.old.used
            (lookup K.cmp (T.tree node.now)) (drop self.old.used self.old.path.now) }
        ensures work { prefixes_work T.tree self.new ≤ nodes (T.tree node.now) }
    {
        let (_, left) = self.path.split_at(self.used);
        let prefix = node.prefix();
        if let Parting::Behind = find_parting(prefix, left, known, &mut Uncounted) {
            self.used += prefix.len();
            self.node = Some(node);
        } else {
            self.node = None;
        }
    }

    /// Goes from a node to the child on the path, or to none.
    fn go_below(&mut self, node: &'a T)
        ensures left { prefixes_left K.cmp T.tree self.new ≡ along self.old.used
            (lookup_in K.cmp (T.tree node.now).children)
            (drop self.old.used self.old.path.now) }
        ensures work { prefixes_work T.tree self.new < nodes (T.tree node.now) }
    {
        canonical(node);
        self.node = None;
        let (_, left) = self.path.split_at(self.used);
        let Some(first) = left.first() else {
            return;
        };
        if let Some(child) = child_at(node.children(), first, &mut Uncounted) {
            self.enter(child, 1);
        }
    }
}

impl<'a, K: TKey, V: TValue + 'a, T: RadixNode<K, V>> Iterator for Prefixes<'a, K, V, T> {
    type Item = (usize, &'a V);

    ghost use Rattle.std.specs.Iterator.{at_most};
    ghost use Rattle.std.specs.Map.Iter.{TakesFirst};
    ghost use Rattle.vc_tree_walks.specs.PrefixesLeft.{prefixes_left, prefixes_work};

    ghost next_gives = { λ s item t. TakesFirst (λ b. (b.0, b.1.now))
        (prefixes_left K.cmp T.tree s) item (prefixes_left K.cmp T.tree t) };

    ghost remaining = { λ s. at_most (prefixes_work T.tree s) };

    fn next(&mut self) -> Option<(usize, &'a V)> {
        loop {
            let node = self.node?;
            let used = self.used;
            self.go_below(node);
            if let Some(value) = node.value() {
                return Some((used, value));
            }
        }
    }

    fn size_hint(&self) -> (usize, Option<usize>) {
        (0, None)
    }
}

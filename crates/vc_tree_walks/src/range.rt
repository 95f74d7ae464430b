//! The pairs of a tree between two keys.

ghost use Rattle.std.specs.Prelude.{IfOk};
ghost use Rattle.vc_tree_model.specs.Map.{lookup};
ghost use Rattle.vc_tree_model.specs.Walk.{IsWalk};
ghost use Rattle.vc_tree_walks.specs.Bounds.{below, not_below};
ghost use Rattle.vc_tree_walks.specs.RangeLeft.{range_left, range_work};

use crate::iter::Iter;
use crate::key::IterKey;
use std::alloc::AllocError;
use vc_tree_nodes::reading::{RadixNode, TKey, TValue};

/// The pairs of a tree from a key up to another one, by ascending keys, each as its key and a
/// reference to its value.
///
/// A step compares its key with the upper one, and takes memory as a step of [`Iter`] does. Once
/// the next key is not less than the upper one, and after an `Err`, the walk is at its end, and
/// answers `None`.
pub struct Range<'a, K, V, T> {
    /// The pairs from the lower key on.
    pairs: Iter<'a, K, V, T>,
    /// The key before which the walk ends.
    to: &'a [K],
}

impl<'a, K: Drop, V, T> Drop for Range<'a, K, V, T> {
    fn drop(self) {
        let Range { pairs: _, to: _ } = self;
    }
}

impl<'a, K: TKey, V: TValue, T: RadixNode<K, V>> Range<'a, K, V, T> {
    /// The pairs of a tree whose keys are not less than `from` and less than `to`.
    pub(crate) fn new(tree: &'a T, from: &[K], to: &'a [K]) -> Result<Self, AllocError>
        ensures { let f = not_below K.cmp (lookup K.cmp (T.tree tree.now)) from.now in
            IfOk result (λ walk. IsWalk K.cmp (below K.cmp f to.now)
            (range_left K.cmp T.tree walk)) }
    {
        let pairs = Iter::seek(tree, from)?;
        Ok(Range { pairs, to })
    }
}

impl<'a, K: TKey, V: TValue + 'a, T: RadixNode<K, V>> Iterator for Range<'a, K, V, T> {
    type Item = Result<(IterKey<K>, &'a V), AllocError>;

    ghost use Rattle.std.specs.Prelude.{List};
    ghost use Rattle.std.specs.Iterator.{at_most};
    ghost use Rattle.vc_tree_walks.specs.Left.{Walks};
    ghost use Rattle.vc_tree_walks.specs.RangeLeft.{range_left, range_work};

    ghost next_gives = { Walks (λ item. (item.0, item.1.now)) (range_left K.cmp T.tree)
        (range_work T.tree) };

    ghost remaining = { λ s. at_most (range_work T.tree s) };

    fn next(&mut self) -> Option<Result<(IterKey<K>, &'a V), AllocError>> {
        match self.pairs.next()? {
            Ok((key, value)) => {
                if key.as_ref().cmp(self.to).is_lt() {
                    return Some(Ok((key, value)));
                }
                self.pairs.stop();
                None
            }
            Err(fault) => Some(Err(fault)),
        }
    }
}

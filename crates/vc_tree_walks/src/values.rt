//! The values of a tree, in the order of their keys.

ghost use Rattle.std.specs.Prelude.{◌≡◌, ◌<◌, ◌≤◌, ◌++◌, [], map, IfSome, MatchOption, OnOk};
ghost use Rattle.vc_tree_model.specs.Walk.{walk};
ghost use Rattle.vc_tree_walks.specs.ValuesLeft.{own_value, values_before, values_left};
ghost use Rattle.vc_tree_walks.specs.ValuesLeft.{values_work, work_before};

use std::alloc::{AllocError, Global};
use std::marker::PhantomData;
use std::mem;
use vc_tree_nodes::reading::{RadixNode, TKey, TValue};

/// References to the values of a tree, in the order of their keys.
///
/// A step takes no memory where the walk has been as deep before. After an `Err` the walk is at its
/// end, and answers `None`.
pub struct Values<'a, K, V, T> {
    /// The tree, until the first step; no row is left then.
    start: Option<&'a T>,
    /// The innermost row: siblings that are still to be walked.
    row: &'a [T],
    /// The rows above it, the innermost last.
    above: Vec<&'a [T]>,
    pairs: PhantomData<(K, V)>,
}

impl<'a, K, V, T> Drop for Values<'a, K, V, T> {
    fn drop(self) {
        let Values {
            start: _,
            row: _,
            above: _,
            pairs: _,
        } = self;
    }
}

impl<'a, K: TKey, V: TValue, T: RadixNode<K, V>> Values<'a, K, V, T> {
    /// The values of a tree. Takes no memory.
    pub(crate) fn new(tree: &'a T) -> Self
        ensures { values_left T.tree result ≡ map (λ b. b.1) (walk (T.tree tree.now)) }
    {
        Values {
            start: Some(tree),
            row: &[],
            above: Vec::new(tree.allocator()),
            pairs: PhantomData,
        }
    }
}

impl<'a, K: TKey, V: TValue + 'a, T: RadixNode<K, V>> Values<'a, K, V, T> {
    /// The next tree: the first of the innermost row that has one, or otherwise the one to start
    /// with. Its children are not entered.
    fn next_tree(&mut self) -> Option<&'a T>
        ensures left { MatchOption result ((values_left T.tree self.old ≡ [])
            × (values_left T.tree self.new ≡ []))
            (λ tree. values_left T.tree self.old ≡ values_before T.tree tree.now self.new) }
        ensures work { IfSome result
            (λ tree. work_before T.tree tree.now self.new ≤ values_work T.tree self.old) }
    {
        loop {
            if let Some((tree, others)) = self.row.split_first() {
                self.row = others;
                return Some(tree);
            }
            match self.above.pop() {
                Some(row) => self.row = row,
                None => return self.start.take(),
            }
        }
    }

    /// Goes to the children of a tree that was before the innermost row, if it has some. Where no
    /// sibling is left, that row is not kept.
    fn enter(&mut self, tree: &'a T) -> Result<(), AllocError>
        ensures left { OnOk result (values_before T.tree tree.now self.old
            ≡ own_value (T.tree tree.now).value ++ values_left T.tree self.new) }
        ensures work { OnOk result
            (values_work T.tree self.new < work_before T.tree tree.now self.old) }
    {
        let children = tree.children();
        if children.is_empty() {
            return Ok(());
        }
        let beside = mem::replace(&mut self.row, children);
        if beside.is_empty() {
            return Ok(());
        }
        self.above.push(beside)?;
        Ok(())
    }

    /// Ends the walk: nothing is left.
    fn stop(&mut self)
        ensures left { values_left T.tree self.new ≡ [] }
        ensures work { values_work T.tree self.new ≡ 0 }
    {
        self.start = None;
        self.row = &[];
        self.above.clear();
    }
}

impl<'a, K: TKey, V: TValue + 'a, T: RadixNode<K, V>> Iterator for Values<'a, K, V, T> {
    type Item = Result<&'a V, AllocError>;

    ghost use Rattle.std.specs.Prelude.{List};
    ghost use Rattle.std.specs.Iterator.{at_most};
    ghost use Rattle.vc_tree_walks.specs.Left.{Walks};
    ghost use Rattle.vc_tree_walks.specs.ValuesLeft.{values_left, values_work};

    ghost next_gives = { Walks (λ item. item.now) (values_left T.tree) (values_work T.tree) };

    ghost remaining = { λ s. at_most (values_work T.tree s) };

    fn next(&mut self) -> Option<Result<&'a V, AllocError>> {
        while let Some(tree) = self.next_tree() {
            if let Err(fault) = self.enter(tree) {
                self.stop();
                return Some(Err(fault));
            }
            if let Some(value) = tree.value() {
                return Some(Ok(value));
            }
        }
        None
    }

    fn size_hint(&self) -> (usize, Option<usize>) {
        (0, None)
    }
}

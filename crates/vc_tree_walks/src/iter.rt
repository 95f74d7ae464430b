//! The pairs of a tree, by ascending keys.

ghost use Rattle.std.specs.Prelude.{◌≡◌, ◌<◌, ◌++◌, [], IfOk, OnOk, OnErr};
ghost use Rattle.std.specs.Option.{option_copied};
ghost use Rattle.vc_tree_walks.specs.Left.{pair_at, rows_left, rows_work};
ghost use Rattle.vc_tree_walks.specs.IterLeft.{pairs_from, pairs_left, work_left, rows_of};
ghost use Rattle.vc_tree_walks.specs.IterLeft.{rows_before, IsItem, IsStep};

mod seek;

use crate::key::IterKey;
use crate::turn::WalkStep;
use std::alloc::{AllocError, Global};
use std::marker::PhantomData;
use std::mem;
use vc_tree_nodes::reading::{RadixNode, TKey, TValue};

/// Trees beside each other that are still to be walked, and how many components of the key stand
/// before theirs.
#[derive(Drop)]
struct Row<'a, T> {
    trees: &'a [T],
    base: usize,
}

/// The pairs of a tree, by ascending keys, each as its key and a reference to its value.
///
/// A step takes no memory where the last key was let go and the walk has been as deep before, with
/// a key as long. After an `Err` the walk is at its end, and answers `None`.
pub struct Iter<'a, K, V, T> {
    alloc: Global,
    /// What stands before the keys of the tree, and the tree, until the first step.
    start: Option<(&'a [K], &'a T)>,
    /// The key of the last node.
    key: IterKey<K>,
    /// The innermost row.
    row: Row<'a, T>,
    /// The rows that it lies below, the innermost last.
    above: Vec<Row<'a, T>>,
    values: PhantomData<V>,
}

impl<'a, K: Drop, V, T> Drop for Iter<'a, K, V, T> {
    fn drop(self) {
        let Iter {
            alloc: _,
            start: _,
            key: _,
            row: _,
            above: _,
            values: _,
        } = self;
    }
}

/// The item of a node that has this key and this value, if it has one.
fn item<'a, K: Drop, V>(
    key: &IterKey<K>,
    value: Option<&'a V>,
) -> Result<WalkStep<(IterKey<K>, &'a V)>, AllocError>
    ensures { IfOk result (IsItem key.now (option_copied value.entry)) }
{
    match value {
        Some(value) => Ok(WalkStep::Item((key.clone()?, value))),
        None => Ok(WalkStep::Moved),
    }
}

impl<'a, K: TKey, V: TValue, T: RadixNode<K, V>> Iter<'a, K, V, T> {
    /// The pairs of a tree, with what stands before its keys, or no pair. Takes no memory.
    pub(crate) fn new(alloc: Global, start: Option<(&'a [K], &'a T)>) -> Self
        ensures pairs { pairs_left T.tree result ≡ pairs_from T.tree start.entry }
        ensures start { result.start ≡ start.entry }
        ensures key { result.key ≡ [] }
        ensures base { result.row.base ≡ 0 }
        ensures rows { rows_left result.key (rows_of T.tree result.row result.above.items) ≡ [] }
    {
        Iter {
            alloc,
            start,
            key: IterKey::empty(),
            row: Row {
                trees: &[],
                base: 0,
            },
            above: Vec::new(alloc),
            values: PhantomData,
        }
    }
}

impl<'a, K: TKey, V: TValue + 'a, T: RadixNode<K, V>> Iter<'a, K, V, T> {
    /// One step: to the root, to the next tree of the innermost row, or out of that row.
    fn step(&mut self) -> Result<WalkStep<(IterKey<K>, &'a V)>, AllocError>
        ensures ok { IfOk result (λ step. IsStep T.tree self.old step self.new) }
        ensures err { OnErr result (0 < work_left T.tree self.old) }
    {
        if let Some((front, tree)) = self.start {
            self.key.turn_to(self.alloc, 0, front)?;
            self.start = None;
            self.row = Row {
                trees: &[],
                base: front.len(),
            };
            self.above.clear();
            self.enter(tree)?;
            return item(&self.key, tree.value());
        }
        if let Some((tree, others)) = self.row.trees.split_first() {
            self.row.trees = others;
            self.enter(tree)?;
            return item(&self.key, tree.value());
        }
        let Some(row) = self.above.pop() else {
            return Ok(WalkStep::Done);
        };
        // No more of the key stands before the trees of an outer row.
        self.row = Row {
            base: row.base.min(self.row.base),
            trees: row.trees,
        };
        Ok(WalkStep::Moved)
    }

    /// Goes to a tree that stands before the innermost row: to its children, if it has some, and
    /// else past it.
    fn enter(&mut self, tree: &'a T) -> Result<(), AllocError>
        ensures left { OnOk result
            (rows_left self.old.key (rows_before T.tree tree.now self.old)
            ≡ pair_at self.new.key (T.tree tree.now).value
            ++ rows_left self.new.key (rows_of T.tree self.new.row self.new.above.items)) }
        ensures work { OnOk result
            (rows_work (rows_of T.tree self.new.row self.new.above.items)
            < rows_work (rows_before T.tree tree.now self.old)) }
        ensures start { self.new.start ≡ self.old.start }
    {
        let prefix = tree.prefix();
        self.key.turn_to(self.alloc, self.row.base, prefix)?;
        let whole = self.key.as_ref().len();
        self.row.base = whole - prefix.len();
        let children = tree.children();
        if children.is_empty() {
            return Ok(());
        }
        let below = Row {
            trees: children,
            base: whole,
        };
        let beside = mem::replace(&mut self.row, below);
        self.above.push(beside)?;
        Ok(())
    }

    /// Leaves nothing.
    pub(crate) fn stop(&mut self)
        ensures left { pairs_left T.tree self.new ≡ [] }
        ensures work { work_left T.tree self.new ≡ 0 }
    {
        self.start = None;
        self.row.trees = &[];
        self.above.clear();
    }
}

impl<'a, K: TKey, V: TValue + 'a, T: RadixNode<K, V>> Iterator for Iter<'a, K, V, T> {
    type Item = Result<(IterKey<K>, &'a V), AllocError>;

    ghost use Rattle.std.specs.Prelude.{List};
    ghost use Rattle.std.specs.Iterator.{at_most};
    ghost use Rattle.vc_tree_walks.specs.Left.{Walks};
    ghost use Rattle.vc_tree_walks.specs.IterLeft.{pairs_left, work_left};

    ghost next_gives = { Walks (λ item. (item.0, item.1.now)) (pairs_left T.tree)
        (work_left T.tree) };

    ghost remaining = { λ s. at_most (work_left T.tree s) };

    fn next(&mut self) -> Option<Result<(IterKey<K>, &'a V), AllocError>> {
        loop {
            match self.step() {
                Ok(WalkStep::Item(item)) => return Some(Ok(item)),
                Ok(WalkStep::Moved) => {}
                Ok(WalkStep::Done) => return None,
                Err(fault) => {
                    self.stop();
                    return Some(Err(fault));
                }
            }
        }
    }
}

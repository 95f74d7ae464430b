//! The pairs of a tree from a key on.

ghost use Rattle.std.specs.Prelude.{◌≡◌, ◌∷◌, ◌++◌, [], IfOk, None, OnOk, length};
ghost use Rattle.vc_tree_model.specs.Map.{lookup};
ghost use Rattle.vc_tree_model.specs.Walk.{IsWalk};
ghost use Rattle.vc_tree_walks.specs.Bounds.{not_below};
ghost use Rattle.vc_tree_walks.specs.IterLeft.{pairs_left, pairs_with};

use crate::iter::{Iter, Row};
use crate::seeking::{Standing, stand};
use std::alloc::AllocError;
use std::mem;
use vc_tree_nodes::reading::{RadixNode, TKey, TValue, canonical};

impl<'a, K: TKey, V: TValue, T: RadixNode<K, V>> Iter<'a, K, V, T> {
    /// The pairs of a tree whose keys do not come before the key.
    pub(crate) fn seek(tree: &'a T, key: &[K]) -> Result<Self, AllocError>
        ensures { IfOk result (λ walk. IsWalk K.cmp
            (not_below K.cmp (lookup K.cmp (T.tree tree.now)) key.now) (pairs_left T.tree walk)) }
    {
        canonical(tree);
        let mut walk = Iter::new(tree.allocator(), None);
        let mut siblings: Option<&'a [T]> = None;
        let mut node = tree;
        let mut known = 0;
        loop {
            let (_, rest) = key.split_at(walk.row.base);
            match stand(node, rest, known) {
                Standing::Before => return Ok(walk.with_node(tree, siblings)),
                Standing::Own => return Ok(walk.with_node(tree, siblings)),
                Standing::Behind => return Ok(walk),
                Standing::Between(_, upper) => {
                    walk.go_below(node.prefix(), upper)?;
                    return Ok(walk);
                }
                Standing::Into(_, row) => {
                    let Some((child, upper)) = row.split_first() else {
                        return Ok(walk);
                    };
                    walk.go_below(node.prefix(), upper)?;
                    siblings = Some(row);
                    node = child;
                    known = 1;
                }
            }
        }
    }

    /// The walk with a node added before its innermost row: `row` is that row with it, or none
    /// where the node is the root.
    fn with_node(mut self, tree: &'a T, row: Option<&'a [T]>) -> Self
        requires { self.start ≡ None }
        ensures { pairs_left T.tree result ≡ pairs_with T.tree self.entry tree.now row.entry }
    {
        match row {
            Some(trees) => {
                self.row = Row {
                    trees,
                    base: self.row.base,
                };
                self
            }
            None => Iter::new(self.alloc, Some((&[], tree))),
        }
    }

    /// Appends components to the key, and puts trees before what is left. The key is before their
    /// keys.
    fn go_below(&mut self, prefix: &[K], trees: &'a [T]) -> Result<(), AllocError>
        ensures key { OnOk result (self.new.key ≡ self.old.key ++ prefix.now) }
        ensures trees { OnOk result (self.new.row.trees.now ≡ trees.now) }
        ensures base { OnOk result (self.new.row.base ≡ length self.new.key) }
        ensures above { OnOk result
            (self.new.above.items ≡ self.old.above.items ++ self.old.row ∷ []) }
        ensures start { OnOk result (self.new.start ≡ self.old.start) }
    {
        self.key.push(self.alloc, prefix)?;
        let base = self.key.as_ref().len();
        let beside = mem::replace(&mut self.row, Row { trees, base });
        self.above.push(beside)?;
        Ok(())
    }
}

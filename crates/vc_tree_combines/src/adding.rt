//! How a combine treats trees that only one side has.

ghost use Rattle.std.specs.Prelude.{◌≡◌, ◌+◌, ◌≤◌, ◌++◌, [], OnOk, length, map};
ghost use Rattle.std.specs.List.{cons_option};
ghost use Rattle.std.specs.Option.{option_copied};
ghost use Rattle.vc_merge.specs.Count.{digits};
ghost use Rattle.vc_tree_model.specs.Canonical.{AreChildren};
ghost use Rattle.vc_tree_model.specs.Child.{solid_child};
ghost use Rattle.vc_tree_nodes.specs.Children.{seen};
ghost use Rattle.vc_tree_combines.specs.Making.{MayAddLefts, MayAddRights};
ghost use Rattle.vc_tree_combines.specs.Making.{AreLeftAdded, AreRightAdded, IsAround};

use crate::operation::Combine;
use std::alloc::{AllocError, Global};
use vc_merge::merge::Count;
use vc_tree_nodes::building::Build;
use vc_tree_nodes::making::{new_joined, new_node};
use vc_tree_nodes::places::child_place;
use vc_tree_nodes::reading::{RadixNode, TKey, TValue};

/// Appends what is left of trees that only the left side has. Visits none where the operation keeps
/// nothing of them.
#[inline(always)]
pub fn add_lefts<
    K: TKey,
    V: TValue,
    W: TValue,
    A: RadixNode<K, V>,
    B: RadixNode<K, W>,
    O: Combine<K, V, W, A, B>,
>(alloc: Global, trees: &[A], op: &O, made: &mut Vec<O::Made>) -> Result<(), AllocError>
    requires { MayAddLefts K.cmp (O.asks op.now) A.tree trees.now }
    ensures { OnOk result (AreLeftAdded K.cmp (O.says op.now) A.tree trees.now
        (map O.Made.tree made.old.items) (map O.Made.tree made.new.items)) }
{
    if !op.keeps_left() {
        return Ok(());
    }
    let mut rest = trees;
    while let Some((tree, others)) = rest.split_first() {
        op.add_left(alloc, tree, 0, made)?;
        rest = others;
    }
    Ok(())
}

/// Appends what is left of trees that only the right side has. Visits none where the operation
/// keeps nothing of them.
#[inline(always)]
pub fn add_rights<
    K: TKey,
    V: TValue,
    W: TValue,
    A: RadixNode<K, V>,
    B: RadixNode<K, W>,
    O: Combine<K, V, W, A, B>,
>(alloc: Global, trees: &[B], op: &O, made: &mut Vec<O::Made>) -> Result<(), AllocError>
    requires { MayAddRights K.cmp (O.asks op.now) B.tree trees.now }
    ensures { OnOk result (AreRightAdded K.cmp (O.says op.now) B.tree trees.now
        (map O.Made.tree made.old.items) (map O.Made.tree made.new.items)) }
{
    if !op.keeps_right() {
        return Ok(());
    }
    let mut rest = trees;
    while let Some((tree, others)) = rest.split_first() {
        op.add_right(alloc, tree, 0, made)?;
        rest = others;
    }
    Ok(())
}

/// Appends the node of these parts as a child: none where it binds no key, and one that is merged
/// with its only child where it has no value.
pub fn finish_onto<K: TKey, V: TValue, M: Build<K, V>>(
    alloc: Global,
    prefix: &[K],
    value: Option<V>,
    mut kids: Vec<M>,
    made: &mut Vec<M>,
) -> Result<(), AllocError>
    requires { AreChildren K.cmp (seen M.tree kids.items) }
    ensures { OnOk result (map M.tree made.new.items ≡ map M.tree made.old.items
        ++ cons_option (solid_child prefix.now value (seen M.tree kids.items)) []) }
{
    if value.is_none() && kids.len() < 2 {
        if let Some(kid) = kids.pop() {
            made.reserve(1)?;
            made.push_reserved(new_joined(alloc, prefix, kid)?);
        }
        return Ok(());
    }
    made.reserve(1)?;
    made.push_reserved(new_node(alloc, prefix, value, kids)?);
    Ok(())
}

/// A list of trees, split at a component with which one of them may begin.
#[derive(Drop)]
pub struct Around<'a, T> {
    /// The trees that begin with lesser components.
    pub before: &'a [T],
    /// The one that begins with it.
    pub found: Option<&'a T>,
    /// The trees that begin with greater components.
    pub after: &'a [T],
}

/// The trees around the one that begins with a component. Compares no more first components than
/// the number of trees has binary digits.
pub fn look_around<'a, K: TKey, V: TValue, T: RadixNode<K, V>, C: Count>(
    trees: &'a [T],
    first: &K,
    steps: &mut C,
) -> Around<'a, T>
    requires { AreChildren K.cmp (seen T.tree trees.now) }
    ensures around { IsAround K.cmp T.tree first.now trees.now result.before.now
        (option_copied result.found) result.after.now }
    ensures counted { C.counted steps.new ≤ C.counted steps.old + digits (length trees.now) }
{
    match child_place(trees, first, steps) {
        Ok(at) => {
            let (before, rest) = trees.split_at(at);
            match rest.split_first() {
                Some((tree, after)) => Around {
                    before,
                    found: Some(tree),
                    after,
                },
                None => Around {
                    before,
                    found: None,
                    after: rest,
                },
            }
        }
        Err(at) => {
            let (before, after) = trees.split_at(at);
            Around {
                before,
                found: None,
                after,
            }
        }
    }
}

//! Trees of keys that ascend. Each node is made once, with room for exactly its children.

ghost use Rattle.std.specs.Prelude.{◌≡◌, ◌<◌, ◌≤◌, ◌∷◌, length, drop, IfOk, OnOk, IfSome};
ghost use Rattle.std.specs.Vec.Iter.{into_iter_items};
ghost use Rattle.vc_tree_model.specs.Canonical.{AreChildren};
ghost use Rattle.vc_tree_nodes.specs.Ascending.{Follows, HasCommon, HaveCommon, IsGroupOf};
ghost use Rattle.vc_tree_nodes.specs.Ascending.{IsRunBehind, GoOnBehind, HeadAbove, FirstEnds};
ghost use Rattle.vc_tree_nodes.specs.Ascending.{IsAdded, IsBuilt};
ghost use Rattle.vc_tree_nodes.specs.Ascending.{pairs_behind};
ghost use Rattle.vc_tree_nodes.specs.Children.{seen};

use crate::building::Build;
use crate::insertion::single;
use crate::making::new_node;
use crate::reading::{TKey, TValue};
use crate::spelling::Spelled;
use std::alloc::{AllocError, Global};
use std::vec::IntoIter;

/// A key of a run.
#[derive(Drop)]
pub struct Step<S> {
    pub key: S,
    /// The number of leading components that this key shares with the key before it.
    pub common: usize,
}

/// The number of leading components that the key shares with the one before it, or `None` where it
/// is not greater.
pub fn common_front<K: Ord>(before: &[K], key: &[K]) -> Option<usize>
    ensures { IfSome result (Follows K.cmp before.now key.now) }
{
    let both = before.len().min(key.len());
    let mut n = 0;
    while n < both {
        let order = before[n].cmp(&key[n]);
        if order.is_ne() {
            return if order.is_lt() { Some(n) } else { None };
        }
        n += 1;
    }
    if n < key.len() { Some(n) } else { None }
}

/// The least number of components that a key of the run shares with the one before it, and the
/// number of keys with that number.
fn least_common<S>(run: &[Step<S>]) -> (usize, usize)
    requires { 0 < length run.now }
    ensures least { HaveCommon (λ s. s.common) result.0 run.now }
    ensures has { HasCommon (λ s. s.common) result.0 run.now }
    ensures count { result.1 ≤ length run.now }
{
    let mut least = run[0].common;
    let mut count = 0;
    for step in run {
        if step.common < least {
            least = step.common;
            count = 1;
        } else if step.common == least {
            count += 1;
        }
    }
    (least, count)
}

/// The number of keys before the second one that shares at most `common` components with the one
/// before it.
fn group_len<S>(run: &[Step<S>], common: usize) -> usize
    requires { 0 < length run.now }
    ensures { IsGroupOf (λ s. s.common) common result run.now }
{
    let mut len = 1;
    while len < run.len() && common < run[len].common {
        len += 1;
    }
    len
}

/// The next value.
fn take_next<V: Drop>(values: &mut IntoIter<V, Global>) -> V
    requires { 0 < length (into_iter_items values.old) }
    ensures { into_iter_items values.old ≡ result ∷ into_iter_items values.new }
{
    match values.next() {
        Some(value) => value,
        None => unreachable!(),
    }
}

/// The tree of what is left of the keys of a run after the `depth` components that they share. The
/// values come in the order of the keys.
#[cycle(ascending)]
pub fn build_run<K: TKey, V: TValue, S: Spelled<K>, T: Build<K, V>>(
    alloc: Global,
    run: &[Step<S>],
    depth: usize,
    values: &mut IntoIter<V, Global>,
) -> Result<T, AllocError>
    requires run { IsRunBehind K.cmp (λ s. S.components s.key) (λ s. s.common) depth run.now }
    requires values { length run.now ≤ length (into_iter_items values.old) }
    ensures built { IfOk result (λ t. IsBuilt K.cmp (λ s. S.components s.key) (λ s. s.common)
        depth run.now (into_iter_items values.old) (T.tree t)) }
    ensures left { OnOk result
        (into_iter_items values.new ≡ drop (length run.now) (into_iter_items values.old)) }
{
    let key = run[0].key.as_key();
    if run.len() == 1 {
        return single(alloc, &key[depth..], take_next(values));
    }
    let (_, others) = run.split_at(1);
    let (common, count) = least_common(others);
    if common == key.len() {
        build_ended(alloc, run, depth, common, count, values)
    } else {
        build_open(alloc, run, depth, common, count, values)
    }
}

/// Does the same where all keys begin with the first one, which has `common` components.
#[cycle(ascending)]
fn build_ended<K: TKey, V: TValue, S: Spelled<K>, T: Build<K, V>>(
    alloc: Global,
    run: &[Step<S>],
    depth: usize,
    common: usize,
    room: usize,
    values: &mut IntoIter<V, Global>,
) -> Result<T, AllocError>
    requires run { IsRunBehind K.cmp (λ s. S.components s.key) (λ s. s.common) common run.now }
    requires ends { FirstEnds K.cmp (λ s. S.components s.key) (λ s. s.common) common run.now }
    requires two { 1 < length run.now }
    requires deeper { depth ≤ common }
    requires values { length run.now ≤ length (into_iter_items values.old) }
    ensures built { IfOk result (λ t. IsBuilt K.cmp (λ s. S.components s.key) (λ s. s.common)
        depth run.now (into_iter_items values.old) (T.tree t)) }
    ensures left { OnOk result
        (into_iter_items values.new ≡ drop (length run.now) (into_iter_items values.old)) }
{
    let mut children = Vec::with_capacity(alloc, room)?;
    let value = take_next(values);
    let (_, others) = run.split_at(1);
    build_groups(alloc, others, common, values, &mut children)?;
    let key = run[0].key.as_key();
    new_node(alloc, &key[depth..common], Some(value), children)
}

/// Does the same where all keys continue after the `common` components that they share, and share
/// no more.
#[cycle(ascending)]
fn build_open<K: TKey, V: TValue, S: Spelled<K>, T: Build<K, V>>(
    alloc: Global,
    run: &[Step<S>],
    depth: usize,
    common: usize,
    count: usize,
    values: &mut IntoIter<V, Global>,
) -> Result<T, AllocError>
    requires some { 0 < length run.now }
    requires run { GoOnBehind K.cmp (λ s. S.components s.key) (λ s. s.common) common run.now }
    requires parts { HasCommon (λ s. s.common) common (drop 1 run.now) }
    requires count { count < length run.now }
    requires deeper { depth ≤ common }
    requires values { length run.now ≤ length (into_iter_items values.old) }
    ensures built { IfOk result (λ t. IsBuilt K.cmp (λ s. S.components s.key) (λ s. s.common)
        depth run.now (into_iter_items values.old) (T.tree t)) }
    ensures left { OnOk result
        (into_iter_items values.new ≡ drop (length run.now) (into_iter_items values.old)) }
{
    let mut children = Vec::with_capacity(alloc, count + 1)?;
    let (group, others) = run.split_at(group_len(run, common));
    children.push(build_run(alloc, group, common, values)?)?;
    build_groups(alloc, others, common, values, &mut children)?;
    let key = run[0].key.as_key();
    new_node(alloc, &key[depth..common], None, children)
}

/// Appends the trees of the groups of a run to the children. The keys of a group share more than
/// `depth` components.
#[cycle(ascending)]
fn build_groups<K: TKey, V: TValue, S: Spelled<K>, T: Build<K, V>>(
    alloc: Global,
    run: &[Step<S>],
    depth: usize,
    values: &mut IntoIter<V, Global>,
    children: &mut Vec<T>,
) -> Result<(), AllocError>
    requires some { 0 < length run.now }
    requires run { GoOnBehind K.cmp (λ s. S.components s.key) (λ s. s.common) depth run.now }
    requires values { length run.now ≤ length (into_iter_items values.old) }
    requires children { AreChildren K.cmp (seen T.tree children.old.items) }
    requires above { HeadAbove K.cmp (λ s. S.components s.key) depth
        (seen T.tree children.old.items) run.now }
    ensures pairs { OnOk result (IsAdded K.cmp (pairs_behind (λ s. S.components s.key) depth
        run.now (into_iter_items values.old)) (seen T.tree children.old.items)
        (seen T.tree children.new.items)) }
    ensures children { OnOk result (AreChildren K.cmp (seen T.tree children.new.items)) }
    ensures more { OnOk result (length children.old.items < length children.new.items) }
    ensures left { OnOk result
        (into_iter_items values.new ≡ drop (length run.now) (into_iter_items values.old)) }
{
    let mut rest = run;
    while !rest.is_empty() {
        let (group, others) = rest.split_at(group_len(rest, depth));
        children.push(build_run(alloc, group, depth, values)?)?;
        rest = others;
    }
    Ok(())
}

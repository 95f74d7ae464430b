//! Trees of the right side that come into a list of trees: a merge notes them at their places, and
//! they are woven in at the end.

ghost use Rattle.std.specs.Prelude.{◌≡◌, ◌+◌, ◌-◌, ◌^◌, ◌<◌, ◌≤◌, ◌++◌, ◌∷◌, [], true, false};
ghost use Rattle.std.specs.Prelude.{Ok, IfOk, OnOk, OnSome};
ghost use Rattle.std.specs.Prelude.{length, take, drop};
ghost use Rattle.std.specs.List.{AllByRecursion};
ghost use Rattle.std.specs.Option.{option_copied};
ghost use Rattle.std.specs.declared.cmp.Ordering.TheVariants.{Equal};
ghost use Rattle.vc_merge.specs.Fronts.{LeftBelow, RightBelow, HeadsCompare};
ghost use Rattle.vc_merge.specs.Plan.{IsPlan, planned};
ghost use Rattle.vc_tree_model.specs.Canonical.{AreChildren};
ghost use Rattle.vc_tree_nodes.specs.Children.{seen};
ghost use Rattle.vc_tree_facing.specs.Facing.{shortened_in};
ghost use Rattle.vc_tree_facing.specs.Sides.{by_component, by_component_total};
ghost use Rattle.vc_tree_edits.specs.Pairs.{trees_of};
ghost use Rattle.vc_tree_edits.specs.Woven.{comer, woven, ComesAs, AreAdded, AreWithin, IsNextNoted};

use crate::engine::Change;
use crate::pairs::{Stop, Trees, place_among, stop_at};
use std::alloc::{AllocError, Global};
use std::cmp::Ordering;
use std::collections::VecDeque;
use std::marker::PhantomData;
use std::mem;
use vc_merge::merge::{Count, MergeOperation, MergeState, merge_as};
use vc_merge::plan::Plan;
use vc_merge::states::Uncounted;
use vc_tree_nodes::building::Build;
use vc_tree_nodes::reading::{RadixNode, TKey, TValue};

/// A tree that comes into a list.
#[derive(Drop)]
pub struct Comer<T> {
    /// The number of trees of the list before it.
    pub place: usize,
    /// What comes in.
    pub tree: T,
}

/// Moves the first `n` trees of one list to the end of another one.
fn move_over<T: Drop>(from: &mut VecDeque<T>, to: &mut Vec<T>, n: usize) -> Result<(), AllocError>
    ensures from { OnOk result (from.new.items ≡ drop n from.old.items) }
    ensures to { OnOk result (to.new.items ≡ to.old.items ++ take n from.old.items) }
{
    for _moved in 0..n {
        match from.pop_front() {
            Some(tree) => to.push(tree)?,
            None => return Ok(()),
        }
    }
    Ok(())
}

/// Puts each comer into a list at its place. Trees before the first comer are not moved, and a
/// single comer is inserted.
pub fn weave<T: Drop>(mut list: Vec<T>, comers: Vec<Comer<T>>) -> Result<Vec<T>, AllocError>
    requires within { AreWithin (length list.items) comers.items }
    ensures { IfOk result (λ all. all.items ≡ woven 0 list.items comers.items) }
{
    let mut comers = VecDeque::from_vec(comers);
    let Some(Comer { place, tree }) = comers.pop_front() else {
        return Ok(list);
    };
    if comers.is_empty() {
        list.insert(place, tree)?;
        return Ok(list);
    }
    let mut rest = VecDeque::from_vec(list.split_off(place)?);
    let room = rest.len().saturating_add(comers.len());
    list.reserve(room.saturating_add(1))?;
    list.push(tree)?;
    let mut done = place;
    'comers: while let Some(Comer { place, tree }) = comers.pop_front() {
        let more = place.saturating_sub(done);
        move_over(&mut rest, &mut list, more)?;
        list.push(tree)?;
        done += more;
    }
    let left = rest.len();
    move_over(&mut rest, &mut list, left)?;
    Ok(list)
}

/// Adds what comes in for trees that the right side alone has, without the first `from` components
/// of their prefixes.
pub fn come<
    K: TKey,
    V: TValue,
    W: TValue,
    B: RadixNode<K, W>,
    T: Build<K, V>,
    O: Change<K, V, W, B, T>,
>(alloc: Global, trees: &[B], from: usize, op: &O, kids: &mut Vec<T>) -> Result<(), AllocError>
    requires { AllByRecursion (λ y. from < length (B.tree y).prefix) trees.now }
    ensures { OnOk result (AreAdded
        (ComesAs K.cmp (O.look K.cmp) (O.says op.now) T.tree B.tree from) (λ t. t) trees.now
        kids.old.items kids.new.items) }
{
    let mut rest = trees;
    while let Some((tree, others)) = rest.split_first() {
        kids.push(op.right_alone(alloc, tree, from)?)?;
        rest = others;
    }
    Ok(())
}

/// Notes what comes in for such trees, at a place of the left list.
fn note<
    K: TKey,
    V: TValue,
    W: TValue,
    B: RadixNode<K, W>,
    T: Build<K, V>,
    O: Change<K, V, W, B, T>,
>(
    alloc: Global,
    trees: &[B],
    from: usize,
    place: usize,
    op: &O,
    comers: &mut Vec<Comer<T>>,
) -> Result<(), AllocError>
    requires { AllByRecursion (λ y. from < length (B.tree y).prefix) trees.now }
    ensures { OnOk result (AreAdded
        (ComesAs K.cmp (O.look K.cmp) (O.says op.now) T.tree B.tree from) (comer place) trees.now
        comers.old.items comers.new.items) }
{
    comers.reserve(trees.len())?;
    let mut rest = trees;
    while let Some((tree, others)) = rest.split_first() {
        let tree = op.right_alone(alloc, tree, from)?;
        comers.push(Comer { place, tree })?;
        rest = others;
    }
    Ok(())
}

/// What is left of two lists of trees, which are only read, and the trees that come in.
#[derive(Drop)]
struct Coming<'a, 'b, T, B> {
    left: &'a [T],
    right: &'b [B],
    comers: Vec<Comer<T>>,
}

impl<'a, 'b, T, B> MergeState for Coming<'a, 'b, T, B> {
    type A = T;

    type B = B;

    ghost left = { λ s. s.left.now };

    ghost right = { λ s. s.right.now };

    fn a_slice(&self) -> &[T] {
        self.left
    }

    fn b_slice(&self) -> &[B] {
        self.right
    }
}

/// Passes the trees that only the left list has, notes those that only the right one has, and stops
/// at two that begin alike.
#[derive(Drop)]
struct NoteAlone<'o, K, V, W, O> {
    alloc: Global,
    op: &'o O,
    /// The number of components of the right trees that are left out.
    from: usize,
    /// The place of the end of the left list.
    end: usize,
    key: PhantomData<K>,
    left_value: PhantomData<V>,
    right_value: PhantomData<W>,
}

impl<
    'o,
    'a,
    'b,
    K: TKey,
    V: TValue,
    W: TValue,
    B: RadixNode<K, W>,
    T: Build<K, V>,
    O: Change<K, V, W, B, T>,
    C: Count,
> MergeOperation<Coming<'a, 'b, T, B>, C> for NoteAlone<'o, K, V, W, O> {
    ghost order = { λ m. by_component T.tree B.tree 0 m.from K.cmp };

    ghost ready = { λ m s. (length s.left.now ≤ m.end)
        × AllByRecursion (λ y. m.from < length (B.tree y).prefix) s.right.now };

    ghost gives = { λ m. record {
      from_a = λ s n answer t. (answer ≡ Ok true)
          × LeftBelow (by_component T.tree B.tree 0 m.from K.cmp) (take n s.left.now) s.right.now
          × (t.comers.items ≡ s.comers.items);
      from_b = λ s n answer t. IfOk answer (λ go_on. (go_on ≡ true)
          × RightBelow (by_component T.tree B.tree 0 m.from K.cmp) (take n s.right.now) s.left.now
          × AreAdded (ComesAs K.cmp (O.look K.cmp) (O.says m.op.now) T.tree B.tree m.from)
          (comer (m.end - length s.left.now)) (take n s.right.now) s.comers.items t.comers.items);
      collision = λ s answer t. (answer ≡ Ok false) × (t ≡ s)
          × HeadsCompare (by_component T.tree B.tree 0 m.from K.cmp) s.left.now s.right.now Equal;
    } };

    ghost total = { λ m. by_component_total T.tree B.tree 0 m.from K.total };

    fn cmp(&self, a: &T, b: &B, steps: &mut C) -> Ordering {
        steps.tick();
        a.prefix().first().cmp(&b.prefix().get(self.from))
    }

    fn from_a(&self, state: &mut Coming<'a, 'b, T, B>, n: usize) -> Result<bool, AllocError> {
        state.left = &state.left[n..];
        Ok(true)
    }

    fn from_b(&self, state: &mut Coming<'a, 'b, T, B>, n: usize) -> Result<bool, AllocError> {
        let (trees, others) = state.right.split_at(n);
        let place = self.end - state.left.len();
        note::<K, V, W, B, T, O>(
            self.alloc,
            trees,
            self.from,
            place,
            self.op,
            &mut state.comers,
        )?;
        state.right = others;
        Ok(true)
    }

    fn collision(&self, state: &mut Coming<'a, 'b, T, B>) -> Result<bool, AllocError> {
        Ok(false)
    }
}

/// The next two trees that begin alike, found by a merge, which notes the right trees before them.
/// `place` trees stay before the left ones. Where each merge uses the plan of the two whole lists,
/// and continues from the pair before, all of them together compare no more than one merge.
fn merge_and_note<
    'b,
    K: TKey,
    V: TValue,
    W: TValue,
    B: RadixNode<K, W>,
    T: Build<K, V>,
    O: Change<K, V, W, B, T>,
    C: Count,
>(
    alloc: Global,
    lefts: &[T],
    place: usize,
    rights: &'b [B],
    from: usize,
    plan: Plan,
    op: &O,
    comers: &mut Vec<Comer<T>>,
    steps: &mut C,
) -> Result<Stop<'b, B>, AllocError>
    requires end { place + length lefts.now < 2 ^ 64 }
    requires left { AreChildren K.cmp (seen T.tree lefts.now) }
    requires right { AreChildren K.cmp (shortened_in B.tree from rights.now) }
    requires plan { IsPlan plan }
    ensures next { IfOk result (λ stop. IsNextNoted
        (ComesAs K.cmp (O.look K.cmp) (O.says op.now) T.tree B.tree from)
        (by_component T.tree B.tree 0 from K.cmp) place lefts.now rights.now stop.passed
        (option_copied stop.other) (trees_of stop.others) comers.old.items comers.new.items) }
    ensures before { IfOk result (λ stop. OnSome stop.other (C.counted steps.new
        + planned plan (length lefts.now - stop.passed - 1) (length (trees_of stop.others))
        ≤ C.counted steps.old + planned plan (length lefts.now) (length rights.now))) }
    ensures counted { C.counted steps.new ≤ C.counted steps.old
        + planned plan (length lefts.now) (length rights.now) }
{
    let all: NoteAlone<'_, K, V, W, O> = NoteAlone {
        alloc,
        op,
        from,
        end: place + lefts.len(),
        key: PhantomData,
        left_value: PhantomData,
        right_value: PhantomData,
    };
    let mut state = Coming {
        left: lefts,
        right: rights,
        comers: mem::replace(comers, Vec::new(alloc)),
    };
    merge_as(&mut state, &all, plan, steps)?;
    *comers = state.comers;
    Ok(stop_at(lefts.len() - state.left.len(), state.right))
}

/// The left tree that begins as the only one of the right side continues; where there is none, that
/// one is noted.
fn search_and_note<
    'b,
    K: TKey,
    V: TValue,
    W: TValue,
    B: RadixNode<K, W>,
    T: Build<K, V>,
    O: Change<K, V, W, B, T>,
>(
    alloc: Global,
    lefts: &[T],
    place: usize,
    tree: &'b B,
    from: usize,
    op: &O,
    comers: &mut Vec<Comer<T>>,
) -> Result<Stop<'b, B>, AllocError>
    requires end { place + length lefts.now < 2 ^ 64 }
    requires left { AreChildren K.cmp (seen T.tree lefts.now) }
    requires within { from < length (B.tree tree.now).prefix }
    ensures { IfOk result (λ stop. IsNextNoted
        (ComesAs K.cmp (O.look K.cmp) (O.says op.now) T.tree B.tree from)
        (by_component T.tree B.tree 0 from K.cmp) place lefts.now (tree.now ∷ []) stop.passed
        (option_copied stop.other) (trees_of stop.others) comers.old.items comers.new.items) }
{
    match place_among(lefts, &tree.prefix()[from]) {
        Ok(at) => Ok(Stop {
            passed: at,
            other: Some(tree),
            others: Trees::Many(&[]),
        }),
        Err(at) => {
            let comer = Comer {
                place: place + at,
                tree: op.right_alone(alloc, tree, from)?,
            };
            comers.push(comer)?;
            Ok(Stop {
                passed: lefts.len(),
                other: None,
                others: Trees::Many(&[]),
            })
        }
    }
}

/// The next two trees that begin alike, of the left ones from the place `at` on, before which
/// `kept` ones stay. The right trees before them are noted. A single tree is searched for; the
/// children of a node are merged by `plan`, which is that of the two whole lists. Where no right
/// tree is left, nothing is compared.
pub fn next_noted<
    'b,
    K: TKey,
    V: TValue,
    W: TValue,
    B: RadixNode<K, W>,
    T: Build<K, V>,
    O: Change<K, V, W, B, T>,
>(
    alloc: Global,
    lefts: &[T],
    kept: usize,
    at: usize,
    rights: Trees<'b, B>,
    from: usize,
    plan: Plan,
    op: &O,
    comers: &mut Vec<Comer<T>>,
) -> Result<Stop<'b, B>, AllocError>
    requires order { kept ≤ at }
    requires within { at ≤ length lefts.now }
    requires left { AreChildren K.cmp (seen T.tree (drop at lefts.now)) }
    requires right { AreChildren K.cmp (shortened_in B.tree from (trees_of rights)) }
    requires plan { IsPlan plan }
    ensures { IfOk result (λ stop. IsNextNoted
        (ComesAs K.cmp (O.look K.cmp) (O.says op.now) T.tree B.tree from)
        (by_component T.tree B.tree 0 from K.cmp) kept (drop at lefts.now) (trees_of rights.entry)
        stop.passed (option_copied stop.other) (trees_of stop.others) comers.old.items
        comers.new.items) }
{
    let rest = &lefts[at..];
    match rights {
        Trees::One(tree) => {
            search_and_note::<K, V, W, B, T, O>(alloc, rest, kept, tree, from, op, comers)
        }
        Trees::Many(trees) if trees.is_empty() => Ok(stop_at(rest.len(), trees)),
        Trees::Many(trees) => {
            let steps = &mut Uncounted;
            merge_and_note::<K, V, W, B, T, O, _>(
                alloc, rest, kept, trees, from, plan, op, comers, steps,
            )
        }
    }
}

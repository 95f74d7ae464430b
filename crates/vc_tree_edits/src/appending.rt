//! The recursion that moves the nodes of one tree into another one.

ghost use Rattle.std.specs.Prelude.{◌≡◌, ◌+◌, ◌-◌, ◌^◌, ◌<◌, ◌≤◌, ◌∷◌, [], Bool, true, false};
ghost use Rattle.std.specs.Prelude.{Ok, IfOk, OnOk, OnErr, OnSome, None, length, take, drop};
ghost use Rattle.std.specs.Prelude.{option_map};
ghost use Rattle.std.proofs.Common.{inl, inr};
ghost use Rattle.std.specs.List.{AllByRecursion, cons_option};
ghost use Rattle.std.specs.declared.cmp.Ordering.TheVariants.{Equal};
ghost use Rattle.vc_merge.specs.Fronts.{LeftBelow, RightBelow, HeadsCompare};
ghost use Rattle.vc_merge.specs.Plan.{IsPlan, planned};
ghost use Rattle.vc_tree_model.specs.Canonical.{AreChildren, IsCanonical};
ghost use Rattle.vc_tree_model.specs.Combine.{IsCombined, IsUnionAt};
ghost use Rattle.vc_tree_model.specs.Look.{values};
ghost use Rattle.vc_tree_model.specs.Tree.{no_tree, shortened};
ghost use Rattle.vc_tree_nodes.specs.Children.{seen};
ghost use Rattle.vc_tree_nodes.specs.Parting.{Agree};
ghost use Rattle.vc_tree_facing.specs.Facing.{shortened_in};
ghost use Rattle.vc_tree_facing.specs.Made.{IsBothMade};
ghost use Rattle.vc_tree_facing.specs.Sides.{by_component, by_component_total};
ghost use Rattle.vc_tree_edits.specs.Appended.{IsAppendedAt, ComesWhole, AreApartBelow, rest_of};
ghost use Rattle.vc_tree_edits.specs.Taken.{lefts_of, from_of, IsCombinedBelow};
ghost use Rattle.vc_tree_edits.specs.Woven.{comer, AreAdded, IsNextNoted};

use crate::changes::shorten;
use crate::comers::{Comer, weave};
use crate::engine::{Below, Taken, finish_in, put_back, take_apart, take_at, two};
use crate::lessening::pass;
use std::alloc::{AllocError, Global};
use std::cmp::Ordering;
use std::marker::PhantomData;
use std::mem;
use vc_merge::merge::{Count, MergeOperation, MergeState, merge_as};
use vc_merge::plan::{Plan, plan_of};
use vc_merge::states::Uncounted;
use vc_tree_facing::facing::{compare_at, split};
use vc_tree_nodes::building::{Build, Seal};
use vc_tree_nodes::reading::{RadixNode, TKey, TValue, canonical};

/// What is left of the right one of two lists of trees, and what of it comes into the left one.
#[derive(Drop)]
struct RightList<T> {
    /// The list. Empty trees replace those that were taken out.
    trees: Vec<T>,
    /// The place of the first tree that is left.
    next: usize,
    /// The trees that come in.
    comers: Vec<Comer<T>>,
}

/// The tree without the first `from` components of its prefix. Its clause says that all values are
/// kept.
fn come_whole<K: TKey, V: TValue, T: Build<K, V>>(
    alloc: Global,
    tree: T,
    from: usize,
) -> Result<T, AllocError>
    requires { from < length (T.tree tree).prefix }
    ensures { IfOk result (λ whole. ComesWhole K.cmp T.keeps T.tree from tree whole) }
{
    shorten(alloc, tree, from)
}

/// Takes the next tree out of the right list, and leaves the empty one there.
fn take_next<K: TKey, V: TValue, T: Build<K, V>>(
    alloc: Global,
    right: &mut RightList<T>,
) -> Option<T>
    ensures rest { rest_of right.old ≡ cons_option result (rest_of right.new) }
    ensures end { result ≡ None → rest_of right.new ≡ [] }
    ensures comers { right.new.comers ≡ right.old.comers }
{
    if right.next < right.trees.len() {
        let tree = take_at::<K, V, T>(alloc, &mut right.trees, right.next);
        right.next += 1;
        Some(tree)
    } else {
        None
    }
}

/// Moves the next `n` trees of the right list to the comers, without the first `from` components of
/// their prefixes. They will be put in after the first `place` trees of the left list.
fn move_next<K: TKey, V: TValue, T: Build<K, V>>(
    alloc: Global,
    right: &mut RightList<T>,
    n: usize,
    from: usize,
    place: usize,
) -> Result<(), AllocError>
    requires { AllByRecursion (λ y. from < length (T.tree y).prefix) (rest_of right.old) }
    ensures added { OnOk result (AreAdded (ComesWhole K.cmp T.keeps T.tree from) (comer place)
        (take n (rest_of right.old)) right.old.comers.items right.new.comers.items) }
    ensures rest { OnOk result (rest_of right.new ≡ drop n (rest_of right.old)) }
{
    right.comers.reserve(n)?;
    for _moved in 0..n {
        let Some(tree) = take_next::<K, V, T>(alloc, right) else {
            return Ok(());
        };
        let tree = come_whole::<K, V, T>(alloc, tree, from)?;
        right.comers.push(Comer { place, tree })?;
    }
    Ok(())
}

/// What is left of two lists of trees. The left one is only read.
#[derive(Drop)]
struct Moving<'a, T> {
    left: &'a [T],
    right: RightList<T>,
}

impl<'a, T> MergeState for Moving<'a, T> {
    type A = T;

    type B = T;

    ghost left = { λ s. s.left.now };

    ghost right = { λ s. rest_of s.right };

    fn a_slice(&self) -> &[T] {
        self.left
    }

    fn b_slice(&self) -> &[T] {
        let next = self.right.next.min(self.right.trees.len());
        &self.right.trees[next..]
    }
}

/// Passes the trees that only the left list has, moves those that only the right one has to the
/// comers, and stops at two that begin alike.
#[derive(Drop)]
struct MoveAlone<K, V> {
    alloc: Global,
    /// The number of components of the right trees that are left out.
    from: usize,
    /// The place of the end of the left list.
    end: usize,
    key: PhantomData<K>,
    value: PhantomData<V>,
}

impl<'a, K: TKey, V: TValue, T: Build<K, V>, C: Count> MergeOperation<Moving<'a, T>, C>
    for MoveAlone<K, V> {
    ghost order = { λ m. by_component T.tree T.tree 0 m.from K.cmp };

    ghost ready = { λ m s. (length s.left.now ≤ m.end)
        × AllByRecursion (λ y. m.from < length (T.tree y).prefix) (rest_of s.right) };

    ghost gives = { λ m. record {
      from_a = λ s n answer t. (answer ≡ Ok true)
          × LeftBelow (by_component T.tree T.tree 0 m.from K.cmp) (take n s.left.now)
          (rest_of s.right) × (t.right.comers.items ≡ s.right.comers.items);
      from_b = λ s n answer t. IfOk answer (λ go_on. (go_on ≡ true)
          × RightBelow (by_component T.tree T.tree 0 m.from K.cmp) (take n (rest_of s.right))
          s.left.now × AreAdded (ComesWhole K.cmp T.keeps T.tree m.from)
          (comer (m.end - length s.left.now)) (take n (rest_of s.right)) s.right.comers.items
          t.right.comers.items);
      collision = λ s answer t. (answer ≡ Ok false) × (t ≡ s)
          × HeadsCompare (by_component T.tree T.tree 0 m.from K.cmp) s.left.now (rest_of s.right)
          Equal;
    } };

    ghost total = { λ m. by_component_total T.tree T.tree 0 m.from K.total };

    fn cmp(&self, a: &T, b: &T, steps: &mut C) -> Ordering {
        steps.tick();
        a.prefix().first().cmp(&b.prefix().get(self.from))
    }

    fn from_a(&self, state: &mut Moving<'a, T>, n: usize) -> Result<bool, AllocError> {
        state.left = &state.left[n..];
        Ok(true)
    }

    fn from_b(&self, state: &mut Moving<'a, T>, n: usize) -> Result<bool, AllocError> {
        let place = self.end - state.left.len();
        move_next::<K, V, T>(self.alloc, &mut state.right, n, self.from, place)?;
        Ok(true)
    }

    fn collision(&self, state: &mut Moving<'a, T>) -> Result<bool, AllocError> {
        Ok(false)
    }
}

/// Where a merge of two lists stops: at the next two trees that begin alike, or at the end. The
/// right trees before that place were moved.
#[derive(Drop)]
struct Met<T> {
    /// The number of left trees that were passed, which the right list does not have.
    passed: usize,
    /// The right tree that begins as the next left one does, or none at the end of both lists.
    other: Option<T>,
    /// The right trees after that one.
    right: RightList<T>,
}

/// The next two trees that begin alike, found by a merge, which moves the right trees before them
/// to the comers. `place` trees are kept before `lefts`. Where each merge uses the plan of the
/// two whole lists, and continues from the pair before, all of them together compare no more than
/// one merge.
fn next_met<K: TKey, V: TValue, T: Build<K, V>, C: Count>(
    alloc: Global,
    lefts: &[T],
    place: usize,
    right: RightList<T>,
    from: usize,
    plan: Plan,
    steps: &mut C,
) -> Result<Met<T>, AllocError>
    requires end { place + length lefts.now < 2 ^ 64 }
    requires left { AreChildren K.cmp (seen T.tree lefts.now) }
    requires right { AreChildren K.cmp (shortened_in T.tree from (rest_of right)) }
    requires plan { IsPlan plan }
    ensures next { IfOk result (λ met. IsNextNoted (ComesWhole K.cmp T.keeps T.tree from)
        (by_component T.tree T.tree 0 from K.cmp) place lefts.now (rest_of right) met.passed
        met.other (rest_of met.right) right.comers.items met.right.comers.items) }
    ensures before { IfOk result (λ met. OnSome met.other (C.counted steps.new
        + planned plan (length lefts.now - met.passed - 1) (length (rest_of met.right))
        ≤ C.counted steps.old + planned plan (length lefts.now) (length (rest_of right)))) }
    ensures counted { C.counted steps.new ≤ C.counted steps.old
        + planned plan (length lefts.now) (length (rest_of right)) }
{
    let all: MoveAlone<K, V> = MoveAlone {
        alloc,
        from,
        end: place + lefts.len(),
        key: PhantomData,
        value: PhantomData,
    };
    let mut state = Moving { left: lefts, right };
    merge_as(&mut state, &all, plan, steps)?;
    let passed = lefts.len() - state.left.len();
    let mut right = state.right;
    let other = take_next::<K, V, T>(alloc, &mut right);
    Ok(Met {
        passed,
        other,
        right,
    })
}

/// The value of a key that both trees may bind: where both do, that of the right tree if it wins,
/// and otherwise that of the left one.
fn choose_value<K: TKey, V: TValue, T: Build<K, V>>(
    value: Option<V>,
    other: Option<V>,
    right_wins: bool,
) -> Option<V>
    ensures { IsAppendedAt T.keeps right_wins value other result }
{
    match value {
        Some(value) => match other {
            Some(other) => if right_wins { Some(other) } else { Some(value) },
            None => Some(value),
        },
        None => other,
    }
}

/// A list of two trees whose next components differ, in order.
fn in_order<K: TKey, V: TValue, T: Build<K, V>>(
    alloc: Global,
    tree: T,
    from: usize,
    that: T,
    right_from: usize,
) -> Result<Vec<T>, AllocError>
    requires left { AreChildren K.cmp (shortened_in T.tree from (tree ∷ [])) }
    requires right { AreChildren K.cmp (shortened_in T.tree right_from (that ∷ [])) }
    requires apart { by_component T.tree T.tree from right_from K.cmp (inl tree) (inr that)
        ≡ Equal → ⊥ }
    ensures { IfOk result (λ kids. (right_wins : Bool) → IsCombinedBelow K.cmp (values K.cmp)
        (IsAppendedAt T.keeps right_wins) (shortened_in T.tree from (tree ∷ []))
        (shortened_in T.tree right_from (that ∷ [])) (seen T.tree kids.items)) }
{
    let order = compare_at(&that, right_from, &tree, from, &mut Uncounted);
    let comer = come_whole::<K, V, T>(alloc, that, right_from)?;
    let left = come_whole::<K, V, T>(alloc, tree, from)?;
    match order {
        Ordering::Less => two(alloc, comer, left),
        _ => two(alloc, left, comer),
    }
}

/// A list of one tree.
fn one<T: Drop>(alloc: Global, tree: T) -> Result<Vec<T>, AllocError>
    ensures { IfOk result (λ list. list.items ≡ tree ∷ []) }
{
    let mut list = Vec::with_capacity(alloc, 1)?;
    list.push(tree)?;
    Ok(list)
}

/// Makes one tree of two: of the left one without the first `i` components of its prefix, and of
/// the right one without the first `j`. The first `known` components that are left of either prefix
/// are known to agree. At a key of both the value of the right tree stays if it wins, and otherwise
/// that of the left one.
#[cycle(appending)]
fn append_at<K: TKey, V: TValue, T: Build<K, V>>(
    alloc: Global,
    tree: T,
    i: usize,
    that: T,
    j: usize,
    known: usize,
    right_wins: bool,
) -> Result<Option<T>, AllocError>
    requires left { i ≤ length (T.tree tree).prefix }
    requires right { j ≤ length (T.tree that).prefix }
    requires known { Agree K.cmp (drop i (T.tree tree).prefix) (drop j (T.tree that).prefix) known }
    ensures { IfOk result (λ made. IsBothMade K.cmp (IsAppendedAt T.keeps right_wins)
        (shortened i (T.tree tree)) (shortened j (T.tree that)) (option_map T.tree made)) }
{
    let front = split(&tree, i, &that, j, known);
    let Taken {
        prefix,
        value,
        left,
    } = take_apart(alloc, tree, i, front)?;
    let Taken {
        prefix: _,
        value: other,
        left: right,
    } = take_apart(alloc, that, j, front)?;
    let value = choose_value::<K, V, T>(value, other, right_wins);
    let kids = append_below(alloc, left, right, right_wins)?;
    let made = finish_in::<K, V, T>(alloc, prefix, value, kids)?;
    Ok(made)
}

/// Makes one list of what two trees have below the place where their prefixes diverge. A single
/// tree is moved into a list of children, and the shorter one of two such lists into the longer
/// one.
#[cycle(appending)]
fn append_below<K: TKey, V: TValue, T: Build<K, V>>(
    alloc: Global,
    left: Below<T>,
    right: Below<T>,
    right_wins: bool,
) -> Result<Vec<T>, AllocError>
    requires left { AreChildren K.cmp (shortened_in T.tree (from_of left) (lefts_of left)) }
    requires right { AreChildren K.cmp (shortened_in T.tree (from_of right) (lefts_of right)) }
    requires apart { AreApartBelow K.cmp T.tree left right }
    ensures { IfOk result (λ kids. IsCombinedBelow K.cmp (values K.cmp)
        (IsAppendedAt T.keeps right_wins) (shortened_in T.tree (from_of left) (lefts_of left))
        (shortened_in T.tree (from_of right) (lefts_of right)) (seen T.tree kids.items)) }
{
    match left {
        Below::Alone(tree, from) => match right {
            Below::Alone(that, right_from) => in_order(alloc, tree, from, that, right_from),
            Below::Children(others) => {
                append_list(alloc, others, one(alloc, tree)?, from, !right_wins)
            }
        },
        Below::Children(list) => match right {
            Below::Alone(that, from) => append_list(
                alloc,
                list,
                one(alloc, that)?,
                from,
                right_wins,
            ),
            Below::Children(others) => {
                if list.len() < others.len() {
                    append_list(alloc, others, list, 0, !right_wins)
                } else {
                    append_list(alloc, list, others, 0, right_wins)
                }
            }
        },
    }
}

/// Makes one list of two, of which the right one is without the first `from` components of its
/// prefixes. The trees of the left list stay where they are. Of each two that begin alike one is
/// made, and the other right trees are put in at the end.
#[cycle(appending)]
fn append_list<K: TKey, V: TValue, T: Build<K, V>>(
    alloc: Global,
    mut list: Vec<T>,
    others: Vec<T>,
    from: usize,
    right_wins: bool,
) -> Result<Vec<T>, AllocError>
    requires left { AreChildren K.cmp (seen T.tree list.items) }
    requires right { AreChildren K.cmp (shortened_in T.tree from others.items) }
    ensures { IfOk result (λ kids. IsCombinedBelow K.cmp (values K.cmp)
        (IsAppendedAt T.keeps right_wins) (seen T.tree list.items)
        (shortened_in T.tree from others.items) (seen T.tree kids.items)) }
{
    let plan = plan_of(list.len(), others.len());
    let mut right = RightList {
        trees: others,
        next: 0,
        comers: Vec::new(alloc),
    };
    let mut kept = 0;
    let mut at = 0;
    'pairs: loop {
        let Met {
            passed,
            other,
            right: rest,
        } = next_met::<K, V, T, _>(alloc, &list[at..], kept, right, from, plan, &mut Uncounted)?;
        kept = pass(&mut list, kept, at, passed, true);
        at += passed;
        let Some(that) = other else {
            list.truncate(kept);
            return weave(list, rest.comers);
        };
        let tree = take_at::<K, V, T>(alloc, &mut list, at);
        let made = append_at(alloc, tree, 0, that, from, 1, right_wins)?;
        let stays = put_back(&mut list, at, made);
        kept = pass(&mut list, kept, at, 1, stays);
        at += 1;
        right = rest;
    }
}

/// Moves the nodes of the other tree into this one. At a key of both the value of the other tree
/// stays. The empty tree replaces this one where memory is refused, or the clone of a value in a
/// list that is shared.
pub fn append<K: TKey, V: TValue, T: Build<K, V>>(tree: &mut T, that: T) -> Result<(), AllocError>
    ensures ok { OnOk result (IsCombined K.cmp (IsUnionAt T.keeps T.keeps) (T.tree that)
        (T.tree tree.old) (T.tree tree.new)) }
    ensures err { OnErr result (T.tree tree.new ≡ no_tree) }
    ensures canonical { IsCanonical K.cmp (T.tree tree.new) }
{
    let alloc = tree.allocator();
    let whole = mem::replace(tree, T::blank(alloc, Seal::new()));
    canonical(tree);
    if let Some(made) = append_at(alloc, whole, 0, that, 0, 0, true)? {
        canonical(&made);
        *tree = made;
    }
    Ok(())
}

//! Two lists of trees side by side: a merge passes those that only one list has, and stops at two
//! that begin alike.

ghost use Rattle.std.specs.Prelude.{◌≡◌, ◌+◌, ◌-◌, ◌<◌, ◌≤◌, ◌∷◌, ◌++◌, [], true, false, Ok};
ghost use Rattle.std.specs.Prelude.{None, Some, drop, take, length, slice_get, OnSome};
ghost use Rattle.std.specs.List.{AllByRecursion, cons_option};
ghost use Rattle.std.specs.Option.{option_copied};
ghost use Rattle.std.specs.declared.cmp.Ordering.TheVariants.{Equal};
ghost use Rattle.vc_merge.specs.Fronts.{LeftBelow, RightBelow, HeadsCompare};
ghost use Rattle.vc_merge.specs.Plan.{IsPlan, planned};
ghost use Rattle.vc_tree_model.specs.Canonical.{AreChildren, IsCanonical};
ghost use Rattle.vc_tree_nodes.specs.Children.{seen};
ghost use Rattle.vc_tree_facing.specs.Facing.{shortened_in, IsOpened};
ghost use Rattle.vc_tree_facing.specs.Seeking.{side_at, IsSought};
ghost use Rattle.vc_tree_facing.specs.Sides.{by_component, by_component_total};
ghost use Rattle.vc_merge.specs.Place.{IsPlace};
ghost use Rattle.vc_tree_edits.specs.Pairs.{trees_of, IsNextPair};
ghost use Rattle.vc_tree_edits.specs.Taken.{RightStands};

use std::alloc::AllocError;
use std::cmp::Ordering;
use std::marker::PhantomData;
use vc_merge::merge::{Count, MergeOperation, MergeState, merge_as};
use vc_merge::plan::Plan;
use vc_merge::search::{Sought, search};
use vc_merge::states::Uncounted;
use vc_tree_nodes::reading::{RadixNode, TKey, TValue, canonical};

/// Trees of the right side, each without some of its first components.
#[derive(Drop)]
pub enum Trees<'b, B> {
    /// One, which continues after them.
    One(&'b B),
    /// The children of a node.
    Many(&'b [B]),
}

impl<'b, B> Trees<'b, B> {
    /// How many there are.
    pub fn len(&self) -> usize
        ensures { result ≡ length (trees_of self.now) }
    {
        match self {
            Trees::One(_) => 1,
            Trees::Many(trees) => trees.len(),
        }
    }
}

/// What is below a place of the prefix of a tree, and how many components are before it.
pub fn trees_at<'b, K: TKey, W: TValue, B: RadixNode<K, W>>(
    tree: &'b B,
    place: usize,
) -> (Trees<'b, B>, usize)
    requires { place ≤ length (B.tree tree.now).prefix }
    ensures opened { let t = B.tree tree.now in
        IsOpened B.tree t (drop place t.prefix) (trees_of result.0) result.1 }
    ensures children { AreChildren K.cmp (shortened_in B.tree result.1 (trees_of result.0)) }
    ensures stands { RightStands B.tree tree.now place result.0 result.1 }
{
    if place < tree.prefix().len() {
        (Trees::One(tree), place)
    } else {
        (Trees::Many(tree.children()), 0)
    }
}

/// What is left of two lists of trees, which are only read.
#[derive(Drop)]
struct Lists<'a, 'b, A, B> {
    left: &'a [A],
    right: &'b [B],
}

impl<'a, 'b, A, B> MergeState for Lists<'a, 'b, A, B> {
    type A = A;

    type B = B;

    ghost left = { λ s. s.left.now };

    ghost right = { λ s. s.right.now };

    fn a_slice(&self) -> &[A] {
        self.left
    }

    fn b_slice(&self) -> &[B] {
        self.right
    }
}

/// Passes the trees that only one list has, and stops at two that begin alike.
#[derive(Drop)]
struct PassAlone<K, V, W> {
    /// The number of components of the right trees that are left out.
    from: usize,
    key: PhantomData<K>,
    left_value: PhantomData<V>,
    right_value: PhantomData<W>,
}

impl<
    'a,
    'b,
    K: TKey,
    V: TValue,
    W: TValue,
    A: RadixNode<K, V>,
    B: RadixNode<K, W>,
    C: Count,
> MergeOperation<Lists<'a, 'b, A, B>, C> for PassAlone<K, V, W> {
    ghost order = { λ op. by_component A.tree B.tree 0 op.from K.cmp };

    ghost ready = { λ _ _. Unit {0} };

    ghost gives = { λ op. record {
      from_a = λ s n answer t. (answer ≡ Ok true)
          × LeftBelow (by_component A.tree B.tree 0 op.from K.cmp) (take n s.left.now) s.right.now;
      from_b = λ s n answer t. (answer ≡ Ok true)
          × RightBelow (by_component A.tree B.tree 0 op.from K.cmp) (take n s.right.now) s.left.now;
      collision = λ s answer t. (answer ≡ Ok false) × (t ≡ s)
          × HeadsCompare (by_component A.tree B.tree 0 op.from K.cmp) s.left.now s.right.now Equal;
    } };

    ghost total = { λ op. by_component_total A.tree B.tree 0 op.from K.total };

    fn cmp(&self, a: &A, b: &B, steps: &mut C) -> Ordering {
        steps.tick();
        a.prefix().first().cmp(&b.prefix().get(self.from))
    }

    fn from_a(&self, state: &mut Lists<'a, 'b, A, B>, n: usize) -> Result<bool, AllocError> {
        state.left = &state.left[n..];
        Ok(true)
    }

    fn from_b(&self, state: &mut Lists<'a, 'b, A, B>, n: usize) -> Result<bool, AllocError> {
        state.right = &state.right[n..];
        Ok(true)
    }

    fn collision(&self, state: &mut Lists<'a, 'b, A, B>) -> Result<bool, AllocError> {
        Ok(false)
    }
}

/// Where a walk along two lists of trees stops: at the next two that begin alike, or at the end.
#[derive(Drop)]
pub struct Stop<'b, B> {
    /// The number of left trees that were passed, which the right list does not have.
    pub passed: usize,
    /// The right tree that begins as the next left one does, or none at the end of both lists.
    pub other: Option<&'b B>,
    /// The right trees after that one.
    pub others: Trees<'b, B>,
}

/// A stop after so many left trees, at the first of these right trees.
pub fn stop_at<'b, B>(passed: usize, rights: &'b [B]) -> Stop<'b, B>
    ensures passed { result.passed ≡ passed }
    ensures rights { rights.now
        ≡ cons_option (option_copied result.other) (trees_of result.others) }
    ensures end { option_copied result.other ≡ None → trees_of result.others ≡ [] }
{
    match rights.split_first() {
        Some((other, others)) => Stop {
            passed,
            other: Some(other),
            others: Trees::Many(others),
        },
        None => Stop {
            passed,
            other: None,
            others: Trees::Many(&[]),
        },
    }
}

/// The next two trees that begin alike, found by a merge. Where each merge uses the plan of the two
/// whole lists, and continues from the pair before, all of them together compare no more than one
/// merge.
fn merge_to_pair<
    'b,
    K: TKey,
    V: TValue,
    W: TValue,
    A: RadixNode<K, V>,
    B: RadixNode<K, W>,
    C: Count,
>(lefts: &[A], rights: &'b [B], from: usize, plan: Plan, steps: &mut C) -> Stop<'b, B>
    requires left { AreChildren K.cmp (seen A.tree lefts.now) }
    requires right { AreChildren K.cmp (shortened_in B.tree from rights.now) }
    requires plan { IsPlan plan }
    ensures next { IsNextPair (by_component A.tree B.tree 0 from K.cmp) lefts.now rights.now
        result.passed (option_copied result.other) (trees_of result.others) }
    ensures before { OnSome result.other (C.counted steps.new
        + planned plan (length lefts.now - result.passed - 1) (length (trees_of result.others))
        ≤ C.counted steps.old + planned plan (length lefts.now) (length rights.now)) }
    ensures counted { C.counted steps.new ≤ C.counted steps.old
        + planned plan (length lefts.now) (length rights.now) }
{
    let op: PassAlone<K, V, W> = PassAlone {
        from,
        key: PhantomData,
        left_value: PhantomData,
        right_value: PhantomData,
    };
    let mut lists = Lists {
        left: lefts,
        right: rights,
    };
    let _never_refused = merge_as(&mut lists, &op, plan, steps);
    stop_at(lefts.len() - lists.left.len(), lists.right)
}

/// A component that is sought among those with which children begin.
#[derive(Drop)]
struct Beginning<'a, K, V> {
    component: &'a K,
    values: PhantomData<V>,
}

impl<'a, K: TKey, V: TValue, T: RadixNode<K, V>, C: Count> Sought<T, C> for Beginning<'a, K, V> {
    ghost side = { λ sought tree. side_at K.cmp T.tree 0 sought.component.now tree };

    fn compare(&self, tree: &T, steps: &mut C) -> Ordering {
        steps.tick();
        match tree.prefix().first() {
            Some(start) => start.cmp(self.component),
            None => Ordering::Less,
        }
    }
}

/// The place of the child that begins with a component, or of the gap for one. Compares no more
/// often than the number of children has binary digits.
pub fn place_among<K: TKey, V: TValue, T: RadixNode<K, V>>(
    children: &[T],
    component: &K,
) -> Result<usize, usize>
    requires { AreChildren K.cmp (seen T.tree children.now) }
    ensures { IsPlace (side_at K.cmp T.tree 0 component.now) children.now result }
{
    let sought: Beginning<'_, K, V> = Beginning {
        component,
        values: PhantomData,
    };
    search(children, &sought, &mut Uncounted)
}

/// Children, split where one of them may begin as a tree continues.
#[derive(Drop)]
pub struct Around<'b, B> {
    /// Those that begin with lesser components.
    pub before: &'b [B],
    /// The one that begins so.
    pub found: Option<&'b B>,
    /// Those that begin with greater components.
    pub after: &'b [B],
}

/// The children around the one that begins as a tree continues at a place of its prefix.
pub fn look_around<'b, K: TKey, V: TValue, W: TValue, T: RadixNode<K, V>, B: RadixNode<K, W>>(
    children: &'b [B],
    tree: &T,
    place: usize,
) -> Around<'b, B>
    requires children { AreChildren K.cmp (seen B.tree children.now) }
    requires place { place < length (T.tree tree.now).prefix }
    ensures parts { children.now
        ≡ result.before.now ++ cons_option (option_copied result.found) result.after.now }
    ensures before { AllByRecursion (λ y. 0 < length (B.tree y).prefix) result.before.now }
    ensures after { AllByRecursion (λ y. 0 < length (B.tree y).prefix) result.after.now }
    ensures sought { (x : K) → slice_get (T.tree tree.now).prefix place ≡ Some x
        → IsSought K.cmp B.tree 0 x children.now (option_copied result.found) result.after.now }
    ensures canonical { IsCanonical K.cmp (T.tree tree.now) }
{
    let component = &tree.prefix()[place];
    match place_among(children, component) {
        Ok(at) => Around {
            before: &children[..at],
            found: Some(&children[at]),
            after: &children[at + 1..],
        },
        Err(at) => Around {
            before: &children[..at],
            found: None,
            after: &children[at..],
        },
    }
}

/// The next pair where the right side is one tree: the left tree that begins as `tree` continues
/// after `from` components. Where there is none, all left trees are passed.
fn search_pair<'b, K: TKey, V: TValue, W: TValue, A: RadixNode<K, V>, B: RadixNode<K, W>>(
    lefts: &[A],
    tree: &'b B,
    from: usize,
) -> Stop<'b, B>
    requires left { AreChildren K.cmp (seen A.tree lefts.now) }
    requires within { from < length (B.tree tree.now).prefix }
    ensures { IsNextPair (by_component A.tree B.tree 0 from K.cmp) lefts.now
        (tree.now ∷ []) result.passed (option_copied result.other) (trees_of result.others) }
{
    match place_among(lefts, &tree.prefix()[from]) {
        Ok(at) => Stop {
            passed: at,
            other: Some(tree),
            others: Trees::Many(&[]),
        },
        Err(_) => Stop {
            passed: lefts.len(),
            other: None,
            others: Trees::Many(&[]),
        },
    }
}

/// The next two trees that begin alike, of the left ones from the place `at` on. A single tree is
/// searched for; the children of a node are merged by `plan`, which is that of the two whole lists.
/// Where no right tree is left, nothing is compared.
pub fn next_pair<'b, K: TKey, V: TValue, W: TValue, A: RadixNode<K, V>, B: RadixNode<K, W>>(
    lefts: &[A],
    at: usize,
    rights: Trees<'b, B>,
    from: usize,
    plan: Plan,
) -> Stop<'b, B>
    requires within { at ≤ length lefts.now }
    requires left { AreChildren K.cmp (seen A.tree (drop at lefts.now)) }
    requires right { AreChildren K.cmp (shortened_in B.tree from (trees_of rights)) }
    requires plan { IsPlan plan }
    ensures { IsNextPair (by_component A.tree B.tree 0 from K.cmp) (drop at lefts.now)
        (trees_of rights.entry) result.passed (option_copied result.other)
        (trees_of result.others) }
{
    let rest = &lefts[at..];
    match rights {
        Trees::One(tree) => search_pair(rest, tree, from),
        Trees::Many(trees) if trees.is_empty() => stop_at(rest.len(), trees),
        Trees::Many(trees) => merge_to_pair(rest, trees, from, plan, &mut Uncounted),
    }
}

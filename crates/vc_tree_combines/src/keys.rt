//! Tests of the keys of two trees. They take no memory. Where children of two nodes are merged, the
//! merge stops at two that begin alike. These are tested, and the merge continues after them.

ghost use Rattle.std.specs.Prelude.{◌≡◌, ◌+◌, ◌≤◌, Bool, Ok, List, drop, length, not, true, false};
ghost use Rattle.std.specs.Prelude.{MatchBool, IfSome};
ghost use Rattle.std.specs.Option.{option_copied};
ghost use Rattle.vc_tree_model.specs.Canonical.{AreChildren};
ghost use Rattle.vc_tree_model.specs.KeySets.{AreDisjoint, HasKeysOf, LacksKeyOf, ShareKey};
ghost use Rattle.vc_tree_model.specs.Tree.{shortened};
ghost use Rattle.vc_tree_nodes.specs.Children.{seen};
ghost use Rattle.vc_tree_nodes.specs.Parting.{Agree};
ghost use Rattle.vc_tree_combines.specs.Meeting.{IsMet, IsMissed, TellsKeys, TellsKeysIn, IsNext};
ghost use Rattle.vc_tree_facing.specs.Sides.{by_component, by_component_total};

use std::alloc::AllocError;
use std::cmp::Ordering;
use std::marker::PhantomData;
use vc_merge::merge::{Count, MergeOperation, MergeState, Uncounted, merge};
use vc_tree_facing::facing::compare_at;
use vc_tree_nodes::parting::{Parting, find_parting};
use vc_tree_nodes::places::child_at;
use vc_tree_nodes::reading::{RadixNode, TKey, TValue, canonical, is_empty};

/// What is left of two lists of trees, and whether a tree was missed: one that only the left list
/// has, where its keys have to be shared.
#[derive(Drop)]
struct Tails<'a, 'b, A, B> {
    left: &'a [A],
    right: &'b [B],
    missed: bool,
}

impl<'a, 'b, A, B> MergeState for Tails<'a, 'b, A, B> {
    type A = A;

    type B = B;

    ghost left = { λ s. s.left.now };

    ghost right = { λ s. s.right.now };

    fn a_slice(&self) -> &[A] {
        self.left
    }

    fn b_slice(&self) -> &[B] {
        self.right
    }
}

/// Passes the trees that only one list has, and stops at two that begin alike, or at one that is
/// missed.
#[derive(Drop)]
struct FindMissed<K, V, W> {
    shared: bool,
    key: PhantomData<K>,
    left_value: PhantomData<V>,
    right_value: PhantomData<W>,
}

impl<
    'a,
    'b,
    K: TKey,
    V: TValue,
    W: TValue,
    A: RadixNode<K, V>,
    B: RadixNode<K, W>,
    C: Count,
> MergeOperation<Tails<'a, 'b, A, B>, C> for FindMissed<K, V, W> {
    ghost order = { λ _. by_component A.tree B.tree 0 0 K.cmp };

    ghost ready = { λ _ _. Unit {0} };

    ghost gives = { λ op. record {
      from_a = λ s n answer t. (answer ≡ Ok (not op.shared)) × (t.missed ≡ op.shared);
      from_b = λ s n answer t. (answer ≡ Ok true) × (t.missed ≡ s.missed);
      collision = λ s answer t. (answer ≡ Ok false) × (t ≡ s);
    } };

    ghost total = { λ _. by_component_total A.tree B.tree 0 0 K.total };

    fn cmp(&self, a: &A, b: &B, steps: &mut C) -> Ordering {
        steps.tick();
        a.prefix().first().cmp(&b.prefix().first())
    }

    fn from_a(&self, state: &mut Tails<'a, 'b, A, B>, n: usize) -> Result<bool, AllocError> {
        state.left = &state.left[n..];
        state.missed = self.shared;
        Ok(!self.shared)
    }

    fn from_b(&self, state: &mut Tails<'a, 'b, A, B>, n: usize) -> Result<bool, AllocError> {
        state.right = &state.right[n..];
        Ok(true)
    }

    fn collision(&self, state: &mut Tails<'a, 'b, A, B>) -> Result<bool, AllocError> {
        Ok(false)
    }
}

/// What comes next of two lists of trees.
#[derive(Drop)]
enum Next<'a, 'b, A, B> {
    /// A tree of each list that begin alike, and those after it.
    Meeting(&'a A, &'a [A], &'b B, &'b [B]),
    /// A tree of only the left list, whose keys have to be shared.
    Missed,
    /// No trees that meet.
    End,
}

/// The first trees of two lists, where they begin alike.
fn meeting_at_front<'a, 'b, K: TKey, V: TValue, W: TValue, A: RadixNode<K, V>, B: RadixNode<K, W>>(
    left: &'a [A],
    right: &'b [B],
) -> Option<Next<'a, 'b, A, B>>
    requires left { AreChildren K.cmp (seen A.tree left.now) }
    requires right { AreChildren K.cmp (seen B.tree right.now) }
    ensures { IfSome result (λ next. (shared : Bool)
        → IsNext K.cmp A.tree B.tree shared left.now right.now next) }
{
    let (x, lefts) = left.split_first()?;
    let (y, rights) = right.split_first()?;
    match compare_at(y, 0, x, 0, &mut Uncounted) {
        Ordering::Equal => Some(Next::Meeting(x, lefts, y, rights)),
        _ => None,
    }
}

/// The first trees of two lists that begin alike. No merge is begun where these are at the front,
/// or where the left list has ended.
fn next_meeting<'a, 'b, K: TKey, V: TValue, W: TValue, A: RadixNode<K, V>, B: RadixNode<K, W>>(
    left: &'a [A],
    right: &'b [B],
    shared: bool,
) -> Next<'a, 'b, A, B>
    requires left { AreChildren K.cmp (seen A.tree left.now) }
    requires right { AreChildren K.cmp (seen B.tree right.now) }
    ensures { IsNext K.cmp A.tree B.tree shared left.now right.now result }
{
    if left.is_empty() {
        return Next::End;
    }
    match meeting_at_front(left, right) {
        Some(next) => next,
        None => merge_to_meeting(left, right, shared),
    }
}

/// Finds the same by a merge.
fn merge_to_meeting<'a, 'b, K: TKey, V: TValue, W: TValue, A: RadixNode<K, V>, B: RadixNode<K, W>>(
    left: &'a [A],
    right: &'b [B],
    shared: bool,
) -> Next<'a, 'b, A, B>
    requires left { AreChildren K.cmp (seen A.tree left.now) }
    requires right { AreChildren K.cmp (seen B.tree right.now) }
    ensures { IsNext K.cmp A.tree B.tree shared left.now right.now result }
{
    let op: FindMissed<K, V, W> = FindMissed {
        shared,
        key: PhantomData,
        left_value: PhantomData,
        right_value: PhantomData,
    };
    let mut tails = Tails {
        left,
        right,
        missed: false,
    };
    let _never_refused = merge(&mut tails, &op, &mut Uncounted);
    if tails.missed {
        return Next::Missed;
    }
    let Some((x, lefts)) = tails.left.split_first() else {
        return Next::End;
    };
    let Some((y, rights)) = tails.right.split_first() else {
        return Next::End;
    };
    Next::Meeting(x, lefts, y, rights)
}

/// Whether all keys of the left tree are keys of the right one, if `shared`; otherwise whether none
/// is. The front of each prefix is left out, and the first `known` components after it are known to
/// agree.
#[cycle(meeting)]
fn keys_meet<K: TKey, V: TValue, W: TValue, A: RadixNode<K, V>, B: RadixNode<K, W>>(
    a: &A,
    i: usize,
    b: &B,
    j: usize,
    known: usize,
    shared: bool,
) -> bool
    requires left { i ≤ length (A.tree a.now).prefix }
    requires right { j ≤ length (B.tree b.now).prefix }
    requires known { Agree K.cmp (drop i (A.tree a.now).prefix)
        (drop j (B.tree b.now).prefix) known }
    ensures { TellsKeys K.cmp shared (shortened i (A.tree a.now)) (shortened j (B.tree b.now))
        result }
{
    let p = &a.prefix()[i..];
    let q = &b.prefix()[j..];
    match find_parting(p, q, known, &mut Uncounted) {
        Parting::Lower(_) | Parting::Higher(_) => !shared,
        Parting::Inside(n) => match child_at(b.children(), &p[n], &mut Uncounted) {
            Some(kid) => keys_meet(a, i + n, kid, 0, 1, shared),
            None => !shared,
        },
        Parting::Behind => keys_meet_behind(a, b, j + p.len(), shared),
    }
}

/// The same of what is after the prefix of the left tree, and of the right tree without `n`
/// components.
#[cycle(meeting)]
fn keys_meet_behind<K: TKey, V: TValue, W: TValue, A: RadixNode<K, V>, B: RadixNode<K, W>>(
    a: &A,
    b: &B,
    n: usize,
    shared: bool,
) -> bool
    requires { n ≤ length (B.tree b.now).prefix }
    ensures { TellsKeys K.cmp shared (shortened (length (A.tree a.now).prefix) (A.tree a.now))
        (shortened n (B.tree b.now)) result }
{
    canonical(a);
    let whole = b.prefix();
    let kids = a.children();
    if n == whole.len() {
        return values_meet(a.value(), b.value(), shared)
            && keys_meet_below(kids, b.children(), shared);
    }
    if shared {
        return is_empty(a);
    }
    match child_at(kids, &whole[n], &mut Uncounted) {
        Some(kid) => keys_meet(kid, 0, b, n, 1, shared),
        None => true,
    }
}

/// The same of the children of two nodes.
#[cycle(meeting)]
fn keys_meet_below<K: TKey, V: TValue, W: TValue, A: RadixNode<K, V>, B: RadixNode<K, W>>(
    left: &[A],
    right: &[B],
    shared: bool,
) -> bool
    requires left { AreChildren K.cmp (seen A.tree left.now) }
    requires right { AreChildren K.cmp (seen B.tree right.now) }
    ensures { TellsKeysIn K.cmp shared (seen A.tree left.now) (seen B.tree right.now) result }
{
    let mut lefts = left;
    let mut rights = right;
    loop {
        match next_meeting(lefts, rights, shared) {
            Next::End => return true,
            Next::Missed => return false,
            Next::Meeting(x, behind_x, y, behind_y) => {
                if !keys_meet(x, 0, y, 0, 1, shared) {
                    return false;
                }
                lefts = behind_x;
                rights = behind_y;
            }
        }
    }
}

/// The same of what two trees bind to one key.
fn values_meet<V, W>(v: Option<&V>, w: Option<&W>, shared: bool) -> bool
    ensures { MatchBool result (IsMet shared (option_copied v.entry) (option_copied w.entry))
        (IsMissed shared (option_copied v.entry) (option_copied w.entry)) }
{
    v.is_none() || w.is_some() == shared
}

/// Whether no key is bound by both trees.
pub fn is_disjoint<K: TKey, V: TValue, W: TValue, A: RadixNode<K, V>, B: RadixNode<K, W>>(
    this: &A,
    that: &B,
) -> bool
    ensures { MatchBool result (AreDisjoint K.cmp (A.tree this.now) (B.tree that.now))
        (ShareKey K.cmp (A.tree this.now) (B.tree that.now)) }
{
    keys_meet(this, 0, that, 0, 0, false)
}

/// Whether the right tree binds each key of the left one.
pub fn is_subset<K: TKey, V: TValue, W: TValue, A: RadixNode<K, V>, B: RadixNode<K, W>>(
    this: &A,
    that: &B,
) -> bool
    ensures { MatchBool result (HasKeysOf K.cmp (B.tree that.now) (A.tree this.now))
        (LacksKeyOf K.cmp (B.tree that.now) (A.tree this.now)) }
{
    keys_meet(this, 0, that, 0, 0, true)
}

//! The searching body of a merge: each element of the shorter list is searched for in what is left
//! of the longer one.
ghost use Rattle.std.specs.Prelude.{◌≡◌, ◌+◌, ◌*◌, ◌/◌, ◌^◌, ◌<◌, ◌≤◌, ◌↔◌, true, [], length, min, max, is_ok, IfOk, IsTrue, ◌⊎◌};
ghost use Rattle.std.proofs.Common.{inl, inr};
ghost use Rattle.vc_merge.specs.Chain.{allows};
ghost use Rattle.vc_merge.specs.Count.{by_strides, digits};
ghost use Rattle.vc_merge.specs.Place.{place_of};
ghost use Rattle.vc_merge.specs.Script.{BothAscend};
ghost use Rattle.vc_merge.specs.Plan.{fewer, more};
ghost use Rattle.vc_merge.specs.Progress.{GoesOn, IsFirstPlace, IsFront, opposite};
ghost use Rattle.vc_merge.specs.Takes.{TakesSide};

use crate::linear::{meet, pass_left, pass_right};
use crate::merge::{Count, MergeOperation, MergeState};
use crate::plan::Side;
use crate::search::{Sought, search_near};
use std::alloc::AllocError;
use std::cmp::Ordering;

/// Whether a walk along lists of these lengths compares no more often than searches in the longer
/// one. Then a merge walks along both.
pub fn is_walk_shorter(left: usize, right: usize) -> bool
    ensures { IsTrue result ↔ (left + right ≤ min left right * digits (max left right)) }
{
    left as u128 + right as u128 <= comparisons_by_halves(left, right)
}

/// The most comparisons of searches by halves in the longer list, one for each element of the
/// shorter one.
pub(crate) fn comparisons_by_halves(left: usize, right: usize) -> u128
    ensures { result ≡ min left right * digits (max left right) }
{
    let searches = left.min(right) as u128;
    let comparisons = u128::from(usize::BITS - left.max(right).leading_zeros());
    searches * comparisons
}

/// The stride with which searches for `few` elements in `many` others begin, as an exponent of two.
/// It is at most the number of others for each of the few, and more than half of that.
pub(crate) fn stride_exponent(few: usize, many: usize) -> u32
    requires { few ≤ many }
    ensures exponent { result < 64 }
    ensures searches { by_strides result few many ≤ few * digits many }
{
    if few == 0 {
        return 0;
    }
    let share = share_of(few, many);
    (usize::BITS - 1) - share.leading_zeros()
}

/// How many of `many` there are for each of `few`. A division takes as long as a few comparisons,
/// so where `few` is 1 none is made.
#[inline(always)]
fn share_of(few: usize, many: usize) -> usize
    requires { 0 < few }
    ensures { result ≡ many / few }
{
    if few == 1 { many } else { many / few }
}

/// Makes events until a list is used up, an event answers false, or an event is refused. Answers
/// true where a list is used up. Searches for each element of the shorter list, by strides of `2 ^
/// exponent`.
#[inline(always)]
pub(crate) fn search_each<M: MergeState, C: Count, O: MergeOperation<M, C>>(
    state: &mut M,
    op: &O,
    shorter: Side,
    exponent: u32,
    steps: &mut C,
) -> Result<bool, AllocError>
    requires ready { O.ready op.now state.old }
    requires ascend { BothAscend (O.order op.now) (M.left state.old) (M.right state.old) }
    requires exponent { exponent < 64 }
    ensures walk { let left = length (M.left state.old) in let right = length (M.right state.old) in
        GoesOn (allows M.left M.right (O.gives op.now)) (O.order op.now)
        (λ ls rs. C.counted steps.new + by_strides exponent
        (fewer shorter (length ls) (length rs)) (more shorter (length ls) (length rs))
        ≤ C.counted steps.old + by_strides exponent (fewer shorter left right)
        (more shorter left right)) state.old result state.new }
    ensures spent { IfOk result (λ go_on. go_on ≡ true
        → (M.left state.new ≡ []) ⊎ (M.right state.new ≡ [])) }
    ensures ready { IfOk result (λ go_on. go_on ≡ true → O.ready op.now state.new) }
    ensures counted { let left = length (M.left state.old) in
        let right = length (M.right state.old) in
        C.counted steps.new ≤ C.counted steps.old
        + by_strides exponent (fewer shorter left right) (more shorter left right) }
{
    'events: while !state.a_slice().is_empty() && !state.b_slice().is_empty() {
        if !place_first(state, op, shorter, exponent, steps)? {
            return Ok(false);
        }
    }
    Ok(true)
}

/// Searches for the first element of the shorter list, and hands over what is below it, and then
/// that element, alone or with its equal.
#[inline(always)]
fn place_first<M: MergeState, C: Count, O: MergeOperation<M, C>>(
    state: &mut M,
    op: &O,
    shorter: Side,
    exponent: u32,
    steps: &mut C,
) -> Result<bool, AllocError>
    requires ready { O.ready op.now state.old }
    requires ascend { BothAscend (O.order op.now) (M.left state.old) (M.right state.old) }
    requires exponent { exponent < 64 }
    requires some_left { 0 < length (M.left state.old) }
    requires some_right { 0 < length (M.right state.old) }
    ensures goes_on { let left = length (M.left state.old) in let right = length (M.right state.old)
        in GoesOn (allows M.left M.right (O.gives op.now)) (O.order op.now)
        (λ ls rs. (fewer shorter (length ls) (length rs) < fewer shorter left right)
        × (C.counted steps.new + more shorter (length ls) (length rs) / 2 ^ exponent
        ≤ C.counted steps.old + (exponent + 1) + more shorter left right / 2 ^ exponent))
        state.old result state.new }
    ensures ready { IfOk result (λ go_on. go_on ≡ true → O.ready op.now state.new) }
    ensures fewer { IfOk result (λ go_on. go_on ≡ true
        → fewer shorter (length (M.left state.new)) (length (M.right state.new))
        < fewer shorter (length (M.left state.old)) (length (M.right state.old))) }
    ensures paid { let before = more shorter (length (M.left state.old))
        (length (M.right state.old)) in
        IfOk result (λ go_on. go_on ≡ true → C.counted steps.new
        + more shorter (length (M.left state.new)) (length (M.right state.new)) / 2 ^ exponent
        ≤ C.counted steps.old + (exponent + 1) + before / 2 ^ exponent) }
    ensures counted { let before = more shorter (length (M.left state.old))
        (length (M.right state.old)) in
        C.counted steps.new ≤ C.counted steps.old + exponent + before / 2 ^ exponent }
{
    let (below, is_met) = find_first(state, op, shorter, exponent, steps);
    if !pass_side(state, op, opposite(shorter), below)? {
        return Ok(false);
    }
    if is_met {
        return meet(state, op);
    }
    pass_side(state, op, shorter, 1)
}

/// The other list.
#[inline(always)]
fn opposite(side: Side) -> Side
    ensures { result ≡ opposite side }
{
    match side {
        Side::Left => Side::Right,
        Side::Right => Side::Left,
    }
}

/// Hands over `n` elements of a list that are below the other one, where there are any.
#[inline(always)]
fn pass_side<M: MergeState, C: Count, O: MergeOperation<M, C>>(
    state: &mut M,
    op: &O,
    side: Side,
    n: usize,
) -> Result<bool, AllocError>
    requires ready { O.ready op.now state.old }
    requires ascend { BothAscend (O.order op.now) (M.left state.old) (M.right state.old) }
    requires front { IsFront (O.order op.now) side n (M.left state.old) (M.right state.old) }
    ensures goes_on { GoesOn (allows M.left M.right (O.gives op.now)) (O.order op.now) (λ _ _. ⊥)
        state.old result state.new }
    ensures takes { TakesSide M.left M.right (O.ready op.now) side n state.old result state.new }
{
    if n == 0 {
        return Ok(true);
    }
    match side {
        Side::Left => pass_left(state, op, n),
        Side::Right => pass_right(state, op, n),
    }
}

/// How many elements of the longer list are below the first one of the shorter list, and whether
/// the next one is equal to it.
#[inline(always)]
fn find_first<M: MergeState, C: Count, O: MergeOperation<M, C>>(
    state: &M,
    op: &O,
    shorter: Side,
    exponent: u32,
    steps: &mut C,
) -> (usize, bool)
    requires ascend { BothAscend (O.order op.now) (M.left state.now) (M.right state.now) }
    requires exponent { exponent < 64 }
    requires some_left { 0 < length (M.left state.now) }
    requires some_right { 0 < length (M.right state.now) }
    ensures place { IsFirstPlace (O.order op.now) shorter result.0 result.1 (M.left state.now)
        (M.right state.now) }
    ensures counted { let others = more shorter (length (M.left state.now))
        (length (M.right state.now)) in
        C.counted steps.new ≤ C.counted steps.old + exponent
        + min (others / 2 ^ exponent) (result.0 / 2 ^ exponent + 1) }
{
    match shorter {
        Side::Left => {
            let sought = LeftElement {
                op,
                element: &state.a_slice()[0],
            };
            place_found(search_near(state.b_slice(), &sought, exponent, steps))
        }
        Side::Right => {
            let sought = RightElement {
                op,
                element: &state.b_slice()[0],
            };
            place_found(search_near(state.a_slice(), &sought, exponent, steps))
        }
    }
}

/// The place that a search found, and whether an equal element is there.
#[inline(always)]
fn place_found(found: Result<usize, usize>) -> (usize, bool)
    ensures place { result.0 ≡ place_of found }
    ensures equal { result.1 ≡ is_ok found }
{
    match found {
        Ok(place) => (place, true),
        Err(place) => (place, false),
    }
}

/// A left element that is sought in the right list.
#[derive(Drop)]
struct LeftElement<'a, M: MergeState, O> {
    op: &'a O,
    element: &'a M::A,
}

impl<'a, M: MergeState, C: Count, O: MergeOperation<M, C>> Sought<M::B, C>
    for LeftElement<'a, M, O> {
    ghost side = { λ s y. O.order s.op.now (inr y) (inl s.element.now) };

    fn compare(&self, element: &M::B, steps: &mut C) -> Ordering {
        self.op.cmp(self.element, element, steps).reverse()
    }
}

/// A right element that is sought in the left list.
#[derive(Drop)]
struct RightElement<'a, M: MergeState, O> {
    op: &'a O,
    element: &'a M::B,
}

impl<'a, M: MergeState, C: Count, O: MergeOperation<M, C>> Sought<M::A, C>
    for RightElement<'a, M, O> {
    ghost side = { λ s x. O.order s.op.now (inl x) (inr s.element.now) };

    fn compare(&self, element: &M::A, steps: &mut C) -> Ordering {
        self.op.cmp(element, self.element, steps)
    }
}

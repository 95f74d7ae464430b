//! Set operations on two ascending lists that build a new one.
ghost use Rattle.std.specs.Prelude.{◌≡◌, ◌+◌, ◌≤◌, true, false, not, [], length, IfOk};
ghost use Rattle.vc_merge.specs.Ascending.{Ascends};
ghost use Rattle.vc_merge.specs.Count.{bound};
ghost use Rattle.vc_merge.specs.Clones.{ClonesAreEqual};
ghost use Rattle.vc_sets.specs.SetOf.{IsSetOf};
ghost use Rattle.vc_sets.specs.Algebra.{made_by};
ghost use Rattle.vc_sets.specs.Select.{keeps};

use crate::operations::{EitherOp, LeftOp};
use crate::vec_set::SetOp;
use smallvec::SmallVec;
use std::alloc::{AllocError, Allocator};
use std::default::MadeWith;
use vc_merge::choosing::ChoosingState;
use vc_merge::merge::{Count, merge};

/// The elements that only one list has and, if `SHARED`, the left one of each two equal ones.
fn combine_either<
    const SHARED: bool,
    T: Ord + Clone + MadeWith<A>,
    C: Count,
    const N: usize,
    A: Allocator + Copy,
>(alloc: A, a: &[T], b: &[T], steps: &mut C) -> Result<SmallVec<T, N, A>, AllocError>
    requires a_ascends { Ascends T.cmp a.now }
    requires b_ascends { Ascends T.cmp b.now }
    requires clones { ClonesAreEqual T.cmp T.is_clone }
    ensures combined { IfOk result
        (λ v. IsSetOf T.cmp T.is_clone T.is_clone (keeps true true SHARED) a.now b.now v.items) }
    ensures counted { C.counted steps.new
        ≤ C.counted steps.old + bound (length a.now) (length b.now) }
{
    let mut built = with_room_for_both(alloc, a.len(), b.len())?;
    let mut state = ChoosingState::new(a, b, &mut built);
    merge(&mut state, &EitherOp::<SHARED>, steps)?;
    Ok(built)
}

/// The elements that only the left list has or, if `SHARED`, the left one of each two equal ones.
/// There are at least as many as the left list has more than the right one: room for these is
/// reserved at the start.
fn combine_left<
    const SHARED: bool,
    T: Ord + Clone + MadeWith<A>,
    C: Count,
    const N: usize,
    A: Allocator + Copy,
>(alloc: A, a: &[T], b: &[T], steps: &mut C) -> Result<SmallVec<T, N, A>, AllocError>
    requires a_ascends { Ascends T.cmp a.now }
    requires b_ascends { Ascends T.cmp b.now }
    requires clones { ClonesAreEqual T.cmp T.is_clone }
    ensures combined { IfOk result (λ v.
        IsSetOf T.cmp T.is_clone T.is_clone (keeps (not SHARED) false SHARED) a.now b.now v.items) }
    ensures counted { C.counted steps.new
        ≤ C.counted steps.old + bound (length a.now) (length b.now) }
{
    let least = if SHARED {
        0
    } else {
        a.len().saturating_sub(b.len())
    };
    let mut built = SmallVec::new(alloc);
    built.reserve(least)?;
    let mut state = ChoosingState::new(a, b, &mut built);
    merge(&mut state, &LeftOp::<SHARED>, steps)?;
    Ok(built)
}

/// An empty list. Where either list has more than `N` elements, it has room for all of both.
/// Otherwise the result may fit inline: the list begins there, and grows if it has to.
#[inline(always)]
fn with_room_for_both<T: MadeWith<A> + Drop, const N: usize, A: Allocator + Copy>(
    alloc: A,
    left: usize,
    right: usize,
) -> Result<SmallVec<T, N, A>, AllocError>
    ensures { IfOk result (λ list. list.items ≡ []) }
{
    let may_fit = left.max(right) <= N;
    let room = if may_fit {
        0
    } else {
        left.saturating_add(right)
    };
    SmallVec::with_capacity(alloc, room)
}

/// The operation `op` of two ascending lists.
#[inline(always)]
pub fn combine<T: Ord + Clone + MadeWith<A>, C: Count, const N: usize, A: Allocator + Copy>(
    alloc: A,
    a: &[T],
    b: &[T],
    op: SetOp,
    steps: &mut C,
) -> Result<SmallVec<T, N, A>, AllocError>
    requires a_ascends { Ascends T.cmp a.now }
    requires b_ascends { Ascends T.cmp b.now }
    requires clones { ClonesAreEqual T.cmp T.is_clone }
    ensures combined { IfOk result
        (λ v. IsSetOf T.cmp T.is_clone T.is_clone (made_by op) a.now b.now v.items) }
    ensures counted { C.counted steps.new
        ≤ C.counted steps.old + bound (length a.now) (length b.now) }
{
    match op {
        SetOp::Union => combine_either::<true, _, _, _, _>(alloc, a, b, steps),
        SetOp::Intersection => combine_left::<true, _, _, _, _>(alloc, a, b, steps),
        SetOp::SymmetricDifference => combine_either::<false, _, _, _, _>(alloc, a, b, steps),
        SetOp::Difference => combine_left::<false, _, _, _, _>(alloc, a, b, steps),
    }
}

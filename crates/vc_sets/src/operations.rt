//! The merge operations of sets. Of two equal elements both kinds keep the left one, or none.
ghost use Rattle.std.specs.Prelude.{◌≡◌, ◌<◌, true, false, not, drop, length, IfOk};
ghost use Rattle.vc_merge.specs.Both.{Both};
ghost use Rattle.vc_merge.specs.Count.{ticked};
ghost use Rattle.vc_sets.specs.Select.{both_sides, both_sides-total};

use std::alloc::AllocError;
use std::cmp::Ordering;
use vc_merge::merge::{Count, MergeFromRight, MergeOperation, MergeStateMut};

/// Keeps the elements that only one side has and, if `SHARED`, the left one of each two equal
/// ones: the union if `SHARED`, and the symmetric difference otherwise.
pub struct EitherOp<const SHARED: bool>;

/// Keeps the left one of each two equal elements if `SHARED`, and the elements that only the
/// left side has otherwise: the intersection if `SHARED`, and the difference otherwise.
pub struct LeftOp<const SHARED: bool>;

impl<const SHARED: bool, T: Ord, M: MergeFromRight<A = T, B = T>, C: Count> MergeOperation<M, C>
    for EitherOp<SHARED> {
    ghost order = { λ _. both_sides T.cmp };

    ghost ready = { λ _ s. M.ready s };

    ghost gives = { λ _. record {
      from_a = λ s n answer t. M.advances_a s n true answer t;
      from_b = λ s n answer t. M.takes_b s n answer t;
      collision = λ s answer t.
          Both (λ p r q. M.advances_a p 1 SHARED r q) (λ p r q. M.skips_b p 1 r q) s answer t;
    } };

    ghost total = { λ _. both_sides-total T.cmp T.total };

    #[inline(always)]
    fn cmp(&self, a: &T, b: &T, steps: &mut C) -> Ordering {
        compare(a, b, steps)
    }

    #[inline(always)]
    fn from_a(&self, state: &mut M, n: usize) -> Result<bool, AllocError> {
        state.advance_a(n, true)
    }

    #[inline(always)]
    fn from_b(&self, state: &mut M, n: usize) -> Result<bool, AllocError> {
        state.take_b(n)
    }

    #[inline(always)]
    fn collision(&self, state: &mut M) -> Result<bool, AllocError> {
        pass_shared::<SHARED, _>(state)
    }

    #[inline(always)]
    fn event(&self, state: &mut M, heads: Ordering) -> Result<bool, AllocError> {
        state.take_lesser(heads, SHARED)
    }

    #[inline(always)]
    fn chooses(&self) -> bool {
        true
    }
}

impl<const SHARED: bool, T: Ord, M: MergeStateMut<A = T, B = T>, C: Count> MergeOperation<M, C>
    for LeftOp<SHARED> {
    ghost order = { λ _. both_sides T.cmp };

    ghost ready = { λ _ s. M.ready s };

    ghost gives = { λ _. record {
      from_a = λ s n answer t. M.advances_a s n (not SHARED) answer t;
      from_b = λ s n answer t. M.skips_b s n answer t;
      collision = λ s answer t.
          Both (λ p r q. M.advances_a p 1 SHARED r q) (λ p r q. M.skips_b p 1 r q) s answer t;
    } };

    ghost total = { λ _. both_sides-total T.cmp T.total };

    #[inline(always)]
    fn cmp(&self, a: &T, b: &T, steps: &mut C) -> Ordering {
        compare(a, b, steps)
    }

    #[inline(always)]
    fn from_a(&self, state: &mut M, n: usize) -> Result<bool, AllocError> {
        state.advance_a(n, !SHARED)
    }

    #[inline(always)]
    fn from_b(&self, state: &mut M, n: usize) -> Result<bool, AllocError> {
        state.skip_b(n)
    }

    #[inline(always)]
    fn collision(&self, state: &mut M) -> Result<bool, AllocError> {
        pass_shared::<SHARED, _>(state)
    }

    #[inline(always)]
    fn event(&self, state: &mut M, heads: Ordering) -> Result<bool, AllocError> {
        state.take_left(heads, !SHARED, SHARED)
    }

    #[inline(always)]
    fn chooses(&self) -> bool {
        M::chooses_left()
    }
}

/// Passes two equal elements, and keeps the left one if `SHARED`.
#[inline(always)]
fn pass_shared<const SHARED: bool, M: MergeStateMut>(state: &mut M) -> Result<bool, AllocError>
    requires ready { M.ready state.old }
    requires some_left { 0 < length (M.left state.old) }
    requires some_right { 0 < length (M.right state.old) }
    ensures gives { Both (λ p r q. M.advances_a p 1 SHARED r q) (λ p r q. M.skips_b p 1 r q)
        state.old result state.new }
    ensures takes { IfOk result (λ go_on. go_on ≡ true
        → (M.left state.new ≡ drop 1 (M.left state.old))
        × (M.right state.new ≡ drop 1 (M.right state.old)) × M.ready state.new) }
{
    if state.advance_a(1, SHARED)? {
        state.skip_b(1)
    } else {
        Ok(false)
    }
}

/// Compares two elements, and counts the comparison.
pub fn compare<T: Ord, C: Count>(a: &T, b: &T, steps: &mut C) -> Ordering
    ensures value { result ≡ T.cmp a.now b.now }
    ensures ticks { C.counted steps.new ≡ ticked (C.counted steps.old) }
{
    steps.tick();
    a.cmp(b)
}

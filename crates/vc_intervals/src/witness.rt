//! The walk over the boundaries of two sets that searches for a place, and stops at the first one
//! found.
ghost use Rattle.std.specs.Prelude.{◌≡◌, ◌+◌, ◌≤◌, true, false, length, MatchBool, ◌⊎◌};
ghost use Rattle.vc_merge.specs.Ascending.{Ascends};
ghost use Rattle.vc_merge.specs.Count.{bound};
ghost use Rattle.vc_sets.specs.Select.{both_sides, both_sides-total, keeps};
ghost use Rattle.vc_intervals.specs.Boundaries.{toggled};
ghost use Rattle.vc_intervals.specs.Events.{Seeks};

use crate::combine::{is_odd, says};
use std::alloc::AllocError;
use std::cmp::Ordering;
use vc_merge::merge::{Count, MergeOperation, MergeState, merge};

/// What is left of the boundaries of two sets, whether the place that the walk has reached is in
/// each of them, and whether the sought place was found.
#[derive(Drop)]
struct Search<'a, T> {
    a: &'a [T],
    b: &'a [T],
    in_a: bool,
    in_b: bool,
    found: bool,
}

impl<'a, T> MergeState for Search<'a, T> {
    type A = T;

    type B = T;

    ghost left = { λ s. s.a.now };

    ghost right = { λ s. s.b.now };

    fn a_slice(&self) -> &[T] {
        self.a
    }

    fn b_slice(&self) -> &[T] {
        self.b
    }
}

/// Stops at a place only in the left set if `LEFT`, only in the right one if `RIGHT`, and at one in
/// both if `BOTH`.
struct Finds<const LEFT: bool, const RIGHT: bool, const BOTH: bool>;

impl<'a, const LEFT: bool, const RIGHT: bool, const BOTH: bool, T: Ord, C: Count> MergeOperation<
    Search<'a, T>,
    C,
> for Finds<LEFT, RIGHT, BOTH> {
    ghost order = { λ _. both_sides T.cmp };

    ghost ready = { λ _ _. Unit {0} };

    ghost gives = { λ _. record {
      from_a = λ s n answer t. Seeks (keeps LEFT RIGHT BOTH) (λ u. u.in_a) (λ u. u.in_b)
          (λ u. u.found) true false n s answer t;
      from_b = λ s n answer t. Seeks (keeps LEFT RIGHT BOTH) (λ u. u.in_a) (λ u. u.in_b)
          (λ u. u.found) false true n s answer t;
      collision = λ s answer t. Seeks (keeps LEFT RIGHT BOTH) (λ u. u.in_a) (λ u. u.in_b)
          (λ u. u.found) true true 1 s answer t;
    } };

    ghost total = { λ _. both_sides-total T.cmp T.total };

    fn cmp(&self, a: &T, b: &T, steps: &mut C) -> Ordering {
        steps.tick();
        a.cmp(b)
    }

    // After the first boundary of a run, the answers alternate between what they were before it,
    // where nothing was found, and after it.
    fn from_a(&self, state: &mut Search<'a, T>, n: usize) -> Result<bool, AllocError> {
        state.a = &state.a[n..];
        state.found = says::<LEFT, RIGHT, BOTH>(!state.in_a, state.in_b);
        state.in_a ^= is_odd(n);
        Ok(!state.found)
    }

    fn from_b(&self, state: &mut Search<'a, T>, n: usize) -> Result<bool, AllocError> {
        state.b = &state.b[n..];
        state.found = says::<LEFT, RIGHT, BOTH>(state.in_a, !state.in_b);
        state.in_b ^= is_odd(n);
        Ok(!state.found)
    }

    fn collision(&self, state: &mut Search<'a, T>) -> Result<bool, AllocError> {
        state.a = &state.a[1..];
        state.b = &state.b[1..];
        state.in_a = !state.in_a;
        state.in_b = !state.in_b;
        state.found = says::<LEFT, RIGHT, BOTH>(state.in_a, state.in_b);
        Ok(!state.found)
    }
}

/// Whether some place is in the left set alone if `LEFT`, in the right one alone if `RIGHT`, in
/// both if `BOTH`: below all boundaries, as `in_a` and `in_b` say, or at one of them.
pub fn has_witness<const LEFT: bool, const RIGHT: bool, const BOTH: bool, T: Ord, C: Count>(
    a: &[T],
    in_a: bool,
    b: &[T],
    in_b: bool,
    steps: &mut C,
) -> bool
    requires a_ascends { Ascends T.cmp a.now }
    requires b_ascends { Ascends T.cmp b.now }
    ensures found { MatchBool result ((keeps LEFT RIGHT BOTH in_a in_b ≡ true)
        ⊎ ((x : T) × (keeps LEFT RIGHT BOTH (toggled T.cmp in_a a.now x)
        (toggled T.cmp in_b b.now x) ≡ true))) ((keeps LEFT RIGHT BOTH in_a in_b ≡ false)
        × ((x : T) → keeps LEFT RIGHT BOTH (toggled T.cmp in_a a.now x)
        (toggled T.cmp in_b b.now x) ≡ false)) }
    ensures counted { C.counted steps.new
        ≤ C.counted steps.old + bound (length a.now) (length b.now) }
{
    if says::<LEFT, RIGHT, BOTH>(in_a, in_b) {
        return true;
    }
    let mut search = Search {
        a,
        b,
        in_a,
        in_b,
        found: false,
    };
    let _never_refused = merge(&mut search, &Finds::<LEFT, RIGHT, BOTH>, steps);
    search.found
}

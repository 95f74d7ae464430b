//! A search for a witness: an element that is only on the left, only on the right, or on both
//! sides. It stops at the first one.
ghost use Rattle.std.specs.Prelude.{◌≡◌, ◌+◌, ◌≤◌, ◌||◌, ◌↔◌, Ok, true, false, not, length, IsTrue, MatchBool};
ghost use Rattle.vc_merge.specs.Ascending.{Ascends, member};
ghost use Rattle.vc_merge.specs.Count.{bound};
ghost use Rattle.vc_sets.specs.Select.{both_sides, both_sides-total, keeps};
ghost use Rattle.vc_sets.specs.Tests.{IsSubset};

use crate::operations::compare;
use std::alloc::AllocError;
use std::cmp::Ordering;
use vc_merge::merge::{Count, MergeOperation, MergeState, merge};

/// What is left of two slices, and whether a witness was found.
#[derive(Drop)]
struct Witnesses<'a, T> {
    a: &'a [T],
    b: &'a [T],
    found: bool,
}

impl<'a, T> MergeState for Witnesses<'a, T> {
    type A = T;

    type B = T;

    ghost left = { λ s. s.a.now };

    ghost right = { λ s. s.b.now };

    fn a_slice(&self) -> &[T] {
        self.a
    }

    fn b_slice(&self) -> &[T] {
        self.b
    }
}

/// Stops at an element of only the left if `LEFT`, of only the right if `RIGHT`, and at one on both
/// sides if `BOTH`.
struct WitnessOp<const LEFT: bool, const RIGHT: bool, const BOTH: bool>;

impl<'a, const LEFT: bool, const RIGHT: bool, const BOTH: bool, T: Ord, C: Count> MergeOperation<
    Witnesses<'a, T>,
    C,
> for WitnessOp<LEFT, RIGHT, BOTH> {
    ghost order = { λ _. both_sides T.cmp };

    ghost ready = { λ _ _. Unit {0} };

    ghost gives = { λ _. record {
      from_a = λ s n answer t. (answer ≡ Ok (not LEFT)) × (t.found ≡ (s.found || LEFT));
      from_b = λ s n answer t. (answer ≡ Ok (not RIGHT)) × (t.found ≡ (s.found || RIGHT));
      collision = λ s answer t. (answer ≡ Ok (not BOTH)) × (t.found ≡ (s.found || BOTH));
    } };

    ghost total = { λ _. both_sides-total T.cmp T.total };

    fn cmp(&self, a: &T, b: &T, steps: &mut C) -> Ordering {
        compare(a, b, steps)
    }

    fn from_a(&self, state: &mut Witnesses<'a, T>, n: usize) -> Result<bool, AllocError> {
        state.a = &state.a[n..];
        state.found |= LEFT;
        Ok(!LEFT)
    }

    fn from_b(&self, state: &mut Witnesses<'a, T>, n: usize) -> Result<bool, AllocError> {
        state.b = &state.b[n..];
        state.found |= RIGHT;
        Ok(!RIGHT)
    }

    fn collision(&self, state: &mut Witnesses<'a, T>) -> Result<bool, AllocError> {
        state.a = &state.a[1..];
        state.b = &state.b[1..];
        state.found |= BOTH;
        Ok(!BOTH)
    }
}

/// Whether two ascending lists have a witness: an element of only the left if `LEFT`, of only the
/// right if `RIGHT`, of both if `BOTH`.
pub fn has_witness<const LEFT: bool, const RIGHT: bool, const BOTH: bool, T: Ord, C: Count>(
    a: &[T],
    b: &[T],
    steps: &mut C,
) -> bool
    requires a_ascends { Ascends T.cmp a.now }
    requires b_ascends { Ascends T.cmp b.now }
    ensures found { MatchBool result
        ((x : T) × (keeps LEFT RIGHT BOTH (member T.cmp a.now x) (member T.cmp b.now x) ≡ true))
        ((x : T) → keeps LEFT RIGHT BOTH (member T.cmp a.now x) (member T.cmp b.now x) ≡ false) }
    ensures counted { C.counted steps.new
        ≤ C.counted steps.old + bound (length a.now) (length b.now) }
{
    let mut state = Witnesses { a, b, found: false };
    let _never_refused = merge(&mut state, &WitnessOp::<LEFT, RIGHT, BOTH>, steps);
    state.found
}

/// Whether each element of the left list is in the right one. A longer list is in no shorter one;
/// that takes no comparison.
pub fn is_within<T: Ord, C: Count>(a: &[T], b: &[T], steps: &mut C) -> bool
    requires a_ascends { Ascends T.cmp a.now }
    requires b_ascends { Ascends T.cmp b.now }
    ensures within { IsTrue result ↔ IsSubset T.cmp a.now b.now }
    ensures counted { C.counted steps.new
        ≤ C.counted steps.old + bound (length a.now) (length b.now) }
{
    a.len() <= b.len() && !has_witness::<true, false, false, _, _>(a, b, steps)
}

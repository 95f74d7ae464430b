//! The walk over the boundaries of two sets that builds the boundaries of the result.
ghost use Rattle.std.specs.Prelude.{◌≡◌, ◌+◌, ◌<◌, ◌≤◌, true, false, length, take, drop, IfOk, OnOk, IsTrue};
ghost use Rattle.smallvec.specs.Iter.{SmallVecFitsInMemory};
ghost use Rattle.smallvec.specs.SmallVec.{HasRoomFor};
ghost use Rattle.vc_merge.specs.Ascending.{Ascends};
ghost use Rattle.vc_merge.specs.Building.{Extends};
ghost use Rattle.vc_merge.specs.Chain.{gives_at};
ghost use Rattle.vc_merge.specs.Clones.{ClonesAreEqual};
ghost use Rattle.vc_merge.specs.Count.{bound, ticked};
ghost use Rattle.vc_merge.specs.Takes.{TakesLesser};
ghost use Rattle.vc_sets.specs.Select.{both_sides, both_sides-total, keeps};
ghost use Rattle.vc_intervals.specs.Boundaries.{intervals};
ghost use Rattle.vc_intervals.specs.IntervalsOf.{IsIntervalsOf};
ghost use Rattle.vc_intervals.specs.Events.{odd, passes};
ghost use Rattle.vc_intervals.specs.WalkViews.{HasPlaces, built_boundaries, is_in_a, is_in_b, left_boundaries, list_name, right_boundaries};

use smallvec::SmallVec;
use std::alloc::{AllocError, Allocator};
use std::cmp::Ordering;
use std::default::MadeWith;
use vc_merge::choosing::{behind, lesser, part, passed};
use vc_merge::merge::{Count, MergeOperation, MergeState, merge};
use vc_merge::states::append_clones;

/// The boundaries of two sets with the positions of the next ones, whether the place that the walk
/// has reached is in each of the sets, and the boundaries that were kept.
///
/// The slices are kept whole: a position moves by a number, without a branch.
#[derive(Drop)]
struct Walk<'a, T, const N: usize, A: Allocator> {
    a: &'a [T],
    b: &'a [T],
    left: usize,
    right: usize,
    in_a: bool,
    in_b: bool,
    built: &'a mut SmallVec<T, N, A>,
}

impl<'a, T, const N: usize, A: Allocator> MergeState for Walk<'a, T, N, A> {
    ghost use Rattle.vc_intervals.specs.WalkViews.{left_boundaries, right_boundaries};

    type A = T;

    type B = T;

    ghost left = { left_boundaries };

    ghost right = { right_boundaries };

    #[inline(always)]
    fn a_slice(&self) -> &[T] {
        match self.a.get(self.left..) {
            Some(rest) => rest,
            None => &[],
        }
    }

    #[inline(always)]
    fn b_slice(&self) -> &[T] {
        match self.b.get(self.right..) {
            Some(rest) => rest,
            None => &[],
        }
    }
}

impl<'a, T, const N: usize, A: Allocator> Walk<'a, T, N, A> {
    ghost use Rattle.vc_intervals.specs.WalkViews.{HasPlaces, left_boundaries, right_boundaries};

    /// The number of boundaries that are left.
    #[inline(always)]
    fn most(&self) -> usize
        requires { HasPlaces self.now }
        ensures left { length (left_boundaries self.now) ≤ result }
        ensures right { length (right_boundaries self.now) ≤ result }
    {
        (self.a.len() - self.left).saturating_add(self.b.len() - self.right)
    }
}

/// Keeps the boundaries of what is in the left set alone if `LEFT`, in the right one alone if
/// `RIGHT`, and in both if `BOTH`.
struct BoundariesOf<const LEFT: bool, const RIGHT: bool, const BOTH: bool>;

/// Whether a place is in the result, by whether it is in each of the two sets.
#[inline(always)]
pub fn says<const LEFT: bool, const RIGHT: bool, const BOTH: bool>(in_a: bool, in_b: bool) -> bool
    ensures { result ≡ keeps LEFT RIGHT BOTH in_a in_b }
{
    match (in_a, in_b) {
        (true, true) => BOTH,
        (true, false) => LEFT,
        (false, true) => RIGHT,
        (false, false) => false,
    }
}

/// Whether an answer changes over this number of boundaries.
#[inline(always)]
pub fn is_odd(n: usize) -> bool
    ensures { result ≡ odd n }
{
    n % 2 == 1
}

/// Makes room for `n` more boundaries: where there is none, it allocates once, for as many as may
/// still come.
#[inline(always)]
fn make_room<T: MadeWith<A> + Drop, const N: usize, A: Allocator + Copy>(
    built: &mut SmallVec<T, N, A>,
    n: usize,
    most: usize,
) -> Result<(), AllocError>
    requires { n ≤ most }
    ensures items { built.new.items ≡ built.old.items }
    ensures room { OnOk result (HasRoomFor built.new n) }
{
    if built.capacity() - built.len() < n {
        built.reserve_exact(most)?;
    }
    Ok(())
}

/// Appends clones of `boundaries`. At most `most` boundaries may still come, these included: where
/// there is no room, it allocates once, for that many.
#[inline]
fn append<T: Clone + MadeWith<A>, const N: usize, A: Allocator + Copy>(
    built: &mut SmallVec<T, N, A>,
    boundaries: &[T],
    most: usize,
) -> Result<(), AllocError>
    requires { length boundaries.now ≤ most }
    ensures { OnOk result (Extends T.is_clone boundaries.now built.old.items built.new.items) }
{
    make_room(built, boundaries.len(), most)?;
    append_clones(built, boundaries)
}

/// Passes the first boundaries of both sets, which compare as `heads`: the lesser one, or both. It
/// keeps a clone of the lesser one, or of the left one of two equal ones, if the answer changes
/// there. That is the only branch.
#[inline(always)]
fn pass_heads<
    'a,
    const LEFT: bool,
    const RIGHT: bool,
    const BOTH: bool,
    T: Clone + MadeWith<A>,
    const N: usize,
    A: Allocator + Copy,
>(walk: &mut Walk<'a, T, N, A>, heads: Ordering) -> Result<bool, AllocError>
    requires ready { SmallVecFitsInMemory T.row N.row A.row A.Allocator × HasPlaces walk.old }
    requires some_left { 0 < length (left_boundaries walk.old) }
    requires some_right { 0 < length (right_boundaries walk.old) }
    ensures gives { gives_at (passes T.is_clone (keeps LEFT RIGHT BOTH) is_in_a is_in_b
        built_boundaries list_name left_boundaries right_boundaries)
        heads walk.old result walk.new }
    ensures takes { TakesLesser left_boundaries right_boundaries
        (λ s. SmallVecFitsInMemory T.row N.row A.row A.Allocator × HasPlaces s)
        heads walk.old result walk.new }
{
    let in_a = walk.in_a ^ heads.is_le();
    let in_b = walk.in_b ^ heads.is_ge();
    if says::<LEFT, RIGHT, BOTH>(walk.in_a, walk.in_b) != says::<LEFT, RIGHT, BOTH>(in_a, in_b) {
        let boundary = lesser(heads, &walk.a[walk.left], &walk.b[walk.right]).clone()?;
        let most = walk.most();
        make_room(walk.built, 1, most)?;
        walk.built.push_reserved(boundary);
    }
    walk.in_a = in_a;
    walk.in_b = in_b;
    walk.left = passed(walk.a, walk.left, heads.is_le());
    walk.right = passed(walk.b, walk.right, heads.is_ge());
    Ok(true)
}

impl<
    'a,
    const LEFT: bool,
    const RIGHT: bool,
    const BOTH: bool,
    T: Ord + Clone + MadeWith<A>,
    C: Count,
    const N: usize,
    A: Allocator + Copy,
> MergeOperation<Walk<'a, T, N, A>, C> for BoundariesOf<LEFT, RIGHT, BOTH> {
    ghost order = { λ _. both_sides T.cmp };

    ghost ready = { λ _ s. SmallVecFitsInMemory T.row N.row A.row A.Allocator × HasPlaces s };

    ghost gives = { λ _. passes T.is_clone (keeps LEFT RIGHT BOTH) is_in_a is_in_b built_boundaries
        list_name left_boundaries right_boundaries };

    ghost total = { λ _. both_sides-total T.cmp T.total };

    #[inline(always)]
    fn cmp(&self, a: &T, b: &T, steps: &mut C) -> Ordering {
        steps.tick();
        a.cmp(b)
    }

    #[inline(always)]
    fn from_a(&self, state: &mut Walk<'a, T, N, A>, n: usize) -> Result<bool, AllocError> {
        let here = says::<LEFT, RIGHT, BOTH>(state.in_a, state.in_b);
        if here != says::<LEFT, RIGHT, BOTH>(!state.in_a, state.in_b) {
            let most = state.most();
            append(state.built, part(state.a, state.left, n), most)?;
        }
        state.left = behind(state.a, state.left, n);
        state.in_a ^= is_odd(n);
        Ok(true)
    }

    #[inline(always)]
    fn from_b(&self, state: &mut Walk<'a, T, N, A>, n: usize) -> Result<bool, AllocError> {
        let here = says::<LEFT, RIGHT, BOTH>(state.in_a, state.in_b);
        if here != says::<LEFT, RIGHT, BOTH>(state.in_a, !state.in_b) {
            let most = state.most();
            append(state.built, part(state.b, state.right, n), most)?;
        }
        state.right = behind(state.b, state.right, n);
        state.in_b ^= is_odd(n);
        Ok(true)
    }

    #[inline(always)]
    fn collision(&self, state: &mut Walk<'a, T, N, A>) -> Result<bool, AllocError> {
        pass_heads::<LEFT, RIGHT, BOTH, _, _, _>(state, Ordering::Equal)
    }

    #[inline(always)]
    fn chooses(&self) -> bool {
        true
    }

    #[inline(always)]
    fn event(&self, state: &mut Walk<'a, T, N, A>, heads: Ordering) -> Result<bool, AllocError> {
        pass_heads::<LEFT, RIGHT, BOTH, _, _, _>(state, heads)
    }
}

/// The boundaries of what is in the left set alone if `LEFT`, in the right one alone if `RIGHT`,
/// and in both if `BOTH`, as clones. `in_a` and `in_b` say what lies below all boundaries.
///
/// It allocates at most once, and not where the result fits inline.
pub fn combine<
    const LEFT: bool,
    const RIGHT: bool,
    const BOTH: bool,
    T: Ord + Clone + MadeWith<A>,
    C: Count,
    const N: usize,
    A: Allocator + Copy,
>(
    alloc: A,
    a: &[T],
    in_a: bool,
    b: &[T],
    in_b: bool,
    steps: &mut C,
) -> Result<SmallVec<T, N, A>, AllocError>
    requires a_ascends { Ascends T.cmp a.now }
    requires b_ascends { Ascends T.cmp b.now }
    requires clones { ClonesAreEqual T.cmp T.is_clone }
    ensures combined { IfOk result (λ v.
        IsIntervalsOf T.cmp T.is_clone (keeps LEFT RIGHT BOTH) (intervals a.now in_a)
        (intervals b.now in_b) (intervals v.items (keeps LEFT RIGHT BOTH in_a in_b))) }
    ensures counted { C.counted steps.new
        ≤ C.counted steps.old + bound (length a.now) (length b.now) }
{
    let mut built = SmallVec::new(alloc);
    let mut walk = Walk {
        a,
        b,
        left: 0,
        right: 0,
        in_a,
        in_b,
        built: &mut built,
    };
    merge(&mut walk, &BoundariesOf::<LEFT, RIGHT, BOTH>, steps)?;
    Ok(built)
}

//! The operations of interval sets, which build a new set, and the tests of two sets.
ghost use Rattle.std.specs.Prelude.{◌||◌, ◌&&◌, ◌↔◌, IfOk, IsTrue};
ghost use Rattle.vc_merge.specs.Clones.{ClonesAreEqual};
ghost use Rattle.vc_sets.specs.Select.{keeps};
ghost use Rattle.vc_sets.specs.SetOf.{and_not, exactly_one};
ghost use Rattle.vc_intervals.specs.IntervalsOf.{IsIntervalsOf, IsIntervalSubset, IsIntervalDisjoint};

use super::IntervalSet;
use crate::combine::{combine, says};
use crate::witness::has_witness;
use std::alloc::{AllocError, Allocator};
use std::default::MadeWith;
use std::ops::{BitAnd, BitOr, BitXor, Sub};
use vc_merge::merge::Uncounted;

/// What is only in the left set if `LEFT`, only in the right one if `RIGHT`, and in both if `BOTH`.
#[inline(always)]
fn combine_sets<
    const LEFT: bool,
    const RIGHT: bool,
    const BOTH: bool,
    T: Ord + Clone + MadeWith<A>,
    const N: usize,
    const M: usize,
    A: Allocator + Copy,
>(a: &IntervalSet<T, N, A>, b: &IntervalSet<T, M, A>) -> Result<IntervalSet<T, N, A>, AllocError>
    requires clones { ClonesAreEqual T.cmp T.is_clone }
    ensures { IfOk result (IsIntervalsOf T.cmp T.is_clone (keeps LEFT RIGHT BOTH) a.now b.now) }
{
    let alloc = *a.boundaries.allocator();
    let (left, right) = (a.boundaries.as_slice(), b.boundaries.as_slice());
    let boundaries = combine::<LEFT, RIGHT, BOTH, _, _, _, _>(
        alloc,
        left,
        a.below,
        right,
        b.below,
        &mut Uncounted,
    )?;
    Ok(IntervalSet {
        boundaries,
        below: says::<LEFT, RIGHT, BOTH>(a.below, b.below),
    })
}

impl<T: Ord + Clone + MadeWith<A>, const N: usize, A: Allocator + Copy> IntervalSet<T, N, A> {
    /// What is in either set. Its boundaries are clones, with the allocator of this set; of two
    /// equal boundaries that of this set is taken.
    ///
    /// Makes at most as many comparisons as both sets have boundaries. It allocates at most once,
    /// for as many boundaries as may still come, and not where the result has `N` or fewer. On
    /// refusal of memory or of a clone it drops what it built.
    pub fn union<const M: usize>(&self, that: &IntervalSet<T, M, A>) -> Result<Self, AllocError>
        requires clones { ClonesAreEqual T.cmp T.is_clone }
        ensures { IfOk result (IsIntervalsOf T.cmp T.is_clone ◌||◌ self.now that.now) }
    {
        combine_sets::<true, true, true, _, _, _, _>(self, that)
    }

    /// What is in both sets. Its boundaries, comparisons and memory are as those of
    /// [`union`](IntervalSet::union).
    pub fn intersection<const M: usize>(
        &self,
        that: &IntervalSet<T, M, A>,
    ) -> Result<Self, AllocError>
        requires clones { ClonesAreEqual T.cmp T.is_clone }
        ensures { IfOk result (IsIntervalsOf T.cmp T.is_clone ◌&&◌ self.now that.now) }
    {
        combine_sets::<false, false, true, _, _, _, _>(self, that)
    }

    /// What is in exactly one of the sets. Its boundaries, comparisons and memory are as those of
    /// [`union`](IntervalSet::union).
    pub fn symmetric_difference<const M: usize>(
        &self,
        that: &IntervalSet<T, M, A>,
    ) -> Result<Self, AllocError>
        requires clones { ClonesAreEqual T.cmp T.is_clone }
        ensures { IfOk result (IsIntervalsOf T.cmp T.is_clone exactly_one self.now that.now) }
    {
        combine_sets::<true, true, false, _, _, _, _>(self, that)
    }

    /// What is in this set and not in the other. Its boundaries, comparisons and memory are as
    /// those of [`union`](IntervalSet::union).
    pub fn difference<const M: usize>(
        &self,
        that: &IntervalSet<T, M, A>,
    ) -> Result<Self, AllocError>
        requires clones { ClonesAreEqual T.cmp T.is_clone }
        ensures { IfOk result (IsIntervalsOf T.cmp T.is_clone and_not self.now that.now) }
    {
        combine_sets::<true, false, false, _, _, _, _>(self, that)
    }
}

impl<T: Ord, const N: usize, A: Allocator> IntervalSet<T, N, A> {
    /// Whether what is in this set is in the other, at each value and below all boundaries. It
    /// stops at the first boundary that decides, and takes no memory.
    pub fn is_subset<const M: usize>(&self, that: &IntervalSet<T, M, A>) -> bool
        ensures { IsTrue result ↔ IsIntervalSubset T.cmp self.now that.now }
    {
        let (left, right) = (self.boundaries.as_slice(), that.boundaries.as_slice());
        !has_witness::<true, false, false, _, _>(
            left,
            self.below,
            right,
            that.below,
            &mut Uncounted,
        )
    }

    /// Whether what is in the other set is in this one, at each value and below all boundaries. It
    /// stops at the first boundary that decides, and takes no memory.
    pub fn is_superset<const M: usize>(&self, that: &IntervalSet<T, M, A>) -> bool
        ensures { IsTrue result ↔ IsIntervalSubset T.cmp that.now self.now }
    {
        that.is_subset(self)
    }

    /// Whether nothing is in both sets, at each value and below all boundaries. It stops at the
    /// first boundary that decides, and takes no memory.
    pub fn is_disjoint<const M: usize>(&self, that: &IntervalSet<T, M, A>) -> bool
        ensures { IsTrue result ↔ IsIntervalDisjoint T.cmp self.now that.now }
    {
        let (left, right) = (self.boundaries.as_slice(), that.boundaries.as_slice());
        !has_witness::<false, false, true, _, _>(
            left,
            self.below,
            right,
            that.below,
            &mut Uncounted,
        )
    }
}

/// `&a | &b` is what is in either, as by [`union`](IntervalSet::union).
impl<
    'a,
    'b,
    T: Ord + Clone + MadeWith<A>,
    const N: usize,
    const M: usize,
    A: Allocator + Copy,
> BitOr<&'b IntervalSet<T, M, A>> for &'a IntervalSet<T, N, A> {
    type Output = Result<IntervalSet<T, N, A>, AllocError>;

    ghost can_bitor = { λ _ _. ClonesAreEqual T.cmp T.is_clone };

    ghost bitor_gives = { λ a b r. IfOk r (IsIntervalsOf T.cmp T.is_clone ◌||◌ a.now b.now) };

    fn bitor(self, that: &'b IntervalSet<T, M, A>) -> Result<IntervalSet<T, N, A>, AllocError> {
        self.union(that)
    }
}

/// `&a & &b` is what is in both, as by [`intersection`](IntervalSet::intersection).
impl<
    'a,
    'b,
    T: Ord + Clone + MadeWith<A>,
    const N: usize,
    const M: usize,
    A: Allocator + Copy,
> BitAnd<&'b IntervalSet<T, M, A>> for &'a IntervalSet<T, N, A> {
    type Output = Result<IntervalSet<T, N, A>, AllocError>;

    ghost can_bitand = { λ _ _. ClonesAreEqual T.cmp T.is_clone };

    ghost bitand_gives = { λ a b r. IfOk r (IsIntervalsOf T.cmp T.is_clone ◌&&◌ a.now b.now) };

    fn bitand(self, that: &'b IntervalSet<T, M, A>) -> Result<IntervalSet<T, N, A>, AllocError> {
        self.intersection(that)
    }
}

/// `&a ^ &b` is what is in exactly one, as by
/// [`symmetric_difference`](IntervalSet::symmetric_difference).
impl<
    'a,
    'b,
    T: Ord + Clone + MadeWith<A>,
    const N: usize,
    const M: usize,
    A: Allocator + Copy,
> BitXor<&'b IntervalSet<T, M, A>> for &'a IntervalSet<T, N, A> {
    type Output = Result<IntervalSet<T, N, A>, AllocError>;

    ghost can_bitxor = { λ _ _. ClonesAreEqual T.cmp T.is_clone };

    ghost bitxor_gives = { λ a b r.
        IfOk r (IsIntervalsOf T.cmp T.is_clone exactly_one a.now b.now) };

    fn bitxor(self, that: &'b IntervalSet<T, M, A>) -> Result<IntervalSet<T, N, A>, AllocError> {
        self.symmetric_difference(that)
    }
}

/// `&a - &b` is what is in `a` and not in `b`, as by [`difference`](IntervalSet::difference).
impl<'a, 'b, T: Ord + Clone + MadeWith<A>, const N: usize, const M: usize, A: Allocator + Copy> Sub<
    &'b IntervalSet<T, M, A>,
> for &'a IntervalSet<T, N, A> {
    type Output = Result<IntervalSet<T, N, A>, AllocError>;

    ghost can_sub = { λ _ _. ClonesAreEqual T.cmp T.is_clone };

    ghost sub_gives = { λ a b r. IfOk r (IsIntervalsOf T.cmp T.is_clone and_not a.now b.now) };

    fn sub(self, that: &'b IntervalSet<T, M, A>) -> Result<IntervalSet<T, N, A>, AllocError> {
        self.difference(that)
    }
}

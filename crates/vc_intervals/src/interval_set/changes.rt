//! Changes of an interval set in place: each builds the whole new set before the old one is
//! dropped.
ghost use Rattle.std.specs.Prelude.{◌≡◌, ◌||◌, ◌&&◌, not, OnErr, OnOk};
ghost use Rattle.vc_merge.specs.Clones.{ClonesAreEqual};
ghost use Rattle.vc_sets.specs.SetOf.{and_not, exactly_one};
ghost use Rattle.vc_intervals.specs.IntervalsOf.{IsIntervalsOf};
ghost use Rattle.vc_intervals.specs.Ranges.{in_range};
ghost use Rattle.vc_intervals.specs.Boundaries.{holds};

use super::IntervalSet;
use std::alloc::{AllocError, Allocator};
use std::default::MadeWith;
use std::ops::Range;

impl<T: Ord + Clone + MadeWith<A>, const N: usize, A: Allocator + Copy> IntervalSet<T, N, A> {
    /// Adds the values in the range: none, where it is empty. Its ends are moved.
    ///
    /// It is a [`union`](IntervalSet::union) with the range, and makes at most two more comparisons
    /// than the set has boundaries. It takes memory for a new list where that has more than `N`
    /// boundaries, and for the range where `N` is less than 2. On refusal the set is unchanged.
    ///
    /// ```
    /// let mut open = IntervalSet::<u16, 4>::between(alloc, 9, 12)?;
    /// open.insert(13..17)?;
    /// open.remove(10..11)?;
    /// assert!(rt; open.boundaries() == [9, 10, 11, 12, 13, 17].as_slice());
    /// ```
    pub fn insert(&mut self, range: Range<T>) -> Result<(), AllocError>
        requires clones { ClonesAreEqual T.cmp T.is_clone }
        ensures holds { OnOk result ((x : T)
            → holds T.cmp self.new x ≡ (holds T.cmp self.old x || in_range T.cmp range x)) }
        ensures below { self.new.below ≡ self.old.below }
        ensures err { OnErr result (self.new ≡ self.old) }
    {
        let Range { start, end } = range;
        let added = Self::between(*self.boundaries.allocator(), start, end)?;
        self.union_with(&added)
    }

    /// Removes the values in the range. Its ends are moved. Compares and takes memory as
    /// [`insert`](IntervalSet::insert) does; on refusal the set is unchanged.
    pub fn remove(&mut self, range: Range<T>) -> Result<(), AllocError>
        requires clones { ClonesAreEqual T.cmp T.is_clone }
        ensures holds { OnOk result ((x : T)
            → holds T.cmp self.new x ≡ (holds T.cmp self.old x && not (in_range T.cmp range x))) }
        ensures below { self.new.below ≡ self.old.below }
        ensures err { OnErr result (self.new ≡ self.old) }
    {
        let Range { start, end } = range;
        let gone = Self::between(*self.boundaries.allocator(), start, end)?;
        self.difference_with(&gone)
    }

    /// Adds what is in the other set, as by [`union`](IntervalSet::union), whose result replaces
    /// this set. On refusal this set is unchanged.
    pub fn union_with<const M: usize>(
        &mut self,
        that: &IntervalSet<T, M, A>,
    ) -> Result<(), AllocError>
        requires clones { ClonesAreEqual T.cmp T.is_clone }
        ensures ok { OnOk result
            (IsIntervalsOf T.cmp T.is_clone ◌||◌ self.old that.now self.new) }
        ensures err { OnErr result (self.new ≡ self.old) }
    {
        *self = self.union(that)?;
        Ok(())
    }

    /// Keeps what is in the other set too, as by [`intersection`](IntervalSet::intersection), whose
    /// result replaces this set. On refusal this set is unchanged.
    pub fn intersection_with<const M: usize>(
        &mut self,
        that: &IntervalSet<T, M, A>,
    ) -> Result<(), AllocError>
        requires clones { ClonesAreEqual T.cmp T.is_clone }
        ensures ok { OnOk result
            (IsIntervalsOf T.cmp T.is_clone ◌&&◌ self.old that.now self.new) }
        ensures err { OnErr result (self.new ≡ self.old) }
    {
        *self = self.intersection(that)?;
        Ok(())
    }

    /// Keeps what is in exactly one of the sets, as by
    /// [`symmetric_difference`](IntervalSet::symmetric_difference), whose result replaces this set.
    /// On refusal this set is unchanged.
    pub fn symmetric_difference_with<const M: usize>(
        &mut self,
        that: &IntervalSet<T, M, A>,
    ) -> Result<(), AllocError>
        requires clones { ClonesAreEqual T.cmp T.is_clone }
        ensures ok { OnOk result
            (IsIntervalsOf T.cmp T.is_clone exactly_one self.old that.now self.new) }
        ensures err { OnErr result (self.new ≡ self.old) }
    {
        *self = self.symmetric_difference(that)?;
        Ok(())
    }

    /// Removes what is in the other set, as by [`difference`](IntervalSet::difference), whose
    /// result replaces this set. On refusal this set is unchanged.
    pub fn difference_with<const M: usize>(
        &mut self,
        that: &IntervalSet<T, M, A>,
    ) -> Result<(), AllocError>
        requires clones { ClonesAreEqual T.cmp T.is_clone }
        ensures ok { OnOk result
            (IsIntervalsOf T.cmp T.is_clone and_not self.old that.now self.new) }
        ensures err { OnErr result (self.new ≡ self.old) }
    {
        *self = self.difference(that)?;
        Ok(())
    }
}

//! What a set has at a value and around it, each by one search.
ghost use Rattle.std.specs.Prelude.{◌≡◌, ◌↔◌, ◌++◌, true, false, not, IfSome, IsTrue, length};
ghost use Rattle.std.specs.BTreeMap.Range.{range_contains};
ghost use Rattle.std.specs.List.{AllByRecursion, find};
ghost use Rattle.std.specs.Option.{is_some, option_copied, option_map};
ghost use Rattle.std.specs.Ordering.{is_le, is_lt};
ghost use Rattle.std.specs.declared.cmp.Ordering.TheVariants.{Less};
ghost use Rattle.vc_merge.specs.Ascending.{Ascends};
ghost use Rattle.vc_sets.specs.SetOf.{exactly_one};
ghost use Rattle.vc_intervals.specs.Events.{odd};
ghost use Rattle.vc_intervals.specs.Listed.{listed, shown_ends};
ghost use Rattle.vc_intervals.specs.Ranges.{in_range};
ghost use Rattle.vc_intervals.specs.Boundaries.{holds};

use super::IntervalSet;
use std::alloc::Allocator;
use std::ops::{Bound, Range};

impl<T: Ord, const N: usize, A: Allocator> IntervalSet<T, N, A> {
    /// The boundaries at or below a value, and those above it.
    fn part(&self, value: &T) -> (&[T], &[T])
        ensures whole { result.0.now ++ result.1.now ≡ self.now.boundaries }
        ensures passed { AllByRecursion (λ t. is_le (T.cmp t value.now) ≡ true) result.0.now }
        ensures ahead { AllByRecursion (λ t. is_le (T.cmp t value.now) ≡ false) result.1.now }
        ensures ascends { Ascends T.cmp result.1.now }
        ensures holds { exactly_one (odd (length result.0.now)) self.now.below
            ≡ holds T.cmp self.now value.now }
    {
        self.boundaries().split_at(self.reached(value))
    }

    /// The interval that has the value, as [`iter`](IntervalSet::iter) lists it, or none where the
    /// value is not in the set. Compares as often as [`contains`](IntervalSet::contains), and takes
    /// no memory.
    ///
    /// ```
    /// let open = IntervalSet::<u16, 4>::between(alloc, 9, 17)?;
    /// assert!(rt; open.interval_at(&12) == Some((Bound::Included(&9), Bound::Excluded(&17))));
    /// assert!(rt; open.interval_at(&17) == None);
    /// ```
    pub fn interval_at(&self, value: &T) -> Option<(Bound<&T>, Bound<&T>)>
        ensures interval { option_map shown_ends result
            ≡ find (λ ends. range_contains T.cmp ends.0 ends.1 value.now) (listed self.now) }
        ensures holds { is_some result ≡ holds T.cmp self.now value.now }
    {
        let (passed, ahead) = self.part(value);
        if !self.has_behind(passed.len()) {
            return None;
        }
        let start = match passed.last() {
            Some(start) => Bound::Included(start),
            None => Bound::Unbounded,
        };
        let end = match ahead.first() {
            Some(end) => Bound::Excluded(end),
            None => Bound::Unbounded,
        };
        Some((start, end))
    }

    /// The least boundary above the value, or none where there is none: up to it, the set has all
    /// values from `value` on, or none of them. Compares as often as
    /// [`contains`](IntervalSet::contains), and takes no memory.
    ///
    /// ```
    /// let open = IntervalSet::<u16, 4>::between(alloc, 9, 17)?;
    /// assert!(rt; open.next_boundary(&7) == Some(&9));
    /// assert!(rt; open.next_boundary(&9) == Some(&17));
    /// assert!(rt; open.next_boundary(&17) == None);
    /// ```
    pub fn next_boundary(&self, value: &T) -> Option<&T>
        ensures boundary { option_copied result
            ≡ find (λ t. is_lt (T.cmp value.now t)) self.now.boundaries }
        ensures until { (x : T) → is_le (T.cmp value.now x) ≡ true
            → IfSome result (λ t. T.cmp x t.now ≡ Less)
            → holds T.cmp self.now x ≡ holds T.cmp self.now value.now }
        ensures boundaries { IfSome result
            (λ t. holds T.cmp self.now t.now ≡ not (holds T.cmp self.now value.now)) }
    {
        let (_, ahead) = self.part(value);
        ahead.first()
    }

    /// Whether some value of the range is in the set. Searches the boundaries once, makes at most
    /// two more comparisons, and takes no memory.
    ///
    /// ```
    /// let open = IntervalSet::<u16, 4>::between(alloc, 9, 17)?;
    /// assert!(rt; open.overlaps(&(8..10)) && !open.overlaps(&(17..20)));
    /// ```
    pub fn overlaps(&self, range: &Range<T>) -> bool
        ensures { IsTrue result ↔ ((x : T)
            × IsTrue (in_range T.cmp range.now x) × IsTrue (holds T.cmp self.now x)) }
    {
        if !range.start.cmp(&range.end).is_lt() {
            return false;
        }
        let (passed, ahead) = self.part(&range.start);
        if self.has_behind(passed.len()) {
            return true;
        }
        match ahead.first() {
            Some(next) => next.cmp(&range.end).is_lt(),
            None => false,
        }
    }
}

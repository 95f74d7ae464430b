//! The intervals of a set, one after the other.
ghost use Rattle.std.specs.Prelude.{◌≡◌, length};
ghost use Rattle.std.specs.BTreeMap.Range.{range_contains};
ghost use Rattle.std.specs.Iterator.{at_most};
ghost use Rattle.std.specs.List.{list_any};
ghost use Rattle.std.specs.Map.Iter.{ShowsInOrder, ShowsInReverse, TakesFirst, TakesLast};
ghost use Rattle.vc_intervals.specs.Boundaries.{holds};
ghost use Rattle.vc_intervals.specs.Listed.{listed, shown_ends};

use super::IntervalSet;
use crate::combine::is_odd;
use std::alloc::Allocator;
use std::marker::Model;
use std::mem;
use std::ops::Bound;

/// The intervals of a set in ascending order, each by its two ends, from the front and from the
/// back. Contracts see the list of the intervals that are left.
///
/// A step takes no memory.
#[derive(Drop)]
pub struct IntervalSetIter<'a, T> {
    boundaries: &'a [T],
    has_begun: bool,
}

impl<'a, T> Model for IntervalSetIter<'a, T> {
    ghost use Rattle.std.specs.Prelude.{List};
    ghost use Rattle.std.specs.declared.ops.Bound.{Bound};
    ghost use Rattle.vc_intervals.specs.Listed.{begun_start, listed_from};

    ghost Value = { List (Bound T × Bound T) };

    ghost view = { λ s. listed_from (begun_start s.has_begun) s.boundaries.now };
}

impl<'a, T> Iterator for IntervalSetIter<'a, T> {
    type Item = (Bound<&'a T>, Bound<&'a T>);

    ghost next_gives = { TakesFirst shown_ends };

    ghost remaining = { λ s. at_most (length s) };

    fn next(&mut self) -> Option<(Bound<&'a T>, Bound<&'a T>)> {
        let start = if mem::replace(&mut self.has_begun, false) {
            Bound::Unbounded
        } else {
            let (first, rest) = self.boundaries.split_first()?;
            self.boundaries = rest;
            Bound::Included(first)
        };
        let Some((end, rest)) = self.boundaries.split_first() else {
            return Some((start, Bound::Unbounded));
        };
        self.boundaries = rest;
        Some((start, Bound::Excluded(end)))
    }

    fn size_hint(&self) -> (usize, Option<usize>) {
        let len = self.len();
        (len, Some(len))
    }
}

impl<'a, T> DoubleEndedIterator for IntervalSetIter<'a, T> {
    ghost next_back_gives = { TakesLast shown_ends };

    fn next_back(&mut self) -> Option<(Bound<&'a T>, Bound<&'a T>)> {
        let end = if self.has_begun ^ is_odd(self.boundaries.len()) {
            Bound::Unbounded
        } else {
            let (last, rest) = self.boundaries.split_last()?;
            self.boundaries = rest;
            Bound::Excluded(last)
        };
        let Some((start, rest)) = self.boundaries.split_last() else {
            self.has_begun = false;
            return Some((Bound::Unbounded, end));
        };
        self.boundaries = rest;
        Some((Bound::Included(start), end))
    }
}

/// How many intervals are left. Takes no memory.
impl<'a, T> ExactSizeIterator for IntervalSetIter<'a, T> {
    fn len(&self) -> usize {
        let boundaries = self.boundaries.len();
        boundaries / 2 + usize::from(self.has_begun | is_odd(boundaries))
    }
}

impl<T: Ord, const N: usize, A: Allocator> IntervalSet<T, N, A> {
    /// The intervals in ascending order, each by its start, which is included where there is one,
    /// and its end, which is excluded. Takes no memory.
    ///
    /// ```
    /// assert!(rt; open.iter().next() == Some((Bound::Included(&9), Bound::Excluded(&12))));
    /// ```
    pub fn iter(&self) -> IntervalSetIter<'_, T>
        ensures intervals { result ≡ listed self.now }
        ensures holds { (x : T) → holds T.cmp self.now x
            ≡ list_any (λ ends. range_contains T.cmp ends.0 ends.1 x) result }
        ensures runs { ShowsInOrder (shown_ends {X = T}) }
        ensures reverse { ShowsInReverse (shown_ends {X = T}) }
    {
        IntervalSetIter {
            boundaries: self.boundaries.as_slice(),
            has_begun: self.below,
        }
    }
}

/// The intervals in ascending order. Takes no memory.
impl<'a, T: Ord, const N: usize, A: Allocator> IntoIterator for &'a IntervalSet<T, N, A> {
    type Item = (Bound<&'a T>, Bound<&'a T>);

    type IntoIter = IntervalSetIter<'a, T>;

    ghost into_iter_gives = { λ s it. (it ≡ listed s.now) × ShowsInOrder (shown_ends {X = T}) };

    fn into_iter(self) -> IntervalSetIter<'a, T> {
        self.iter()
    }
}

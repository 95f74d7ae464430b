//! Sets from ranges in any order.
ghost use Rattle.std.specs.Prelude.{◌≡◌, ◌+◌, ◌≤◌, ◌-◌, ◌++◌, ◌∷◌, [], ◌||◌, true, false, length, slice_get, Some, IfOk, IsOk, IfSome, IfNone};
ghost use Rattle.std.specs.List.Sorted.{IsPermutation, IsSortedByKey};
ghost use Rattle.std.specs.Ordering.{is_lt};
ghost use Rattle.smallvec.specs.SmallVec.{HasRoomFor, small_vec_len};
ghost use Rattle.vc_intervals.specs.Boundaries.{toggled, holds};
ghost use Rattle.vc_intervals.specs.Ranges.{in_range, in_some, IsSwept};

use super::IntervalSet;
use smallvec::SmallVec;
use std::alloc::{AllocError, Allocator};
use std::default::MadeWith;
use std::ops::Range;

/// Sorts ranges by their starts, in place.
fn sort_by_start<T: Ord>(ranges: &mut Vec<Range<T>>)
    ensures permutation { IsPermutation ranges.old.items ranges.new.items }
    ensures len { length ranges.new.items ≡ length ranges.old.items }
    ensures sorted { IsSortedByKey (λ range. range.start) T.cmp ranges.new.items }
{
    ranges.sort_unstable_by(|a, b| a.start.cmp(&b.start));
}

/// Removes the last boundary, unless it is less than `start`.
fn pop_reached<T: Ord + MadeWith<A> + Drop, const N: usize, A: Allocator + Copy>(
    boundaries: &mut SmallVec<T, N, A>,
    start: &T,
) -> Option<T>
    ensures reached { IfSome result
        (λ last. (boundaries.old.items ≡ boundaries.new.items ++ last ∷ [])
        × (is_lt (T.cmp last start.now) ≡ false)
        × (boundaries.new.capacity ≡ boundaries.old.capacity)) }
    ensures passed { IfNone result ((boundaries.new ≡ boundaries.old) × ((last : T)
        → slice_get boundaries.old.items (length boundaries.old.items - 1) ≡ Some last
        → is_lt (T.cmp last start.now) ≡ true)) }
{
    let is_reached = match boundaries.as_slice().last() {
        Some(last) => !last.cmp(start).is_lt(),
        None => false,
    };
    if is_reached { boundaries.pop() } else { None }
}

/// Adds a range that starts no earlier than those before it: it extends the last interval where it
/// meets that one, and otherwise is a new one.
fn add_last<T: Ord + MadeWith<A> + Drop, const N: usize, A: Allocator + Copy>(
    boundaries: &mut SmallVec<T, N, A>,
    range: Range<T>,
)
    requires room { HasRoomFor boundaries.old 2 }
    requires swept { IsSwept T.cmp range.start boundaries.old.items }
    ensures swept { IsSwept T.cmp range.start boundaries.new.items }
    ensures added { (x : T) → toggled T.cmp false boundaries.new.items x
        ≡ (in_range T.cmp range x || toggled T.cmp false boundaries.old.items x) }
    ensures capacity { boundaries.new.capacity ≡ boundaries.old.capacity }
    ensures len { length boundaries.new.items ≤ length boundaries.old.items + 2 }
{
    if !range.start.cmp(&range.end).is_lt() {
        return;
    }
    let Range { start, end } = range;
    match pop_reached(boundaries, &start) {
        Some(last) => boundaries.push_reserved(last.max(end)),
        None => {
            boundaries.push_reserved(start);
            boundaries.push_reserved(end);
        }
    }
}

impl<T: Ord + MadeWith<A> + Drop, const N: usize, A: Allocator + Copy> IntervalSet<T, N, A> {
    /// The values that lie in one of the ranges, which may be in any order, overlap, or be empty.
    /// Their ends are moved.
    ///
    /// Sorts the ranges by their starts in place, with `O(n * log(n))` comparisons. Allocates once,
    /// for two boundaries of each range, where that is more than `N`; on refusal it drops the
    /// ranges.
    ///
    /// ```
    /// let hours = vec![in alloc; 13..17, 9..12, 11..12]?;
    /// let open = IntervalSet::<u16, 4>::from_ranges(alloc, hours)?;
    /// assert!(rt; open.boundaries() == [9, 12, 13, 17].as_slice());
    /// ```
    pub fn from_ranges(alloc: A, ranges: Vec<Range<T>>) -> Result<Self, AllocError>
        ensures holds { IfOk result
            (λ s. (x : T) → holds T.cmp s x ≡ in_some T.cmp ranges.items x) }
        ensures below { IfOk result (λ s. s.below ≡ false) }
        ensures room { length ranges.items + length ranges.items ≤ N → IsOk result }
    {
        let mut sorted = ranges;
        sort_by_start(&mut sorted);
        let room = sorted.len().checked_mul(2).ok_or(AllocError)?;
        let mut boundaries = SmallVec::with_capacity(alloc, room)?;
        for range in sorted {
            add_last(&mut boundaries, range);
        }
        Ok(IntervalSet {
            boundaries,
            below: false,
        })
    }
}

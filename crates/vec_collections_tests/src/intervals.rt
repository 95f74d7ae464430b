//! Interval sets, as a user writes them: the bookings of a room, over any ordered time, and further
//! calls, with a user's clauses.
ghost use Rattle.std.specs.Prelude.{◌≡◌, ◌||◌, ◌&&◌, ◌↔◌, not, true, false, IfOk, IfSome, IsOk, IsTrue, List};
ghost use Rattle.std.specs.BTreeMap.Range.{range_contains};
ghost use Rattle.std.specs.declared.ops.Bound.TheVariants.{Included, Excluded, Unbounded};
ghost use Rattle.std.specs.List.{find, list_any};
ghost use Rattle.std.specs.Option.{is_some, option_map};
ghost use Rattle.std.specs.Ordering.{is_le};
ghost use Rattle.std.specs.declared.cmp.Ordering.TheVariants.{Less};
ghost use Rattle.vec_collections.specs.Clones.{ClonesAreEqual};
ghost use Rattle.vec_collections.specs.IntervalsOf.{IsIntervalSubset, IsIntervalDisjoint};
ghost use Rattle.vec_collections.specs.Listed.{listed, shown_ends};
ghost use Rattle.vec_collections.specs.Ranges.{in_range, in_some};
ghost use Rattle.vec_collections.specs.SetOf.{exactly_one};
ghost use Rattle.vec_collections.specs.Boundaries.{Intervals, holds};

use std::alloc::{AllocError, Global};
use std::default::MadeWith;
use std::ops::{Bound, Range};
use vec_collections::interval_set::{IntervalSet, IntervalSetIter};
use vec_collections::vec_set::ClonesEqual;

/// When a room is booked.
pub type Booked<T> = IntervalSet<T, 4>;

/// The bookings that came in, in any order.
pub fn booked_at<T: Ord + MadeWith<Global> + Drop>(
    alloc: Global,
    spans: Vec<Range<T>>,
) -> Result<Booked<T>, AllocError>
    ensures { IfOk result
        (λ booked. (time : T) → holds T.cmp booked time ≡ in_some T.cmp spans.items time) }
{
    Booked::from_ranges(alloc, spans)
}

/// The times from one on until another.
pub fn span<T: Ord + MadeWith<Global> + Drop>(
    alloc: Global,
    from: T,
    until: T,
) -> Result<Booked<T>, AllocError>
    ensures times { IfOk result (λ span. (time : T) → holds T.cmp span time
        ≡ range_contains T.cmp (Included from) (Excluded until) time) }
    ensures quiet { IsOk result }
{
    Booked::between(alloc, from, until)
}

/// The times before one, and those from one on.
pub fn before_and_after<T: Ord + MadeWith<Global> + Drop>(
    alloc: Global,
    end: T,
    start: T,
) -> Result<(Booked<T>, Booked<T>), AllocError>
    ensures before { IfOk result (λ both. (time : T) → holds T.cmp both.0 time
        ≡ range_contains T.cmp Unbounded (Excluded end) time) }
    ensures after { IfOk result (λ both. (time : T) → holds T.cmp both.1 time
        ≡ range_contains T.cmp (Included start) Unbounded time) }
{
    Ok((Booked::below(alloc, end)?, Booked::at_least(alloc, start)?))
}

/// The set of no time, and that of all times.
pub fn never_and_always<T: Ord + MadeWith<Global> + Drop>(alloc: Global) -> (Booked<T>, Booked<T>)
    ensures never { (time : T) → holds T.cmp result.0 time ≡ false }
    ensures always { (time : T) → holds T.cmp result.1 time ≡ true }
{
    (Booked::empty(alloc), Booked::all(alloc))
}

/// The room is free when it is not booked.
pub fn free<T: Ord>(booked: Booked<T>) -> Booked<T>
    ensures { (time : T) → holds T.cmp result time ≡ not (holds T.cmp booked time) }
{
    !booked
}

/// Whether the room is booked at the time.
pub fn is_booked<T: Ord>(booked: &Booked<T>, time: &T) -> bool
    ensures { result ≡ holds T.cmp booked.now time.now }
{
    booked.contains(time)
}

/// The booking that has the time: since when the room is booked, and until when.
pub fn booking_at<'a, T: Ord>(
    booked: &'a Booked<T>,
    time: &T,
) -> Option<(Bound<&'a T>, Bound<&'a T>)>
    ensures booked { is_some result ≡ holds T.cmp booked.now time.now }
    ensures listed { option_map shown_ends result
        ≡ find (λ ends. range_contains T.cmp ends.0 ends.1 time.now) (listed booked.now) }
{
    booked.interval_at(time)
}

/// Whether the room is booked at the time, and until when that stays so: for good, where there is
/// no such time.
pub fn booked_until<'a, T: Ord>(booked: &'a Booked<T>, time: &T) -> (bool, Option<&'a T>)
    ensures now { result.0 ≡ holds T.cmp booked.now time.now }
    ensures until { (later : T) → is_le (T.cmp time.now later) ≡ true
        → IfSome result.1 (λ end. T.cmp later end.now ≡ Less)
        → holds T.cmp booked.now later ≡ result.0 }
    ensures then { IfSome result.1 (λ end. holds T.cmp booked.now end.now ≡ not result.0) }
{
    (booked.contains(time), booked.next_boundary(time))
}

/// Whether some time of the span is taken.
pub fn is_taken<T: Ord>(booked: &Booked<T>, span: &Range<T>) -> bool
    ensures { IsTrue result ↔ ((time : T)
        × IsTrue (in_range T.cmp span.now time) × IsTrue (holds T.cmp booked.now time)) }
{
    booked.overlaps(span)
}

/// The times of the span that are free.
pub fn gaps<T: ClonesEqual + MadeWith<Global> + Drop>(
    alloc: Global,
    booked: &Booked<T>,
    from: T,
    until: T,
) -> Result<Booked<T>, AllocError>
    ensures { IfOk result (λ free. (time : T) → holds T.cmp free time
        ≡ (range_contains T.cmp (Included from) (Excluded until) time
        && not (holds T.cmp booked.now time))) }
{
    let span = Booked::between(alloc, from, until)?;
    &span - booked
}

/// The times between two ends, as `list_bookings` lists them.
pub fn of_ends<T: Ord + MadeWith<Global> + Drop>(
    alloc: Global,
    start: Bound<T>,
    end: Bound<T>,
) -> Result<Option<Booked<T>>, AllocError>
    ensures { IfOk result (λ made. IfSome made (λ booked. (time : T)
        → holds T.cmp booked time ≡ range_contains T.cmp start end time)) }
{
    Booked::from_bounds(alloc, start, end)
}

/// When either room is booked.
pub fn either_booked<T: ClonesEqual + MadeWith<Global>>(
    one: &Booked<T>,
    other: &Booked<T>,
) -> Result<Booked<T>, AllocError>
    ensures { IfOk result (λ booked. (time : T) → holds T.cmp booked time
        ≡ (holds T.cmp one.now time || holds T.cmp other.now time)) }
{
    one | other
}

/// When both rooms are booked.
pub fn both_booked<T: ClonesEqual + MadeWith<Global>>(
    one: &Booked<T>,
    other: &Booked<T>,
) -> Result<Booked<T>, AllocError>
    ensures { IfOk result (λ booked. (time : T) → holds T.cmp booked time
        ≡ (holds T.cmp one.now time && holds T.cmp other.now time)) }
{
    one & other
}

/// When only the first room is booked.
pub fn first_alone<T: ClonesEqual + MadeWith<Global>>(
    one: &Booked<T>,
    other: &Booked<T>,
) -> Result<Booked<T>, AllocError>
    ensures { IfOk result (λ booked. (time : T) → holds T.cmp booked time
        ≡ (holds T.cmp one.now time && not (holds T.cmp other.now time))) }
{
    one - other
}

/// When exactly one of the rooms is booked.
pub fn one_alone<T: ClonesEqual + MadeWith<Global>>(
    one: &Booked<T>,
    other: &Booked<T>,
) -> Result<Booked<T>, AllocError>
    ensures { IfOk result (λ booked. (time : T) → holds T.cmp booked time
        ≡ exactly_one (holds T.cmp one.now time) (holds T.cmp other.now time)) }
{
    one ^ other
}

/// Whether a span may be booked too: nothing of it is taken.
pub fn may_book<T: Ord>(booked: &Booked<T>, span: &Booked<T>) -> bool
    ensures { IsTrue result ↔ IsIntervalDisjoint T.cmp booked.now span.now }
{
    booked.is_disjoint(span)
}

/// Whether each time in `asked` is booked.
pub fn is_all_booked<T: Ord>(asked: &Booked<T>, booked: &Booked<T>) -> bool
    ensures { IsTrue result ↔ IsIntervalSubset T.cmp asked.now booked.now }
{
    asked.is_subset(booked)
}

/// The same, asked of the bookings.
pub fn covers<T: Ord>(booked: &Booked<T>, asked: &Booked<T>) -> bool
    ensures { IsTrue result ↔ IsIntervalSubset T.cmp asked.now booked.now }
{
    booked.is_superset(asked)
}

/// Gives back the memory that the bookings do not need.
pub fn pack<T: Ord + MadeWith<Global> + Drop>(booked: &mut Booked<T>)
    ensures { booked.new ≡ booked.old }
{
    let _always = booked.shrink_to_fit();
}

/// The bookings one after the other: a time is booked exactly where one of them has it.
pub fn list_bookings<T: Ord>(booked: &Booked<T>) -> IntervalSetIter<'_, T>
    ensures listed { result ≡ listed booked.now }
    ensures all { (time : T) → holds T.cmp booked.now time
        ≡ list_any (λ ends. range_contains T.cmp ends.0 ends.1 time) result }
{
    booked.iter()
}

/// Whether a room is never booked, and whether it always is.
pub fn is_never_or_always<T: Ord>(booked: &Booked<T>) -> (bool, bool)
    ensures never { IsTrue result.0 → (time : T) → holds T.cmp booked.now time ≡ false }
    ensures always { IsTrue result.1 → (time : T) → holds T.cmp booked.now time ≡ true }
{
    (booked.is_empty(), booked.is_all())
}

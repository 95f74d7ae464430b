//! The part of an ordered list that lies in a range, by a search for each end that the range has.
ghost use Rattle.std.specs.Prelude.{◌≡◌, ◌&&◌, not, filter, true, false};
ghost use Rattle.std.specs.BTreeMap.Range.{entries_between, range_contains};
ghost use Rattle.std.specs.Map.{keys_of};
ghost use Rattle.std.specs.Range.Bound.{bound_map};
ghost use Rattle.vc_merge.specs.Ascending.{Ascends};
ghost use Rattle.vc_merge.specs.Cuts.{IsCut, is_in_front, passes};
ghost use Rattle.vc_merge.specs.Place.{IsOrdered};

use super::{Element, Key, Sought, nearest};
use crate::merge::Uncounted;
use std::cmp::Ordering;
use std::ops::{Bound, RangeBounds};

/// The elements of an ascending list that lie in a range, in order. A range that runs backwards has
/// none.
///
/// Compares as often as [`look_up`](super::look_up) for each end that the range has.
#[inline]
pub fn elements_between<T: Ord, R: RangeBounds<T>>(list: &[T], range: R) -> &[T]
    requires { Ascends T.cmp list.now }
    ensures { R.has_bounds range → result.now
        ≡ filter (range_contains T.cmp (R.start_bound range) (R.end_bound range)) list.now }
{
    let start = element_bound(range.start_bound());
    let end = element_bound(range.end_bound());
    between(list, &start, &end)
}

/// The pairs of a list that ascends by its keys whose keys lie in a range, in order. A range that
/// runs backwards has none.
///
/// Compares as often as [`look_up`](super::look_up) for each end that the range has.
#[inline]
pub fn pairs_between<K: Ord, V, R: RangeBounds<K>>(pairs: &[(K, V)], range: R) -> &[(K, V)]
    requires { Ascends K.cmp (keys_of pairs.now) }
    ensures { R.has_bounds range → result.now
        ≡ entries_between K.cmp (R.start_bound range) (R.end_bound range) pairs.now }
{
    let start = key_bound(range.start_bound());
    let end = key_bound(range.end_bound());
    between(pairs, &start, &end)
}

/// An end of a range of elements, as an end that is sought.
#[inline(always)]
fn element_bound<T>(bound: Bound<&T>) -> Bound<Element<'_, T>>
    ensures { bound_map (λ s. s.0.now) result ≡ bound_map (λ x. x.now) bound.entry }
{
    match bound {
        Bound::Included(value) => Bound::Included(Element(value)),
        Bound::Excluded(value) => Bound::Excluded(Element(value)),
        Bound::Unbounded => Bound::Unbounded,
    }
}

/// An end of a range of keys, as an end that is sought.
#[inline(always)]
fn key_bound<K>(bound: Bound<&K>) -> Bound<Key<'_, K>>
    ensures { bound_map (λ s. s.0.now) result ≡ bound_map (λ x. x.now) bound.entry }
{
    match bound {
        Bound::Included(key) => Bound::Included(Key(key)),
        Bound::Excluded(key) => Bound::Excluded(Key(key)),
        Bound::Unbounded => Bound::Unbounded,
    }
}

/// The elements of an ordered list between two ends.
#[inline(always)]
fn between<'a, X, S: Sought<X, Uncounted>>(
    list: &'a [X],
    start: &Bound<S>,
    end: &Bound<S>,
) -> &'a [X]
    requires { (s : S) → IsOrdered (S.side s) list.now }
    ensures { result.now ≡ filter (λ y. not (is_in_front S.side false start.now y)
        && is_in_front S.side true end.now y) list.now }
{
    let to = cut_at(list, end, true);
    let from = cut_at(list, start, false).min(to);
    &list[from..to]
}

/// How many elements of an ordered list are before a range that starts at `bound`. Where `at_end`,
/// how many are up to the end of a range that ends there.
#[inline(always)]
fn cut_at<X, S: Sought<X, Uncounted>>(list: &[X], bound: &Bound<S>, at_end: bool) -> usize
    requires { (s : S) → IsOrdered (S.side s) list.now }
    ensures { IsCut (is_in_front S.side at_end bound.now) list.now result }
{
    match bound {
        Bound::Included(sought) => count_passing(list, sought, at_end),
        Bound::Excluded(sought) => count_passing(list, sought, !at_end),
        Bound::Unbounded => { if at_end { list.len() } else { 0 } }
    }
}

/// How many elements are before what is sought, including the equal one if `with_equal`.
#[inline]
fn count_passing<X, S: Sought<X, Uncounted>>(list: &[X], sought: &S, with_equal: bool) -> usize
    requires { IsOrdered (S.side sought.now) list.now }
    ensures { IsCut (λ y. passes with_equal (S.side sought.now y)) list.now result }
{
    if list.is_empty() {
        return 0;
    }
    let (start, one) = nearest(list, sought);
    let order = sought.compare(&one[0], &mut Uncounted);
    start + usize::from(stands_before(order, with_equal))
}

/// Whether an element that compares as `order` with what is sought is before it, or is equal to it
/// if `with_equal`.
#[inline(always)]
fn stands_before(order: Ordering, with_equal: bool) -> bool
    ensures { result ≡ passes with_equal order }
{
    if with_equal {
        order.is_le()
    } else {
        order.is_lt()
    }
}

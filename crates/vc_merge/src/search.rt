//! Searches in an ordered list, for one element by its order, for a pair by its key, or for what a
//! [`Sought`] describes.
//!
//! There are three forms. [`search`] halves what is left until it meets an equal element, and makes
//! no more comparisons than the length has binary digits: trees find children by it.
//! [`search_near`] goes in strides from the front on, and halves what is before the last of them,
//! without a branch on an answer: merges search by it. [`look_up`] compares with three elements at
//! a time, independent of each other. It makes half as many comparisons more, and is faster for
//! numbers and for strings.
ghost use Rattle.std.specs.Prelude.{◌≡◌, ◌+◌, ◌-◌, ◌*◌, ◌/◌, ◌^◌, ◌<◌, ◌≤◌, length, min};
ghost use Rattle.std.specs.Map.{keys_of};
ghost use Rattle.std.specs.declared.cmp.Ordering.{Ordering};
ghost use Rattle.vc_merge.specs.Ascending.{Ascends};
ghost use Rattle.vc_merge.specs.Count.{ticked, digits};
ghost use Rattle.vc_merge.specs.Place.{IsOrdered, IsPlace, IsNarrowed, IsRest, IsReached, IsSearched, place_of};

mod ranges;

use crate::merge::{Count, Uncounted};
pub use ranges::{elements_between, pairs_between};
use std::cmp::Ordering;

/// What is sought in a list: it says how an element compares with it.
pub trait Sought<X, C: Count> {
    ghost side: { Self → X → Ordering };

    /// How the element compares with what is sought: `Less` before it, `Greater` after it. Ticks
    /// the counter once.
    fn compare(&self, element: &X, steps: &mut C) -> Ordering
        ensures value { result ≡ side self.now element.now }
        ensures ticks { C.counted steps.new ≡ ticked (C.counted steps.old) };
}

/// An element that is sought in a list of such elements.
#[derive(Clone, Copy)]
struct Element<'a, T>(&'a T);

impl<'a, T: Ord, C: Count> Sought<T, C> for Element<'a, T> {
    ghost side = { λ s y. T.cmp y s.0.now };

    fn compare(&self, element: &T, steps: &mut C) -> Ordering {
        steps.tick();
        element.cmp(self.0)
    }
}

/// A key that is sought in a list of pairs.
#[derive(Clone, Copy)]
struct Key<'a, K>(&'a K);

impl<'a, K: Ord, V, C: Count> Sought<(K, V), C> for Key<'a, K> {
    ghost side = { λ s p. K.cmp p.0 s.0.now };

    fn compare(&self, pair: &(K, V), steps: &mut C) -> Ordering {
        steps.tick();
        pair.0.cmp(self.0)
    }
}

/// The place of the element that is equal to `value` in an ascending list, or the gap where it
/// would be.
///
/// ```
/// assert!(rt; find(&[1, 3, 5], &3) == Ok(1));
/// assert!(rt; find(&[1, 3, 5], &4) == Err(2));
/// ```
pub fn find<T: Ord>(list: &[T], value: &T) -> Result<usize, usize>
    requires { Ascends T.cmp list.now }
    ensures { IsPlace (λ y. T.cmp y value.now) list.now result }
{
    look_up(list, &Element(value))
}

/// The place of the pair with an equal key in a list that ascends by its keys, or the gap where it
/// would be.
pub fn find_key<K: Ord, V>(pairs: &[(K, V)], key: &K) -> Result<usize, usize>
    requires { Ascends K.cmp (keys_of pairs.now) }
    ensures { IsPlace (λ p. K.cmp p.0 key.now) pairs.now result }
{
    look_up(pairs, &Key(key))
}

/// The place of the element that is equal to what is sought, or the gap where one would be. Nothing
/// is counted.
///
/// Compares fewer than `1.5 * log2(n) + 4` times with the elements of a list of `n`. How often
/// depends on `n` alone: 5 times of 8, 7 of 7, 10 of 19 or 64, 16 of 1000.
pub fn look_up<X, S: Sought<X, Uncounted>>(list: &[X], sought: &S) -> Result<usize, usize>
    requires { IsOrdered (S.side sought.now) list.now }
    ensures { IsPlace (S.side sought.now) list.now result }
{
    if list.is_empty() {
        return Err(0);
    }
    let (start, one) = nearest(list, sought);
    let order = sought.compare(&one[0], &mut Uncounted);
    if order.is_eq() {
        return Ok(start);
    }
    Err(start + usize::from(order.is_lt()))
}

/// The last element that is not greater, or the first one where there is none, and how many are
/// before it.
#[inline(always)]
fn nearest<'a, X, S: Sought<X, Uncounted>>(list: &'a [X], sought: &S) -> (usize, &'a [X])
    requires ordered { IsOrdered (S.side sought.now) list.now }
    requires some { 0 < length list.now }
    ensures rest { IsRest (S.side sought.now) list.now result.0 result.1.now }
    ensures one { length result.1.now ≡ 1 }
{
    let mut start = 0;
    let mut rest = list;
    'quarters: while rest.len() >= 4 {
        let (passed, part) = nearest_quarter(rest, sought);
        start += passed;
        rest = part;
    }
    let (passed, one) = nearest_of_few(rest, sought);
    (start + passed, one)
}

/// The last of four parts that begins with no greater element, or the first part where there is
/// none, and how many elements are before it.
#[inline(always)]
fn nearest_quarter<'a, X, S: Sought<X, Uncounted>>(list: &'a [X], sought: &S) -> (usize, &'a [X])
    requires ordered { IsOrdered (S.side sought.now) list.now }
    requires long { 4 ≤ length list.now }
    ensures rest { IsRest (S.side sought.now) list.now result.0 result.1.now }
    ensures shorter { length result.1.now ≡ length list.now - length list.now / 4 * 3 }
{
    let quarter = list.len() / 4;
    let reached = reaches(list, quarter, sought)
        + reaches(list, quarter * 2, sought)
        + reaches(list, quarter * 3, sought);
    let start = reached * quarter;
    (start, &list[start..start + (list.len() - quarter * 3)])
}

/// The last of up to three elements that is not greater, or the first one where there is none, and
/// how many are before it.
///
/// Two halvings are written out, since a loop compiles to a branch on each answer.
#[inline(always)]
fn nearest_of_few<'a, X, S: Sought<X, Uncounted>>(list: &'a [X], sought: &S) -> (usize, &'a [X])
    requires ordered { IsOrdered (S.side sought.now) list.now }
    requires some { 0 < length list.now }
    requires few { length list.now < 4 }
    ensures rest { IsRest (S.side sought.now) list.now result.0 result.1.now }
    ensures one { length result.1.now ≡ 1 }
{
    let (before, half) = nearest_half(list, sought);
    let (between, one) = nearest_half(half, sought);
    (before + between, one)
}

/// The half in which the search continues, and how many elements are before it. It is the second
/// half, unless that begins with a greater element.
#[inline(always)]
fn nearest_half<'a, X, S: Sought<X, Uncounted>>(list: &'a [X], sought: &S) -> (usize, &'a [X])
    requires ordered { IsOrdered (S.side sought.now) list.now }
    ensures rest { IsRest (S.side sought.now) list.now result.0 result.1.now }
    ensures shorter { length result.1.now ≡ length list.now - length list.now / 2 }
{
    if list.len() < 2 {
        return (0, list);
    }
    let half = list.len() / 2;
    let start = reaches(list, half, sought) * half;
    (start, &list[start..start + (list.len() - half)])
}

/// 1 where the element at `place` is not greater, and 0 otherwise.
#[inline(always)]
fn reaches<X, S: Sought<X, Uncounted>>(list: &[X], place: usize, sought: &S) -> usize
    requires { place < length list.now }
    ensures { IsReached (S.side sought.now) list.now place result }
{
    usize::from(!sought.compare(&list[place], &mut Uncounted).is_gt())
}

/// The place of the element that is equal to what is sought, or the gap where one would be.
/// Compares no more often than the length has binary digits.
pub fn search<X, C: Count, S: Sought<X, C>>(
    list: &[X],
    sought: &S,
    steps: &mut C,
) -> Result<usize, usize>
    requires { IsOrdered (S.side sought.now) list.now }
    ensures place { IsPlace (S.side sought.now) list.now result }
    ensures counted { C.counted steps.new ≤ C.counted steps.old + digits (length list.now) }
{
    let mut part = Part {
        start: 0,
        len: list.len(),
        found: false,
    };
    'halves: while part.len > 0 {
        part = halve(list, part, sought, steps);
        if part.found {
            return Ok(part.start - 1);
        }
    }
    Err(part.start)
}

/// The same as [`search`], for what is near the front: it looks at every `2 ^ exponent`-th element
/// until one is not less, and halves what is before that one. Each of the elements that it looks
/// at, except the last one, is before the place.
pub fn search_near<X, C: Count, S: Sought<X, C>>(
    list: &[X],
    sought: &S,
    exponent: u32,
    steps: &mut C,
) -> Result<usize, usize>
    requires ordered { IsOrdered (S.side sought.now) list.now }
    requires exponent { exponent < 64 }
    ensures place { IsPlace (S.side sought.now) list.now result }
    ensures counted { C.counted steps.new ≤ C.counted steps.old + exponent
        + min (length list.now / 2 ^ exponent) (place_of result / 2 ^ exponent + 1) }
{
    let stride = power(exponent);
    let mut start = 0;
    'strides: while list.len() - start >= stride {
        let last = start + (stride - 1);
        match sought.compare(&list[last], steps) {
            Ordering::Less => start = last + 1,
            Ordering::Equal => return Ok(last),
            Ordering::Greater => return search_part(list, start, stride - 1, sought, steps),
        }
    }
    search_part(list, start, list.len() - start, sought, steps)
}

/// `2 ^ exponent`.
#[inline(always)]
fn power(exponent: u32) -> usize
    requires { exponent < 64 }
    ensures { result ≡ 2 ^ exponent }
{
    1 << exponent
}

/// Searches the `len` elements from `start` on: those before are known to be less, and those after
/// to be greater.
#[inline(always)]
fn search_part<X, C: Count, S: Sought<X, C>>(
    list: &[X],
    start: usize,
    len: usize,
    sought: &S,
    steps: &mut C,
) -> Result<usize, usize>
    requires ordered { IsOrdered (S.side sought.now) list.now }
    requires narrowed { IsNarrowed (S.side sought.now) list.now start len }
    ensures place { IsPlace (S.side sought.now) list.now result }
    ensures counted { C.counted steps.new ≤ C.counted steps.old + digits len }
{
    let mut part = Part {
        start,
        len,
        found: false,
    };
    'long: while part.len >= LONG {
        part = halve(list, part, sought, steps);
    }
    // Written out, since a loop compiles to a branch on each answer.
    part = halve_to(1 << 12, list, part, sought, steps);
    part = halve_to(1 << 8, list, part, sought, steps);
    part = halve_to(1 << 4, list, part, sought, steps);
    part = halve_four_times(list, part, sought, steps);
    if part.found {
        Ok(part.start - 1)
    } else {
        Err(part.start)
    }
}

/// The least length at which a list is halved in a loop first. Sixteen halvings leave nothing of a
/// shorter one.
const LONG: usize = 1 << 16;

/// The part of a list that is still searched, and whether the element before it is equal.
#[derive(Clone, Copy)]
struct Part {
    start: usize,
    len: usize,
    found: bool,
}

/// [`halve`] four times where there are `least` elements or more. Of fewer than 16 times `least`
/// elements, fewer than `least` are left.
#[inline(always)]
fn halve_to<X, C: Count, S: Sought<X, C>>(
    least: usize,
    list: &[X],
    part: Part,
    sought: &S,
    steps: &mut C,
) -> Part
    requires ordered { IsOrdered (S.side sought.now) list.now }
    requires searched { IsSearched (S.side sought.now) list.now part.start part.len part.found }
    ensures searched { IsSearched (S.side sought.now) list.now result.start result.len
        result.found }
    ensures shorter { part.len < 16 * least → result.len < least }
    ensures counted { C.counted steps.new + digits result.len
        ≤ C.counted steps.old + digits part.len }
{
    if part.len < least {
        return part;
    }
    halve_four_times(list, part, sought, steps)
}

/// [`halve`] four times.
#[inline(always)]
fn halve_four_times<X, C: Count, S: Sought<X, C>>(
    list: &[X],
    part: Part,
    sought: &S,
    steps: &mut C,
) -> Part
    requires ordered { IsOrdered (S.side sought.now) list.now }
    requires searched { IsSearched (S.side sought.now) list.now part.start part.len part.found }
    ensures searched { IsSearched (S.side sought.now) list.now result.start result.len
        result.found }
    ensures shorter { result.len ≡ part.len / 16 }
    ensures counted { C.counted steps.new + digits result.len
        ≤ C.counted steps.old + digits part.len }
{
    let half = halve(list, part, sought, steps);
    let quarter = halve(list, half, sought, steps);
    let eighth = halve(list, quarter, sought, steps);
    halve(list, eighth, sought, steps)
}

/// Compares with the element at the end of the first half, and continues in that half or after it.
#[inline(always)]
fn halve<X, C: Count, S: Sought<X, C>>(list: &[X], part: Part, sought: &S, steps: &mut C) -> Part
    requires ordered { IsOrdered (S.side sought.now) list.now }
    requires searched { IsSearched (S.side sought.now) list.now part.start part.len part.found }
    ensures searched { IsSearched (S.side sought.now) list.now result.start result.len
        result.found }
    ensures shorter { result.len ≡ part.len / 2 }
    ensures counted { C.counted steps.new + digits result.len
        ≤ C.counted steps.old + digits part.len }
{
    if part.len == 0 {
        return part;
    }
    let len = part.len / 2;
    let middle = part.start + (part.len - len);
    let side = sought.compare(&list[middle - 1], steps);
    let start = if side.is_gt() { part.start } else { middle };
    Part {
        start,
        len,
        found: part.found | side.is_eq(),
    }
}

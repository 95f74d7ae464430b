//! The state of a merge of two parts of one list, in place.
ghost use Rattle.std.specs.Prelude.{◌≡◌, ◌+◌, ◌-◌, ◌<◌, ◌≤◌, true, [], ◌∷◌, ◌++◌, IsOk, OnOk, OnErr, length, take, drop, slice_set};
ghost use Rattle.smallvec.specs.SmallVec.{small_vec_len, HasRoomFor};
ghost use Rattle.vc_merge.specs.Building.{Advances, Skips};
ghost use Rattle.vc_merge.specs.MovesDown.{MovesDown};
ghost use Rattle.vc_merge.specs.Shifts.{MovesUp, Turns, Trades, lesser_place};

use crate::merge::{MergeFromRight, MergeState, MergeStateMut};
use crate::moving::move_down;
use smallvec::SmallVec;
use std::alloc::{AllocError, Allocator};
use std::cmp::Ordering;
use std::default::MadeWith;
use std::mem;

/// The least length of a gap between two parts. A gap may be longer: a share of the shorter part.
const SHORT_GAP: usize = 64;

/// That share, as a divisor.
const GAP_SHARE: usize = 4;

/// Where the parts of a list are that are merged in place. What was built ends at `built`; what is
/// left of the left part lies from `start` to `end`, and what is left of the right part from `next`
/// on.
#[derive(Clone, Copy, Drop)]
pub struct Spans {
    pub built: usize,
    pub start: usize,
    pub end: usize,
    pub next: usize,
    ghost hole: { built ≤ start },
    ghost left: { start ≤ end },
    ghost gap: { end ≤ next },
}

/// A list whose first and last part are merged in place: what is taken of either is moved to the
/// front.
///
/// What was built is at the front. After it come a hole, what is left of the left part, a gap, and
/// what is left of the right part. The hole and the gap hold what is no longer needed: what was
/// skipped, and what was between the parts. No event is refused, and none takes memory. The owner
/// cuts off what is after the built elements.
///
/// A run of the right part trades places with the hole where that is long enough. What is left of
/// the left part may move up over the gap first, to make it so. Otherwise the run is rotated before
/// all that is between. So a short gap between the parts saves many moves.
#[derive(Drop)]
pub struct PartsState<'a, T> {
    list: &'a mut [T],
    built: usize,
    start: usize,
    end: usize,
    next: usize,
    ghost hole: { built ≤ start },
    ghost left: { start ≤ end },
    ghost gap: { end ≤ next },
    ghost right: { next ≤ length list.now },
}

impl<'a, T> PartsState<'a, T> {
    ghost use Rattle.vc_merge.specs.PartsViews.{lent_list, list_name, built_items, left_items, right_items, built_at, left_at, right_at, hole_places, PassesLesser, Shows};

    /// The list, whose parts to merge are its first `end` elements and those from `next` on.
    #[inline(always)]
    pub fn new(list: &'a mut [T], end: usize, next: usize) -> Self
        requires order { end ≤ next }
        requires within { next ≤ length list.old }
        ensures same_reference { lent_list result ≡ list.entry }
        ensures built { built_items result ≡ [] }
        ensures left { left_items result ≡ take end list.old }
        ensures right { right_items result ≡ drop next list.old }
    {
        PartsState {
            list,
            built: 0,
            start: 0,
            end,
            next,
        }
    }

    /// The list, whose parts are at `spans`.
    #[inline(always)]
    pub fn at(list: &'a mut [T], spans: Spans) -> Self
        requires { spans.next ≤ length list.old }
        ensures same_reference { lent_list result ≡ list.entry }
        ensures built { built_items result ≡ built_at spans list.old }
        ensures left { left_items result ≡ left_at spans list.old }
        ensures right { right_items result ≡ right_at spans list.old }
    {
        PartsState {
            list,
            built: spans.built,
            start: spans.start,
            end: spans.end,
            next: spans.next,
        }
    }

    /// Where the parts are in the list.
    #[inline(always)]
    pub fn spans(&self) -> Spans
        ensures within { result.next ≤ length (lent_list self.now).now }
        ensures built { built_at result (lent_list self.now).now ≡ built_items self.now }
        ensures left { left_at result (lent_list self.now).now ≡ left_items self.now }
        ensures right { right_at result (lent_list self.now).now ≡ right_items self.now }
    {
        Spans {
            built: self.built,
            start: self.start,
            end: self.end,
            next: self.next,
        }
    }

    /// How many elements were built. They are the first ones of the list.
    #[inline(always)]
    pub fn kept(&self) -> usize
        ensures value { result ≡ length (built_items self.now) }
        ensures first { take result (lent_list self.now).now ≡ built_items self.now }
    {
        self.built
    }

    /// Replaces the first element that is left of the left part by `value`, and returns it.
    pub fn replace_left(&mut self, value: T) -> T
        requires { 0 < length (left_items self.old) }
        ensures first { left_items self.old ≡ result ∷ drop 1 (left_items self.old) }
        ensures others { Shows (list_name self.old) (built_items self.old)
            (value ∷ drop 1 (left_items self.old)) (right_items self.old) self.new }
    {
        replace_at(self.list, self.start, value)
    }

    /// Replaces the first element that is left of the right part by `value`, and returns it.
    pub fn replace_right(&mut self, value: T) -> T
        requires { 0 < length (right_items self.old) }
        ensures first { right_items self.old ≡ result ∷ drop 1 (right_items self.old) }
        ensures others { Shows (list_name self.old) (built_items self.old) (left_items self.old)
            (value ∷ drop 1 (right_items self.old)) self.new }
    {
        replace_at(self.list, self.next, value)
    }

    /// Puts `value` after what is built, instead of the first element that is left of the left
    /// part. Returns what was at that place, which is of no use if that element was taken out.
    #[inline(always)]
    pub fn put_left(&mut self, value: T) -> T
        requires { 0 < length (left_items self.old) }
        ensures { Shows (list_name self.old) (built_items self.old ++ value ∷ [])
            (drop 1 (left_items self.old)) (right_items self.old) self.new }
    {
        let old = replace_at(self.list, self.built, value);
        self.built += 1;
        self.start += 1;
        old
    }

    /// Puts `value` after what is built, instead of the first element that is left of the right
    /// part. Returns what was at that place, which is of no use if that element was taken out.
    #[inline(always)]
    pub fn put_right(&mut self, value: T) -> T
        requires { 0 < length (right_items self.old) }
        ensures { Shows (list_name self.old) (built_items self.old ++ value ∷ [])
            (left_items self.old) (drop 1 (right_items self.old)) self.new }
    {
        self.widen(1);
        if self.hole() > 0 {
            return self.put_in_hole(value);
        }
        let old = self.replace_right(value);
        self.turn(1);
        old
    }

    /// Does the same where the hole is not empty.
    #[inline(always)]
    fn put_in_hole(&mut self, value: T) -> T
        requires right { 0 < length (right_items self.old) }
        requires hole { 0 < hole_places self.old }
        ensures { Shows (list_name self.old) (built_items self.old ++ value ∷ [])
            (left_items self.old) (drop 1 (right_items self.old)) self.new }
    {
        let old = replace_at(self.list, self.built, value);
        self.built += 1;
        self.next += 1;
        old
    }

    /// How many places the hole has: each can take an element of the right part without moving what
    /// is left of the left one.
    #[inline(always)]
    fn hole(&self) -> usize
        ensures { result ≡ hole_places self.now }
    {
        self.start - self.built
    }

    /// Moves the lesser of the first elements of both parts to the end of what is built, without a
    /// branch. Of two equal ones it passes both, and keeps the left one if `both`. The hole must
    /// not be empty.
    #[inline(always)]
    fn pass_lesser(&mut self, order: Ordering, both: bool)
        requires some_left { 0 < length (left_items self.old) }
        requires some_right { 0 < length (right_items self.old) }
        requires hole { 0 < hole_places self.old }
        ensures { PassesLesser order both self.old self.new }
    {
        let from = place_of_lesser(order, self.start, self.next);
        trade_one(self.list, self.built, from);
        self.built += usize::from(order.is_ne() || both);
        self.start += usize::from(order.is_le());
        self.next += usize::from(order.is_ge());
    }

    /// Does the same where the hole may be empty. Then an element of the right part makes the gap
    /// the hole, or is rotated before all that is left of the left part.
    #[inline(always)]
    fn move_lesser(&mut self, order: Ordering, both: bool)
        requires some_left { 0 < length (left_items self.old) }
        requires some_right { 0 < length (right_items self.old) }
        ensures { PassesLesser order both self.old self.new }
    {
        match order {
            Ordering::Less => self.take_left(1),
            Ordering::Greater => self.take_right(1),
            Ordering::Equal => {
                if both {
                    self.take_left(1);
                } else {
                    self.skip_left(1);
                }
                self.skip_right(1);
            }
        }
    }

    /// Moves the first `n` elements that are left of the left part to the end of what is built.
    #[inline(always)]
    fn take_left(&mut self, n: usize)
        requires { n ≤ length (left_items self.old) }
        ensures { Shows (list_name self.old) (built_items self.old ++ take n (left_items self.old))
            (drop n (left_items self.old)) (right_items self.old) self.new }
    {
        move_down(self.list, self.built, self.start, n);
        self.built += n;
        self.start += n;
    }

    /// Adds the first `n` elements that are left of the left part to the hole.
    #[inline(always)]
    fn skip_left(&mut self, n: usize)
        requires { n ≤ length (left_items self.old) }
        ensures { Shows (list_name self.old) (built_items self.old) (drop n (left_items self.old))
            (right_items self.old) self.new }
    {
        self.start += n;
    }

    /// Adds the first `n` elements that are left of the right part to the gap.
    #[inline(always)]
    fn skip_right(&mut self, n: usize)
        requires { n ≤ length (right_items self.old) }
        ensures { Shows (list_name self.old) (built_items self.old) (left_items self.old)
            (drop n (right_items self.old)) self.new }
    {
        self.next += n;
    }

    /// Moves the first `n` elements that are left of the right part to the end of what is built.
    #[inline(always)]
    fn take_right(&mut self, n: usize)
        requires { n ≤ length (right_items self.old) }
        ensures { Shows (list_name self.old) (built_items self.old ++ take n (right_items self.old))
            (left_items self.old) (drop n (right_items self.old)) self.new }
    {
        self.widen(n);
        if n <= self.start - self.built {
            self.trade(n);
        } else {
            self.turn(n);
        }
    }

    /// Makes the hole `n` places long, where the gap has the places that it lacks.
    #[inline(always)]
    fn widen(&mut self, n: usize)
        ensures { Shows (list_name self.old) (built_items self.old) (left_items self.old)
            (right_items self.old) self.new }
    {
        let hole = self.start - self.built;
        if hole < n && n - hole <= self.next - self.end {
            self.lift();
        }
    }

    /// Moves what is left of the left part up to the right one.
    #[inline(always)]
    fn lift(&mut self)
        ensures { Shows (list_name self.old) (built_items self.old) (left_items self.old)
            (right_items self.old) self.new }
    {
        let gap = self.next - self.end;
        move_up(self.list, self.start, self.end, self.next);
        self.start += gap;
        self.end = self.next;
    }

    /// Trades `n` elements of the right part into the hole, which is long enough.
    #[inline(always)]
    fn trade(&mut self, n: usize)
        requires right { n ≤ length (right_items self.old) }
        requires hole { self.old.built + n ≤ self.old.start }
        ensures { Shows (list_name self.old) (built_items self.old ++ take n (right_items self.old))
            (left_items self.old) (drop n (right_items self.old)) self.new }
    {
        trade_runs(self.list, self.built, self.next, n);
        self.built += n;
        self.next += n;
    }

    /// Rotates `n` elements of the right part before all that is between.
    #[inline(always)]
    fn turn(&mut self, n: usize)
        requires { n ≤ length (right_items self.old) }
        ensures { Shows (list_name self.old) (built_items self.old ++ take n (right_items self.old))
            (left_items self.old) (drop n (right_items self.old)) self.new }
    {
        turn_runs(self.list, self.built, self.next, n);
        self.built += n;
        self.start += n;
        self.end += n;
        self.next += n;
    }
}

impl<'a, T> MergeState for PartsState<'a, T> {
    ghost use Rattle.vc_merge.specs.PartsViews.{left_items, right_items};

    type A = T;

    type B = T;

    ghost left = { left_items };

    ghost right = { right_items };

    #[inline(always)]
    fn a_slice(&self) -> &[T] {
        &self.list[self.start..self.end]
    }

    #[inline(always)]
    fn b_slice(&self) -> &[T] {
        &self.list[self.next..]
    }
}

impl<'a, T> MergeStateMut for PartsState<'a, T> {
    ghost use Rattle.vc_merge.specs.PartsViews.{built_items, left_items, list_name};

    ghost ready = { λ _. Unit {0} };

    ghost advances_a = { λ s n take answer t. IsOk answer
        × Advances built_items list_name (λ x y. x ≡ y) left_items s n take answer t };

    ghost skips_b = { λ s n answer t. IsOk answer × Skips built_items list_name s answer t };

    #[inline(always)]
    fn advance_a(&mut self, n: usize, take: bool) -> Result<bool, AllocError> {
        if take {
            self.take_left(n);
        } else {
            self.skip_left(n);
        }
        Ok(true)
    }

    #[inline(always)]
    fn skip_b(&mut self, n: usize) -> Result<bool, AllocError> {
        self.skip_right(n);
        Ok(true)
    }
}

impl<'a, T> MergeFromRight for PartsState<'a, T> {
    ghost use Rattle.vc_merge.specs.PartsViews.{built_items, right_items, list_name};

    ghost takes_b = { λ s n answer t. IsOk answer
        × Advances built_items list_name (λ x y. x ≡ y) right_items s n true answer t };

    #[inline(always)]
    fn take_b(&mut self, n: usize) -> Result<bool, AllocError> {
        self.take_right(n);
        Ok(true)
    }

    #[inline(always)]
    fn take_lesser(&mut self, heads: Ordering, both: bool) -> Result<bool, AllocError> {
        if self.hole() > 0 {
            self.pass_lesser(heads, both);
        } else {
            self.move_lesser(heads, both);
        }
        Ok(true)
    }
}

/// Makes room for `n` more elements, and puts a gap of blanks between the elements of `list` and
/// that room.
///
/// The gap is long enough that what is left of the left part moves up a few times at most, wherever
/// the elements of the right one belong. Where the `n` elements fit, it can't be refused. A list on
/// the heap whose parts are both long may have no room for the gap. It then asks for more; where
/// that is refused, the gap takes what room there is.
///
/// # Errors
///
/// Where the `n` elements don't fit and memory is refused; the list is then unchanged. It asks at
/// most once.
pub fn open_gap<T: MadeWith<A> + Drop, const N: usize, A: Allocator + Copy>(
    list: &mut SmallVec<T, N, A>,
    n: usize,
) -> Result<(), AllocError>
    ensures room { OnOk result (HasRoomFor list.new n) }
    ensures front { OnOk result (take (small_vec_len list.old) list.new.items ≡ list.old.items) }
    ensures gap { OnOk result (small_vec_len list.old ≤ small_vec_len list.new) }
    ensures fits { HasRoomFor list.old n → IsOk result }
    ensures few { small_vec_len list.old + n ≤ N → IsOk result }
    ensures err { OnErr result (list.new ≡ list.old) }
{
    let gap = gap_between(list.len(), n);
    let room = list.capacity() - list.len();
    if room < n {
        list.reserve(n.saturating_add(gap))?;
    } else if room - n < gap && list.spilled() && list.len().min(n) > SHORT_GAP {
        let _refused = list.reserve(n.saturating_add(gap)).is_err();
    }
    let spare = list.capacity() - list.len() - n;
    push_blanks(list, spare.min(gap));
    Ok(())
}

/// How long the gap between parts of these lengths should be.
fn gap_between(left: usize, right: usize) -> usize {
    right.min(SHORT_GAP.max(left.min(right) / GAP_SHARE))
}

/// Pushes `n` blanks, for which there is room.
fn push_blanks<T: MadeWith<A> + Drop, const N: usize, A: Allocator + Copy>(
    list: &mut SmallVec<T, N, A>,
    n: usize,
)
    requires { HasRoomFor list.old n }
    ensures front { take (small_vec_len list.old) list.new.items ≡ list.old.items }
    ensures len { small_vec_len list.new ≡ small_vec_len list.old + n }
    ensures capacity { list.new.capacity ≡ list.old.capacity }
{
    let alloc = *list.allocator();
    for added in 0..n {
        list.push_reserved(T::made_with(alloc));
    }
}

/// Moves the elements from `start` to `end` up to the place `next`. Those that were between end up
/// before them, in any order.
fn move_up<T>(list: &mut [T], start: usize, end: usize, next: usize)
    requires order { start ≤ end }
    requires gap { end ≤ next }
    requires within { next ≤ length list.old }
    ensures { MovesUp list.old start end next list.new }
{
    let len = end - start;
    if len > next - end {
        return list[start..next].rotate_left(len);
    }
    let (front, back) = list.split_at_mut(next - len);
    front[start..end].swap_with_slice(&mut back[..len]);
}

/// Moves the `n` elements from the place `next` on down to the place `at`. Those that were between
/// move up after them.
fn turn_runs<T>(list: &mut [T], at: usize, next: usize, n: usize)
    requires order { at ≤ next }
    requires within { next + n ≤ length list.old }
    ensures { Turns list.old at next n list.new }
{
    list[at..next + n].rotate_left(next - at);
}

/// Swaps the `n` elements from the place `next` on with those from `at` on.
fn trade_runs<T>(list: &mut [T], at: usize, next: usize, n: usize)
    requires apart { at + n ≤ next }
    requires within { next + n ≤ length list.old }
    ensures { Trades list.old at next n list.new }
{
    let (front, back) = list.split_at_mut(next);
    front[at..at + n].swap_with_slice(&mut back[..n]);
}

/// The place of the lesser of two elements that compare as `order`, or of the left one of two equal
/// ones.
///
/// It is read from an array of both places: an `if` compiles to a branch where the element at the
/// place is loaded next.
#[inline(always)]
fn place_of_lesser(order: Ordering, left: usize, right: usize) -> usize
    ensures { result ≡ lesser_place order left right }
{
    [left, right][usize::from(order.is_gt())]
}

/// Swaps the element at the place `next` with the one at `at`.
#[inline(always)]
fn trade_one<T>(list: &mut [T], at: usize, next: usize)
    requires apart { at < next }
    requires within { next < length list.old }
    ensures { Trades list.old at next 1 list.new }
{
    list.swap(at, next);
}

/// Replaces the element at a place by `value`, and returns it.
fn replace_at<T>(list: &mut [T], at: usize, value: T) -> T
    requires { at < length list.old }
    ensures old { drop at list.old ≡ result ∷ drop (at + 1) list.old }
    ensures new { list.new ≡ slice_set list.old at value }
{
    mem::replace(&mut list[at], value)
}

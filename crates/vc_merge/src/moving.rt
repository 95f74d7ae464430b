//! The state of a merge that sifts its left list: what it takes moves to the front, and nothing is
//! cloned.
ghost use Rattle.std.specs.Prelude.{◌≡◌, ◌+◌, ◌<◌, ◌≤◌, [], ◌∷◌, ◌++◌, List, insert, IsOk, OnOk, OnErr, length, take};
ghost use Rattle.core.specs.Mem.Slots.{IsFull, Refills, slots_items, slots_len};
ghost use Rattle.smallvec.specs.SmallVec.{HasRoomFor};
ghost use Rattle.vc_merge.specs.Building.{Advances, Skips};
ghost use Rattle.vc_merge.specs.MovesDown.{MovesDown};

use crate::merge::{MergeState, MergeStateMut};
use core::slots::{Slots, with_slots};
use smallvec::SmallVec;
use std::alloc::{AllocError, Allocator};
use std::default::MadeWith;

/// The least length of a long run.
const LONG_RUN: usize = 64;

/// Moves the `n` elements from the place `at` on down to the place `kept`. Those that were between
/// end up after them.
///
/// A long run that is no shorter than the gap is moved as a whole, which costs one move for each
/// element of the run and of the gap. Otherwise each element is swapped down, which costs nothing
/// for the elements between.
pub(crate) fn move_down<T>(list: &mut [T], kept: usize, at: usize, n: usize)
    requires order { kept ≤ at }
    requires within { at + n ≤ length list.old }
    ensures { MovesDown list.old kept at n list.new }
{
    if kept == at {
        return;
    }
    let gap = at - kept;
    if n >= LONG_RUN && n >= gap {
        return list[kept..at + n].rotate_left(gap);
    }
    for moved in 0..n {
        list.swap(kept + moved, at + moved);
    }
}

/// Moves the last element to a place, and the elements from that place on up by one.
fn turn_in<T>(list: &mut [T], place: usize)
    requires { place < length list.old }
    ensures { (xs : List T) (x : T) → list.old ≡ xs ++ x ∷ [] → list.new ≡ insert xs place x }
{
    if place + 1 < list.len() {
        turn(&mut list[place..]);
    }
}

/// Moves the last element to the front, and the others up by one. It is kept out of line, where the
/// loop that moves them compiles to `memmove`.
#[inline(never)]
fn turn<T>(list: &mut [T])
    requires { 0 < length list.old }
    ensures { (xs : List T) (x : T) → list.old ≡ xs ++ x ∷ [] → list.new ≡ x ∷ xs }
{
    let mut nothing = ();
    unsafe { with_slots(list, &mut nothing, (), last_to_first) }
}

/// Does the same in a row of places, each of which has a value before and after.
#[inline(always)]
fn last_to_first<T>(mut row: Slots<T>, state: (), _given: ()) -> (Slots<T>, (), ())
    requires { IsFull row × (0 < slots_len row) }
    ensures full { Refills row result.0 }
    ensures turned { (xs : List T) (x : T) → slots_items row ≡ xs ++ x ∷ []
        → slots_items result.0 ≡ x ∷ xs }
{
    let last = row.len() - 1;
    let element = row.take(last);
    row.move_within(0, 1, last);
    row.put(0, element);
    (row, state, ())
}

/// Inserts an element at a place of a list, before the elements from that place on.
///
/// It is pushed at the end and then rotated into its place, which moves the elements after it as
/// `memmove` does. It is not refused where the list holds fewer than `N`. Where it is refused, the
/// list is unchanged, and the element is dropped.
pub fn insert_at<T: MadeWith<A> + Drop, const N: usize, A: Allocator + Copy>(
    list: &mut SmallVec<T, N, A>,
    place: usize,
    element: T,
) -> Result<(), AllocError>
    requires { place ≤ length list.old.items }
    ensures ok { OnOk result (list.new.items ≡ insert list.old.items place element) }
    ensures succeeds { HasRoomFor list.old 1 → IsOk result }
    ensures few { length list.old.items < N → IsOk result }
    ensures err { OnErr result (list.new ≡ list.old) }
{
    if list.len() == list.capacity() {
        list.reserve(1)?;
    }
    list.push_reserved(element);
    turn_in(list.as_mut_slice(), place);
    Ok(())
}

/// A left list that is sifted in place, and a right one that is only looked at: what is taken of
/// the left list moves to its front.
///
/// It takes no memory, and no event is refused. What was skipped is still in the list, after what
/// was taken: the caller cuts it off.
#[derive(Drop)]
pub struct SiftState<'a, 'b, T, U> {
    list: &'a mut [T],
    kept: usize,
    at: usize,
    b: &'b [U],
    ghost order: { kept ≤ at },
    ghost within: { at ≤ length list.now },
}

impl<'a, 'b, T, U> SiftState<'a, 'b, T, U> {
    ghost use Rattle.vc_merge.specs.SiftViews.{lent_list, built_items, left_items, right_items};

    /// The list to sift, with nothing taken yet, and the list to look at.
    pub fn new(list: &'a mut [T], b: &'b [U]) -> Self
        ensures same_reference { lent_list result ≡ list.entry }
        ensures kept { built_items result ≡ [] }
        ensures left { left_items result ≡ list.old }
        ensures right { right_items result ≡ b.now }
    {
        SiftState {
            list,
            kept: 0,
            at: 0,
            b,
        }
    }

    /// How many elements were taken. They are the first ones of the list.
    pub fn kept(&self) -> usize
        ensures value { result ≡ length (built_items self.now) }
        ensures first { take result (lent_list self.now).now ≡ built_items self.now }
    {
        self.kept
    }
}

impl<'a, 'b, T, U> MergeState for SiftState<'a, 'b, T, U> {
    ghost use Rattle.vc_merge.specs.SiftViews.{left_items, right_items};

    type A = T;

    type B = U;

    ghost left = { left_items };

    ghost right = { right_items };

    fn a_slice(&self) -> &[T] {
        &self.list[self.at..]
    }

    fn b_slice(&self) -> &[U] {
        self.b
    }
}

impl<'a, 'b, T, U> MergeStateMut for SiftState<'a, 'b, T, U> {
    ghost use Rattle.vc_merge.specs.SiftViews.{built_items, left_items, list_name};

    ghost ready = { λ _. Unit {0} };

    ghost advances_a = { λ s n take answer t. IsOk answer
        × Advances built_items list_name (λ x y. x ≡ y) left_items s n take answer t };

    ghost skips_b = { λ s n answer t. IsOk answer × Skips built_items list_name s answer t };

    fn advance_a(&mut self, n: usize, take: bool) -> Result<bool, AllocError> {
        if take {
            move_down(self.list, self.kept, self.at, n);
            self.kept += n;
        }
        self.at += n;
        Ok(true)
    }

    fn skip_b(&mut self, n: usize) -> Result<bool, AllocError> {
        self.b = &self.b[n..];
        Ok(true)
    }
}

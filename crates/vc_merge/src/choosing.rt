//! A state that takes the lesser one of two first elements without a branch.
ghost use Rattle.std.specs.Prelude.{◌≡◌, ◌+◌, ◌<◌, ◌≤◌, true, take, drop, length, IfOk, OnOk};
ghost use Rattle.std.specs.declared.cmp.Ordering.TheVariants.{Less, Equal, Greater};
ghost use Rattle.std.specs.Int.{from_bool};
ghost use Rattle.smallvec.specs.Iter.{SmallVecFitsInMemory};
ghost use Rattle.smallvec.specs.SmallVec.{HasRoomFor};
ghost use Rattle.vc_merge.specs.Both.{taken_at};
ghost use Rattle.vc_merge.specs.Building.{Extends, Advances, Skips};

use crate::merge::{MergeFromRight, MergeState, MergeStateMut};
use crate::states::append_clones;
use smallvec::SmallVec;
use std::alloc::{AllocError, Allocator};
use std::cmp::Ordering;
use std::default::MadeWith;

/// How many elements room is made for at once.
const BLOCK: usize = 32;

/// Two slices with a position in each, and a list to which clones of their elements are appended.
/// The list has room for at least `room` more.
#[derive(Drop)]
pub struct ChoosingState<'a, T, const N: usize, A: Allocator> {
    a: &'a [T],
    b: &'a [T],
    left: usize,
    right: usize,
    room: usize,
    built: &'a mut SmallVec<T, N, A>,
}

impl<'a, T, const N: usize, A: Allocator> ChoosingState<'a, T, N, A> {
    ghost use Rattle.vc_merge.specs.ChoosingViews.{lent_list, left_items, right_items};

    /// The slices to merge, and the list to append to.
    #[inline(always)]
    pub fn new(a: &'a [T], b: &'a [T], built: &'a mut SmallVec<T, N, A>) -> Self
        ensures a { left_items result ≡ a.now }
        ensures b { right_items result ≡ b.now }
        ensures places { (result.left ≡ 0) × (result.right ≡ 0) × (result.room ≡ 0) }
        ensures same_reference { lent_list result ≡ built.entry }
    {
        ChoosingState {
            a,
            b,
            left: 0,
            right: 0,
            room: 0,
            built,
        }
    }
}

impl<'a, T, const N: usize, A: Allocator> MergeState for ChoosingState<'a, T, N, A> {
    ghost use Rattle.vc_merge.specs.ChoosingViews.{left_items, right_items};

    type A = T;

    type B = T;

    ghost left = { left_items };

    ghost right = { right_items };

    #[inline(always)]
    fn a_slice(&self) -> &[T] {
        match self.a.get(self.left..) {
            Some(rest) => rest,
            None => &[],
        }
    }

    #[inline(always)]
    fn b_slice(&self) -> &[T] {
        match self.b.get(self.right..) {
            Some(rest) => rest,
            None => &[],
        }
    }
}

impl<'a, T: Clone + MadeWith<A>, const N: usize, A: Allocator + Copy> MergeStateMut
    for ChoosingState<'a, T, N, A> {
    ghost use Rattle.vc_merge.specs.ChoosingViews.{built_items, left_items, list_name};

    ghost ready = { λ s. SmallVecFitsInMemory T.row N.row A.row A.Allocator
        × (0 < s.room → HasRoomFor s.built.now s.room)
        × (s.left ≤ length s.a.now) × (s.right ≤ length s.b.now) };

    ghost advances_a = { Advances built_items list_name T.is_clone left_items };

    ghost skips_b = { λ s n answer t. Skips built_items list_name s answer t };

    #[inline(always)]
    fn advance_a(&mut self, n: usize, take: bool) -> Result<bool, AllocError> {
        if !take {
            self.left = behind(self.a, self.left, n);
            return Ok(true);
        }
        self.room = 0;
        push_run(self.built, part(self.a, self.left, n))?;
        self.left = behind(self.a, self.left, n);
        Ok(true)
    }

    #[inline(always)]
    fn skip_b(&mut self, n: usize) -> Result<bool, AllocError> {
        self.right = behind(self.b, self.right, n);
        Ok(true)
    }

    #[inline(always)]
    fn take_left(&mut self, heads: Ordering, left: bool, both: bool) -> Result<bool, AllocError> {
        let is_kept = is_taken(heads, left, false, both);
        if !is_kept {
            self.left = passed(self.a, self.left, heads.is_le());
            self.right = passed(self.b, self.right, heads.is_ge());
            return Ok(true);
        }
        let item = self.a[self.left].clone()?;
        let room = self.room;
        self.room = 0;
        let room = room_for_some(self.built, room)?;
        self.built.push_reserved(item);
        self.room = room - 1;
        self.left = passed(self.a, self.left, heads.is_le());
        self.right = passed(self.b, self.right, heads.is_ge());
        Ok(true)
    }

    #[inline(always)]
    fn chooses_left() -> bool {
        true
    }
}

impl<'a, T: Clone + MadeWith<A>, const N: usize, A: Allocator + Copy> MergeFromRight
    for ChoosingState<'a, T, N, A> {
    ghost use Rattle.vc_merge.specs.ChoosingViews.{built_items, list_name, right_items};

    ghost takes_b = { λ s n answer t. Advances built_items list_name T.is_clone right_items s n true
        answer t };

    #[inline(always)]
    fn take_b(&mut self, n: usize) -> Result<bool, AllocError> {
        self.room = 0;
        push_run(self.built, part(self.b, self.right, n))?;
        self.right = behind(self.b, self.right, n);
        Ok(true)
    }

    #[inline(always)]
    fn take_lesser(&mut self, heads: Ordering, both: bool) -> Result<bool, AllocError> {
        if heads.is_eq() && !both {
            self.left += 1;
            self.right += 1;
            return Ok(true);
        }
        let item = lesser(heads, &self.a[self.left], &self.b[self.right]).clone()?;
        let room = self.room;
        self.room = 0;
        let room = room_for_some(self.built, room)?;
        self.built.push_reserved(item);
        self.room = room - 1;
        self.left = passed(self.a, self.left, heads.is_le());
        self.right = passed(self.b, self.right, heads.is_ge());
        Ok(true)
    }
}

/// Whether an element is taken when the first elements of both lists compare as `heads`: `left`
/// decides for a left element alone, `right` for a right one alone, and `both` for two equal ones.
#[inline(always)]
fn is_taken(heads: Ordering, left: bool, right: bool, both: bool) -> bool
    ensures { result ≡ taken_at heads left right both }
{
    match heads {
        Ordering::Less => left,
        Ordering::Equal => both,
        Ordering::Greater => right,
    }
}

/// The place after one more element, if that element is passed.
#[inline(always)]
pub fn passed<T>(items: &[T], place: usize, is_passed: bool) -> usize
    requires { place < length items.now }
    ensures place { result ≡ place + from_bool is_passed }
    ensures within { result ≤ length items.now }
{
    if is_passed { place + 1 } else { place }
}

/// The lesser of two elements that compare as `order`, or the left one of two equal ones.
#[inline(always)]
pub fn lesser<'a, T>(order: Ordering, left: &'a T, right: &'a T) -> &'a T
    ensures lesser { order ≡ Less → result.now ≡ left.now }
    ensures equal { order ≡ Equal → result.now ≡ left.now }
    ensures greater { order ≡ Greater → result.now ≡ right.now }
{
    if order.is_le() { left } else { right }
}

/// How many more elements the list has room for. It had room for `room`: where that may be none,
/// the list is asked, and grows if it is full.
#[inline(always)]
fn room_for_some<T: MadeWith<A> + Drop, const N: usize, A: Allocator + Copy>(
    built: &mut SmallVec<T, N, A>,
    room: usize,
) -> Result<usize, AllocError>
    requires { 0 < room → HasRoomFor built.old room }
    ensures items { built.new.items ≡ built.old.items }
    ensures some { IfOk result (λ n. 0 < n) }
    ensures room { IfOk result (λ n. HasRoomFor built.new n) }
{
    if room > 0 {
        return Ok(room);
    }
    if built.len() == built.capacity() {
        built.reserve(BLOCK)?;
    }
    Ok(BLOCK.min(built.capacity() - built.len()))
}

/// The `n` elements from `place` on.
#[inline(always)]
pub fn part<'a, T>(items: &'a [T], place: usize, n: usize) -> &'a [T]
    requires place { place ≤ length items.now }
    requires within { n ≤ length (drop place items.now) }
    ensures { result.now ≡ take n (drop place items.now) }
{
    let rest = &items[place..];
    &rest[..n]
}

/// The place after `n` more elements.
#[inline(always)]
pub fn behind<T>(items: &[T], place: usize, n: usize) -> usize
    requires place { place ≤ length items.now }
    requires within { n ≤ length (drop place items.now) }
    ensures place { result ≡ place + n }
    ensures within { result ≤ length items.now }
{
    let rest = &items[place..];
    items.len() - (rest.len() - n)
}

/// Appends a clone of each of `items`, with one check of the room.
#[inline(never)]
fn push_run<T: Clone + MadeWith<A>, const N: usize, A: Allocator + Copy>(
    built: &mut SmallVec<T, N, A>,
    items: &[T],
) -> Result<(), AllocError>
    ensures { OnOk result (Extends T.is_clone items.now built.old.items built.new.items) }
{
    built.reserve(items.len())?;
    append_clones(built, items)
}

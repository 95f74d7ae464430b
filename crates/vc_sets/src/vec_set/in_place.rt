//! Set operations in place. Elements of the left set are moved and never cloned; of two equal
//! elements the left one itself is kept.
ghost use Rattle.std.specs.Prelude.{◌≡◌, ◌+◌, ◌≤◌, ◌||◌, ◌&&◌, false, true, not, take, drop, length, List, IsFalse, IsOk, OnErr, OnOk};
ghost use Rattle.std.specs.Iterator.{Drains, IsFinite};
ghost use Rattle.std.specs.Iterator.Runs.{WholeRun};
ghost use Rattle.vc_merge.specs.Ascending.{Ascends};
ghost use Rattle.vc_merge.specs.Clones.{ClonesAreEqual};
ghost use Rattle.vc_sets.specs.SetOf.{IsSetOf, and_not, exactly_one};
ghost use Rattle.vc_sets.specs.Algebra.{made_by};
ghost use Rattle.vc_sets.specs.Select.{keeps};

use crate::operations::{EitherOp, LeftOp};
use crate::vec_set::{AbstractVecSet, SetOp, VecSet};
use smallvec::SmallVec;
use std::alloc::{AllocError, Allocator};
use std::default::MadeWith;
use std::ops::{BitAndAssign, SubAssign};
use vc_merge::iterators::SortedByItem;
use vc_merge::lists::append_moved;
use vc_merge::merge::{Uncounted, merge};
use vc_merge::moving::SiftState;
use vc_merge::parts::{PartsState, open_gap};
use vc_merge::states::append_clones;

/// Moves to the front of the left list what is in both lists if `SHARED`, and what is only in the
/// left one otherwise. Answers how many they are.
fn sift<const SHARED: bool, T: Ord>(list: &mut [T], that: &[T]) -> usize
    requires left_ascends { Ascends T.cmp list.old }
    requires right_ascends { Ascends T.cmp that.now }
    ensures { IsSetOf T.cmp (λ x y. x ≡ y) (λ x y. x ≡ y) (keeps (not SHARED) false SHARED) list.old
        that.now (take result list.new) }
{
    let mut state = SiftState::new(list, that);
    let _never_refused = merge(&mut state, &LeftOp::<SHARED>, &mut Uncounted);
    state.kept()
}

/// Moves to the front of a list what is in only one of its two parts and, if `SHARED`, the left one
/// of what is in both. The parts are its first `end` elements and those from `next` on. Answers how
/// many they are.
fn join<const SHARED: bool, T: Ord>(list: &mut [T], end: usize, next: usize) -> usize
    requires order { end ≤ next }
    requires within { next ≤ length list.old }
    requires left_ascends { Ascends T.cmp (take end list.old) }
    requires right_ascends { Ascends T.cmp (drop next list.old) }
    ensures { IsSetOf T.cmp (λ x y. x ≡ y) (λ x y. x ≡ y) (keeps true true SHARED)
        (take end list.old) (drop next list.old) (take result list.new) }
{
    let mut state = PartsState::new(list, end, next);
    let _never_refused = merge(&mut state, &EitherOp::<SHARED>, &mut Uncounted);
    state.kept()
}

/// Replaces the left list by what is in only one list and, if `SHARED`, the left one of what
/// is in both. All elements are moved. The only allocation comes before the first move.
fn absorb<
    const SHARED: bool,
    T: Ord + MadeWith<A> + Drop,
    const N: usize,
    const M: usize,
    A: Allocator + Copy,
>(list: &mut SmallVec<T, N, A>, that: SmallVec<T, M, A>) -> Result<(), AllocError>
    requires left_ascends { Ascends T.cmp list.old.items }
    requires right_ascends { Ascends T.cmp that.items }
    ensures ok { OnOk result (IsSetOf T.cmp (λ x y. x ≡ y) (λ x y. x ≡ y) (keeps true true SHARED)
        list.old.items that.items list.new.items) }
    ensures room { length list.old.items + length that.items ≤ N → IsOk result }
    ensures err { OnErr result (list.new.items ≡ list.old.items) }
{
    let end = list.len();
    open_gap(list, that.len())?;
    let next = list.len();
    append_moved(list, that);
    let kept = join::<SHARED, _>(list.as_mut_slice(), end, next);
    list.truncate(kept);
    Ok(())
}

/// Does the same with clones of the elements of the right list. The only allocation and all clones
/// come before the first move.
fn unite<
    const SHARED: bool,
    T: Ord + Clone + MadeWith<A> + Drop,
    const N: usize,
    A: Allocator + Copy,
>(list: &mut SmallVec<T, N, A>, that: &[T]) -> Result<(), AllocError>
    requires left_ascends { Ascends T.cmp list.old.items }
    requires right_ascends { Ascends T.cmp that.now }
    requires clones { ClonesAreEqual T.cmp T.is_clone }
    ensures ok { OnOk result (IsSetOf T.cmp (λ x y. x ≡ y) T.is_clone (keeps true true SHARED)
        list.old.items that.now list.new.items) }
    ensures err { OnErr result (list.new.items ≡ list.old.items) }
{
    let end = list.len();
    open_gap(list, that.len())?;
    let next = list.len();
    let cloned = append_clones(list, that);
    if cloned.is_err() {
        list.truncate(end);
        return cloned;
    }
    let kept = join::<SHARED, _>(list.as_mut_slice(), end, next);
    list.truncate(kept);
    Ok(())
}

impl<T: Ord + MadeWith<A> + Drop, const N: usize, A: Allocator + Copy> VecSet<T, N, A> {
    /// Adds the elements of the other set, which are moved. Of two equal elements the left one
    /// stays.
    ///
    /// It allocates at most once, and can't be refused where both sets fit together: then it
    /// allocates only if both are long and little room is left. It makes at most as many
    /// comparisons as both sets have elements. Where memory is refused, this set is unchanged, and
    /// the other one is dropped.
    pub fn bitor_assign<const M: usize>(&mut self, that: VecSet<T, M, A>) -> Result<(), AllocError>
        ensures union { OnOk result
            (IsSetOf T.cmp (λ x y. x ≡ y) (λ x y. x ≡ y) ◌||◌ self.old that self.new) }
        ensures room { length self.old + length that ≤ N → IsOk result }
        ensures err { OnErr result (self.new ≡ self.old) }
    {
        absorb::<true, _, _, _, _>(&mut self.elements, that.into_inner())
    }

    /// Keeps what is in exactly one of the sets: drops what is in both, and moves in what is only
    /// in the other set.
    ///
    /// It allocates at most once, and can't be refused where both sets fit together: then it
    /// allocates only if both are long and little room is left. It makes at most as many
    /// comparisons as both sets have elements. Where memory is refused, this set is unchanged, and
    /// the other one is dropped.
    pub fn bitxor_assign<const M: usize>(&mut self, that: VecSet<T, M, A>) -> Result<(), AllocError>
        ensures symmetric_difference { OnOk result
            (IsSetOf T.cmp (λ x y. x ≡ y) (λ x y. x ≡ y) exactly_one self.old that self.new) }
        ensures room { length self.old + length that ≤ N → IsOk result }
        ensures err { OnErr result (self.new ≡ self.old) }
    {
        absorb::<false, _, _, _, _>(&mut self.elements, that.into_inner())
    }

    /// Replaces this set by the result of `op` on the two sets. What stays is moved; of two equal
    /// elements the left one stays.
    ///
    /// A union or a symmetric difference grows as [`bitor_assign`](VecSet::bitor_assign) does. The
    /// other two take no memory. It makes at most as many comparisons as both sets have elements.
    /// Where memory is refused, this set is unchanged, and the other one is dropped.
    ///
    /// ```
    /// tags.combine_with(retired, SetOp::Difference)?;
    /// ```
    pub fn combine_with<const M: usize>(
        &mut self,
        that: VecSet<T, M, A>,
        op: SetOp,
    ) -> Result<(), AllocError>
        ensures combined { OnOk result
            (IsSetOf T.cmp (λ x y. x ≡ y) (λ x y. x ≡ y) (made_by op) self.old that self.new) }
        ensures succeeds { IsFalse (made_by op false true) → IsOk result }
        ensures err { OnErr result (self.new ≡ self.old) }
    {
        match op {
            SetOp::Union => self.bitor_assign(that)?,
            SetOp::Intersection => *self &= that,
            SetOp::SymmetricDifference => self.bitxor_assign(that)?,
            SetOp::Difference => *self -= that,
        }
        Ok(())
    }

    /// Adds the items of an iterator that ascends strictly and ends, which are moved. Of two equal
    /// elements the left one stays.
    ///
    /// The items become a set first, which grows as `from_iter` does; then this one allocates at
    /// most once. It makes at most as many comparisons as there are elements and items. Where
    /// memory is refused, the set is unchanged, and the items that came and the iterator are
    /// dropped.
    pub fn extend<I: Iterator<Item = T> + SortedByItem>(
        &mut self,
        iter: I,
    ) -> Result<(), AllocError>
        requires can { I.can_next iter }
        requires ends { IsFinite (I.remaining iter) }
        requires sorted { I.is_sorted iter }
        ensures union { OnOk result ((items : List T) × Drains I.next_gives iter items
            × IsSetOf T.cmp (λ x y. x ≡ y) (λ x y. x ≡ y) ◌||◌ self.old items self.new) }
        ensures runs { OnOk result (WholeRun I.next_gives iter
            (λ p. IsSetOf T.cmp (λ x y. x ≡ y) (λ x y. x ≡ y) ◌||◌ self.old p.items self.new)) }
        ensures err { OnErr result (self.new ≡ self.old) }
    {
        let that: VecSet<T, N, A> = VecSet::from_iter(*self.elements.allocator(), iter)?;
        self.bitor_assign(that)
    }

    /// Keeps what is in the other set too, and drops the rest. An element that stays is the old
    /// one. Takes no memory, and makes at most as many comparisons as both sets have elements.
    pub fn intersection_with<S: AbstractVecSet<T>>(&mut self, that: &S)
        ensures { IsSetOf T.cmp (λ x y. x ≡ y) (λ x y. x ≡ y) ◌&&◌ self.old (S.elements that.now)
            self.new }
    {
        let kept = sift::<true, _>(self.elements.as_mut_slice(), that.as_slice());
        self.elements.truncate(kept);
    }

    /// Keeps what is not in the other set, and drops the rest. Takes no memory, and makes at most
    /// as many comparisons as both sets have elements.
    pub fn difference_with<S: AbstractVecSet<T>>(&mut self, that: &S)
        ensures { IsSetOf T.cmp (λ x y. x ≡ y) (λ x y. x ≡ y) and_not self.old (S.elements that.now)
            self.new }
    {
        let kept = sift::<false, _>(self.elements.as_mut_slice(), that.as_slice());
        self.elements.truncate(kept);
    }
}

impl<T: Ord + Clone + MadeWith<A> + Drop, const N: usize, A: Allocator + Copy> VecSet<T, N, A> {
    /// Adds what is in the other set, as clones. Of two equal elements the left one stays.
    ///
    /// It allocates at most once, and can't be refused where both sets fit together: then it
    /// allocates only if both are long and little room is left. It makes at most as many
    /// comparisons as both sets have elements. Where memory or a clone is refused, the set is
    /// unchanged.
    ///
    /// ```
    /// tags.union_with(&more)?;
    /// assert!(rt; more.is_subset(&tags));
    /// ```
    pub fn union_with<S: AbstractVecSet<T>>(&mut self, that: &S) -> Result<(), AllocError>
        requires clones { ClonesAreEqual T.cmp T.is_clone }
        ensures union { OnOk result
            (IsSetOf T.cmp (λ x y. x ≡ y) T.is_clone ◌||◌ self.old (S.elements that.now) self.new) }
        ensures err { OnErr result (self.new ≡ self.old) }
    {
        unite::<true, _, _, _>(&mut self.elements, that.as_slice())
    }

    /// Keeps what is in exactly one of the sets: drops what is in both, and adds clones of what is
    /// only in the other set.
    ///
    /// It allocates at most once, and can't be refused where both sets fit together: then it
    /// allocates only if both are long and little room is left. It makes at most as many
    /// comparisons as both sets have elements. Where memory or a clone is refused, the set is
    /// unchanged.
    pub fn xor_with<S: AbstractVecSet<T>>(&mut self, that: &S) -> Result<(), AllocError>
        requires clones { ClonesAreEqual T.cmp T.is_clone }
        ensures symmetric_difference { OnOk result
            (IsSetOf T.cmp (λ x y. x ≡ y) T.is_clone exactly_one self.old (S.elements that.now)
            self.new) }
        ensures err { OnErr result (self.new ≡ self.old) }
    {
        unite::<false, _, _, _>(&mut self.elements, that.as_slice())
    }
}

/// `a &= &b` keeps what is in `b` too, as [`intersection_with`](VecSet::intersection_with) does.
/// Takes no memory.
impl<
    'b,
    T: Ord + MadeWith<A> + Drop,
    const N: usize,
    const M: usize,
    A: Allocator + Copy,
> BitAndAssign<&'b VecSet<T, M, A>> for VecSet<T, N, A> {
    ghost bitand_assign_gives = { λ a b c. IsSetOf T.cmp (λ x y. x ≡ y) (λ x y. x ≡ y) ◌&&◌
        a b.now c };

    fn bitand_assign(&mut self, that: &'b VecSet<T, M, A>) {
        self.intersection_with(that);
    }
}

/// `a -= &b` keeps what is not in `b`, as [`difference_with`](VecSet::difference_with) does. Takes
/// no memory.
impl<
    'b,
    T: Ord + MadeWith<A> + Drop,
    const N: usize,
    const M: usize,
    A: Allocator + Copy,
> SubAssign<&'b VecSet<T, M, A>> for VecSet<T, N, A> {
    ghost sub_assign_gives = { λ a b c. IsSetOf T.cmp (λ x y. x ≡ y) (λ x y. x ≡ y) and_not
        a b.now c };

    fn sub_assign(&mut self, that: &'b VecSet<T, M, A>) {
        self.difference_with(that);
    }
}

/// `a &= b` keeps what is in `b` too, and drops `b`. Takes no memory.
impl<T: Ord + MadeWith<A> + Drop, const N: usize, const M: usize, A: Allocator + Copy> BitAndAssign<
    VecSet<T, M, A>,
> for VecSet<T, N, A> {
    ghost bitand_assign_gives = { λ a b c. IsSetOf T.cmp (λ x y. x ≡ y) (λ x y. x ≡ y) ◌&&◌ a b c };

    fn bitand_assign(&mut self, that: VecSet<T, M, A>) {
        self.intersection_with(&that);
    }
}

/// `a -= b` keeps what is not in `b`, and drops `b`. Takes no memory.
impl<T: Ord + MadeWith<A> + Drop, const N: usize, const M: usize, A: Allocator + Copy> SubAssign<
    VecSet<T, M, A>,
> for VecSet<T, N, A> {
    ghost sub_assign_gives = { λ a b c. IsSetOf T.cmp (λ x y. x ≡ y) (λ x y. x ≡ y) and_not a b c };

    fn sub_assign(&mut self, that: VecSet<T, M, A>) {
        self.difference_with(&that);
    }
}

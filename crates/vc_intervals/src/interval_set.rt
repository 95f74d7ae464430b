//! `IntervalSet`, a set of half-open intervals over an ordered type.
ghost use Rattle.std.specs.Prelude.{◌≡◌, ◌≤◌, ◌↔◌, ◌⊎◌, ⊤, [], ◌∷◌, true, false, not, cond, IfOk, IfSome, IsNone, IsOk, IsTrue};
ghost use Rattle.std.specs.BTreeMap.Range.{range_contains};
ghost use Rattle.std.specs.List.{AllByRecursion, Contains};
ghost use Rattle.std.specs.Ordering.{is_le, is_lt};
ghost use Rattle.std.specs.Range.Bound.{IsExcludedAnd, IsIncludedAnd};
ghost use Rattle.std.specs.declared.ops.Bound.{Bound};
ghost use Rattle.std.specs.declared.ops.Bound.TheVariants.{Included, Excluded, Unbounded};
ghost use Rattle.vc_merge.specs.Ascending.{Ascends};
ghost use Rattle.vc_merge.specs.Clones.{ClonesAreEqual};
ghost use Rattle.vc_merge.specs.Cuts.{IsCut};
ghost use Rattle.vc_sets.specs.SetOf.{exactly_one};
ghost use Rattle.vc_intervals.specs.Events.{odd};
ghost use Rattle.vc_intervals.specs.Listed.{listed};
ghost use Rattle.vc_intervals.specs.Boundaries.{intervals, holds, complement, IsClonedIntervals};

mod algebra;
mod changes;
mod comparisons;
mod iteration;
mod lookups;
mod ranges;

use crate::combine::is_odd;
pub use iteration::IntervalSetIter;
use smallvec::SmallVec;
use std::alloc::{AllocError, Allocator, Global};
use std::default::MadeWith;
use std::marker::Model;
use std::ops::{Bound, Not};
use vc_merge::search::find;
use vc_merge::states::clones_of;
use vc_sets::cloning::ClonesEqual;

/// A set of half-open intervals of an ordered type, kept as the places at which membership changes,
/// its boundaries.
///
/// Contracts see it as the list of these boundaries, in ascending order, and whether the set has
/// what lies below all of them. A value is in the set where that answer, negated once for each
/// boundary at or below the value, is true. The interval from 3 on that ends before 7 has the
/// boundaries 3 and 7. Up to `N` boundaries are held inline, without an allocation.
///
/// ```
/// let open: IntervalSet<u16, 4> = (&IntervalSet::between(alloc, 9, 17)? - &lunch)?;
/// assert!(rt; open.contains(&9) && !open.contains(&17));
/// ```
#[derive(Drop)]
pub struct IntervalSet<T: Ord, const N: usize, A: Allocator = Global> {
    boundaries: SmallVec<T, N, A>,
    below: bool,
}

impl<T: Ord, const N: usize, A: Allocator> Model for IntervalSet<T, N, A> {
    ghost use Rattle.vc_intervals.specs.Boundaries.{Intervals, intervals, intervals_code};
    ghost use Rattle.vc_merge.specs.Ascending.{Ascends};

    ghost Value = { Intervals T };

    ghost coded = { intervals_code T.code };

    ghost view = { λ s. intervals s.boundaries.items s.below };

    ghost invariant = { λ s. Ascends T.cmp s.boundaries.items };
}

impl<T: Ord, const N: usize, A: Allocator> IntervalSet<T, N, A> {
    /// The places at which membership changes, in ascending order. Takes no memory.
    pub fn boundaries(&self) -> &[T]
        ensures boundaries { result.now ≡ self.now.boundaries }
        ensures ascends { Ascends T.cmp self.now.boundaries }
    {
        self.boundaries.as_slice()
    }

    /// Whether the set has what lies below all boundaries. Takes no memory.
    pub fn is_unbounded_below(&self) -> bool
        ensures { result ≡ self.now.below }
    {
        self.below
    }

    /// Whether the set has what lies above all boundaries: then its last interval has no end. Takes
    /// no memory.
    pub fn is_unbounded_above(&self) -> bool
        ensures holds { (x : T) → AllByRecursion (λ t. is_le (T.cmp t x) ≡ true) self.now.boundaries
            → result ≡ holds T.cmp self.now x }
        ensures listed { IsTrue result
            ↔ ((start : Bound T) × Contains (listed self.now) (start, Unbounded)) }
    {
        self.has_behind(self.boundaries().len())
    }

    /// Whether the set has no boundary, and nothing below all boundaries. Takes no memory.
    pub fn is_empty(&self) -> bool
        ensures { IsTrue result ↔ (self.now ≡ intervals [] false) }
    {
        !self.below && self.boundaries.is_empty()
    }

    /// Whether the set has no boundary, and all values. Takes no memory.
    pub fn is_all(&self) -> bool
        ensures { IsTrue result ↔ (self.now ≡ intervals [] true) }
    {
        self.boundaries.is_empty() && self.below
    }

    /// How many boundaries are at or below a value.
    fn reached(&self, value: &T) -> usize
        ensures { IsCut (λ t. is_le (T.cmp t value.now)) self.now.boundaries result }
    {
        match find(self.boundaries(), value) {
            Ok(place) => place + 1,
            Err(place) => place,
        }
    }

    /// Whether the set has what lies after the first `count` of its boundaries, and before the next
    /// one.
    fn has_behind(&self, count: usize) -> bool
        ensures { result ≡ exactly_one (odd count) self.now.below }
    {
        self.below ^ is_odd(count)
    }

    /// Whether a value is in the set. Searches the boundaries once, with fewer than `1.5 * log2(n)
    /// + 4` comparisons among `n` of them, and takes no memory.
    pub fn contains(&self, value: &T) -> bool
        ensures { result ≡ holds T.cmp self.now value.now }
    {
        self.has_behind(self.reached(value))
    }
}

impl<T: Ord + MadeWith<A> + Drop, const N: usize, A: Allocator + Copy> IntervalSet<T, N, A> {
    /// The set of all values if `value`, and otherwise the empty set. Takes no memory.
    pub fn constant(alloc: A, value: bool) -> Self
        ensures { result ≡ intervals [] value }
    {
        IntervalSet {
            boundaries: SmallVec::new(alloc),
            below: value,
        }
    }

    /// The empty set. Takes no memory.
    pub fn empty(alloc: A) -> Self
        ensures { result ≡ intervals [] false }
    {
        Self::constant(alloc, false)
    }

    /// The set of all values. Takes no memory.
    pub fn all(alloc: A) -> Self
        ensures { result ≡ intervals [] true }
    {
        Self::constant(alloc, true)
    }

    /// Gives back memory that the boundaries do not need. Where the allocator refuses, the list
    /// stays where it is, so the call always succeeds.
    pub fn shrink_to_fit(&mut self) -> Result<(), AllocError>
        ensures same { self.new ≡ self.old }
        ensures succeeds { IsOk result }
    {
        self.boundaries.shrink_to_fit();
        Ok(())
    }

    /// The values from `least` on that are less than `end`: none, where `end` is not greater.
    ///
    /// The two values are moved. They are compared once. Takes memory only where `N` is less than
    /// 2; on refusal it drops them.
    pub fn between(alloc: A, least: T, end: T) -> Result<Self, AllocError>
        ensures boundaries { IfOk result (λ s. s ≡ cond (is_lt (T.cmp least end))
            (intervals (least ∷ end ∷ []) false) (intervals [] false)) }
        ensures holds { IfOk result (λ s. (x : T)
            → holds T.cmp s x ≡ range_contains T.cmp (Included least) (Excluded end) x) }
        ensures room { 2 ≤ N → IsOk result }
    {
        if !least.cmp(&end).is_lt() {
            return Ok(Self::empty(alloc));
        }
        let mut boundaries = SmallVec::with_capacity(alloc, 2)?;
        boundaries.push_reserved(least);
        boundaries.push_reserved(end);
        Ok(IntervalSet {
            boundaries,
            below: false,
        })
    }

    /// The values from `least` on, which is moved. Takes memory only where `N` is 0; on refusal it
    /// drops the value.
    pub fn at_least(alloc: A, least: T) -> Result<Self, AllocError>
        ensures boundaries { IfOk result (λ s. s ≡ intervals (least ∷ []) false) }
        ensures holds { IfOk result (λ s. (x : T)
            → holds T.cmp s x ≡ range_contains T.cmp (Included least) Unbounded x) }
        ensures room { 1 ≤ N → IsOk result }
    {
        let mut single = SmallVec::new(alloc);
        single.push(least)?;
        Ok(IntervalSet {
            boundaries: single,
            below: false,
        })
    }

    /// The values that are less than `end`, which is moved. Takes memory only where `N` is 0; on
    /// refusal it drops the value.
    pub fn below(alloc: A, end: T) -> Result<Self, AllocError>
        ensures boundaries { IfOk result (λ s. s ≡ intervals (end ∷ []) true) }
        ensures holds { IfOk result (λ s. (x : T)
            → holds T.cmp s x ≡ range_contains T.cmp Unbounded (Excluded end) x) }
        ensures room { 1 ≤ N → IsOk result }
    {
        Ok(!Self::at_least(alloc, end)?)
    }

    /// The values between two bounds, as [`iter`](IntervalSet::iter) lists them: from the start on,
    /// and less than the end. `None` where the start is excluded or the end included, since an
    /// order does not tell which value comes next.
    ///
    /// Their values are moved, or dropped. Two are compared once. Takes memory only where there are
    /// more than `N` of them.
    ///
    /// ```
    /// let open = IntervalSet::<u16, 4>::from_bounds(alloc, Bound::Included(9), Bound::Unbounded)?;
    /// assert!(rt; open == Some(IntervalSet::at_least(alloc, 9)?));
    /// ```
    pub fn from_bounds(alloc: A, start: Bound<T>, end: Bound<T>) -> Result<Option<Self>, AllocError>
        ensures none { IfOk result (λ made. IsNone made
            ↔ (IsExcludedAnd start (λ _. ⊤) ⊎ IsIncludedAnd end (λ _. ⊤))) }
        ensures listed { IfOk result (λ made. IfSome made
            (λ s. (listed s ≡ []) ⊎ (listed s ≡ (start, end) ∷ []))) }
        ensures holds { IfOk result (λ made. IfSome made
            (λ s. (x : T) → holds T.cmp s x ≡ range_contains T.cmp start end x)) }
        ensures below { IfOk result (λ made. IfSome made
            (λ s. IsTrue s.below ↔ (start ≡ Unbounded))) }
        ensures room { 2 ≤ N → IsOk result }
    {
        match (start, end) {
            (Bound::Excluded(_), _) => Ok(None),
            (_, Bound::Included(_)) => Ok(None),
            (Bound::Included(least), Bound::Excluded(end)) => {
                Ok(Some(Self::between(alloc, least, end)?))
            }
            (Bound::Included(least), Bound::Unbounded) => Ok(Some(Self::at_least(alloc, least)?)),
            (Bound::Unbounded, Bound::Excluded(end)) => Ok(Some(Self::below(alloc, end)?)),
            (Bound::Unbounded, Bound::Unbounded) => Ok(Some(Self::all(alloc))),
        }
    }
}

impl<T: Ord + Clone + MadeWith<A>, const N: usize, A: Allocator + Copy> IntervalSet<T, N, A> {
    /// A copy, boundary by boundary, with the allocator of this set.
    ///
    /// Takes memory where there are more than `N` boundaries, and as their clones do; on refusal it
    /// drops what was copied.
    pub fn clone(&self) -> Result<Self, AllocError>
        requires clones { ClonesAreEqual T.cmp T.is_clone }
        ensures { IfOk result (IsClonedIntervals T.is_clone self.now) }
    {
        Ok(IntervalSet {
            boundaries: clones_of(*self.boundaries.allocator(), self.boundaries())?,
            below: self.below,
        })
    }
}

/// Takes memory as [`clone`](IntervalSet::clone) does.
impl<T: ClonesEqual + MadeWith<A>, const N: usize, A: Allocator + Copy> Clone
    for IntervalSet<T, N, A> {
    ghost is_clone = { IsClonedIntervals T.is_clone };

    fn clone(&self) -> Result<Self, AllocError> {
        IntervalSet::clone(self)
    }
}

/// The empty set. Takes no memory.
impl<T: Ord + MadeWith<A> + Drop, const N: usize, A: Allocator + Copy> MadeWith<A>
    for IntervalSet<T, N, A> {
    ghost is_made_with = { λ s. s ≡ intervals [] false };

    fn made_with(alloc: A) -> Self {
        Self::empty(alloc)
    }
}

/// `!a` is all that is not in `a`: the same boundaries, moved, and the other answer below them.
/// Takes no memory.
impl<T: Ord, const N: usize, A: Allocator> Not for IntervalSet<T, N, A> {
    type Output = IntervalSet<T, N, A>;

    ghost not_gives = { λ s r. (r ≡ complement s)
        × ((x : T) → holds T.cmp r x ≡ not (holds T.cmp s x)) };

    fn not(self) -> IntervalSet<T, N, A> {
        IntervalSet {
            boundaries: self.boundaries,
            below: !self.below,
        }
    }
}

/// `!&a` is all that is not in `a`: clones of the boundaries, and the other answer below them.
///
/// It takes memory as [`clone`](IntervalSet::clone) does; on refusal it drops what was copied.
impl<'a, T: Ord + Clone + MadeWith<A>, const N: usize, A: Allocator + Copy> Not
    for &'a IntervalSet<T, N, A> {
    type Output = Result<IntervalSet<T, N, A>, AllocError>;

    ghost can_not = { λ _. ClonesAreEqual T.cmp T.is_clone };

    ghost not_gives = { λ s r. IfOk r (λ t. IsClonedIntervals T.is_clone (complement s.now) t
        × ((x : T) → holds T.cmp t x ≡ not (holds T.cmp s.now x))) };

    fn not(self) -> Result<IntervalSet<T, N, A>, AllocError> {
        Ok(!self.clone()?)
    }
}

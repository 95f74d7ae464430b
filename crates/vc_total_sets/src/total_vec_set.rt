//! `TotalVecSet`, a set that is an ascending list, or all that is not in it.
ghost use Rattle.std.specs.Prelude.{◌≡◌, ◌<◌, ◌||◌, ◌&&◌, ◌↔◌, false, true, [], not, cond, List, Some, None, length, IfOk, IsOk, OnErr, OnOk, IsTrue, IsFalse, IsSomeAnd, MatchBool};
ghost use Rattle.std.specs.Ordering.{eq_by_cmp};
ghost use Rattle.vc_merge.specs.Ascending.{member, element_at};
ghost use Rattle.vc_merge.specs.Clones.{ClonesAreEqual};
ghost use Rattle.vc_sets.specs.SetOf.{IsSetOf, and_not};
ghost use Rattle.vc_total_sets.specs.TotalSet.{total, complement, has, IsClonedTotal};
ghost use Rattle.vc_total_sets.specs.Within.{within_by};

mod algebra;
mod cases;
mod comparisons;
mod in_place;

use std::alloc::{AllocError, Allocator, Global};
use std::default::MadeWith;
use std::marker::Model;
use std::ops::Not;
use vc_sets::cloning::ClonesEqual;
use vc_sets::vec_set::{AbstractVecSet, VecSet, difference, intersection};

/// A set that is a list of elements or, where it is negated, all values that are not in the list.
///
/// Contracts see it as that list, in ascending order, and the flag. Two sets are equal where both
/// are: over `bool`, the list of `false` and `true` has the same members as the negated empty list,
/// and is not equal to it.
///
/// ```
/// let mut open: TotalVecSet<u16, 2> = TotalVecSet::all(alloc);
/// open.remove(&22)?;
/// assert!(rt; open.contains(&80) && !open.contains(&22));
/// ```
#[derive(Drop)]
pub struct TotalVecSet<T: Ord, const N: usize, A: Allocator = Global> {
    elements: VecSet<T, N, A>,
    negated: bool,
}

/// A total set with room for two elements inline.
pub type TotalVecSet2<T> = TotalVecSet<T, 2>;

impl<T: Ord, const N: usize, A: Allocator> Model for TotalVecSet<T, N, A> {
    ghost use Rattle.vc_total_sets.specs.TotalSet.{TotalSet, total, total_code};

    ghost Value = { TotalSet T };

    ghost coded = { total_code T.code };

    ghost view = { λ s. total s.elements s.negated };
}

impl<T: Ord, const N: usize, A: Allocator> TotalVecSet<T, N, A> {
    /// The list of what is in the set or, where it is negated, of what is not. Takes no memory.
    pub fn elements(&self) -> &VecSet<T, N, A>
        ensures { result.now ≡ self.now.elements }
    {
        &self.elements
    }

    /// Whether the set is what is not in the list. Takes no memory.
    pub fn is_negated(&self) -> bool
        ensures { result ≡ self.now.negated }
    {
        self.negated
    }

    /// The list of what is in the set or, where it is negated, of what is not, and whether it is
    /// negated. The list is moved, and no memory is taken.
    pub fn into_parts(self) -> (VecSet<T, N, A>, bool)
        ensures elements { result.0 ≡ self.elements }
        ensures negated { result.1 ≡ self.negated }
    {
        (self.elements, self.negated)
    }

    /// Whether this is the empty list, not negated. Takes no memory.
    pub fn is_empty(&self) -> bool
        ensures { IsTrue result ↔ (self.now ≡ total [] false) }
    {
        !self.negated && self.elements.is_empty()
    }

    /// Whether this is the empty list, negated. Takes no memory.
    pub fn is_all(&self) -> bool
        ensures { IsTrue result ↔ (self.now ≡ total [] true) }
    {
        self.elements.is_empty() && self.negated
    }

    /// Whether `value` is in the set. Searches the list, and takes no memory.
    pub fn contains(&self, value: &T) -> bool
        ensures { result ≡ has T.cmp self.now value.now }
    {
        self.negated ^ self.elements.contains(value)
    }
}

impl<T: Ord + MadeWith<A> + Drop, const N: usize, A: Allocator + Copy> TotalVecSet<T, N, A> {
    /// The set of all values if `value`, and otherwise the empty set. Takes no memory.
    pub fn constant(alloc: A, value: bool) -> Self
        ensures { result ≡ total [] value }
    {
        TotalVecSet {
            elements: VecSet::empty(alloc),
            negated: value,
        }
    }

    /// The empty set. Takes no memory.
    pub fn empty(alloc: A) -> Self
        ensures { result ≡ total [] false }
    {
        Self::constant(alloc, false)
    }

    /// The set of all values. Takes no memory.
    pub fn all(alloc: A) -> Self
        ensures { result ≡ total [] true }
    {
        Self::constant(alloc, true)
    }

    /// Inserts a value. Into a list that is not negated it is put, and replaces an equal element;
    /// from a negated one, an equal element is removed.
    ///
    /// Searches the list, and moves the elements after it. It takes memory only for a new element
    /// of a list that is not negated, where `N` or more are held; on refusal it leaves the set
    /// unchanged and drops the value.
    pub fn insert(&mut self, that: T) -> Result<(), AllocError>
        ensures negated { self.new.negated ≡ self.old.negated }
        ensures has { OnOk result
            ((x : T) → has T.cmp self.new x ≡ (eq_by_cmp T.cmp that x || has T.cmp self.old x)) }
        ensures kept { OnOk result ((x : T) → element_at T.cmp self.new.elements x
            ≡ cond (eq_by_cmp T.cmp that x) (cond self.old.negated None (Some that))
            (element_at T.cmp self.old.elements x)) }

        // It succeeds where the list is negated, has an equal element, or has fewer than `N`.
        ensures excluded { IsTrue self.old.negated → IsOk result }
        ensures known { IsTrue (member T.cmp self.old.elements that) → IsOk result }
        ensures room { length self.old.elements < N → IsOk result }
        ensures err { OnErr result (self.new ≡ self.old) }
    {
        if self.negated {
            self.elements.remove(&that);
        } else {
            self.elements.insert(that)?;
        }
        Ok(())
    }

    /// Those elements of `list` that are in the set; the others are dropped. An element that stays
    /// is the old one.
    ///
    /// Takes no memory, and makes at most as many comparisons as both lists have elements.
    ///
    /// ```
    /// let open = !TotalVecSet::from(closed);
    /// let open_today: VecSet<u16, 8> = open.within_moved(today);
    /// ```
    pub fn within_moved<const M: usize>(&self, list: VecSet<T, M, A>) -> VecSet<T, M, A>
        ensures members { (x : T)
            → member T.cmp result x ≡ (member T.cmp list x && has T.cmp self.now x) }
        ensures within { IsSetOf T.cmp (λ x y. x ≡ y) (λ x y. x ≡ y) (within_by self.now.negated)
            list self.now.elements result }
    {
        let mut found = list;
        if self.negated {
            found.difference_with(&self.elements);
        } else {
            found.intersection_with(&self.elements);
        }
        found
    }

    /// Gives back memory that the list does not need. Where the allocator refuses, the list stays
    /// where it is, so the call always succeeds.
    pub fn shrink_to_fit(&mut self) -> Result<(), AllocError>
        ensures same { self.new ≡ self.old }
        ensures succeeds { IsOk result }
    {
        self.elements.shrink_to_fit()
    }
}

impl<T: Ord + Clone + MadeWith<A> + Drop, const N: usize, A: Allocator + Copy> TotalVecSet<
    T,
    N,
    A,
> {
    /// Removes a value. From a list that is not negated, an equal element is removed; into a
    /// negated one a clone of the value is put, and replaces an equal element.
    ///
    /// Searches the list, and moves the elements after it. It can be refused only where the list is
    /// negated, at the clone or at the memory for a new element; on refusal it leaves the set
    /// unchanged.
    pub fn remove(&mut self, that: &T) -> Result<(), AllocError>
        requires clones { ClonesAreEqual T.cmp T.is_clone }
        ensures negated { self.new.negated ≡ self.old.negated }
        ensures has { OnOk result ((x : T)
            → has T.cmp self.new x ≡ and_not (has T.cmp self.old x) (eq_by_cmp T.cmp that.now x)) }
        ensures kept { OnOk result ((x : T) → MatchBool (eq_by_cmp T.cmp that.now x)
            (MatchBool self.old.negated (IsSomeAnd (element_at T.cmp self.new.elements x)
            (T.is_clone that.now)) (element_at T.cmp self.new.elements x ≡ None))
            (element_at T.cmp self.new.elements x ≡ element_at T.cmp self.old.elements x)) }
        ensures listed { IsFalse self.old.negated → IsOk result }
        ensures err { OnErr result (self.new ≡ self.old) }
    {
        if self.negated {
            self.elements.insert(that.clone()?)?;
        } else {
            self.elements.remove(that);
        }
        Ok(())
    }
}

impl<T: Ord + Clone + MadeWith<A>, const N: usize, A: Allocator + Copy> TotalVecSet<T, N, A> {
    /// Those elements of a list that are in the set, as clones of the elements of the list.
    ///
    /// Makes at most as many comparisons as both lists have elements. Takes memory where more than
    /// `M` are found, and as the clones do; on refusal it drops what it built.
    ///
    /// ```
    /// let open_today: VecSet<u16, 4> = open.within(alloc, &today)?;
    /// ```
    pub fn within<S: AbstractVecSet<T>, const M: usize>(
        &self,
        alloc: A,
        list: &S,
    ) -> Result<VecSet<T, M, A>, AllocError>
        requires clones { ClonesAreEqual T.cmp T.is_clone }
        ensures members { IfOk result (λ found. (x : T) → member T.cmp found x
            ≡ (member T.cmp (S.elements list.now) x && has T.cmp self.now x)) }
        ensures within { IfOk result (IsSetOf T.cmp T.is_clone T.is_clone
            (within_by self.now.negated) (S.elements list.now) self.now.elements) }
    {
        if self.negated {
            difference(alloc, list, &self.elements)
        } else {
            intersection(alloc, list, &self.elements)
        }
    }

    /// A copy, element by element, with the allocator of this set.
    ///
    /// Takes memory where there are more than `N` elements, and as their clones do; on refusal it
    /// drops what was copied.
    pub fn clone(&self) -> Result<Self, AllocError>
        requires clones { ClonesAreEqual T.cmp T.is_clone }
        ensures { IfOk result (IsClonedTotal T.is_clone self.now) }
    {
        Ok(TotalVecSet {
            elements: self.elements.clone()?,
            negated: self.negated,
        })
    }
}

/// Takes memory as [`clone`](TotalVecSet::clone) does.
impl<T: ClonesEqual + MadeWith<A>, const N: usize, A: Allocator + Copy> Clone
    for TotalVecSet<T, N, A> {
    ghost is_clone = { IsClonedTotal T.is_clone };

    fn clone(&self) -> Result<Self, AllocError> {
        TotalVecSet::clone(self)
    }
}

/// The empty set. Takes no memory.
impl<T: Ord + MadeWith<A> + Drop, const N: usize, A: Allocator + Copy> MadeWith<A>
    for TotalVecSet<T, N, A> {
    ghost is_made_with = { λ s. s ≡ total [] false };

    fn made_with(alloc: A) -> Self {
        Self::empty(alloc)
    }
}

/// The set of the elements. Takes no memory.
impl<T: Ord, const N: usize, A: Allocator> From<VecSet<T, N, A>> for TotalVecSet<T, N, A> {
    ghost from_gives = { λ elements s. s ≡ total elements false };

    fn from(elements: VecSet<T, N, A>) -> TotalVecSet<T, N, A> {
        TotalVecSet {
            elements,
            negated: false,
        }
    }
}

/// `!a` is all that is not in `a`: the same list, moved, and the other flag. Takes no memory.
impl<T: Ord, const N: usize, A: Allocator> Not for TotalVecSet<T, N, A> {
    type Output = TotalVecSet<T, N, A>;

    ghost not_gives = { λ s r. r ≡ complement s };

    fn not(self) -> TotalVecSet<T, N, A> {
        TotalVecSet {
            elements: self.elements,
            negated: !self.negated,
        }
    }
}

/// `!&a` is all that is not in `a`: a clone of the list, and the other flag.
///
/// It takes memory as [`clone`](TotalVecSet::clone) does; on refusal it drops what was copied.
impl<'a, T: Ord + Clone + MadeWith<A>, const N: usize, A: Allocator + Copy> Not
    for &'a TotalVecSet<T, N, A> {
    type Output = Result<TotalVecSet<T, N, A>, AllocError>;

    ghost can_not = { λ _. ClonesAreEqual T.cmp T.is_clone };

    ghost not_gives = { λ s r. IfOk r (IsClonedTotal T.is_clone (complement s.now)) };

    fn not(self) -> Result<TotalVecSet<T, N, A>, AllocError> {
        Ok(!self.clone()?)
    }
}

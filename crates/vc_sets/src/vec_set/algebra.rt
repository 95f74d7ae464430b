//! The four operations of sets that build a new set, and the three tests of two sets.
ghost use Rattle.std.specs.Prelude.{◌≡◌, ◌+◌, ◌≤◌, ◌||◌, ◌&&◌, ◌↔◌, length, IfOk, IsTrue};
ghost use Rattle.vc_merge.specs.Ascending.{member};
ghost use Rattle.vc_merge.specs.Count.{bound};
ghost use Rattle.vc_merge.specs.Clones.{ClonesAreEqual};
ghost use Rattle.vc_sets.specs.SetOf.{IsSetOf, and_not, exactly_one};
ghost use Rattle.vc_sets.specs.Algebra.{made_by, IsTestedBy};
ghost use Rattle.vc_sets.specs.Tests.{IsDisjoint, IsSubset};

use crate::combine::combine;
use crate::vec_set::{AbstractVecSet, VecSet};
use crate::witness::{has_witness, is_within};
use std::alloc::{AllocError, Allocator};
use std::default::MadeWith;
use std::ops::{BitAnd, BitOr, BitXor, Sub};
use vc_merge::merge::{Steps, Uncounted};

/// An operation of two sets.
#[derive(Clone, Copy)]
pub enum SetOp {
    /// What is in either set.
    Union,
    /// What is in both.
    Intersection,
    /// What is in exactly one.
    SymmetricDifference,
    /// What is in the left one and not in the right one.
    Difference,
}

/// A test of two sets.
#[derive(Clone, Copy)]
pub enum SetTest {
    /// No element is in both.
    Disjoint,
    /// Each element of the left one is in the right one.
    Subset,
    /// Each element of the right one is in the left one.
    Superset,
}

/// What is in either of two sets, as clones. Of two equal elements the left one is kept.
///
/// Where either set has more than `N` elements, it allocates once, at the start, for as many as
/// both sets have. Otherwise it allocates only where the result has more than `N`. It makes at most
/// as many comparisons as both sets have elements. Where an allocation or a clone is refused, what
/// was built is dropped.
///
/// ```
/// let tags: VecSet<u32, 4> = union(alloc, &ours, &theirs)?;
/// assert!(rt; ours.is_subset(&tags) && theirs.is_subset(&tags));
/// ```
pub fn union<
    T: Ord + Clone + MadeWith<A>,
    S: AbstractVecSet<T>,
    U: AbstractVecSet<T>,
    const N: usize,
    A: Allocator + Copy,
>(alloc: A, this: &S, that: &U) -> Result<VecSet<T, N, A>, AllocError>
    requires clones { ClonesAreEqual T.cmp T.is_clone }
    ensures union { IfOk result
        (IsSetOf T.cmp T.is_clone T.is_clone ◌||◌ (S.elements this.now) (U.elements that.now)) }
{
    let (a, b) = (this.as_slice(), that.as_slice());
    let elements = combine(alloc, a, b, SetOp::Union, &mut Uncounted)?;
    Ok(VecSet { elements })
}

/// What is in both of two sets, as clones of the left elements.
///
/// It grows as needed, and makes at most as many comparisons as both sets have elements. Where an
/// allocation or a clone is refused, what was built is dropped.
pub fn intersection<
    T: Ord + Clone + MadeWith<A>,
    S: AbstractVecSet<T>,
    U: AbstractVecSet<T>,
    const N: usize,
    A: Allocator + Copy,
>(alloc: A, this: &S, that: &U) -> Result<VecSet<T, N, A>, AllocError>
    requires clones { ClonesAreEqual T.cmp T.is_clone }
    ensures intersection { IfOk result
        (IsSetOf T.cmp T.is_clone T.is_clone ◌&&◌ (S.elements this.now) (U.elements that.now)) }
{
    let (a, b) = (this.as_slice(), that.as_slice());
    let elements = combine(alloc, a, b, SetOp::Intersection, &mut Uncounted)?;
    Ok(VecSet { elements })
}

/// What is in exactly one of two sets, as clones.
///
/// Where either set has more than `N` elements, it allocates once, at the start, for as many as
/// both sets have. Otherwise it allocates only where the result has more than `N`. It makes at most
/// as many comparisons as both sets have elements. Where an allocation or a clone is refused, what
/// was built is dropped.
pub fn symmetric_difference<
    T: Ord + Clone + MadeWith<A>,
    S: AbstractVecSet<T>,
    U: AbstractVecSet<T>,
    const N: usize,
    A: Allocator + Copy,
>(alloc: A, this: &S, that: &U) -> Result<VecSet<T, N, A>, AllocError>
    requires clones { ClonesAreEqual T.cmp T.is_clone }
    ensures symmetric_difference { IfOk result
        (IsSetOf T.cmp T.is_clone T.is_clone exactly_one (S.elements this.now)
        (U.elements that.now)) }
{
    let (a, b) = (this.as_slice(), that.as_slice());
    let elements = combine(alloc, a, b, SetOp::SymmetricDifference, &mut Uncounted)?;
    Ok(VecSet { elements })
}

/// What is in the left one of two sets and not in the right one, as clones.
///
/// It makes room at the start for as many elements as the left set has more than the right one, and
/// then grows as needed. It makes at most as many comparisons as both sets have elements. Where an
/// allocation or a clone is refused, what was built is dropped.
pub fn difference<
    T: Ord + Clone + MadeWith<A>,
    S: AbstractVecSet<T>,
    U: AbstractVecSet<T>,
    const N: usize,
    A: Allocator + Copy,
>(alloc: A, this: &S, that: &U) -> Result<VecSet<T, N, A>, AllocError>
    requires clones { ClonesAreEqual T.cmp T.is_clone }
    ensures difference { IfOk result
        (IsSetOf T.cmp T.is_clone T.is_clone and_not (S.elements this.now) (U.elements that.now)) }
{
    let (a, b) = (this.as_slice(), that.as_slice());
    let elements = combine(alloc, a, b, SetOp::Difference, &mut Uncounted)?;
    Ok(VecSet { elements })
}

/// Whether no element is in both sets.
pub(crate) fn is_disjoint<T: Ord, S: AbstractVecSet<T>, U: AbstractVecSet<T>>(
    this: &S,
    that: &U,
) -> bool
    ensures { IsTrue result ↔ IsDisjoint T.cmp (S.elements this.now) (U.elements that.now) }
{
    !has_witness::<false, false, true, _, _>(this.as_slice(), that.as_slice(), &mut Uncounted)
}

/// Whether each element of the left set is in the right one.
pub(crate) fn is_subset<T: Ord, S: AbstractVecSet<T>, U: AbstractVecSet<T>>(
    this: &S,
    that: &U,
) -> bool
    ensures { IsTrue result ↔ IsSubset T.cmp (S.elements this.now) (U.elements that.now) }
{
    is_within(this.as_slice(), that.as_slice(), &mut Uncounted)
}

/// Whether each element of the right set is in the left one.
pub(crate) fn is_superset<T: Ord, S: AbstractVecSet<T>, U: AbstractVecSet<T>>(
    this: &S,
    that: &U,
) -> bool
    ensures { IsTrue result ↔ IsSubset T.cmp (U.elements that.now) (S.elements this.now) }
{
    is_within(that.as_slice(), this.as_slice(), &mut Uncounted)
}

impl<T: Ord + Clone + MadeWith<A>, const N: usize, A: Allocator + Copy> VecSet<T, N, A> {
    /// What is in either set, as clones, with the allocator of this set. Of two equal elements the
    /// left one is kept.
    ///
    /// Where either set has more than `N` elements, it allocates once, at the start, for as many as
    /// both sets have. Otherwise it allocates only where the result has more than `N`. It makes at
    /// most as many comparisons as both sets have elements. Where an allocation or a clone is
    /// refused, what was built is dropped.
    pub fn union<S: AbstractVecSet<T>>(&self, that: &S) -> Result<Self, AllocError>
        requires clones { ClonesAreEqual T.cmp T.is_clone }
        ensures union { IfOk result
            (IsSetOf T.cmp T.is_clone T.is_clone ◌||◌ self.now (S.elements that.now)) }
    {
        union(*self.elements.allocator(), self, that)
    }

    /// What is in both sets, as clones of the left elements, with the allocator of this set.
    ///
    /// It grows as needed, and makes at most as many comparisons as both sets have elements. Where
    /// an allocation or a clone is refused, what was built is dropped.
    pub fn intersection<S: AbstractVecSet<T>>(&self, that: &S) -> Result<Self, AllocError>
        requires clones { ClonesAreEqual T.cmp T.is_clone }
        ensures intersection { IfOk result
            (IsSetOf T.cmp T.is_clone T.is_clone ◌&&◌ self.now (S.elements that.now)) }
    {
        intersection(*self.elements.allocator(), self, that)
    }

    /// What is in exactly one of the sets, as clones, with the allocator of this set.
    ///
    /// Where either set has more than `N` elements, it allocates once, at the start, for as many as
    /// both sets have. Otherwise it allocates only where the result has more than `N`. It makes at
    /// most as many comparisons as both sets have elements. Where an allocation or a clone is
    /// refused, what was built is dropped.
    pub fn symmetric_difference<S: AbstractVecSet<T>>(&self, that: &S) -> Result<Self, AllocError>
        requires clones { ClonesAreEqual T.cmp T.is_clone }
        ensures symmetric_difference { IfOk result
            (IsSetOf T.cmp T.is_clone T.is_clone exactly_one self.now (S.elements that.now)) }
    {
        symmetric_difference(*self.elements.allocator(), self, that)
    }

    /// What is in this set and not in the other, as clones, with the allocator of this set.
    ///
    /// It makes room at the start for as many elements as this set has more than the other one, and
    /// then grows as needed. It makes at most as many comparisons as both sets have elements. Where
    /// an allocation or a clone is refused, what was built is dropped.
    pub fn difference<S: AbstractVecSet<T>>(&self, that: &S) -> Result<Self, AllocError>
        requires clones { ClonesAreEqual T.cmp T.is_clone }
        ensures difference { IfOk result
            (IsSetOf T.cmp T.is_clone T.is_clone and_not self.now (S.elements that.now)) }
    {
        difference(*self.elements.allocator(), self, that)
    }

    /// The operation `op` of the two sets, as clones, with the allocator of this set. Of two equal
    /// elements the left one is kept.
    ///
    /// It grows and compares as the method of that operation does. Where an allocation or a clone
    /// is refused, what was built is dropped.
    ///
    /// ```
    /// let both = ours.combine(&theirs, SetOp::Intersection)?;
    /// assert!(rt; both.is_subset(&ours) && both.is_subset(&theirs));
    /// ```
    pub fn combine<S: AbstractVecSet<T>>(&self, that: &S, op: SetOp) -> Result<Self, AllocError>
        requires clones { ClonesAreEqual T.cmp T.is_clone }
        ensures combined { IfOk result
            (IsSetOf T.cmp T.is_clone T.is_clone (made_by op) self.now (S.elements that.now)) }
    {
        let alloc = *self.elements.allocator();
        let elements = combine(alloc, self.as_ref(), that.as_slice(), op, &mut Uncounted)?;
        Ok(VecSet { elements })
    }

    /// The operation `op` of the two sets, as clones, with its comparisons added to `steps`. Of two
    /// equal elements the left one is kept. It makes at most as many comparisons as both sets have
    /// elements. For each element of the shorter set it makes at most as many as the length of the
    /// longer one has binary digits.
    ///
    /// Where an allocation or a clone is refused, what was built is dropped; the comparisons until
    /// then are counted.
    ///
    /// ```
    /// let mut steps = Steps::new();
    /// let both = ours.combine_counted(&theirs, SetOp::Intersection, &mut steps)?;
    /// assert!(rt; steps.count() <= (ours.len() + theirs.len()) as u128);
    /// ```
    pub fn combine_counted<S: AbstractVecSet<T>>(
        &self,
        that: &S,
        op: SetOp,
        steps: &mut Steps,
    ) -> Result<Self, AllocError>
        requires clones { ClonesAreEqual T.cmp T.is_clone }
        ensures combined { IfOk result
            (IsSetOf T.cmp T.is_clone T.is_clone (made_by op) self.now (S.elements that.now)) }
        ensures counted { steps.new
            ≤ steps.old + bound (length self.now) (length (S.elements that.now)) }
        ensures grows { steps.old ≤ steps.new }
    {
        let alloc = *self.elements.allocator();
        let mut own = Steps::new();
        let elements = combine(alloc, self.as_ref(), that.as_slice(), op, &mut own);
        steps.add(&own);
        Ok(VecSet {
            elements: elements?,
        })
    }
}

impl<T: Ord, const N: usize, A: Allocator> VecSet<T, N, A> {
    /// The test of the two sets, with its comparisons added to `steps`: at most as many as
    /// [`combine_counted`](VecSet::combine_counted) makes. Takes no memory.
    pub fn test_counted<S: AbstractVecSet<T>>(
        &self,
        that: &S,
        test: SetTest,
        steps: &mut Steps,
    ) -> bool
        ensures answer { IsTrue result ↔ IsTestedBy test T.cmp self.now (S.elements that.now) }
        ensures counted { steps.new
            ≤ steps.old + bound (length self.now) (length (S.elements that.now)) }
        ensures grows { steps.old ≤ steps.new }
    {
        let (a, b) = (self.as_ref(), that.as_slice());
        let mut own = Steps::new();
        let answer = match test {
            SetTest::Disjoint => !has_witness::<false, false, true, _, _>(a, b, &mut own),
            SetTest::Subset => is_within(a, b, &mut own),
            SetTest::Superset => is_within(b, a, &mut own),
        };
        steps.add(&own);
        answer
    }
}

/// `&a | &b` is the union, as by [`union`](VecSet::union).
impl<
    'a,
    'b,
    T: Ord + Clone + MadeWith<A>,
    const N: usize,
    const M: usize,
    A: Allocator + Copy,
> BitOr<&'b VecSet<T, M, A>> for &'a VecSet<T, N, A> {
    type Output = Result<VecSet<T, N, A>, AllocError>;

    ghost can_bitor = { λ _ _. ClonesAreEqual T.cmp T.is_clone };

    ghost bitor_gives = { λ a b r. IfOk r (IsSetOf T.cmp T.is_clone T.is_clone ◌||◌ a.now b.now) };

    fn bitor(self, that: &'b VecSet<T, M, A>) -> Result<VecSet<T, N, A>, AllocError> {
        self.union(that)
    }
}

/// `&a & &b` is the intersection, as by [`intersection`](VecSet::intersection).
impl<
    'a,
    'b,
    T: Ord + Clone + MadeWith<A>,
    const N: usize,
    const M: usize,
    A: Allocator + Copy,
> BitAnd<&'b VecSet<T, M, A>> for &'a VecSet<T, N, A> {
    type Output = Result<VecSet<T, N, A>, AllocError>;

    ghost can_bitand = { λ _ _. ClonesAreEqual T.cmp T.is_clone };

    ghost bitand_gives = { λ a b r. IfOk r (IsSetOf T.cmp T.is_clone T.is_clone ◌&&◌ a.now b.now) };

    fn bitand(self, that: &'b VecSet<T, M, A>) -> Result<VecSet<T, N, A>, AllocError> {
        self.intersection(that)
    }
}

/// `&a ^ &b` is what is in exactly one set, as by
/// [`symmetric_difference`](VecSet::symmetric_difference).
impl<
    'a,
    'b,
    T: Ord + Clone + MadeWith<A>,
    const N: usize,
    const M: usize,
    A: Allocator + Copy,
> BitXor<&'b VecSet<T, M, A>> for &'a VecSet<T, N, A> {
    type Output = Result<VecSet<T, N, A>, AllocError>;

    ghost can_bitxor = { λ _ _. ClonesAreEqual T.cmp T.is_clone };

    ghost bitxor_gives = { λ a b r.
        IfOk r (IsSetOf T.cmp T.is_clone T.is_clone exactly_one a.now b.now) };

    fn bitxor(self, that: &'b VecSet<T, M, A>) -> Result<VecSet<T, N, A>, AllocError> {
        self.symmetric_difference(that)
    }
}

/// `&a - &b` is what is in `a` and not in `b`, as by [`difference`](VecSet::difference).
impl<'a, 'b, T: Ord + Clone + MadeWith<A>, const N: usize, const M: usize, A: Allocator + Copy> Sub<
    &'b VecSet<T, M, A>,
> for &'a VecSet<T, N, A> {
    type Output = Result<VecSet<T, N, A>, AllocError>;

    ghost can_sub = { λ _ _. ClonesAreEqual T.cmp T.is_clone };

    ghost sub_gives = { λ a b r. IfOk r (IsSetOf T.cmp T.is_clone T.is_clone and_not a.now b.now) };

    fn sub(self, that: &'b VecSet<T, M, A>) -> Result<VecSet<T, N, A>, AllocError> {
        self.difference(that)
    }
}

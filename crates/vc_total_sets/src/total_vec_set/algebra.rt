//! The operations of total sets that build a new set, and the three tests of two sets.
ghost use Rattle.std.specs.Prelude.{◌||◌, ◌&&◌, ◌↔◌, IfOk, IsTrue};
ghost use Rattle.vc_merge.specs.Clones.{ClonesAreEqual};
ghost use Rattle.vc_sets.specs.SetOf.{IsSetOf, and_not, exactly_one};
ghost use Rattle.vc_total_sets.specs.Cases.{said_by, kept_by};
ghost use Rattle.vc_total_sets.specs.TotalOf.{IsTotalOf, IsTotalOfEither};
ghost use Rattle.vc_total_sets.specs.TotalTests.{IsTotalSubset, IsTotalDisjoint};

use super::TotalVecSet;
use super::cases::{ListOp, TotalOp};
use std::alloc::{AllocError, Allocator};
use std::default::MadeWith;
use std::ops::{BitAnd, BitOr, BitXor, Sub};
use vc_sets::vec_set::{AbstractVecSet, VecSet};

/// The result of `op` on two lists, as clones. Of two equal elements the left one is kept.
#[inline]
fn combine_lists<T: Ord + Clone + MadeWith<A>, const N: usize, A: Allocator + Copy>(
    a: &VecSet<T, N, A>,
    b: &VecSet<T, N, A>,
    op: ListOp,
) -> Result<VecSet<T, N, A>, AllocError>
    requires clones { ClonesAreEqual T.cmp T.is_clone }
    ensures { IfOk result (IsSetOf T.cmp T.is_clone T.is_clone (kept_by op) a.now b.now) }
{
    match op {
        ListOp::Of(op) => a.combine(b, op),
        ListOp::ReversedDifference => b.difference(a),
    }
}

/// The result of `op` on two total sets, as clones. Of two equal elements the left one is kept.
#[inline]
fn combine<T: Ord + Clone + MadeWith<A>, const N: usize, A: Allocator + Copy>(
    a: &TotalVecSet<T, N, A>,
    b: &TotalVecSet<T, N, A>,
    op: TotalOp,
) -> Result<TotalVecSet<T, N, A>, AllocError>
    requires clones { ClonesAreEqual T.cmp T.is_clone }
    ensures { IfOk result (IsTotalOf T.cmp T.is_clone (said_by op) a.now b.now) }
{
    let case = op.case(a.negated, b.negated);
    let elements = combine_lists(&a.elements, &b.elements, case.op)?;
    Ok(TotalVecSet {
        elements,
        negated: case.negated,
    })
}

/// The same, but where both sets are negated, the right one comes first. For an operation whose
/// sides may be swapped.
#[inline]
fn combine_either<T: Ord + Clone + MadeWith<A>, const N: usize, A: Allocator + Copy>(
    a: &TotalVecSet<T, N, A>,
    b: &TotalVecSet<T, N, A>,
    op: TotalOp,
) -> Result<TotalVecSet<T, N, A>, AllocError>
    requires clones { ClonesAreEqual T.cmp T.is_clone }
    ensures { IfOk result (IsTotalOfEither T.cmp T.is_clone (said_by op) a.now b.now) }
{
    if a.negated && b.negated {
        combine(b, a, op)
    } else {
        combine(a, b, op)
    }
}

/// `&a & &b` is what is in both, as clones, with the allocator of `a` or `b`. Of two equal elements
/// that both lists have, that of `a` is kept, and that of `b` where both sets are negated.
///
/// On refusal of memory or of a clone it drops what it built.
impl<'a, 'b, T: Ord + Clone + MadeWith<A>, const N: usize, A: Allocator + Copy> BitAnd<
    &'b TotalVecSet<T, N, A>,
> for &'a TotalVecSet<T, N, A> {
    type Output = Result<TotalVecSet<T, N, A>, AllocError>;

    ghost can_bitand = { λ _ _. ClonesAreEqual T.cmp T.is_clone };

    ghost bitand_gives = { λ a b r. IfOk r (IsTotalOfEither T.cmp T.is_clone ◌&&◌ a.now b.now) };

    fn bitand(self, that: &'b TotalVecSet<T, N, A>) -> Result<TotalVecSet<T, N, A>, AllocError> {
        combine_either(self, that, TotalOp::And)
    }
}

/// `&a | &b` is what is in either, as clones. Of two equal elements that both lists have, that of
/// `a` is kept, and that of `b` where both sets are negated.
///
/// On refusal of memory or of a clone it drops what it built.
impl<'a, 'b, T: Ord + Clone + MadeWith<A>, const N: usize, A: Allocator + Copy> BitOr<
    &'b TotalVecSet<T, N, A>,
> for &'a TotalVecSet<T, N, A> {
    type Output = Result<TotalVecSet<T, N, A>, AllocError>;

    ghost can_bitor = { λ _ _. ClonesAreEqual T.cmp T.is_clone };

    ghost bitor_gives = { λ a b r. IfOk r (IsTotalOfEither T.cmp T.is_clone ◌||◌ a.now b.now) };

    fn bitor(self, that: &'b TotalVecSet<T, N, A>) -> Result<TotalVecSet<T, N, A>, AllocError> {
        combine_either(self, that, TotalOp::Or)
    }
}

/// `&a ^ &b` is what is in exactly one, as clones.
///
/// On refusal of memory or of a clone it drops what it built.
impl<'a, 'b, T: Ord + Clone + MadeWith<A>, const N: usize, A: Allocator + Copy> BitXor<
    &'b TotalVecSet<T, N, A>,
> for &'a TotalVecSet<T, N, A> {
    type Output = Result<TotalVecSet<T, N, A>, AllocError>;

    ghost can_bitxor = { λ _ _. ClonesAreEqual T.cmp T.is_clone };

    ghost bitxor_gives = { λ a b r. IfOk r (IsTotalOf T.cmp T.is_clone exactly_one a.now b.now) };

    fn bitxor(self, that: &'b TotalVecSet<T, N, A>) -> Result<TotalVecSet<T, N, A>, AllocError> {
        combine(self, that, TotalOp::Xor)
    }
}

/// `&a - &b` is what is in `a` and not in `b`, as clones. Of two equal elements that both lists
/// have, that of `a` is kept.
///
/// On refusal of memory or of a clone it drops what it built.
impl<'a, 'b, T: Ord + Clone + MadeWith<A>, const N: usize, A: Allocator + Copy> Sub<
    &'b TotalVecSet<T, N, A>,
> for &'a TotalVecSet<T, N, A> {
    type Output = Result<TotalVecSet<T, N, A>, AllocError>;

    ghost can_sub = { λ _ _. ClonesAreEqual T.cmp T.is_clone };

    ghost sub_gives = { λ a b r. IfOk r (IsTotalOf T.cmp T.is_clone and_not a.now b.now) };

    fn sub(self, that: &'b TotalVecSet<T, N, A>) -> Result<TotalVecSet<T, N, A>, AllocError> {
        combine(self, that, TotalOp::Minus)
    }
}

impl<T: Ord, const N: usize, A: Allocator> TotalVecSet<T, N, A> {
    /// Whether what is in this set is in the other. A negated set is no subset of one that is not
    /// negated, even where the other lists all values of the type. It stops at the first element
    /// that decides, and takes no memory.
    pub fn is_subset(&self, that: &Self) -> bool
        ensures { IsTrue result ↔ IsTotalSubset T.cmp self.now that.now }
    {
        match (self.negated, that.negated) {
            (false, false) => self.elements.is_subset(&that.elements),
            (false, true) => self.elements.is_disjoint(&that.elements),
            (true, false) => false,
            (true, true) => that.elements.is_subset(&self.elements),
        }
    }

    /// Whether what is in the other set is in this one, as [`is_subset`](TotalVecSet::is_subset)
    /// says it. It stops at the first element that decides, and takes no memory.
    pub fn is_superset(&self, that: &Self) -> bool
        ensures { IsTrue result ↔ IsTotalSubset T.cmp that.now self.now }
    {
        that.is_subset(self)
    }

    /// Whether nothing is in both sets. Two negated sets are never disjoint, even where their lists
    /// together have all values of the type. It stops at the first element that decides, and takes
    /// no memory.
    pub fn is_disjoint(&self, that: &Self) -> bool
        ensures { IsTrue result ↔ IsTotalDisjoint T.cmp self.now that.now }
    {
        match (self.negated, that.negated) {
            (false, false) => self.elements.is_disjoint(&that.elements),
            (false, true) => self.elements.is_subset(&that.elements),
            (true, false) => that.elements.is_subset(&self.elements),
            (true, true) => false,
        }
    }
}

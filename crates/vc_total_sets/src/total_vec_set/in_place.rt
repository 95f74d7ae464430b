//! The operations of total sets in place. Elements of either list are moved and never cloned; of
//! two equal ones the left one itself is kept.
ghost use Rattle.std.specs.Prelude.{◌≡◌, ◌||◌, ◌&&◌, IsTrue, IsFalse, IsOk, OnErr, OnOk};
ghost use Rattle.vc_sets.specs.SetOf.{IsSetOf, and_not, exactly_one};
ghost use Rattle.vc_total_sets.specs.Cases.{said_by, kept_by, keeps_either};
ghost use Rattle.vc_total_sets.specs.TotalOf.{IsTotalOf, listed_by};

use super::TotalVecSet;
use super::cases::{ListOp, TotalOp};
use std::alloc::{AllocError, Allocator};
use std::default::MadeWith;
use vc_sets::vec_set::VecSet;

/// Replaces the left list by the result of `op` on two lists. It can be refused only where `op`
/// keeps what is in only one of the lists.
#[inline]
fn assign_list<T: Ord + MadeWith<A> + Drop, const N: usize, A: Allocator + Copy>(
    list: &mut VecSet<T, N, A>,
    that: VecSet<T, N, A>,
    op: ListOp,
) -> Result<(), AllocError>
    ensures made { OnOk result
        (IsSetOf T.cmp (λ x y. x ≡ y) (λ x y. x ≡ y) (kept_by op) list.old that list.new) }
    ensures succeeds { IsFalse (keeps_either (kept_by op)) → IsOk result }
    ensures err { OnErr result (list.new ≡ list.old) }
{
    match op {
        ListOp::Of(op) => list.combine_with(that, op),
        ListOp::ReversedDifference => {
            let mut rest = that;
            rest -= &*list;
            *list = rest;
            Ok(())
        }
    }
}

/// Replaces the left set by the result of `op` on two sets.
#[inline]
fn assign<T: Ord + MadeWith<A> + Drop, const N: usize, A: Allocator + Copy>(
    set: &mut TotalVecSet<T, N, A>,
    that: TotalVecSet<T, N, A>,
    op: TotalOp,
) -> Result<(), AllocError>
    ensures made { OnOk result (IsTotalOf T.cmp (λ x y. x ≡ y) (said_by op) set.old that set.new) }
    ensures succeeds { IsFalse (keeps_either (listed_by (said_by op) set.old.negated that.negated))
        → IsOk result }
    ensures err { OnErr result (set.new ≡ set.old) }
{
    let case = op.case(set.negated, that.negated);
    assign_list(&mut set.elements, that.elements, case.op)?;
    set.negated = case.negated;
    Ok(())
}

impl<T: Ord + MadeWith<A> + Drop, const N: usize, A: Allocator + Copy> TotalVecSet<T, N, A> {
    /// Keeps what is in both sets. Elements that are kept are moved; of two equal ones the left one
    /// stays.
    ///
    /// Where only this set is negated, what is left of the other list replaces this one, with its
    /// allocator and its capacity. It can be refused only where both sets are negated; then this
    /// set is unchanged, and the other one is dropped.
    pub fn bitand_assign(&mut self, that: Self) -> Result<(), AllocError>
        ensures and { OnOk result (IsTotalOf T.cmp (λ x y. x ≡ y) ◌&&◌ self.old that self.new) }
        ensures succeeds { IsFalse (self.old.negated && that.negated) → IsOk result }
        ensures err { OnErr result (self.new ≡ self.old) }
    {
        assign(self, that, TotalOp::And)
    }

    /// Adds what is in the other set. Elements that are kept are moved; of two equal ones the left
    /// one stays.
    ///
    /// Where only the other set is negated, what is left of its list replaces this one, with its
    /// allocator and its capacity. It can be refused only where neither set is negated; then this
    /// set is unchanged, and the other one is dropped.
    pub fn bitor_assign(&mut self, that: Self) -> Result<(), AllocError>
        ensures or { OnOk result (IsTotalOf T.cmp (λ x y. x ≡ y) ◌||◌ self.old that self.new) }
        ensures succeeds { IsTrue (self.old.negated || that.negated) → IsOk result }
        ensures err { OnErr result (self.new ≡ self.old) }
    {
        assign(self, that, TotalOp::Or)
    }

    /// Keeps what is in exactly one of the sets. Elements that are kept are moved.
    ///
    /// On refusal it leaves this set unchanged and drops the other one.
    pub fn bitxor_assign(&mut self, that: Self) -> Result<(), AllocError>
        ensures xor { OnOk result
            (IsTotalOf T.cmp (λ x y. x ≡ y) exactly_one self.old that self.new) }
        ensures err { OnErr result (self.new ≡ self.old) }
    {
        assign(self, that, TotalOp::Xor)
    }

    /// Removes what is in the other set. Elements that are kept are moved; of two equal ones the
    /// left one stays.
    ///
    /// Where both sets are negated, what is left of the other list replaces this one, with its
    /// allocator and its capacity. It can be refused only where this set is negated and the other
    /// one is not; then this set is unchanged, and the other one is dropped.
    pub fn sub_assign(&mut self, that: Self) -> Result<(), AllocError>
        ensures minus { OnOk result
            (IsTotalOf T.cmp (λ x y. x ≡ y) and_not self.old that self.new) }
        ensures succeeds { IsFalse (and_not self.old.negated that.negated) → IsOk result }
        ensures err { OnErr result (self.new ≡ self.old) }
    {
        assign(self, that, TotalOp::Minus)
    }
}

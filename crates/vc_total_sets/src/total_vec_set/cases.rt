//! The table of cases: what an operation on two total sets does to their lists.
use ListOp::{Of, ReversedDifference};
use SetOp::{Difference, Intersection, SymmetricDifference, Union};
use TotalOp::{And, Minus, Or, Xor};
use vc_sets::vec_set::SetOp;

/// An operation of two total sets.
#[derive(Clone, Copy)]
pub enum TotalOp {
    /// What is in both.
    And,
    /// What is in either.
    Or,
    /// What is in exactly one.
    Xor,
    /// What is in the left one and not in the right one.
    Minus,
}

/// An operation of their two lists.
#[derive(Clone, Copy)]
pub enum ListOp {
    /// An operation of sets, with the left list on the left.
    Of(SetOp),
    /// What is in the right one and not in the left one.
    ReversedDifference,
}

/// One case of an operation: the operation on the lists, and whether the result is negated.
#[derive(Clone, Copy)]
pub struct Case {
    /// What is done to the lists.
    pub op: ListOp,
    /// The flag of the result.
    pub negated: bool,
}

impl TotalOp {
    ghost use Rattle.vc_total_sets.specs.Cases.{said_by, IsCase};

    /// The case of the operation, by the flags of the left set and of the right one.
    #[inline]
    pub fn case(self, left_negated: bool, right_negated: bool) -> Case
        ensures { IsCase (said_by self) left_negated right_negated result }
    {
        let (op, negated) = match (self, left_negated, right_negated) {
            (And, false, false) => (Of(Intersection), false),
            (And, false, true) => (Of(Difference), false),
            (And, true, false) => (ReversedDifference, false),
            (And, true, true) => (Of(Union), true),
            (Or, false, false) => (Of(Union), false),
            (Or, false, true) => (ReversedDifference, true),
            (Or, true, false) => (Of(Difference), true),
            (Or, true, true) => (Of(Intersection), true),
            (Xor, _, _) => (Of(SymmetricDifference), left_negated != right_negated),
            (Minus, false, false) => (Of(Difference), false),
            (Minus, false, true) => (Of(Intersection), false),
            (Minus, true, false) => (Of(Union), true),
            (Minus, true, true) => (ReversedDifference, false),
        };
        Case { op, negated }
    }
}

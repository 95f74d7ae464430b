//! The laws of the definitions that contracts on total sets cite.
//!
//! Each function does nothing: its contract is the law. Code that calls one has the law in its
//! proof. The laws of operations hold of both ways in which calls make sets: the operators on
//! references, and the assigning methods.
ghost use Rattle.vc_total_sets.specs.Laws.{fresh_of, moved_of, OperationsArePointwise, OperationsMakeOne, ComplementsTurnOperations, ComplementIsTwofold, TotalTestsAreOfOperations};

use vc_merge::laws::members_tell_the_list;

/// The result of an operation is what its formula says, at each value and at the flag.
pub fn total_operations_are_pointwise<T: Ord + Clone>()
    ensures fresh { OperationsArePointwise T.cmp (fresh_of T.cmp T.is_clone) }
    ensures moved { OperationsArePointwise T.cmp (moved_of T.cmp) }
{}

/// The result of an operation on two sets is unique, as a list and a flag, up to equality of the
/// elements.
pub fn total_operations_make_one<T: Ord + Clone>()
    ensures fresh { OperationsMakeOne T.cmp (fresh_of T.cmp T.is_clone) }
    ensures moved { OperationsMakeOne T.cmp (moved_of T.cmp) }
{
    members_tell_the_list::<T>();
}

/// `!(a & b)` equals `!a | !b`, and `!(a | b)` equals `!a & !b`, as lists and flags; `!!a` is `a`.
pub fn complements_turn_operations<T: Ord + Clone>()
    ensures fresh { ComplementsTurnOperations T.cmp (fresh_of T.cmp T.is_clone) }
    ensures moved { ComplementsTurnOperations T.cmp (moved_of T.cmp) }
    ensures twofold { ComplementIsTwofold T }
{
    members_tell_the_list::<T>();
}

/// A set is a subset of another exactly where nothing is left of it without the other, and two sets
/// are disjoint exactly where nothing is in both; nothing is the empty list, not negated.
pub fn total_tests_are_of_operations<T: Ord + Clone>()
    ensures fresh { TotalTestsAreOfOperations T.cmp (fresh_of T.cmp T.is_clone) }
    ensures moved { TotalTestsAreOfOperations T.cmp (moved_of T.cmp) }
{}

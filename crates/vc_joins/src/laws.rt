//! The laws of the definitions that contracts on joins cite.
//!
//! Each function does nothing: its contract is the law. Code that calls one has the law in its
//! proof.
ghost use Rattle.vc_joins.specs.Laws.{KindsInWords, JoinsOfFunctions, JoinsOfEvents};
ghost use Rattle.vc_joins.specs.Join.{ClonedKey};

use crate::answers::Question;

/// An outer join asks at the keys of either map, a left join at those of the left one, a right join
/// at those of the right one, an inner join at those of both.
pub fn kinds_are_as_named<K: Ord, V, W>()
    ensures { KindsInWords K V W K.cmp }
{}

/// Where a closure gives one answer to each question that a join asks, the join is determined: it
/// binds each key to the answer to the question there.
pub fn joins_of_functions<K: Ord + Clone, V, W, X, Q: Question<K, V, W, X>>()
    ensures { (q : Q) → JoinsOfFunctions K V W K.cmp (λ a r. Q.may q a (Ok r))
        (ClonedKey K.is_clone) }
{}

/// A merge of two maps where each event adds a possible answer to its question builds their join.
pub fn joins_of_events<K: Ord + Clone, V, W, X, Q: Question<K, V, W, X>>()
    ensures { (q : Q) → JoinsOfEvents K V W K.cmp (λ a r. Q.may q a (Ok r)) (ClonedKey K.is_clone) }
{}

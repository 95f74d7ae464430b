//! The laws of the definitions that contracts on interval sets cite.
//!
//! Each function does nothing: its contract is the law. Code that calls one has the law in its
//! proof.
ghost use Rattle.vc_intervals.specs.Laws.{MembersTellTheBoundaries, ListedIntervalsHold, IntervalsOfAreOne};

/// Sets with the same members, and the same answer below all boundaries, have equal boundaries; and
/// equal sets have the same members.
pub fn members_tell_the_boundaries<T: Ord>()
    ensures { MembersTellTheBoundaries T.cmp }
{}

/// A value is in a set exactly where it lies in one of the intervals that `iter` lists.
pub fn listed_intervals_hold<T: Ord>()
    ensures { ListedIntervalsHold T.cmp }
{}

/// The result of an operation on two interval sets is unique, up to equality of the boundaries.
pub fn intervals_of_are_one<T: Ord + Clone>()
    ensures { IntervalsOfAreOne T.cmp T.is_clone }
{}

//! The laws of the definitions that contracts on sets cite.
//!
//! Each function does nothing: its contract is the law. Code that calls one has the law in its
//! proof.
ghost use Rattle.vc_sets.specs.Laws.{InEachWay, SetOfIsOne, SetOfIsOneUpToEqual, OperationsInWords, UnionKeepsTheLeft, TestsAreOfOperations};

/// The result of an operation on two sets is unique where it takes their elements themselves. Where
/// it takes clones, the result is unique up to equality.
pub fn set_of_is_one<T: Ord + Clone>()
    ensures same { SetOfIsOne T.cmp }
    ensures equal { InEachWay T.is_clone (SetOfIsOneUpToEqual T.cmp) }
{}

/// Union, intersection, difference and symmetric difference have the members that their names say.
/// Of equal elements a union keeps the left one.
pub fn operations_are_as_named<T: Ord + Clone>()
    ensures members { InEachWay T.is_clone (OperationsInWords T.cmp) }
    ensures kept { InEachWay T.is_clone (UnionKeepsTheLeft T.cmp) }
{}

/// Two sets are disjoint exactly where their intersection is empty, and one is a subset of the
/// other exactly where their difference is empty, and exactly where their union equals the other.
pub fn tests_are_of_operations<T: Ord + Clone>()
    ensures { InEachWay T.is_clone (TestsAreOfOperations T.cmp) }
{}

//! Sets that are written out.

use std::alloc::{AllocError, Global};
use std::test::Fail;
use vec_collections::{VecSet, vecset};

type Numbers = VecSet<u32, 2>;

/// The numbers one by one.
fn one_by_one(alloc: Global) -> Result<Numbers, AllocError> {
    let mut set = Numbers::empty(alloc);
    for x in [1, 2, 3] {
        set.insert(x)?;
    }
    Ok(set)
}

/// The same set, written out.
fn ascending(alloc: Global) -> Result<Numbers, AllocError> {
    vecset! {alloc; 1, 2, 3}
}

/// The same, in another order, and one number twice.
fn in_other_order(alloc: Global) -> Result<Numbers, AllocError> {
    vecset! {alloc; 3, 1, 2, 1,}
}

/// Whether the result is the set.
fn is_same(made: Numbers, set: &Numbers) -> bool {
    made == *set
}

/// Whether sets that are written out are that of the numbers one by one.
fn are_written(alloc: Global) -> Result<bool, AllocError> {
    let set = one_by_one(alloc)?;
    Ok(is_same(ascending(alloc)?, &set) && is_same(in_other_order(alloc)?, &set))
}

/// Whether the set of no number that is written out is empty.
fn none_is_empty(alloc: Global) -> Result<bool, AllocError> {
    let none: Numbers = vecset! {alloc;}?;
    Ok(none.is_empty())
}

#[test]
fn sets_are_written_out(rt: HostRuntime) -> Result<(), Fail> {
    assert!(rt; are_written(rt.alloc())?);
    assert!(rt; none_is_empty(rt.alloc())?);
    Ok(())
}

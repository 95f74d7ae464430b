//! Maps that are written out.

use std::alloc::{AllocError, Global};
use std::test::Fail;
use vec_collections::vec_map::VecMap;
use vec_collections::vecmap;

type Numbers = VecMap<u32, u32, 2>;

/// The map of 1, 2 and 3 to their doubles, one pair after the other.
fn doubles(alloc: Global) -> Result<Numbers, AllocError> {
    let mut map = Numbers::empty(alloc);
    for number in [1u32, 2, 3] {
        map.insert(number, number.saturating_mul(2))?;
    }
    Ok(map)
}

/// The same map, written out.
fn written(alloc: Global) -> Result<Numbers, AllocError> {
    vecmap! {alloc; 1 => 2, 2 => 4, 3 => 6}
}

/// A map in which a key is written out twice.
fn written_twice(alloc: Global) -> Result<Numbers, AllocError> {
    vecmap! {alloc; 1 => 2, 1 => 3,}
}

/// Whether the map of no key that is written out is empty.
fn none_is_empty(alloc: Global) -> Result<bool, AllocError> {
    let none: Numbers = vecmap! {alloc;}?;
    Ok(none.is_empty())
}

/// Whether a map that is written out is the map of doubles, and changes as that does.
fn is_doubles(mut map: Numbers, doubles: &Numbers) -> Result<bool, AllocError> {
    let is_same = map == *doubles;
    Ok(is_same && map.insert(2, 9)? == Some(4))
}

/// Whether the map that is written out is.
fn is_written(alloc: Global) -> Result<bool, AllocError> {
    let doubles = doubles(alloc)?;
    is_doubles(written(alloc)?, &doubles)
}

/// Whether a key that is written out twice has the last value.
fn last_stands(alloc: Global) -> Result<bool, AllocError> {
    let map = written_twice(alloc)?;
    Ok(map.as_ref() == [(1, 3)].as_slice())
}

#[test]
fn maps_are_written_out(rt: HostRuntime) -> Result<(), Fail> {
    assert!(rt; is_written(rt.alloc())?);
    assert!(rt; last_stands(rt.alloc())?);
    assert!(rt; none_is_empty(rt.alloc())?);
    Ok(())
}

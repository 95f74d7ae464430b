//! Sets and maps written out.
//!
//! The macros are at the root of this crate: `vec_collections::vecset` and
//! `vec_collections::vecmap`. They name only items of this crate.

/// The error of a set or a map that is written out.
pub use std::alloc::AllocError;

/// The set of the listed elements, with the allocator first: a `Result` whose error is an
/// `AllocError`.
///
/// The elements are inserted one after the other by [`insert`](crate::vec_set::VecSet::insert), so
/// they may be in any order, and of equal ones the last is kept. The caller names the type of the
/// set, or its inline size.
///
/// ```
/// let primes: VecSet<u32, 4> = vecset! {alloc; 2, 3, 5}?;
/// let none: VecSet<u32, 4> = vecset! {alloc;}?;
/// ```
#[macro_export]
macro_rules! vecset {
    ($alloc:expr;) => {
        Ok::<_, $crate::macros::AllocError>($crate::vec_set::VecSet::empty($alloc))
    };
    ($alloc:expr; $($element:expr),+ $(,)?) => {
        'made: {
            let mut set = $crate::vec_set::VecSet::empty($alloc);
            $(
                if let Err(refusal) = set.insert($element) {
                    break 'made Err(refusal);
                }
            )+
            Ok(set)
        }
    };
}

/// The map of the listed pairs, with the allocator first: a `Result` whose error is an
/// `AllocError`.
///
/// The pairs are inserted one after the other by [`insert`](crate::vec_map::VecMap::insert), so
/// their keys may be in any order, and of pairs with equal keys the last is kept. The caller names
/// the type of the map, or its inline size.
///
/// ```
/// let squares: VecMap<u32, u32, 4> = vecmap! {alloc; 2 => 4, 3 => 9}?;
/// let none: VecMap<u32, u32, 4> = vecmap! {alloc;}?;
/// ```
#[macro_export]
macro_rules! vecmap {
    ($alloc:expr;) => {
        Ok::<_, $crate::macros::AllocError>($crate::vec_map::VecMap::empty($alloc))
    };
    ($alloc:expr; $($key:expr => $value:expr),+ $(,)?) => {
        'made: {
            let mut map = $crate::vec_map::VecMap::empty($alloc);
            $(
                if let Err(refusal) = map.insert($key, $value) {
                    break 'made Err(refusal);
                }
            )+
            Ok(map)
        }
    };
}

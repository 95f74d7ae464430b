//! Total maps with one number at every key.
ghost use Rattle.std.specs.Prelude.{◌≡◌, ◌↔◌, [], IsTrue};
ghost use Rattle.vc_total_maps.specs.TotalMap.{total_map};

use super::TotalVecMap;
use num_traits::{Bounded, One, Zero};
use std::alloc::Allocator;
use std::default::MadeWith;

impl<K: Ord + Drop, V: Eq + Zero, const N: usize, A: Allocator + Copy> TotalVecMap<K, V, N, A>
where
    (K, V): MadeWith<A>,
{
    /// The map with 0 at every key. Takes no memory.
    pub fn zero(alloc: A) -> Self
        ensures { result ≡ total_map [] V.zero }
    {
        Self::constant(alloc, V::zero())
    }
}

impl<K: Ord, V: Eq + Zero, const N: usize, A: Allocator> TotalVecMap<K, V, N, A> {
    /// Whether nothing is mapped and the default equals 0. No mapped value equals the default, so
    /// this is whether the map is 0 at each key. Takes no memory.
    pub fn is_zero(&self) -> bool
        ensures { IsTrue result
            ↔ ((self.now.mappings ≡ []) × IsTrue (V.eq self.now.default V.zero)) }
    {
        self.mappings.is_empty() && self.default.is_zero()
    }
}

impl<K: Ord + Drop, V: Eq + One, const N: usize, A: Allocator + Copy> TotalVecMap<K, V, N, A>
where
    (K, V): MadeWith<A>,
{
    /// The map with 1 at every key. Takes no memory.
    pub fn one(alloc: A) -> Self
        ensures { result ≡ total_map [] V.one }
    {
        Self::constant(alloc, V::one())
    }
}

impl<K: Ord, V: Eq + One, const N: usize, A: Allocator> TotalVecMap<K, V, N, A> {
    /// Whether nothing is mapped and the default equals 1. No mapped value equals the default, so
    /// this is whether the map is 1 at each key. Takes no memory.
    pub fn is_one(&self) -> bool
        ensures { IsTrue result
            ↔ ((self.now.mappings ≡ []) × IsTrue (V.eq self.now.default V.one)) }
    {
        self.mappings.is_empty() && self.default.is_one()
    }
}

impl<K: Ord + Drop, V: Eq + Bounded, const N: usize, A: Allocator + Copy> TotalVecMap<K, V, N, A>
where
    (K, V): MadeWith<A>,
{
    /// The map with the least number at every key. Takes no memory.
    pub fn min_value(alloc: A) -> Self
        ensures { result ≡ total_map [] V.lowest }
    {
        Self::constant(alloc, V::min_value())
    }

    /// The map with the greatest number at every key. Takes no memory.
    pub fn max_value(alloc: A) -> Self
        ensures { result ≡ total_map [] V.highest }
    {
        Self::constant(alloc, V::max_value())
    }
}

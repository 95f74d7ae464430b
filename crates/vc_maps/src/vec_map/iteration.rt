//! Iteration over the pairs of a map, by reference and by value.
ghost use Rattle.vc_joins.specs.Entries.{AscendsByKey};
ghost use Rattle.vc_maps.specs.Iterating.{HandsPairs, ShowsPairs};
ghost use Rattle.vc_merge.specs.Showing.{ShowsByKey, ShowsItems};

use super::VecMap;
use std::alloc::Allocator;
use std::default::MadeWith;
use std::slice;
use vc_merge::iterators::{VecMapIter, vec_map_iter, vec_map_iter_of};

impl<K: Ord, V, const N: usize, A: Allocator> VecMap<K, V, N, A> {
    /// The pairs in ascending order of their keys, by reference. Takes no memory.
    pub fn iter(&self) -> VecMapIter<slice::Iter<'_, (K, V)>>
        ensures items { ShowsItems self.now result }
        ensures ascends { AscendsByKey K.cmp self.now }
        ensures steps { ShowsByKey K.cmp result }
    {
        vec_map_iter_of(self.as_ref())
    }
}

/// The pairs in ascending order of their keys, by reference. Takes no memory.
impl<'a, K: Ord, V, const N: usize, A: Allocator> IntoIterator for &'a VecMap<K, V, N, A> {
    type Item = &'a (K, V);

    type IntoIter = VecMapIter<slice::Iter<'a, (K, V)>>;

    ghost into_iter_gives = { λ m it. ShowsPairs K.cmp m.now it };

    fn into_iter(self) -> VecMapIter<slice::Iter<'a, (K, V)>> {
        self.iter()
    }
}

/// The pairs in ascending order of their keys, by value. Takes no memory. What is not taken is
/// dropped with the iterator.
impl<K: Ord + Drop, V: Drop, const N: usize, A: Allocator + Copy> IntoIterator
    for VecMap<K, V, N, A>
where
    (K, V): MadeWith<A>,
{
    type Item = (K, V);

    type IntoIter = VecMapIter<smallvec::IntoIter<(K, V), N, A>>;

    ghost into_iter_gives = { λ m it. HandsPairs K.cmp m it };

    fn into_iter(self) -> VecMapIter<smallvec::IntoIter<(K, V), N, A>> {
        vec_map_iter(self.pairs.into_iter())
    }
}

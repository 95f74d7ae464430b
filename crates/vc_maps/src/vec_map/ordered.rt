//! The pairs with the least and the greatest key removed from a map.
ghost use Rattle.std.specs.Prelude.{◌≡◌, ◌-◌, drop, length, slice_get, take};

use super::VecMap;
use std::alloc::Allocator;
use std::default::MadeWith;

impl<K: Ord + Drop, V: Drop, const N: usize, A: Allocator + Copy> VecMap<K, V, N, A>
where
    (K, V): MadeWith<A>,
{
    /// Removes the pair with the least key and returns it, or none where there is no pair. The list
    /// keeps its capacity.
    ///
    /// Makes no comparison, moves all other pairs, and takes no memory.
    pub fn pop_first(&mut self) -> Option<(K, V)>
        ensures first { result ≡ slice_get self.old 0 }
        ensures rest { self.new ≡ drop 1 self.old }
    {
        if self.pairs.is_empty() {
            return None;
        }
        Some(self.pairs.remove(0))
    }

    /// Removes the pair with the greatest key and returns it, or none where there is no pair. The
    /// list keeps its capacity.
    ///
    /// Makes no comparison, moves no other pair, and takes no memory.
    pub fn pop_last(&mut self) -> Option<(K, V)>
        ensures last { result ≡ slice_get self.old (length self.old - 1) }
        ensures rest { self.new ≡ take (length self.old - 1) self.old }
    {
        self.pairs.pop()
    }
}

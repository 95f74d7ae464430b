//! The least and the greatest element removed from a set.
ghost use Rattle.std.specs.Prelude.{◌≡◌, ◌-◌, drop, length, slice_get, take};

use super::VecSet;
use std::alloc::Allocator;
use std::default::MadeWith;

impl<T: Ord + MadeWith<A> + Drop, const N: usize, A: Allocator + Copy> VecSet<T, N, A> {
    /// Removes the least element and returns it, or none where there is no element. The list keeps
    /// its capacity.
    ///
    /// Makes no comparison, moves all other elements, and takes no memory.
    pub fn pop_first(&mut self) -> Option<T>
        ensures first { result ≡ slice_get self.old 0 }
        ensures rest { self.new ≡ drop 1 self.old }
    {
        if self.elements.is_empty() {
            return None;
        }
        Some(self.elements.remove(0))
    }

    /// Removes the greatest element and returns it, or none where there is no element. The list
    /// keeps its capacity.
    ///
    /// Makes no comparison, moves no other element, and takes no memory.
    ///
    /// ```
    /// assert!(rt; primes.pop_last() == Some(5));
    /// assert!(rt; primes.last() == Some(&2));
    /// ```
    pub fn pop_last(&mut self) -> Option<T>
        ensures last { result ≡ slice_get self.old (length self.old - 1) }
        ensures rest { self.new ≡ take (length self.old - 1) self.old }
    {
        self.elements.pop()
    }
}

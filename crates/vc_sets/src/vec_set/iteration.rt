//! Iteration over the elements of a set, by reference and by value.
ghost use Rattle.vc_merge.specs.Ascending.{Ascends};
ghost use Rattle.vc_sets.specs.Iterating.{Shows, Hands};

use super::VecSet;
use std::alloc::Allocator;
use std::default::MadeWith;
use std::slice;
use vc_merge::iterators::{VecSetIter, vec_set_iter};

/// The elements of an ascending list, by reference.
pub(crate) fn elements_of<T: Ord>(list: &[T]) -> VecSetIter<slice::Iter<'_, T>>
    requires { Ascends T.cmp list.now }
    ensures { Shows T.cmp list.now result }
{
    vec_set_iter(list.iter())
}

impl<T: Ord, const N: usize, A: Allocator> VecSet<T, N, A> {
    /// The elements in ascending order, by reference. Takes no memory.
    pub fn iter(&self) -> VecSetIter<slice::Iter<'_, T>>
        ensures { Shows T.cmp self.now result }
    {
        elements_of(self.as_ref())
    }
}

/// The elements in ascending order, by reference. Takes no memory.
impl<'a, T: Ord, const N: usize, A: Allocator> IntoIterator for &'a VecSet<T, N, A> {
    type Item = &'a T;

    type IntoIter = VecSetIter<slice::Iter<'a, T>>;

    ghost into_iter_gives = { λ s it. Shows T.cmp s.now it };

    fn into_iter(self) -> VecSetIter<slice::Iter<'a, T>> {
        self.iter()
    }
}

/// The elements in ascending order, by value. Takes no memory. What is not taken is dropped with
/// the iterator.
impl<T: Ord + MadeWith<A> + Drop, const N: usize, A: Allocator + Copy> IntoIterator
    for VecSet<T, N, A> {
    type Item = T;

    type IntoIter = VecSetIter<smallvec::IntoIter<T, N, A>>;

    ghost into_iter_gives = { λ s it. Hands T.cmp s it };

    fn into_iter(self) -> VecSetIter<smallvec::IntoIter<T, N, A>> {
        vec_set_iter(self.elements.into_iter())
    }
}

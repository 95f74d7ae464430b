//! Comparisons, hashes and `Debug` of a set: those of the ascending list of its elements.
ghost use Rattle.std.specs.Cmp.Lexicographic.{pointwise, slice_cmp, slice_partial_cmp, lists_per, lists_equiv, lists_po, lists_total, lists_agrees, lists_ties};
ghost use Rattle.std.specs.Hash as fed;
ghost use Rattle.std.specs.Hash.{items_Alike};

use super::VecSet;
use std::alloc::Allocator;
use std::cmp::Ordering;
use std::fmt;
use std::hash::{Hash, Hasher};

/// Two sets are equal where they have equal elements.
impl<T: Ord, const N: usize, A: Allocator> PartialEq for VecSet<T, N, A> {
    ghost eq = { pointwise T.eq };

    ghost laws = { lists_per T.PartialEq.laws };

    fn eq(&self, other: &Self) -> bool {
        self.as_ref() == other.as_ref()
    }
}

impl<T: Ord, const N: usize, A: Allocator> Eq for VecSet<T, N, A> {
    ghost laws = { lists_equiv T.Eq.laws };
}

/// Sets are ordered as the ascending lists of their elements: by the first place at which they
/// differ. A list that has ended there comes first.
impl<T: Ord, const N: usize, A: Allocator> PartialOrd for VecSet<T, N, A> {
    ghost partial_cmp = { slice_partial_cmp T.partial_cmp };

    ghost laws = { lists_po T.PartialOrd.laws };

    fn partial_cmp(&self, other: &Self) -> Option<Ordering> {
        self.as_ref().partial_cmp(&other.as_ref())
    }
}

impl<T: Ord, const N: usize, A: Allocator> Ord for VecSet<T, N, A> {
    ghost cmp = { slice_cmp T.cmp };

    ghost total = { lists_total T.total };

    ghost matches_partial_cmp = { lists_agrees T.matches_partial_cmp };

    ghost matches_eq = { lists_ties T.cmp T.matches_eq };

    fn cmp(&self, other: &Self) -> Ordering {
        self.as_ref().cmp(&other.as_ref())
    }
}

/// The hash of the ascending list of the elements.
impl<T: Ord + Hash, const N: usize, A: Allocator> Hash for VecSet<T, N, A> {
    ghost hash_input = { fed.slice T.hash_input };

    ghost respects_eq = { (items_Alike (record { fed = T.respects_eq })).fed };

    fn hash<H: Hasher>(&self, state: &mut H) {
        self.as_ref().hash(state);
    }
}

/// As a set, in ascending order: `{1, 2, 3}`.
impl<T: Ord + fmt::Debug, const N: usize, A: Allocator> fmt::Debug for VecSet<T, N, A> {
    fn fmt<W: fmt::Write>(&self, f: &mut fmt::Formatter<W>) -> fmt::Result {
        f.debug_set().entries(self.as_ref()).finish()
    }
}

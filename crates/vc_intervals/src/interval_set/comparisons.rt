//! Comparison, hash and `Debug` of an interval set: those of its boundaries and its answer below
//! them.
ghost use Rattle.std.specs.Prelude.{◌&&◌, ◌++◌};
ghost use Rattle.std.specs.Bool.{beq};
ghost use Rattle.std.specs.Cmp.{and_per, and_equiv, on_per, on_equiv, partial_equiv_from_equiv, bool_eq_equiv, booleans_Decides};
ghost use Rattle.std.specs.Cmp.Lexicographic.{pointwise, lists_per, lists_equiv};
ghost use Rattle.std.specs.Hash as fed;
ghost use Rattle.std.specs.Hash.{and-Alike, items_Alike, on_Alike, same_Alike};

use super::IntervalSet;
use std::alloc::Allocator;
use std::fmt;
use std::hash::{Hash, Hasher};

/// Two sets are equal where they have equal boundaries, and the same answer below them.
impl<T: Ord, const N: usize, A: Allocator> PartialEq for IntervalSet<T, N, A> {
    ghost eq = { λ s t. pointwise T.eq s.boundaries t.boundaries && beq s.below t.below };

    ghost laws = { and_per (on_per (λ s. s.boundaries) (lists_per T.PartialEq.laws))
        (on_per (λ s. s.below) (partial_equiv_from_equiv bool_eq_equiv)) };

    fn eq(&self, other: &Self) -> bool {
        self.boundaries.as_slice() == other.boundaries.as_slice() && self.below == other.below
    }
}

impl<T: Ord, const N: usize, A: Allocator> Eq for IntervalSet<T, N, A> {
    ghost laws = { and_equiv (on_equiv (λ s. s.boundaries) (lists_equiv T.Eq.laws))
        (on_equiv (λ s. s.below) bool_eq_equiv) };
}

/// The hash of the boundaries, and then that of the answer below them.
impl<T: Ord + Hash, const N: usize, A: Allocator> Hash for IntervalSet<T, N, A> {
    ghost hash_input = { λ s. fed.slice T.hash_input s.boundaries ++ fed.bool s.below };

    ghost respects_eq = { (and-Alike (on_Alike (λ s. s.boundaries)
        (items_Alike (record { fed = T.respects_eq })))
        (on_Alike (λ s. s.below) (same_Alike fed.bool booleans_Decides))).fed };

    fn hash<H: Hasher>(&self, state: &mut H) {
        self.boundaries.as_slice().hash(state);
        self.below.hash(state);
    }
}

/// As the set of the boundaries, after a `!` where what lies below them is in the set: `{3, 7}`,
/// `!{3}`.
impl<T: Ord + fmt::Debug, const N: usize, A: Allocator> fmt::Debug for IntervalSet<T, N, A> {
    fn fmt<W: fmt::Write>(&self, f: &mut fmt::Formatter<W>) -> fmt::Result {
        if self.below {
            f.write_str("!")?;
        }
        f.debug_set().entries(self.boundaries.as_slice()).finish()
    }
}

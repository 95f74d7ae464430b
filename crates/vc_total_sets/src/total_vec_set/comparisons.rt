//! Comparison, hash and `Debug` of a total set: those of its list and flag.
ghost use Rattle.std.specs.Prelude.{◌&&◌, ◌++◌};
ghost use Rattle.std.specs.Bool.{beq};
ghost use Rattle.std.specs.Cmp.{and_per, and_equiv, on_per, on_equiv, partial_equiv_from_equiv, bool_eq_equiv, booleans_Decides};
ghost use Rattle.std.specs.Cmp.Lexicographic.{pointwise, lists_per, lists_equiv};
ghost use Rattle.std.specs.Hash as fed;
ghost use Rattle.std.specs.Hash.{and-Alike, items_Alike, on_Alike, same_Alike};

use super::TotalVecSet;
use std::alloc::Allocator;
use std::fmt;
use std::hash::{Hash, Hasher};

/// Two sets are equal where they have equal elements in their lists, and the same flag.
impl<T: Ord, const N: usize, A: Allocator> PartialEq for TotalVecSet<T, N, A> {
    ghost eq = { λ s t. pointwise T.eq s.elements t.elements && beq s.negated t.negated };

    ghost laws = { and_per (on_per (λ s. s.elements) (lists_per T.PartialEq.laws))
        (on_per (λ s. s.negated) (partial_equiv_from_equiv bool_eq_equiv)) };

    fn eq(&self, other: &Self) -> bool {
        self.elements == other.elements && self.negated == other.negated
    }
}

impl<T: Ord, const N: usize, A: Allocator> Eq for TotalVecSet<T, N, A> {
    ghost laws = { and_equiv (on_equiv (λ s. s.elements) (lists_equiv T.Eq.laws))
        (on_equiv (λ s. s.negated) bool_eq_equiv) };
}

/// The hash of the list, and then that of the flag.
impl<T: Ord + Hash, const N: usize, A: Allocator> Hash for TotalVecSet<T, N, A> {
    ghost hash_input = { λ s. fed.slice T.hash_input s.elements ++ fed.bool s.negated };

    ghost respects_eq = { (and-Alike (on_Alike (λ s. s.elements)
        (items_Alike (record { fed = T.respects_eq })))
        (on_Alike (λ s. s.negated) (same_Alike fed.bool booleans_Decides))).fed };

    fn hash<H: Hasher>(&self, state: &mut H) {
        self.elements.hash(state);
        self.negated.hash(state);
    }
}

/// As the set of the list, after a `!` where it is negated: `!{1, 2}`.
impl<T: Ord + fmt::Debug, const N: usize, A: Allocator> fmt::Debug for TotalVecSet<T, N, A> {
    fn fmt<W: fmt::Write>(&self, f: &mut fmt::Formatter<W>) -> fmt::Result {
        if self.negated {
            f.write_str("!")?;
        }
        f.debug_set().entries(self.elements.iter()).finish()
    }
}
